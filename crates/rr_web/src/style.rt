//! The style of the page.

/// Light or dark, like the viewer's system.
pub(crate) const STYLE: &str = r##":root {
    color-scheme: light dark;
    --paper: #fbfaf8; --ink: #1f2328; --faint: #6a737d; --rule: #dcdad5; --field: #ffffff;
    --mark: #e9eef6;
    --c0: #2f6db3; --c1: #c2571a; --c2: #2e8540; --c3: #8a4fbf; --c4: #b3355b; --c5: #00838f;
    --c6: #7d6608; --c7: #5d6d7e;
}

@media (prefers-color-scheme: dark) {
    :root {
        --paper: #16181c; --ink: #e6e4e0; --faint: #969ba3; --rule: #33373d; --field: #1e2126;
        --mark: #263246;
        --c0: #7fb2ec; --c1: #f0965e; --c2: #79c98a; --c3: #c49aef; --c4: #ef86a6;
        --c5: #62cbd6; --c6: #d9c069; --c7: #a9b6c4;
    }
}

* { box-sizing: border-box; }
[hidden] { display: none; }
body {
    margin: 0; background: var(--paper); color: var(--ink);
    font: 15px/1.45 system-ui, sans-serif;
}
button, input, select { font: inherit; color: inherit; }
input[type="search"], select {
    background: var(--field); border: 1px solid var(--rule); border-radius: 4px;
    padding: 4px 8px;
}
ul, dl { list-style: none; margin: 0; padding: 0; }

header {
    display: flex; flex-wrap: wrap; gap: 4px 28px; align-items: baseline; padding: 12px 20px;
    border-bottom: 1px solid var(--rule);
}
h1 { margin: 0; font-size: 20px; letter-spacing: 0.02em; }
#state { display: flex; flex-wrap: wrap; gap: 2px 20px; color: var(--faint); font-size: 13px; }
#state div { display: flex; gap: 6px; }
dd { margin: 0; color: var(--ink); font-variant-numeric: tabular-nums; }

main {
    display: grid; grid-template-columns: minmax(220px, 320px) minmax(0, 1fr); gap: 24px;
    padding: 16px 20px; max-width: 1500px;
}
@media (max-width: 760px) { main { grid-template-columns: minmax(0, 1fr); } }

#search { width: 100%; }
#series { margin-top: 8px; max-height: 70vh; overflow-y: auto; }
#series button {
    width: 100%; text-align: left; overflow-wrap: anywhere;
    background: none; border: 0; border-radius: 4px; padding: 3px 8px; cursor: pointer;
}
#series li { margin-bottom: 2px; }
#series button:hover, #series button:focus-visible { background: var(--mark); }
#series button[aria-pressed="true"] { background: var(--mark); font-weight: 600; }
#more {
    margin-top: 8px; background: none; border: 1px solid var(--rule); border-radius: 4px;
    padding: 3px 12px; cursor: pointer;
}

#view {
    display: flex; flex-wrap: wrap; gap: 8px 18px; align-items: end; color: var(--faint);
    font-size: 13px;
}
#view label { display: grid; gap: 2px; }
#view select { color: var(--ink); font-size: 15px; }
#view .check { display: flex; gap: 6px; align-items: center; padding-bottom: 6px; }

#plot { display: block; width: 100%; height: auto; margin: 14px 0 6px; }
#plot text { fill: var(--faint); font-size: 12px; font-variant-numeric: tabular-nums; }
#plot .grid { stroke: var(--rule); stroke-width: 1; }
#plot .hair { stroke: var(--faint); stroke-width: 1; }
#plot path {
    fill: none; stroke: currentColor; stroke-width: 1.8; stroke-linecap: round;
    stroke-linejoin: round;
}

#legend li { display: flex; gap: 10px; align-items: baseline; padding: 2px 0; }
#legend .swatch {
    flex: none; width: 14px; height: 4px; border-radius: 2px; background: currentColor;
    align-self: center;
}
#legend .key { color: var(--ink); overflow-wrap: anywhere; }
#legend .when { color: var(--faint); }
#legend .value { color: var(--ink); font-weight: 600; font-variant-numeric: tabular-nums; }
#note { color: var(--faint); min-height: 1.5em; margin: 6px 0; font-size: 13px; }

.c0 { color: var(--c0); } .c1 { color: var(--c1); } .c2 { color: var(--c2); } .c3 { color: var(--c3); }
.c4 { color: var(--c4); } .c5 { color: var(--c5); } .c6 { color: var(--c6); } .c7 { color: var(--c7); }
"##;
