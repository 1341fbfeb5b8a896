//! The script of the page.

/// Lists series, plots those chosen, and asks again every few seconds. It takes what it shows from
/// `series`, `fetch` and `metrics`, which stand beside it.
pub(crate) const SCRIPT: &str =
    r##"// Lists series, plots those that are chosen, and asks again every few seconds.
"use strict";

const REFRESH_SECONDS = 5;
const KEYS_AT_ONCE = 200;
const POINTS_WANTED = 600;
const COLORS = 8;
const WIDTH = 960;
const HEIGHT = 380;
const LEFT = 64;
const RIGHT = WIDTH - 10;
const TOP = 10;
const BOTTOM = HEIGHT - 26;
const DAY = 86400;
const TIME_STEPS = [
    60, 300, 600, 1800, 3600, 10800, 21600, 43200,
    DAY, 2 * DAY, 7 * DAY, 30 * DAY, 90 * DAY, 365 * DAY,
];
const STATE = [
    ["rr_series", "series"],
    ["rr_cells", "cells"],
    ["rr_connections", "connections"],
    ["rr_points_total", "points"],
    ["rr_samples_total", "samples"],
    ["rr_refused_total", "refused"],
    ["rr_past_horizon_total", "past the horizon"],
    ["rr_journal_sync_age_seconds", "since the last sync", " s"],
];

// Each chosen key, with its colour and its rows.
const chosen = new Map();
// The last key of the list, behind which more are asked for.
let lastKey = null;
// The number of the last request for all rows, and of the last one that has ended: what an older one
// brings isn't shown.
let turn = 0;
let ended = 0;

const at = (id) => document.getElementById(id);

function make(name, attributes = {}, ...children) {
    const node = document.createElement(name);
    for (const [key, value] of Object.entries(attributes)) node.setAttribute(key, value);
    node.append(...children);
    return node;
}

function draw(name, attributes = {}, ...children) {
    const node = document.createElementNS("http://www.w3.org/2000/svg", name);
    for (const [key, value] of Object.entries(attributes)) node.setAttribute(key, value);
    node.append(...children);
    return node;
}

// ---- what is asked of the node

async function ask(path, parameters = {}) {
    const query = new URLSearchParams(parameters).toString();
    const answer = await fetch(query ? `${path}?${query}` : path, { cache: "no-store" });
    const text = await answer.text();
    if (!answer.ok) throw new Error(text.trim() || `status ${answer.status}`);
    return text;
}

// The rows of a series, with values as they are written: a number may have more digits than one of
// this language.
async function rowsOf(key) {
    const range = Number(at("range").value);
    const resolution = at("resolution").value || Math.max(1, Math.floor(range / POINTS_WANTED));
    const text = await ask("fetch", { cf: at("cf").value, resolution, last: range, key });
    return text.split("\n").slice(0, -1).map((line) => {
        const [second, value] = line.split(",").slice(-2);
        return { second: Number(second), value: value === "U" ? null : value };
    });
}

async function listKeys(after) {
    const parameters = { prefix: at("search").value, count: KEYS_AT_ONCE };
    if (after !== null) parameters.after = after;
    const keys = (await ask("series", parameters)).split("\n").slice(0, -1);
    if (after === null) at("series").replaceChildren();
    for (const key of keys) {
        const button = make("button", { type: "button", "aria-pressed": chosen.has(key) }, key);
        button.addEventListener("click", () => choose(key));
        at("series").append(make("li", {}, button));
    }
    lastKey = keys.at(-1) ?? lastKey;
    at("more").hidden = keys.length < KEYS_AT_ONCE;
}

async function showState() {
    const counts = new Map();
    for (const line of (await ask("metrics")).split("\n")) {
        const [, name, labels, value] = /^([a-z_]+)(\{.*\})? (\S+)$/.exec(line) ?? [];
        if (name === "rr_archive_rows") offerResolution(/"(\d+)"/.exec(labels)[1]);
        else if (labels) counts.set(name, Number(counts.get(name) ?? 0) + Number(value));
        else if (name) counts.set(name, value);
    }
    const shown = STATE.filter(([name]) => counts.has(name));
    at("state").replaceChildren(...shown.map(([name, label, unit = ""]) =>
        make("div", {}, make("dt", {}, label), make("dd", {}, counts.get(name) + unit))));
}

function offerResolution(seconds) {
    if (at("resolution").querySelector(`[value="${seconds}"]`)) return;
    at("resolution").append(make("option", { value: seconds }, `${seconds} s`));
}

// ---- what is chosen, which stands in the address, so that a link shows the same

function choose(key) {
    if (!chosen.delete(key)) {
        const taken = new Set([...chosen.values()].map(({ color }) => color));
        const free = [...Array(COLORS).keys()].find((color) => !taken.has(color));
        chosen.set(key, { color: free ?? chosen.size % COLORS, rows: [] });
    }
    for (const button of at("series").querySelectorAll("button")) {
        button.setAttribute("aria-pressed", chosen.has(button.textContent));
    }
    refresh();
}

function readAddress() {
    const wanted = new URLSearchParams(location.hash.slice(1));
    for (const id of ["cf", "resolution", "range"]) {
        const value = wanted.get(id);
        if (id === "resolution" && Number(value)) offerResolution(Number(value));
        if (value !== null) at(id).value = value;
    }
    wanted.getAll("key").forEach((key, place) => {
        chosen.set(key, { color: place % COLORS, rows: [] });
    });
}

function writeAddress() {
    const shown = new URLSearchParams();
    for (const id of ["cf", "resolution", "range"]) shown.set(id, at(id).value);
    for (const key of chosen.keys()) shown.append("key", key);
    history.replaceState(null, "", `#${shown}`);
}

// ---- the plot

function valueTicks(low, high) {
    const rough = (high - low) / 5;
    const power = 10 ** Math.floor(Math.log10(rough));
    const step = power * ([1, 2, 5].find((factor) => factor * power >= rough) ?? 10);
    const count = Math.floor((high - Math.ceil(low / step) * step) / step + 1e-9);
    return Array.from({ length: count + 1 }, (_, place) => (Math.ceil(low / step) + place) * step);
}

function timeTicks(from, to) {
    const step = TIME_STEPS.find((seconds) => (to - from) / seconds <= 8) ?? (to - from) / 8;
    const zone = new Date(from * 1000).getTimezoneOffset() * 60;
    const ticks = [];
    const first = Math.ceil((from - zone) / step) * step + zone;
    for (let second = first; second <= to; second += step) ticks.push(second);
    return ticks.map((second) => [second, step < DAY ? "time" : "date"]);
}

function timeText(second, kind) {
    const date = new Date(second * 1000);
    if (kind === "date") return date.toLocaleDateString([], { month: "short", day: "numeric" });
    return date.toLocaleTimeString([], { hour: "2-digit", minute: "2-digit", hour12: false });
}

const valueText = (value) =>
    new Intl.NumberFormat("en", { notation: "compact", maximumSignificantDigits: 4 }).format(value);

// A line through the known rows; an unknown one lifts the pen, and a row between two of these is a dot.
function pathOf(rows, x, y) {
    let text = "";
    let isDown = false;
    for (const { second, value } of rows) {
        if (value !== null) {
            const point = `${x(second).toFixed(1)} ${y(Number(value)).toFixed(1)}`;
            text += isDown ? `L${point}` : `M${point}h0`;
        }
        isDown = value !== null;
    }
    return text;
}

function boundsOf(series) {
    const written = series.flatMap(({ rows }) => rows.map(({ value }) => value));
    const values = written.filter((value) => value !== null).map(Number);
    const low = values.reduce((least, value) => Math.min(least, value), Infinity);
    const high = values.reduce((most, value) => Math.max(most, value), -Infinity);
    if (low > high) return [0, 1];
    const room = (high - low || Math.abs(high) || 1) * 0.06;
    return [low - room, high + room];
}

const rule = (x1, x2, y1, y2, kind = "grid") => draw("line", { class: kind, x1, x2, y1, y2 });

function plot() {
    const series = [...chosen.values()];
    const to = Date.now() / 1000;
    const from = to - Number(at("range").value);
    const [low, high] = boundsOf(series);
    const x = (second) => LEFT + ((second - from) / (to - from)) * (RIGHT - LEFT);
    const y = (value) => BOTTOM - ((value - low) / (high - low)) * (BOTTOM - TOP);
    const picture = at("plot");
    picture.setAttribute("viewBox", `0 0 ${WIDTH} ${HEIGHT}`);
    picture.replaceChildren();
    for (const value of valueTicks(low, high)) {
        const place = y(value);
        const label = { x: LEFT - 8, y: place + 4, "text-anchor": "end" };
        picture.append(rule(LEFT, RIGHT, place, place), draw("text", label, valueText(value)));
    }
    for (const [second, kind] of timeTicks(from, to)) {
        const place = x(second);
        const label = { x: place, y: BOTTOM + 18, "text-anchor": "middle" };
        picture.append(rule(place, place, TOP, BOTTOM), draw("text", label, timeText(second, kind)));
    }
    for (const [key, { color, rows }] of chosen) {
        const shown = rows.filter(({ second }) => second >= from);
        picture.append(draw("path", { class: `c${color}`, "data-key": key, d: pathOf(shown, x, y) }));
    }
    legend(null);
}

// The values at a second, or the last ones.
function legend(second) {
    at("legend").replaceChildren(...[...chosen].map(([key, { color, rows }]) => {
        const known = rows.filter(({ value }) => value !== null);
        const row = second === null ? known.at(-1) : rows.findLast((one) => one.second <= second);
        const swatch = make("span", { class: "swatch" });
        const value = make("span", { class: "value" }, row?.value ?? "unknown");
        const time = row ? new Date(row.second * 1000).toLocaleString() : "";
        const when = make("span", { class: "when" }, time);
        const name = make("span", { class: "key" }, key);
        return make("li", { class: `c${color}` }, swatch, name, value, when);
    }));
}

function point(event) {
    const box = at("plot").getBoundingClientRect();
    const place = ((event.clientX - box.left) / box.width) * WIDTH;
    if (place < LEFT || place > RIGHT) return;
    const range = Number(at("range").value);
    at("plot").querySelector(".hair")?.remove();
    at("plot").append(rule(place, place, TOP, BOTTOM, "hair"));
    legend(Date.now() / 1000 - range + ((place - LEFT) / (RIGHT - LEFT)) * range);
}

function unpoint() {
    at("plot").querySelector(".hair")?.remove();
    legend(null);
}

// ---- turns

// Why something isn't there; a refusal of a key names it.
function reasonOf(error, key) {
    if (error instanceof TypeError) return "The node doesn't answer.";
    return key === undefined ? error.message : `${key}: ${error.message}`;
}

// Asks for all that is chosen. A key that is refused hides no other, and a silent node no old rows.
async function refresh() {
    const own = ++turn;
    writeAddress();
    const keys = [...chosen.keys()];
    const [state, ...answers] = await Promise.allSettled([showState(), ...keys.map(rowsOf)]);
    if (own !== turn) return;
    ended = own;
    const reasons = new Set();
    if (state.reason) reasons.add(reasonOf(state.reason));
    answers.forEach(({ value, reason }, place) => {
        if (reason) reasons.add(reasonOf(reason, keys[place]));
        if (!(reason instanceof TypeError)) chosen.get(keys[place]).rows = value ?? [];
    });
    at("note").textContent = [...reasons].join("; ") || (keys.length ? "" : "Choose a series.");
    plot();
}

function tell(error) {
    at("note").textContent = error.message;
}

function begin() {
    readAddress();
    at("view").addEventListener("change", refresh);
    at("search").addEventListener("input", () => listKeys(null).catch(tell));
    at("more").addEventListener("click", () => listKeys(lastKey).catch(tell));
    at("plot").addEventListener("pointermove", point);
    at("plot").addEventListener("pointerleave", unpoint);
    setInterval(() => {
        if (at("live").checked && !document.hidden && ended === turn) refresh();
    }, REFRESH_SECONDS * 1000);
    listKeys(null).catch(tell);
    refresh();
}

begin();
"##;
