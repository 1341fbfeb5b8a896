//! The page of a node.

/// A page that lists series and plots them. It loads its script and its style, and both ask only
/// the node. Their addresses are relative, so that it works behind a proxy's prefix.
pub(crate) const PAGE: &str = r##"<!doctype html>
<html lang="en">
<head>
<meta charset="utf-8">
<meta name="viewport" content="width=device-width, initial-scale=1">
<title>rr</title>
<link rel="stylesheet" href="rr.css">
<script src="rr.js" defer></script>
</head>
<body>
<header>
<h1>rr</h1>
<dl id="state"></dl>
</header>
<main>
<nav>
<input id="search" type="search" placeholder="Keys that begin with" aria-label="Keys that begin with">
<ul id="series"></ul>
<button id="more" type="button" hidden>More</button>
</nav>
<section>
<form id="view">
<label>Function
<select id="cf">
<option>AVERAGE</option>
<option>MIN</option>
<option>MAX</option>
<option>LAST</option>
</select>
</label>
<label>Resolution
<select id="resolution">
<option value="">by the range</option>
</select>
</label>
<label>Range
<select id="range">
<option value="3600">1 hour</option>
<option value="21600">6 hours</option>
<option value="86400" selected>1 day</option>
<option value="604800">7 days</option>
<option value="2592000">30 days</option>
<option value="31536000">1 year</option>
</select>
</label>
<label class="check"><input id="live" type="checkbox" checked> Refresh</label>
</form>
<svg id="plot" role="img" aria-label="The values of the chosen series"></svg>
<ul id="legend"></ul>
<p id="note" role="status"></p>
</section>
</main>
</body>
</html>
"##;
