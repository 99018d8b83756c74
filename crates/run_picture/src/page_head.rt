//! What stands above the runs of a page: how the page looks, and its empty parts.

/// What stands above the runs.
pub(crate) const HEAD: &str = r##"<!DOCTYPE html>
<html lang="en">
<head>
<meta charset="utf-8">
<meta name="viewport" content="width=device-width, initial-scale=1">
<title>A run, act by act</title>
<style>
:root {
  color-scheme: light dark;
  --ink: #1b1b1b; --page: #ffffff; --soft: #5c5c5c; --line: #c9c9c9; --box: #f3f3f3;
  --mark: #fff0c2; --told: #0b5cab; --owner: #1d7a37; --weak: #6a6a6a; --gone: #b3261e;
}
@media (prefers-color-scheme: dark) {
  :root {
    --ink: #e8e8e8; --page: #161616; --soft: #a8a8a8; --line: #4a4a4a; --box: #242424;
    --mark: #4a3c0d; --told: #7ab8ff; --owner: #5fcf80; --weak: #a8a8a8; --gone: #ff8a80;
  }
}
* { box-sizing: border-box; }
body {
  margin: 0 auto; padding: 0.75rem; max-width: 80rem;
  color: var(--ink); background: var(--page); font: 15px/1.4 system-ui, sans-serif;
}
h1 { font-size: 1.15rem; margin: 0 0 0.5rem; }
h2 { font-size: 0.95rem; margin: 0 0 0.35rem; }
section { border: 1px solid var(--line); border-radius: 6px; padding: 0.6rem; min-width: 0; }
pre { overflow-x: auto; }
.shown pre, .missing, [hidden], body:not(.outcomes) .of-outcomes { display: none; }
nav {
  position: sticky; top: 0; z-index: 1; padding: 0.4rem 0; margin-bottom: 0.6rem;
  background: var(--page); border-bottom: 1px solid var(--line);
}
nav div { display: flex; flex-wrap: wrap; gap: 0.35rem; align-items: center; }
button {
  font: inherit; color: inherit; background: var(--box); border: 1px solid var(--line);
  border-radius: 4px; padding: 0.3rem 0.55rem; min-height: 2.2rem; cursor: pointer;
}
button:disabled { opacity: 0.45; cursor: default; }
:focus-visible { outline: 2px solid var(--told); outline-offset: 1px; }
#slider { width: 100%; margin: 0.4rem 0 0; accent-color: var(--told); }
#place { font-weight: 600; margin-left: auto; }
#now p { margin: 0; overflow-wrap: anywhere; }
#did { font-family: ui-monospace, monospace; }
#told { color: var(--told); font: 600 1.05rem/1.5 ui-monospace, monospace; min-height: 1.5em; }
main { display: grid; gap: 0.6rem; grid-template-columns: minmax(0, 1fr); }
#columns { display: flex; gap: 0.6rem; overflow-x: auto; align-items: flex-start; }
#columns div { flex: 1 0 9.5rem; min-width: 0; }
ol { list-style: none; margin: 0; padding: 0; font: 13px/1.5 ui-monospace, monospace; }
#columns ol { max-height: 22rem; overflow-y: auto; }
#columns li {
  padding: 0 0.3rem 0 1.5rem; text-indent: -1.2rem; border-left: 3px solid transparent;
  overflow-wrap: anywhere;
}
#columns li.done { color: var(--soft); }
#columns li.next { border-left-color: var(--line); }
#columns li.turn { background: var(--mark); border-left-color: var(--ink); color: var(--ink); }
#columns li.turn::after { content: " \2190\A0 next\A0 act"; font-style: italic; }
svg { display: block; width: 100%; max-width: 28rem; height: auto; margin: 0 auto; }
svg text { fill: var(--ink); font: 11px ui-monospace, monospace; }
svg .counts { fill: var(--soft); }
svg rect { fill: var(--box); stroke: var(--line); }
svg .object rect { stroke: var(--owner); stroke-width: 1.5; }
svg .expired rect { stroke: var(--gone); stroke-dasharray: 4 3; }
svg .expired .counts { fill: var(--gone); }
svg path { fill: none; stroke: var(--owner); stroke-width: 1.6; }
svg path.weak { stroke: var(--weak); stroke-dasharray: 5 4; }
svg marker path { fill: var(--owner); stroke: none; }
svg marker path.weak { fill: var(--weak); }
table { border-collapse: collapse; width: 100%; font-size: 13px; }
th, td { text-align: left; padding: 0.15rem 0.4rem; border-bottom: 1px solid var(--line); }
td { vertical-align: top; overflow-wrap: anywhere; }
.note { color: var(--soft); font-size: 13px; margin: 0.4rem 0 0; }
#lines { max-height: 14rem; overflow-y: auto; }
#lines a { color: inherit; text-decoration: none; display: block; padding: 0 0.3rem; }
#lines a:hover { text-decoration: underline; }
#lines .last a { background: var(--mark); }
#lines .later { color: var(--soft); }
#outcomes {
  display: grid; gap: 0.4rem; margin-top: 0.4rem;
  grid-template-columns: repeat(auto-fill, minmax(min(15rem, 100%), 1fr));
  max-height: 40vh; overflow-y: auto; margin-bottom: 0.6rem;
}
#outcomes a {
  display: block; height: 100%; padding: 0.35rem 0.5rem; color: inherit; text-decoration: none;
  border: 1px solid var(--line); border-radius: 6px; overflow-wrap: anywhere;
}
#outcomes strong { color: var(--told); }
#outcomes a:hover strong { text-decoration: underline; }
#outcomes a[aria-current="true"] { background: var(--mark); border-color: var(--ink); }
#outcomes :is(b, span) { display: block; }
#outcomes span { color: var(--soft); }
@media (min-width: 48rem) {
  main { grid-template-columns: minmax(0, 1fr) minmax(0, 1fr); }
  #now, #threads, #all { grid-column: 1 / -1; }
}
@media (min-width: 75rem) {
  main { grid-template-columns: minmax(0, 5fr) minmax(0, 4fr) minmax(0, 3fr); }
  #threads { grid-column: 1 / 2; }
  .many { grid-template-columns: minmax(0, 1fr) minmax(0, 1fr); }
  .many #threads { grid-column: 1 / -1; }
}
@media print {
  nav button, #slider, #keys { display: none; }
  nav { position: static; }
  #columns { flex-wrap: wrap; }
  #columns ol, #lines, #outcomes { max-height: none; overflow: visible; }
  section { break-inside: avoid; }
}
</style>
</head>
<body>
<h1 id="title">A run, act by act</h1>
<p class="note of-outcomes">Each outcome is a link into its run. Bold: what differs. <span id="count"></span></p>
<ol class="of-outcomes" id="outcomes" aria-label="Outcomes"></ol>
<nav hidden aria-label="Acts of the run">
<div>
<button id="back" title="One act back: left arrow">&larr; act</button>
<button id="on" title="One act on: right arrow">act &rarr;</button>
<button id="line-back" title="Back to a line: N">&larr; line</button>
<button id="line-on" title="On to the next line that is told: n">line &rarr;</button>
<button id="end-back" title="Back to an end: E">&larr; end</button>
<button id="end-on" title="On to the next end of an object: e">end &rarr;</button>
<button class="of-outcomes" id="outcome-back" title="Back to an outcome: O">&larr; outcome</button>
<button class="of-outcomes" id="outcome-on" title="On to the next outcome: o">outcome &rarr;</button>
<output id="place"></output>
</div>
<input id="slider" type="range" step="1" aria-label="Act">
</nav>
<main hidden>
<section id="now" aria-live="polite"><p id="did"></p><p id="told"></p></section>
<section id="threads"><h2>Threads</h2><div id="columns"></div></section>
<section><h2>Who owns, who watches</h2><div id="graph"></div>
<p class="note">Solid: owns. Dashed: watches. Red: no owner is left. 1&nbsp;a: name a of
thread 1. s3, w3: cells.</p></section>
<section><h2>Objects</h2><table><thead>
<tr><th>block</th><th>owners</th><th>weak</th><th>held by</th></tr>
</thead><tbody id="objects"></tbody></table><p class="note" id="left"></p></section>
<section id="all"><h2>Lines told</h2><ol id="lines"></ol></section>
</main>
<p class="note" id="keys" hidden>Keys: left and right arrow, one act; n and N, the next and the last
line told; e and E, ends of objects; Home and End. The link's #number is the act.
<span class="of-outcomes">o and O, the next and the last outcome; #2.12 is act 12 of outcome 2.</span></p>
<noscript><p>Scripts are off: what was run is below, line by line.</p></noscript>
"##;
