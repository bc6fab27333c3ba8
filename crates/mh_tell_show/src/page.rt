//! The page up to its numbers: what it is made of, and its style. It is HTML and CSS in a text.

/// What stands before the numbers of a run.
pub const HEAD: &[u8] = br##"<!DOCTYPE html>
<html lang="en">
<head>
<meta charset="utf-8">
<meta name="viewport" content="width=device-width, initial-scale=1">
<title>metroheap: a run</title>
<style>
/* The colours of states are those of Okabe and Ito; each state has a sign too. */
:root {
  color-scheme: light;
  --back: #ffffff; --panel: #f3f4f6; --ink: #16181d; --dim: #565d69; --line: #c4c9d1; --edge: #7b8391; --hot: #fff0b3; --bad: #a33c00;
  --free: #ffffff; --live: #56b4e9; --white: #dfe2e7; --grey: #e69f00; --marked: #2f3542; --condemned: #d55e00; --moved: #cc79a7;
  --flag: #007a59; --mutator: #0072b2; --collector: #d55e00; --floor: #d55e00; --onmarked: #ffffff;
  --roots: #009e73; --mark: #e69f00; --sweep: #d55e00; --defrag: #cc79a7;
}
:root[data-theme="dark"] {
  color-scheme: dark;
  --back: #15171c; --panel: #1f232b; --ink: #e8eaee; --dim: #a3abb9; --line: #434a57; --edge: #808a9b; --hot: #453c14; --bad: #ff9d66;
  --free: #15171c; --live: #56b4e9; --white: #565d6b; --grey: #e69f00; --marked: #e3e7ee; --condemned: #d55e00; --moved: #cc79a7;
  --flag: #2fc297; --mutator: #56b4e9; --collector: #e69f00; --floor: #ff8c42; --onmarked: #15171c;
  --roots: #2fc297; --mark: #e69f00; --sweep: #d55e00; --defrag: #cc79a7;
}
* { box-sizing: border-box; }
body { margin: 0; background: var(--back); color: var(--ink); font: 14px/1.45 system-ui, "DejaVu Sans", sans-serif; }
header, nav, main, footer { padding: 8px 16px; }
header { display: flex; flex-wrap: wrap; gap: 4px 20px; align-items: baseline; }
#copy { margin-left: auto; }
h1 { font-size: 18px; margin: 0; }
h2 { font-size: 13px; margin: 0 0 6px; font-weight: 600; }
nav { display: grid; grid-template-columns: auto auto minmax(0, 1fr) auto; gap: 4px 8px; align-items: center; background: var(--panel); border: solid var(--line); border-width: 1px 0; position: sticky; top: 0; z-index: 2; }
nav input { width: 100%; accent-color: var(--mutator); }
nav p, .search { grid-column: 1 / -1; margin: 0; }
.search { display: flex; flex-wrap: wrap; gap: 2px 6px; align-items: baseline; font-size: 12px; }
.search button { padding: 0 7px; }
.search input { width: 6em; }
input:not([type=range], [type=checkbox]) { font: 12px/17px ui-monospace, "DejaVu Sans Mono", monospace; color: inherit; background: var(--back); border: 1px solid var(--edge); border-radius: 4px; padding: 0 4px; }
nav code { display: block; height: 17px; white-space: pre; overflow: hidden; text-overflow: ellipsis; }
output, code, .rows, .facts dd, .life, table, pre { font: 12px/17px ui-monospace, "DejaVu Sans Mono", monospace; }
button { font: inherit; color: inherit; background: var(--back); border: 1px solid var(--edge); border-radius: 4px; padding: 1px 9px; cursor: pointer; }
:focus-visible { outline: 2px solid var(--mutator); outline-offset: 2px; }
main { display: grid; grid-template: "map side" auto "lines side" 1fr / minmax(0, 1fr) minmax(340px, 440px); gap: 0 20px; }
#maps { grid-area: map; } #lines { grid-area: lines; } #side { grid-area: side; }
section { min-width: 0; margin-bottom: 14px; }
canvas { display: block; }
.box, .rows, #frame { border: 1px solid var(--line); border-radius: 4px; overflow: hidden; }
#frame { overflow-y: auto; scrollbar-gutter: stable; }
#map { position: sticky; top: 0; }
.bar { display: flex; flex-wrap: wrap; gap: 4px 8px; align-items: baseline; margin-bottom: 6px; }
.bar h2 { margin: 0 auto 0 0; }
.rows { height: 190px; overflow: auto; background: var(--panel); position: relative; }
.rows div { position: absolute; left: 0; min-width: 100%; height: 17px; padding: 0 8px; white-space: pre; cursor: pointer; }
.rows .now { background: var(--hot); }
.rows .no { color: var(--bad); }
.table { max-height: 250px; overflow: auto; border: 1px solid var(--line); border-radius: 4px; }
table { border-collapse: collapse; table-layout: fixed; white-space: nowrap; }
thead { position: sticky; top: 0; background: var(--panel); }
th { font-weight: 400; color: var(--dim); }
thead tr:first-child th { text-align: left; }
th, td { text-align: right; padding: 0 1ch 0 0; height: 20px; line-height: 20px; }
tbody tr { cursor: pointer; }
[aria-current=true] { background: var(--hot); }
a { color: var(--mutator); }
.box + .box { margin-top: 3px; }
.life { margin: 0; padding: 0; list-style: none; max-height: 190px; overflow: auto; overflow-wrap: anywhere; }
.key { display: flex; flex-wrap: wrap; gap: 2px 14px; margin: 6px 0 0; padding: 0; list-style: none; font-size: 12px; }
.key i { display: inline-block; width: 15px; height: 15px; border: 1px solid var(--edge); border-radius: 2px; vertical-align: -3px; margin-right: 5px; text-align: center; font: 700 11px/14px "DejaVu Sans", sans-serif; color: #16181d; }
.phases { display: flex; flex-wrap: wrap; gap: 2px; list-style: none; margin: 0 0 6px; padding: 0; font-size: 12px; }
.phases li { border: 1px solid var(--line); border-radius: 4px; padding: 0 8px; color: var(--dim); }
.phases [aria-current] { background: var(--ink); border-color: var(--ink); color: var(--back); font-weight: 600; }
.facts { display: grid; grid-template-columns: auto 1fr; gap: 0 10px; margin: 0; }
.facts dt { color: var(--dim); }
.facts dd { margin: 0; overflow-wrap: anywhere; line-height: 20px; max-height: 82px; overflow: auto; }
.facts span { display: inline-block; min-width: 5.5em; padding: 0 3px; margin-right: 2px; border-radius: 3px; }
.facts .now { outline: 2px solid var(--ink); outline-offset: -2px; }
pre { margin: 0; white-space: pre-wrap; overflow-wrap: anywhere; max-height: 200px; overflow: auto; }
#tip { position: fixed; left: 0; top: 0; pointer-events: none; background: var(--ink); color: var(--back); padding: 3px 8px; border-radius: 4px; font-size: 12px; white-space: pre; z-index: 3; visibility: hidden; }
.note { color: var(--dim); font-size: 12px; margin: 4px 0 0; }
@media (max-width: 860px) { main { grid-template: "map" "side" "lines" / minmax(0, 1fr); } }
</style>
</head>
<body>
<header><h1>metroheap</h1><span id="config"></span><button id="copy" type="button">copy the link</button><button id="theme" type="button">light or dark</button></header>
<nav aria-label="moments of the run">
<label for="event">event <output id="event-out"></output></label><button id="event-back" type="button" aria-label="the event before">&lt;</button>
<input id="event" type="range" min="0" value="0"><button id="event-on" type="button" aria-label="the next event">&gt;</button>
<label for="step">step <output id="step-out"></output></label><button id="step-back" type="button" aria-label="the step before">&lt;</button>
<input id="step" type="range" min="0" value="0"><button id="step-on" type="button" aria-label="the next step">&gt;</button>
<div class="search">next <button id="seek-refusal" type="button" aria-label="next refusal">refusal</button><button id="seek-move" type="button" aria-label="next move">move</button><button id="seek-cycle" type="button" aria-label="next cycle">cycle</button><button id="seek-quantum" type="button" aria-label="next quantum">quantum</button>
<label>above <input id="above" type="number" min="0" inputmode="numeric"> units</label><output id="found" aria-live="polite"></output></div>
<p aria-live="polite"><code id="event-now"></code><code id="step-now"></code></p>
</nav>
<main>
<div id="maps">
<section><div class="bar"><h2>pages</h2><label><input id="follow" type="checkbox" checked> follow the step</label>
<button id="smaller" type="button" aria-label="smaller pages">-</button><button id="larger" type="button" aria-label="larger pages">+</button></div>
<div id="frame" tabindex="0" role="region" aria-label="the pages"><canvas id="map" role="img" aria-label="map of the pages; the map as text, below, has the same"></canvas><div id="beyond"></div></div>
<ul class="key" id="key" aria-label="legend, with the number of slots in each state"></ul>
<p class="note" id="map-note"></p></section>
<section><h2 id="page-head">page</h2><div class="box"><canvas id="page" role="img" aria-label="the page that was chosen, slot by slot"></canvas></div></section>
</div>
<div id="side">
<section><h2 id="replies-head">replies</h2><div class="rows" id="replies" tabindex="0" role="region" aria-labelledby="replies-head"></div></section>
<section><h2 id="deeds-head">steps</h2><div class="rows" id="deeds" tabindex="0" role="region" aria-labelledby="deeds-head"></div></section>
<section><h2>collector</h2><ol class="phases" id="phases"></ol><dl class="facts" id="facts"></dl></section>
<section><h2>roots, as the event leaves them</h2><dl class="facts" id="roots"></dl></section>
<section><div class="bar"><h2>a block's life</h2><form id="life-form"><label>block <input id="block" size="9" placeholder="42 or 42.1"></label> <button type="submit">show</button></form><button id="life-here" type="button">the step's</button></div>
<ol class="life" id="life"></ol></section>
</div>
<div id="lines">
<section><h2 id="trace-head">trace</h2><div class="box"><canvas id="trace" role="img" aria-labelledby="trace-head"></canvas></div>
<div class="box"><canvas id="strip" role="img" aria-label="cycles over the trace; the table of cycles, below, has the same"></canvas></div><ul class="key" id="strip-key" aria-label="the phases of a cycle"></ul>
<p class="note" id="stretch" aria-live="polite"></p></section>
<section><h2>counts over the trace</h2><div class="box"><canvas id="times" role="img" aria-label="free pages, live blocks, forwarders and the grey list over the trace; the counts of a moment are at stat"></canvas></div></section>
<section><h2 id="cycles-head">cycles</h2><div class="table" id="cycles" tabindex="0" role="region" aria-labelledby="cycles-head"><table><colgroup id="cycle-columns"></colgroup><thead id="cycle-head"></thead><tbody id="cycle-rows"></tbody></table></div></section>
<section><div class="bar"><h2>utilisation: the least share of the mutator in windows of each length</h2><label><input id="to-whole" type="checkbox"> up to 100 %</label></div><div class="box"><canvas id="curve" role="img" aria-label="utilisation curve; the curve as numbers, below, has the same"></canvas></div></section>
</div>
</main>
<footer>
<details id="as-text"><summary>the map as text, as <code>* dump</code> writes it</summary><pre id="text"></pre></details>
<details><summary>the curve as numbers, as <code>metroheap curve</code> writes them</summary><pre id="points"></pre></details>
<p class="note">Keys: left and right go by steps, up and down by events, page up and page down by a hundred events, home and end to the first moment and the last. n, m, c and q go to the next refusal, move, cycle, and quantum above so many units; with shift to the one before. w marks where the next window of the curve has its least, W that of the one before, escape none. b shows the life of the block that the step is about, l copies the link, % sets the curve's axis to 100 %. + and - change the size of the pages, [ and ] choose a page, t changes light and dark.</p>
<p class="note">A click on a page chooses it, on a slot its block. A click on a row, the trace, a cycle or the counts goes there. One on the curve marks where that window has its least.</p>
</footer>
<div id="tip" role="tooltip"></div>
<script id="run" type="application/json">
"##;
