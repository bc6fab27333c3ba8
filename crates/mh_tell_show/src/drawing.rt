//! How the page takes its numbers, what they say of each moment, and how its map is drawn; then what lies over the
//! trace: cycles, counts, and windows of the curve. It is JavaScript in a text. The machine is never gone back. A
//! moment has what is new, and the page goes back by what was there before. So each row names the one that was true
//! before it.

/// What stands after the numbers of a run.
pub const DRAWING: &[u8] = br##"</script>
<script>
"use strict";
// The numbers of the run ---------------------------------------------------------------------------
// What is drawn of a slot or a page is the last that a deed said of it, or what the heap was before. A 0 ends each list.
const run = JSON.parse(document.getElementById("run").textContent);
const [rules, pages, quantum, trigger, every] = run.config;
const listed = (rows) => { rows.pop(); return rows; };
const events = listed(run.events).map(([text, reply, units, whole, command, roots, ran]) => ({
  text, reply, units, whole, command: listed(command), roots: listed(roots),
  spent: ran ? ran[0] : -1, ended: ran ? ran[1] : 0, deeds: ran ? listed(ran[2]) : [],
}));
// Whose root slots these are: a session's, with its name in the script if that is another, or those of the board
const names = listed(run.names);
const ownerOf = (who) => who === 8 ? "board" : (names[who] ?? "s" + who) === "s" + who ? "s" + who : `s${who} (${names[who]})`;
// what was before the first event of the page: how many events, their units, the collector, and the heap
const [skipped, mutatorBefore, collectorBefore, cycleBefore, phaseBefore, cursorBefore, isAskedBefore] = run.before;
const heapBefore = listed(run.heap), rootsBefore = new Array(144).fill(-1);
for (const [slot, place] of listed(run.roots)) rootsBefore[slot] = place;
// the number that an event of the page has in the run
const numberOf = (event) => skipped + event;
const points = listed(run.curve).map(([window, least, floor]) => ({ window, least, floor }));
const PHASES = ["idle", "roots", "mark", "sweep", "defrag"];
const TIERS = ["dense", "free", "sparse"];
// What stands for a number that isn't known
const DASH = "\u2013";
const at = (id) => document.getElementById(id);
const add = (parent, kind, text) => { const it = parent.appendChild(document.createElement(kind)); it.textContent = text; return it; };
const slotsOf = (size) => size ? Math.floor(256 / size) : 0;
const word = (place) => place < 0 ? "none" : (place >> 6) + "." + (place & 63);
const yes = (flag) => flag ? "yes" : "no";

// The words of a deed by its kind, as `metroheap steps` writes them
const WORDS = [
  (d) => `start cycle ${d[1]}`,
  (d) => `enter phase ${PHASES[d[1]]}`,
  () => "end",
  (d) => `root slot ${d[1]} from ${word(d[2])} to ${word(d[3])} shaded ${yes(d[4])}`,
  (d) => `mark place ${word(d[1])} birth ${d[2]} part ${d[3]}`,
  (d) => `reference index ${d[1]} from ${word(d[2])} to ${word(d[3])} shaded ${yes(d[4])}`,
  (d) => `pass page ${d[1]}`,
  (d) => `sweep place ${word(d[1])} fate ` + ["empty", `kept birth ${d[3]} part ${d[4]}`, `freed birth ${d[3]} part ${d[4]}`, `forwarder to ${word(d[3])}`][d[2]],
  (d) => `free page ${d[1]}`,
  (d) => `flag page ${d[1]}`,
  (d) => `unflag page ${d[1]}`,
  (d) => `stay place ${word(d[1])}`,
  (d) => `move place ${word(d[1])} to ${word(d[2])} birth ${d[3]} part ${d[4]} class ${d[5]}`,
  () => "forward",
  (d) => `shade place ${word(d[1])}`,
  (d) => `make place ${word(d[1])} birth ${d[2]} part ${d[3]} class ${d[4]} references ${d[5]} numbers ${d[6]} tier ${TIERS[d[7]]}`,
];
const UNITS = [0, 0, 0, 2, 1, 1, 1, 1, 0, 0, 0, 1, 1, 144, 0, 0];
const unitsOf = (d) => UNITS[d[0]] + (d[0] === 12 ? d[5] : 0);
// the place that a deed is about, or -1
const placeOf = (d) => [4, 7, 11, 12, 14, 15].includes(d[0]) ? d[1] : d[0] === 3 || d[0] === 5 ? d[3] : -1;
const pageOf = (d) => [6, 8, 9, 10].includes(d[0]) ? d[1] : placeOf(d) >> 6;

// Moments ------------------------------------------------------------------------------------------
// Moment 0 is before the first event of the page. Each event has a moment after its command, and one after each deed of its quantum.
const UNIT_COLUMNS = ["left", "mutator", "collector"];
const COLUMNS = ["event", "deed", "phase", "cycle", "cursor", "head", "tail", "free", "live", "old", ...UNIT_COLUMNS];
const momentCount = events.reduce((sum, e) => sum + 1 + e.deeds.length, 1);
const moments = Object.fromEntries(COLUMNS.map((name) => [name, new (UNIT_COLUMNS.includes(name) ? Float64Array : Int32Array)(momentCount)]));
const momentAt = (m) => Object.fromEntries(COLUMNS.map((name) => [name, moments[name][m]]));
const firstMoment = new Float64Array(events.length + 2);
const lastOf = (event) => firstMoment[event + 1] - 1;
// what deeds said of slots and of pages, in order; `before` is the row that was true of the same slot or page
const slotRows = { moment: [], key: [], before: [], birth: [], part: [], stamp: [], to: [], references: [], numbers: [] };
const pageRows = { moment: [], key: [], before: [], size: [], flag: [] };
const lastSlot = new Int32Array(pages * 64).fill(-1), lastPage = new Int32Array(pages).fill(-1);
// the places that were shaded, in order; those from head to tail are the grey list
const greys = listed(run.grey);

function addRow(rows, last, moment, key, change) {
  const before = last[key], row = rows.moment.length;
  for (const name in rows) rows[name].push(name in change ? change[name] : before < 0 ? 0 : rows[name][before]);
  rows.moment[row] = moment; rows.key[row] = key; rows.before[row] = before;
  last[key] = row;
}
const addSlot = (moment, place, change) => addRow(slotRows, lastSlot, moment, place, change);
const addPage = (moment, page, change) => addRow(pageRows, lastPage, moment, page, change);
function shade(moment, now, place) {
  greys.push(place); now.tail = greys.length;
  addSlot(moment, place, { stamp: now.cycle });
}
function move(moment, from, to) {
  const row = lastSlot[from], block = {};
  for (const name of ["birth", "part", "stamp", "references", "numbers"]) block[name] = slotRows[name][row];
  addSlot(moment, to, { ...block, to: -1 });
  addSlot(moment, from, { to });
}
function free(moment, now, d) {
  if (d[2] < 2) return;
  now[d[2] === 2 ? "live" : "old"] -= 1;
  addSlot(moment, d[1], { birth: -1, to: -1 });
}
function make(moment, now, d) {
  if (d[7] === 1) { now.free -= 1; addPage(moment, d[1] >> 6, { size: d[4], flag: 0 }); }
  now.live += 1;
  addSlot(moment, d[1], { birth: d[2], part: d[3], stamp: now.cycle, to: -1, references: d[5], numbers: d[6] });
}
// What a deed says of the collector and of the map
function note(moment, now, d) {
  switch (d[0]) {
    case 0: now.cycle = d[1]; now.head = now.tail = greys.length; break;
    case 1: now.phase = d[1]; now.cursor = d[1] === 2 ? -1 : 0; break;
    case 2: now.phase = 0; now.cursor = -1; break;
    case 3: now.cursor = d[1] + 1; if (d[4]) shade(moment, now, d[3]); break;
    case 4: now.head += 1; break;
    case 5: if (d[4]) shade(moment, now, d[3]); break;
    case 6: now.cursor = 64 * (d[1] + 1); break;
    case 7: now.cursor = d[1] + 1; free(moment, now, d); break;
    case 8: now.cursor = 64 * (d[1] + 1); now.free += 1; addPage(moment, d[1], { size: 0, flag: 0 }); break;
    case 9: now.cursor = 64 * (d[1] + 1); addPage(moment, d[1], { flag: 1 }); break;
    case 10: now.cursor = 64 * (d[1] + 1); addPage(moment, d[1], { flag: 0 }); break;
    case 11: now.cursor = d[1] + 1; break;
    case 12: now.cursor = d[1] + 1; now.old += 1; move(moment, d[1], d[2]); break;
    case 14: shade(moment, now, d[1]); break;
    case 15: make(moment, now, d);
  }
}
// The cursor goes from a page's last slot to the next page
function turnPage(now) {
  if (now.phase < 3 || now.cursor % 64 === 0) return;
  const row = lastPage[Math.floor(now.cursor / 64)], size = row < 0 ? 0 : pageRows.size[row];
  if (now.cursor % 64 >= slotsOf(size)) now.cursor = 64 * Math.ceil(now.cursor / 64);
}
// The heap before: a row of a page has its class and its flag, and one of a block what it is
function readBefore(now) {
  for (const row of heapBefore) {
    if (row.length === 3) { now.free -= 1; addPage(0, row[0], { size: row[1], flag: row[2] }); continue; }
    const [place, birth, part, stamp, to, references, numbers] = row;
    now[to < 0 ? "live" : "old"] += 1;
    addSlot(0, place, { birth, part, stamp, to, references, numbers });
  }
}
(function load() {
  const now = {
    event: 0, deed: -1, phase: phaseBefore, cycle: cycleBefore, cursor: cursorBefore, head: 0, tail: greys.length, free: pages, live: 0, old: 0, left: -1, mutator: 0, collector: 0,
  };
  let m = 0;
  readBefore(now);
  const keep = () => { for (const name of COLUMNS) moments[name][m] = now[name]; m += 1; };
  keep();
  events.forEach((e, i) => {
    firstMoment[i + 1] = m;
    now.event = i + 1; now.deed = -1; now.left = -1; now.mutator += e.units;
    for (const d of e.command) note(m, now, d);
    keep();
    const before = now.collector;
    e.deeds.forEach((d, k) => {
      now.deed = k;
      if (e.whole) { now.left = (k ? now.left : quantum) - unitsOf(d); now.collector += unitsOf(d); }
      note(m, now, d); turnPage(now); keep();
    });
    if (e.spent > 0) moments.collector[m - 1] = now.collector = before + e.spent;
  });
  firstMoment[events.length + 1] = m;
})();

// The moment in sight ------------------------------------------------------------------------------
const slotNow = new Int32Array(pages * 64).fill(-1), pageNow = new Int32Array(pages).fill(-1);
let moment = 0, now = momentAt(0), slotNext = 0, pageNext = 0;
const sizeOf = (page) => pageNow[page] < 0 ? 0 : pageRows.size[pageNow[page]];
const isFlagged = (page) => pageNow[page] >= 0 && pageRows.flag[pageNow[page]] === 1;
const slotAt = (place, name) => slotRows[name][slotNow[place]];
function seek(rows, current, next, m) {
  while (next < rows.moment.length && rows.moment[next] <= m) { current[rows.key[next]] = next; next += 1; }
  while (next > 0 && rows.moment[next - 1] > m) { next -= 1; current[rows.key[next]] = rows.before[next]; }
  return next;
}
const [FREE, LIVE, WHITE, GREY, MARKED, CONDEMNED, FORWARDER] = [0, 1, 2, 3, 4, 5, 6];
const STATES = [
  { colour: "--free", sign: "", says: "free" },
  { colour: "--live", sign: "\u25cb", says: "live, no cycle runs" },
  { colour: "--white", sign: "?", says: "white, not marked yet" },
  { colour: "--grey", sign: "\u25cf", says: "grey" },
  { colour: "--marked", sign: "\u2713", says: "marked" },
  { colour: "--condemned", sign: "\u00d7", says: "condemned, to be freed" },
  { colour: "--moved", sign: "\u2197", says: "forwarder" },
];
const states = new Uint8Array(pages * 64), isGrey = new Uint8Array(pages * 64), counts = new Float64Array(STATES.length);
function stateOf(place) {
  const row = slotNow[place];
  if (row < 0 || slotRows.birth[row] < 0) return FREE;
  if (slotRows.to[row] >= 0) return FORWARDER;
  if (now.phase === 0) return LIVE;
  if (slotRows.stamp[row] === now.cycle) return isGrey[place] ? GREY : MARKED;
  return now.phase < 3 ? WHITE : CONDEMNED;
}
function readStates() {
  isGrey.fill(0); counts.fill(0);
  for (let i = now.head; i < now.tail; i += 1) isGrey[greys[i]] = 1;
  for (let page = 0; page < pages; page += 1) {
    const slots = slotsOf(sizeOf(page));
    for (let slot = 0; slot < slots; slot += 1) counts[states[64 * page + slot] = stateOf(64 * page + slot)] += 1;
  }
}
// brings slots and pages to the moment in sight
function catchUp() {
  slotNext = seek(slotRows, slotNow, slotNext, moment);
  pageNext = seek(pageRows, pageNow, pageNext, moment);
  readStates();
}
const deedNow = () => now.deed < 0 ? null : events[now.event - 1].deeds[now.deed];

// The map ------------------------------------------------------------------------------------------
const colours = {};
function readColours() {
  const style = getComputedStyle(document.documentElement);
  for (const name of ["--back", "--ink", "--dim", "--line", "--edge", "--hot", "--flag", "--mutator", "--collector", "--floor", "--onmarked", ...PHASES.slice(1).map((phase) => "--" + phase), ...STATES.map((s) => s.colour)]) colours[name] = style.getPropertyValue(name).trim();
}
// the widths of the canvases, which are read before anything is changed
const widths = { map: 0, page: 0, trace: 0, strip: 0, times: 0, curve: 0 };
function measure() { for (const id in widths) widths[id] = at(id).parentElement.clientWidth; }
function pen(id, height) {
  const canvas = at(id), ratio = window.devicePixelRatio || 1, width = widths[id], across = Math.round(width * ratio), down = Math.round(height * ratio);
  if (canvas.width !== across || canvas.height !== down) { canvas.width = across; canvas.height = down; canvas.style.width = width + "px"; canvas.style.height = height + "px"; }
  const c = canvas.getContext("2d");
  c.setTransform(ratio, 0, 0, ratio, 0, 0); c.clearRect(0, 0, width, height);
  c.font = "11px system-ui, DejaVu Sans, sans-serif"; c.lineWidth = 1;
  return [c, width];
}
// Pages smaller than SLOTS_SEEN show what share of their slots is in each state, larger ones each slot
const MOST_HEIGHT = 520, LARGEST = 156, SLOTS_SEEN = 26, MOST_ARROWS = 400;
let grid = { columns: 1, box: 10, top: 0, height: 10 }, zoom = 0, chosen = 0;
function layOut() {
  const frame = at("frame"), width = widths.map, rowsOf = (box) => Math.ceil(pages / Math.floor(width / box));
  let box = Math.min(LARGEST, Math.floor(width / Math.min(pages, 5)));
  while (box > 7 && rowsOf(box) * box > MOST_HEIGHT) box -= 1;
  box = Math.min(LARGEST, width, Math.round(box * 1.6 ** zoom));
  const all = rowsOf(box) * box + 1, height = Math.min(MOST_HEIGHT, all);
  frame.style.height = height + 2 + "px"; at("beyond").style.height = all - height + "px";
  grid = { columns: Math.floor(width / box), box, top: frame.scrollTop, height };
}
function scrollToChosen() {
  const frame = at("frame"), y = Math.floor(chosen / grid.columns) * grid.box;
  if (y < frame.scrollTop || y + grid.box > frame.scrollTop + grid.height) frame.scrollTop = y - (grid.height - grid.box) / 2;
  grid.top = frame.scrollTop;
}
const boxAt = (page) => [(page % grid.columns) * grid.box, Math.floor(page / grid.columns) * grid.box - grid.top];
// where a slot lies in the box of its page
function cellIn(page, slot) {
  const [x, y] = boxAt(page), { box } = grid, slots = slotsOf(sizeOf(page)) || 1;
  if (box < SLOTS_SEEN) return [x + 1, y + 1, box - 2, box - 2];
  const across = Math.ceil(Math.sqrt(slots)), down = Math.ceil(slots / across), top = box > 60 ? 17 : 3;
  const column = slot % across, row = Math.floor(slot / across), edge = (i, n, length) => Math.round(i * length / n);
  const left = edge(column, across, box - 6), head = edge(row, down, box - 3 - top);
  return [x + 3 + left, y + top + head, edge(column + 1, across, box - 6) - left, edge(row + 1, down, box - 3 - top) - head];
}
// the ink that can be read on a state
const inkOn = (state) => state === MARKED ? colours["--onmarked"] : state === FREE ? colours["--dim"] : state === WHITE ? colours["--ink"] : "#16181d";
function drawCell(c, [x, y, w, h], place) {
  const state = states[place], { colour, sign } = STATES[state], gap = w > 6 ? 1 : w > 3 ? 0.5 : 0;
  c.fillStyle = colours[colour]; c.fillRect(x, y, w - gap, h - gap);
  if (w > 5 && (state === FREE || state === WHITE)) { c.strokeStyle = colours["--line"]; c.strokeRect(x + 0.5, y + 0.5, w - gap - 1, h - gap - 1); }
  if (state === FREE || w < 8 || h < 8) return;
  c.fillStyle = inkOn(state);
  c.textAlign = "center";
  const name = state === FORWARDER ? ">" + word(slotAt(place, "to")) : slotAt(place, "birth") + "." + slotAt(place, "part");
  if (w > 34 && h > 30) { c.fillText(name, x + w / 2, y + h / 2 - 2, w - 4); c.fillText(sign, x + w / 2, y + h / 2 + 11); }
  else c.fillText(w > 44 ? `${name} ${sign}` : sign, x + w / 2, y + h / 2 + 4, w - 2);
  c.textAlign = "left";
}
// the share of each state in a small page, from below
function drawShares(c, [x, y], page) {
  const slots = slotsOf(sizeOf(page)), share = new Array(STATES.length).fill(0), high = grid.box - 2;
  for (let slot = 0; slot < slots; slot += 1) share[states[64 * page + slot]] += 1;
  let foot = y + grid.box - 1;
  for (const state of [MARKED, LIVE, GREY, WHITE, CONDEMNED, FORWARDER]) {
    const h = share[state] / slots * high;
    c.fillStyle = colours[STATES[state].colour]; c.fillRect(x + 1, foot - h, high, h);
    foot -= h;
  }
}
function drawPage(c, page) {
  const size = sizeOf(page), [x, y] = boxAt(page), { box } = grid;
  c.strokeStyle = colours[size && box >= SLOTS_SEEN ? "--edge" : "--line"]; c.lineWidth = 1;
  c.setLineDash(size || box < SLOTS_SEEN ? [] : [2, 2]); c.strokeRect(x + 0.5, y + 0.5, box - 1, box - 1); c.setLineDash([]);
  if (box > 60) { c.fillStyle = colours["--dim"]; c.fillText(`${page} ${size ? "class " + size : "free"}`, x + 4, y + 13, box - 20); }
  if (!size) return;
  if (box < SLOTS_SEEN) drawShares(c, [x, y], page);
  else for (let slot = 0; slot < slotsOf(size); slot += 1) drawCell(c, cellIn(page, slot), 64 * page + slot);
  if (!isFlagged(page)) return;
  const t = Math.min(14, box / 2);
  c.strokeStyle = c.fillStyle = colours["--flag"]; c.lineWidth = box < SLOTS_SEEN ? 1 : 2; c.strokeRect(x + 1, y + 1, box - 2, box - 2);
  c.beginPath(); c.moveTo(x + box, y); c.lineTo(x + box - t, y); c.lineTo(x + box, y + t); c.fill();
  c.lineWidth = 1;
}
function drawArrow(c, from, to) {
  const middle = (place) => { const [x, y, w, h] = cellIn(place >> 6, place & 63); return [x + w / 2, y + h / 2, 0.2 * Math.min(w, h)]; };
  const [a, b, start] = middle(from), [d, e, stop] = middle(to), turn = Math.atan2(e - b, d - a), x = a + start * Math.cos(turn), y = b + start * Math.sin(turn);
  const u = d - stop * Math.cos(turn), v = e - stop * Math.sin(turn), isCrowded = counts[FORWARDER] > 12, head = isCrowded ? 6 : 9;
  const side = (by) => [u - head * Math.cos(turn + by), v - head * Math.sin(turn + by)];
  for (const [colour, width] of isCrowded ? [["--moved", 1]] : [["--back", 3.5], ["--moved", 1.75]]) {
    c.strokeStyle = c.fillStyle = colours[colour]; c.lineWidth = width;
    c.beginPath(); c.moveTo(x, y); c.lineTo(u, v); c.stroke();
  }
  c.beginPath(); c.moveTo(u, v); c.lineTo(...side(0.45)); c.lineTo(...side(-0.45)); c.fill();
  c.strokeStyle = colours["--ink"]; c.lineWidth = 0.75; c.stroke(); c.lineWidth = 1;
}
function drawArrows(c) {
  let drawn = 0;
  for (let page = 0; page < pages && counts[FORWARDER] && drawn < MOST_ARROWS && grid.box > 10; page += 1)
    for (let slot = 0; slot < slotsOf(sizeOf(page)); slot += 1)
      if (states[64 * page + slot] === FORWARDER && drawn < MOST_ARROWS) { drawArrow(c, 64 * page + slot, slotAt(64 * page + slot, "to")); drawn += 1; }
  return drawn;
}
// where the sweep or defragmentation stands, and what the step is about
function drawHere(c) {
  const deed = deedNow(), place = deed ? placeOf(deed) : -1, cursor = now.phase > 2 && now.cursor < 64 * pages ? now.cursor : -1;
  c.strokeStyle = colours["--mutator"]; c.lineWidth = 2; c.setLineDash([4, 3]);
  const [x, y] = boxAt(chosen); c.strokeRect(x + 1, y + 1, grid.box - 2, grid.box - 2); c.setLineDash([]);
  if (place >= 0) {
    const [a, b, w, h] = cellIn(place >> 6, place & 63);
    c.strokeStyle = colours["--ink"]; c.lineWidth = 2.5; c.strokeRect(a, b, w - 1, h - 1);
    if (w > 12 && h > 12) { c.strokeStyle = colours["--back"]; c.lineWidth = 1.5; c.strokeRect(a + 2, b + 2, w - 5, h - 5); }
  }
  if (cursor >= 0) {
    const [a, b, , h] = cellIn(cursor >> 6, cursor & 63), s = Math.min(7, h);
    c.fillStyle = colours["--ink"]; c.strokeStyle = colours["--back"]; c.lineWidth = 1;
    c.beginPath(); c.moveTo(a - 3, b + h / 2 - s); c.lineTo(a - 3 + 1.4 * s, b + h / 2); c.lineTo(a - 3, b + h / 2 + s); c.closePath(); c.fill(); c.stroke();
  }
  c.lineWidth = 1;
}
function drawMap() {
  layOut();
  if (at("follow").checked) scrollToChosen();
  const [c] = pen("map", grid.height), { columns, box, top, height } = grid;
  const first = Math.floor(top / box) * columns, end = Math.min(pages, Math.ceil((top + height) / box) * columns);
  for (let page = first; page < end; page += 1) drawPage(c, page);
  const arrows = drawArrows(c);
  drawHere(c);
  const notes = [];
  if (box < SLOTS_SEEN) notes.push("A small page shows what share of its slots is in each state; + makes pages larger, and a chosen page is drawn below.");
  if (arrows < counts[FORWARDER]) notes.push(`Arrows of ${arrows} of ${counts[FORWARDER]} forwarders are drawn.`);
  if (now.event && !events[now.event - 1].whole) notes.push("From here on most steps that change nothing in the map are left out.");
  at("map-note").textContent = notes.join(" ");
}

// The trace ----------------------------------------------------------------------------------------
// Trace, cycles and time lines lie one above the other: a unit is at the same place in each. Units count from the first event of the page.
const TRACE_HEIGHT = 58, STRIP_HEIGHT = 38;
const spentIn = (e) => Math.max(0, e.spent);
const total = events.reduce((sum, e) => sum + e.units + spentIn(e), 0) || 1;
const unitAt = (m) => moments.mutator[m] + moments.collector[m];
// the first of so many numbers of which this holds; it holds of all after that too
function firstOf(low, high, holds) {
  while (low < high) { const mid = low + high >> 1; if (holds(mid)) high = mid; else low = mid + 1; }
  return low;
}
// the first event that ends after this unit, and the first moment that has so many units
const eventAt = (unit) => firstOf(1, events.length, (event) => unitAt(lastOf(event)) > unit);
const momentOf = (unit) => firstOf(0, momentCount - 1, (m) => unitAt(m) >= unit);
// what is made of a width is kept until the width changes
function keptFor(make) {
  let kept = { width: -1 };
  return (width) => kept.width === width ? kept : kept = { width, ...make(width) };
}
function addStretch(shares, from, to) {
  for (let x = Math.floor(from); x < to && x < shares.length; x += 1) shares[x] += Math.min(to, x + 1) - Math.max(from, x);
}
// what share of each dot of the trace is the mutator's, and what the collector's
const traceOf = keptFor((width) => {
  const mutator = new Float64Array(width), collector = new Float64Array(width), scale = width / total;
  let done = 0;
  for (const e of events) {
    const mid = done + e.units, end = mid + spentIn(e);
    addStretch(mutator, done * scale, mid * scale);
    addStretch(collector, mid * scale, end * scale);
    done = end;
  }
  return { mutator, collector };
});
// the stretch of the trace that is marked, if one is
let stretch = null;
function drawStretch(c, width, height) {
  if (!stretch) return;
  const from = stretch.from / total * width, to = Math.max(from + 2, (stretch.from + stretch.window) / total * width);
  c.fillStyle = colours["--hot"]; c.fillRect(from, 0, to - from, height);
  c.fillStyle = colours["--floor"]; c.fillRect(from, 0, 1, height); c.fillRect(to - 1, 0, 1, height);
}
function drawMoment(c, width, height) {
  const x = Math.min(width - 2, Math.max(1, unitAt(moment) / total * width));
  c.fillStyle = colours["--ink"]; c.fillRect(x - 1, 0, 2, height);
  return x;
}
// What is the same at each moment is drawn once, and then copied.
const backs = {};
function penOver(id, height, paint) {
  const [c, width] = pen(id, height), canvas = at(id), look = [canvas.width, width, document.documentElement.dataset.theme, stretch && stretch.window].join();
  if (!canvas.width) return [c, width];
  if (backs[id] && backs[id].look === look) { c.drawImage(backs[id].copy, 0, 0, width, height); return [c, width]; }
  drawStretch(c, width, height);
  paint(c, width);
  const copy = document.createElement("canvas");
  copy.width = canvas.width; copy.height = canvas.height; copy.getContext("2d").drawImage(canvas, 0, 0);
  backs[id] = { look, copy };
  return [c, width];
}
function paintTrace(c, width) {
  const shares = traceOf(width), high = 22;
  for (const [name, foot] of [["mutator", 26], ["collector", 52]]) {
    c.fillStyle = colours["--" + name];
    for (let x = 0; x < width; x += 1) if (shares[name][x] > 0) { const h = Math.max(1, shares[name][x] * high); c.fillRect(x, foot - h, 1, h); }
  }
  c.strokeStyle = colours["--line"]; c.beginPath(); c.moveTo(0, 28); c.lineTo(width, 28); c.stroke();
}
function drawTrace() {
  const [c, width] = penOver("trace", TRACE_HEIGHT, paintTrace), x = drawMoment(c, width, TRACE_HEIGHT);
  c.beginPath(); c.moveTo(x - 5, 0); c.lineTo(x + 5, 0); c.lineTo(x, 6); c.fill();
  at("trace-head").textContent = `trace: ${now.mutator} units of the mutator (above) and ${now.collector} of the collector (below) so far, of ${total}` + (skipped ? `; before them ${mutatorBefore} and ${collectorBefore}` : "");
}

// The cycles ---------------------------------------------------------------------------------------
// A cycle goes from its first quantum to its last. NaN is what isn't known: deeds that are left out would say it, or events before the page.
const cycles = [], firstCycle = cycleBefore + (phaseBefore ? 0 : 1), unitsBefore = mutatorBefore + collectorBefore;
const cycleOf = (number) => cycles[number - firstCycle];
const countsAt = (m) => [moments.free[m], moments.live[m], moments.old[m]];
function beginCycle(number, event, m, isAsked) {
  cycles.push({
    number, cause: isAsked ? "asked" : "trigger", firstEvent: event, lastEvent: 0, moment: m, end: momentCount - 1, from: unitAt(m), to: total,
    quanta: 0, units: [0, 0, 0, 0, 0], marked: 0, made: 0, freed: 0, moved: 0, before: countsAt(m), after: [NaN, NaN, NaN],
  });
  return cycles[cycles.length - 1];
}
// one that runs before the first event of the page
function goOn() {
  const cycle = beginCycle(cycleBefore, NaN, 0, false), unknown = Object.fromEntries(["quanta", "marked", "made", "freed", "moved"].map((name) => [name, NaN]));
  return Object.assign(cycle, unknown, { cause: DASH, units: [0, NaN, NaN, NaN, NaN], before: [NaN, NaN, NaN] });
}
function endCycle(cycle, event) {
  const end = lastOf(event);
  Object.assign(cycle, { lastEvent: event, end, to: unitAt(end), after: countsAt(end) });
}
// The units of a quantum go to the phases that it went through. Those of deeds that are left out are known if that is one phase.
function addUnits(cycle, e, phase) {
  const entered = e.deeds.filter((d) => d[0] === 1).map((d) => d[1]), phases = phase ? [phase, ...entered] : entered;
  if (!e.whole) for (const each of phases) cycle.units[each] += phases.length > 1 ? NaN : e.spent;
  else for (const d of e.deeds) { if (d[0] === 1) phase = d[1]; cycle.units[phase] += unitsOf(d); }
}
function addDeed(cycle, d) {
  if (d[0] === 4) cycle.marked += 1;
  else if (d[0] === 7 && d[2] === 2) cycle.freed += 1;
  else if (d[0] === 12) cycle.moved += 1;
}
(function readCycles() {
  let cycle = phaseBefore ? goOn() : null, isAsked = isAskedBefore === 1;
  events.forEach((e, i) => {
    const event = i + 1, phase = moments.phase[firstMoment[event]];
    if (e.text === "* start") isAsked = true;
    if (cycle) for (const d of e.command) if (d[0] === 15) cycle.made += 1;
    if (e.spent < 0) return;
    if (e.deeds.length && e.deeds[0][0] === 0) { cycle = beginCycle(e.deeds[0][1], event, firstMoment[event] + 1, isAsked); isAsked = false; }
    if (!cycle) return;
    cycle.quanta += 1;
    addUnits(cycle, e, phase);
    for (const d of e.deeds) addDeed(cycle, d);
    if (e.deeds.length && e.deeds[e.deeds.length - 1][0] === 2) { endCycle(cycle, event); cycle = null; }
  });
})();
// the number in the list of the cycle that runs at the moment in sight, or -1
const cycleNow = () => cycleOf(now.cycle) && moment <= cycleOf(now.cycle).end ? now.cycle - firstCycle : -1;
// the cycle that runs at this unit, or else the last before it, or the first
function cycleAt(unit) { return cycles[Math.max(0, firstOf(0, cycles.length, (i) => cycles[i].from > unit) - 1)]; }
const goCycle = (cycle) => { if (cycle) go(cycle.moment); };

// what share of each dot of the strip each phase has, and how many quanta begin there
const stripOf = keptFor((width) => {
  const shares = PHASES.map(() => new Float64Array(width)), quanta = new Float64Array(width), scale = width / total;
  let from = 0;
  for (let m = 1; m < momentCount; m += 1) {
    const phase = moments.phase[m - 1], isLast = m === momentCount - 1;
    if (phase && (isLast || moments.phase[m] !== phase)) addStretch(shares[phase], from * scale, unitAt(m) * scale);
    if (moments.phase[m] !== phase) from = unitAt(m);
    if (moments.deed[m] === 0 && (phase || moments.phase[m + 1])) quanta[Math.min(width - 1, Math.floor(unitAt(m - 1) * scale))] += 1;
  }
  return { shares, quanta };
});
const BAR_HEAD = 14, BAR_FOOT = 34, NOTCH_GAP = 4;
function drawNotches(c, quanta) {
  let last = -NOTCH_GAP;
  c.fillStyle = colours["--ink"];
  quanta.forEach((count, x) => { if (count && x - last >= NOTCH_GAP) { c.fillRect(x, BAR_HEAD, 1, 5); last = x; } });
}
// the number of each cycle above its bar, where there is room
function drawNumbers(c, width) {
  const current = cycleNow();
  let free = 0;
  for (let x = 0; x < width && cycles.length; x = Math.max(x + 1, free)) {
    const cycle = cycles[firstOf(0, cycles.length - 1, (i) => cycles[i].from / total * width >= x)], left = cycle.from / total * width, size = c.measureText(cycle.number).width;
    if (left < x) return;
    c.fillStyle = colours[cycle === cycles[current] ? "--ink" : "--dim"];
    if (left + size <= width) c.fillText(cycle.number, left, 10);
    free = Math.ceil(left + size + 6);
  }
}
function paintStrip(c, width) {
  const { shares, quanta } = stripOf(width), high = BAR_FOOT - BAR_HEAD;
  for (let x = 0; x < width; x += 1) {
    let foot = BAR_FOOT;
    for (let phase = 1; phase < PHASES.length; phase += 1) {
      const h = shares[phase][x] * high;
      if (h > 0) { c.fillStyle = colours["--" + PHASES[phase]]; c.fillRect(x, foot - h, 1, h); }
      foot -= h;
    }
  }
  drawNotches(c, quanta);
}
function drawStrip() {
  const [c, width] = penOver("strip", STRIP_HEIGHT, paintStrip);
  drawNumbers(c, width);
  drawMoment(c, width, STRIP_HEIGHT);
}

// The table of cycles ------------------------------------------------------------------------------
const TABLE_ROW = 20;
const CYCLE_COLUMNS = ["cycle", "cause", "first", "last", "quanta", "roots", "mark", "sweep", "defrag", "marked", "made", "freed", "moved", "from", "to", "from", "to", "from", "to"];
const CYCLE_GROUPS = [["", 2], ["events", 2], ["", 1], ["units", 4], ["blocks", 4], ["free pages", 2], ["live blocks", 2], ["forwarders", 2]];
const known = (number) => Number.isNaN(number) ? DASH : String(number);
function cycleRow(c) {
  const pairs = c.before.flatMap((count, i) => [count, c.after[i]]);
  return [String(c.number), c.cause, ...[numberOf(c.firstEvent), c.lastEvent ? numberOf(c.lastEvent) : NaN, c.quanta, ...c.units.slice(1), c.marked, c.made, c.freed, c.moved, ...pairs].map(known)];
}
function addCycleRow(body, i, current) {
  const row = add(body, "tr", ""), cycle = cycles[i];
  cycleRow(cycle).forEach((text, column) => { const cell = add(row, "td", column ? text : ""); if (!column) add(cell, "a", text).href = "#cycle" + text; });
  row.onclick = () => goCycle(cycle);
  if (i === current) row.setAttribute("aria-current", "true");
}
// Only the rows in sight are in the document. They are made anew when another cycle runs.
let shownCycle = null;
function drawTable() {
  const box = at("cycles"), body = at("cycle-rows"), current = cycleNow(), y = current * TABLE_ROW;
  if (current === shownCycle) return;
  shownCycle = current;
  const show = () => {
    const first = Math.max(0, Math.floor(box.scrollTop / TABLE_ROW) - 2), end = Math.min(cycles.length, first + 16);
    body.replaceChildren();
    add(body, "tr", "").style.height = first * TABLE_ROW + "px";
    for (let i = first; i < end; i += 1) addCycleRow(body, i, current);
    add(body, "tr", "").style.height = (cycles.length - end) * TABLE_ROW + "px";
  };
  box.onscroll = show;
  show();
  if (current >= 0 && (y < box.scrollTop || y > box.scrollTop + box.clientHeight - 3 * TABLE_ROW)) box.scrollTop = Math.max(0, y - box.clientHeight / 3);
}
function beginTable() {
  const head = at("cycle-head"), groups = add(head, "tr", ""), names = add(head, "tr", ""), widths = CYCLE_COLUMNS.map((name) => name.length);
  for (const [text, span] of CYCLE_GROUPS) add(groups, "th", text).colSpan = span;
  for (const name of CYCLE_COLUMNS) add(names, "th", name).scope = "col";
  for (const cycle of cycles) cycleRow(cycle).forEach((text, i) => { widths[i] = Math.max(widths[i], text.length); });
  for (const width of widths) add(at("cycle-columns"), "col", "").style.width = width + 2 + "ch";
  at("cycles-head").textContent = cycles.length ? `cycles: ${cycles.length}` : "cycles: none runs";
}

// Time lines ---------------------------------------------------------------------------------------
const LINE_HEIGHT = 52, LINES = [
  { name: "free", says: "free pages", colour: "--flag", at: (m) => moments.free[m] },
  { name: "live", says: "live blocks", colour: "--live", at: (m) => moments.live[m] },
  { name: "old", says: "forwarders", colour: "--moved", at: (m) => moments.old[m] },
  { name: "grey", says: "grey list", colour: "--grey", at: (m) => moments.tail[m] - moments.head[m] },
];
// of each dot the least and the most that each line has there
const timesOf = keptFor((width) => {
  const least = LINES.map(() => new Float64Array(width).fill(Infinity)), most = LINES.map(() => new Float64Array(width)), scale = width / total;
  for (let m = 0, x = 0; m < momentCount; m += 1) {
    const end = m + 1 < momentCount ? Math.min(width - 1, Math.floor(unitAt(m + 1) * scale)) : width - 1;
    for (let i = 0; i < LINES.length; i += 1) {
      const value = LINES[i].at(m);
      for (let dot = x; dot <= end; dot += 1) { if (value < least[i][dot]) least[i][dot] = value; if (value > most[i][dot]) most[i][dot] = value; }
    }
    x = end;
  }
  return { least, most, tops: most.map((line) => line.reduce((a, b) => Math.max(a, b), 1)) };
});
function paintTime(c, width, i) {
  const { least, most, tops } = timesOf(width), top = i ? tops[i] : pages, head = i * LINE_HEIGHT + 16, foot = (i + 1) * LINE_HEIGHT - 4;
  const y = (value) => foot - value / top * (foot - head);
  c.strokeStyle = colours["--line"]; c.beginPath(); c.moveTo(0, foot + 0.5); c.lineTo(width, foot + 0.5); c.stroke();
  c.fillStyle = colours[LINES[i].colour];
  for (let x = 0; x < width; x += 1) c.fillRect(x, y(most[i][x]) - 1, 1, y(least[i][x]) - y(most[i][x]) + 2);
  if (i) return;
  c.strokeStyle = colours["--floor"]; c.setLineDash([6, 4]); c.beginPath(); c.moveTo(0, y(trigger)); c.lineTo(width, y(trigger)); c.stroke(); c.setLineDash([]);
}
function drawTimes() {
  const [c, width] = penOver("times", LINE_HEIGHT * LINES.length, (c, width) => LINES.forEach((_, i) => paintTime(c, width, i))), { tops } = timesOf(width);
  c.fillStyle = colours["--dim"];
  LINES.forEach(({ says, at }, i) => c.fillText(`${says}: ${at(moment)}, at most ${i ? tops[i] : pages}` + (i ? "" : `; a cycle starts at ${trigger} or fewer`), 4, i * LINE_HEIGHT + 12));
  drawMoment(c, width, LINE_HEIGHT * LINES.length);
}

// The curve ----------------------------------------------------------------------------------------
// The share in sight goes up to the least of these that holds all, or to the whole.
const CURVE_HEIGHT = 180, TOPS = [0.001, 0.002, 0.005, 0.01, 0.02, 0.05, 0.1, 0.2, 0.5, 1];
function curveScale(width) {
  const most = Math.max(0, ...points.map((p) => Math.max(p.least, p.floor) / p.window)), last = points.length ? points[points.length - 1].window : 1;
  const left = 52, right = width - 14, head = 12, foot = CURVE_HEIGHT - 22, top = at("to-whole").checked ? 1 : TOPS.find((t) => t >= most) || 1;
  return { left, right, head, foot, top, last, x: (w) => left + (last > 1 ? Math.log(w) / Math.log(last) : 0) * (right - left), y: (share) => foot - share / top * (foot - head) };
}
function drawAxes(c, { left, right, head, foot, top, last, x, y }) {
  c.strokeStyle = colours["--line"]; c.fillStyle = colours["--dim"]; c.textAlign = "right";
  for (const share of [0, top / 2, top]) {
    c.beginPath(); c.moveTo(left, y(share)); c.lineTo(right, y(share)); c.stroke();
    c.fillText(+(100 * share).toFixed(2) + " %", left - 6, y(share) + 4);
  }
  c.textAlign = "center";
  for (let w = 1; w <= last && x(w) < right - 110; w *= 10) { c.beginPath(); c.moveTo(x(w), head); c.lineTo(x(w), foot); c.stroke(); c.fillText(w, x(w), foot + 15); }
  c.textAlign = "right"; c.fillText(`window: ${last} units`, right, foot + 15);
  c.textAlign = "left";
}
function drawLine(c, { x, y }, colour, dash, shown) {
  c.strokeStyle = colours[colour]; c.setLineDash(dash); c.lineWidth = 2; c.beginPath();
  for (const [window, units] of shown) c.lineTo(x(window), y(units / window));
  c.stroke(); c.setLineDash([]); c.lineWidth = 1;
}
function drawChosenWindow(c, { x, y, head, foot }) {
  if (!stretch) return;
  c.fillStyle = colours["--ink"]; c.fillRect(x(stretch.window) - 0.5, head, 1, foot - head);
  c.beginPath(); c.arc(x(stretch.window), y(stretch.least / stretch.window), 4, 0, 7); c.fill();
}
function drawCurve() {
  const [c, width] = pen("curve", CURVE_HEIGHT), scale = curveScale(width), { left, head } = scale;
  drawAxes(c, scale);
  const promised = points.filter((p) => p.floor >= 0), lines = [["--mutator", [], "least share of the mutator", points.map((p) => [p.window, p.least])]];
  if (promised.length) lines.push(["--floor", [6, 4], "floor that the configuration promises", promised.map((p) => [p.window, p.floor])]);
  lines.forEach(([colour, dash, says, shown], i) => {
    drawLine(c, scale, colour, dash, shown);
    c.strokeStyle = colours[colour]; c.setLineDash(dash); c.lineWidth = 2;
    c.beginPath(); c.moveTo(left + 8, head + 14 + 16 * i); c.lineTo(left + 36, head + 14 + 16 * i); c.stroke(); c.setLineDash([]); c.lineWidth = 1;
    c.fillStyle = colours["--ink"]; c.fillText(says, left + 42, head + 18 + 16 * i);
  });
  drawChosenWindow(c, scale);
}
const pointAt = (x) => { const scale = curveScale(widths.curve), far = (p) => Math.abs(scale.x(p.window) - x); return points.reduce((best, p) => far(p) < far(best) ? p : best, points[0]); };

// The worst window ---------------------------------------------------------------------------------
// Where the trace turns from the mutator to the collector or back; before an even turn the collector has its units, after it the mutator.
const turns = new Float64Array(2 * events.length + 1), mutatorAt = new Float64Array(2 * events.length + 1);
events.forEach((e, i) => {
  turns[2 * i + 1] = turns[2 * i] + e.units; turns[2 * i + 2] = turns[2 * i + 1] + spentIn(e);
  mutatorAt[2 * i + 1] = mutatorAt[2 * i + 2] = mutatorAt[2 * i] + e.units;
});
// the mutator's units before a unit, asked for in ascending order
function mutatorReader() {
  let turn = 0;
  return (unit) => {
    while (turn + 1 < turns.length && turns[turn + 1] <= unit) turn += 1;
    return mutatorAt[turn] + (turn % 2 ? 0 : unit - turns[turn]);
  };
}
// The first place where a window has its least. The units in it fall or rise evenly while neither end is at a turn: so it begins at one, or ends at one.
function worstOf(window) {
  let worst = { from: 0, window, least: Infinity };
  for (const shift of [0, window]) {
    const before = mutatorReader(), after = mutatorReader();
    for (const turn of turns) {
      const from = turn - shift;
      if (from < 0 || from + window > turns[turns.length - 1]) continue;
      const least = after(from + window) - before(from);
      if (least < worst.least || (least === worst.least && from < worst.from)) worst = { from, window, least };
    }
  }
  return worst;
}
function showStretch() {
  const { from, window, least } = stretch || {};
  at("stretch").textContent = stretch ? `The window of ${window} units has its least, ${least} of the mutator, from unit ${unitsBefore + from} to ${unitsBefore + from + window} of the trace: in events ${numberOf(eventAt(from))} to ${numberOf(eventAt(from + window - 1))}.` : "";
  drawCurve();
}
function markWindow(window) { stretch = worstOf(window); showStretch(); go(momentOf(stretch.from)); }
function unmark() { stretch = null; showStretch(); ask(); }
// the window of the curve so many further than the marked one
function nextWindow(by) {
  const here = stretch ? points.findIndex((p) => p.window === stretch.window) : by > 0 ? -1 : points.length;
  if (points[here + by]) markWindow(points[here + by].window);
}

"##;
