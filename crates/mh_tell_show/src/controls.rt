//! How the rest of the page is drawn, and how its reader moves through a run. It is JavaScript in a text: addresses,
//! searches, the life of a block, the chosen page, lists, roots, the map as text, mouse and keys.

/// What stands after that, to the end of the page.
pub const CONTROLS: &[u8] =
    br##"// The address --------------------------------------------------------------------------------------
// #EVENT and #EVENT.STEP are moments, #cycleN is where a cycle starts, #birthN and #birthN.PART where a block was made.
const tellFound = (text) => { at("found").textContent = text; };
const addressOf = (m) => { const event = moments.event[m], number = numberOf(event); return m === lastOf(event) ? `#${number}` : `#${number}.${m - firstMoment[event]}`; };
function settle() { clearTimeout(settling); history.replaceState(null, "", addressOf(moment)); }
// browsers refuse many addresses a second, so it follows once the reader stops
const SETTLE_TIME = 250;
let settling = 0;
function settleSoon() { clearTimeout(settling); settling = setTimeout(settle, SETTLE_TIME); }
function copyLink() {
  settle();
  const copied = navigator.clipboard ? navigator.clipboard.writeText(location.href) : Promise.reject();
  copied.then(() => tellFound("the link is copied"), () => tellFound(location.href));
}
// the event of the page with this number, or the nearest
function eventOf(number) {
  const event = Math.max(0, Math.min(events.length, number - skipped));
  if (numberOf(event) !== number) tellFound(`event ${number} isn't on this page`);
  return event;
}
const ADDRESSES = [
  [/^#(\d+)$/, (number) => goEvent(eventOf(+number))],
  [/^#(\d+)\.(\d+)$/, (number, step) => { const event = eventOf(+number); go(Math.min(lastOf(event), firstMoment[event] + +step)); }],
  [/^#cycle(\d+)$/, (number) => { const cycle = cycleOf(+number); if (!cycle) tellFound(`no cycle ${number}`); go(cycle ? cycle.moment : momentCount - 1); }],
  [/^#birth(\d+)(?:\.(\d+))?$/, (birth, part) => { const life = showLife(+birth, +(part || 0)); go(life.length ? life[0].moment : momentCount - 1); }],
];
// goes where an address leads, or else to the last moment
function visit(address) {
  tellFound("");
  for (const [form, show] of ADDRESSES) { const found = form.exec(address); if (found) { show(...found.slice(1)); return; } }
  go(momentCount - 1);
}

// Search -------------------------------------------------------------------------------------------
const deedAt = (m) => moments.deed[m] < 0 ? null : events[moments.event[m] - 1].deeds[moments.deed[m]];
const isDeed = (m, kind) => { const deed = deedAt(m); return deed !== null && deed[0] === kind; };
const SOUGHT = {
  refusal: { key: "n", holds: (m) => m > 0 && m === firstMoment[moments.event[m]] && /^refused /.test(events[moments.event[m] - 1].reply) },
  move: { key: "m", holds: (m) => isDeed(m, 12) },
  cycle: { key: "c", holds: (m) => isDeed(m, 0) },
  quantum: { key: "q", holds: (m) => m > 0 && m === lastOf(moments.event[m]) && events[moments.event[m] - 1].spent > +at("above").value },
};
// goes to the next moment that is sought, or by -1 to the one before
function search(name, by) {
  const { holds } = SOUGHT[name];
  let m = moment + by;
  while (m >= 0 && m < momentCount && !holds(m)) m += by;
  const isFound = m >= 0 && m < momentCount;
  tellFound(isFound ? "" : `no ${by > 0 ? "later" : "earlier"} ${name}`);
  if (isFound) go(m);
}

// A block's life -----------------------------------------------------------------------------------
const MOST_LIFE = 200;
// the row that was true of a slot at a moment, or -1
function rowAt(place, m) {
  let row = lastSlot[place];
  while (row >= 0 && slotRows.moment[row] > m) row = slotRows.before[row];
  return row;
}
const nameAt = (place, m) => { const row = place < 0 ? -1 : rowAt(place, m); return row < 0 ? "none" : slotRows.birth[row] + "." + slotRows.part[row]; };
// what the references were as a block was marked; null is one that is left out
function referentsAt(e, k, m, count) {
  const referents = new Array(count).fill(null);
  for (let i = k + 1; i < e.deeds.length && (e.deeds[i][0] === 5); i += 1) referents[e.deeds[i][1]] = nameAt(e.deeds[i][3], m);
  return referents;
}
// What a deed of a quantum says of a block that is here: words, and where the block is after it. None is null.
function sayDeed(d, block) {
  const isNamed = (i) => d[i] === block.birth && d[i + 1] === block.part;
  if (d[0] === 3 && d[4] && d[3] === block.place) return { says: `shaded from root slot ${d[1]}` };
  if (d[0] === 5 && d[4] && d[3] === block.place) return { says: `shaded from reference ${d[1]} of ${block.marking}` };
  if (d[0] === 4 && isNamed(2)) return { says: "marked", isMarked: true };
  if (d[0] === 12 && isNamed(3)) return { says: `moved from ${word(d[1])} to ${word(d[2])}`, place: d[2] };
  if (d[0] === 7 && d[2] === 2 && isNamed(3)) return { says: `freed at ${word(d[1])}`, place: -1 };
  return null;
}
function sayQuantum(life, block, event) {
  const e = events[event - 1];
  e.deeds.forEach((d, k) => {
    if (d[0] === 4) block.marking = d[2] + "." + d[3];
    const said = block.place < 0 ? null : sayDeed(d, block), m = firstMoment[event] + 1 + k;
    if (!said) return;
    block.place = said.place ?? block.place;
    life.push({ moment: m, says: said.says, referents: said.isMarked ? referentsAt(e, k, m, block.references) : [] });
  });
}
function sayCommand(life, block, event) {
  for (const d of events[event - 1].command) {
    if (d[0] === 15 && d[2] === block.birth && d[3] === block.part) {
      Object.assign(block, { place: d[1], references: d[5] });
      life.push({ moment: firstMoment[event], says: `made at ${word(d[1])}: class ${d[4]}, references ${d[5]}, numbers ${d[6]}`, referents: [] });
    } else if (d[0] === 14 && d[1] === block.place) life.push({ moment: firstMoment[event], says: "shaded by a barrier", referents: [] });
  }
}
// what became of a part of an object, in order
function lifeOf(birth, part) {
  const life = [], block = { birth, part, place: -1, references: 0, marking: "none" };
  const there = heapBefore.find((row) => row.length > 3 && row[1] === birth && row[2] === part && row[4] < 0);
  if (there) {
    Object.assign(block, { place: there[0], references: there[5] });
    life.push({ moment: 0, says: `at ${word(there[0])} before the page`, referents: [] });
  }
  for (let event = 1; event <= events.length && (block.place >= 0 || !life.length); event += 1) { sayCommand(life, block, event); sayQuantum(life, block, event); }
  return life;
}
function addLink(parent, text, address) { const link = add(parent, "a", text); link.href = address; }
function addMoment(list, { moment: m, says, referents }) {
  const item = add(list, "li", "");
  addLink(item, addressOf(m).slice(1), addressOf(m));
  add(item, "span", " " + says + (referents.length ? ", with references to" : ""));
  for (const name of referents) { add(item, "span", " "); if (name === null || name === "none") add(item, "span", name || DASH); else addLink(item, name, "#birth" + name); }
}
function showLife(birth, part) {
  const life = lifeOf(birth, part), list = at("life"), middle = MOST_LIFE / 2, isLong = life.length > MOST_LIFE;
  list.replaceChildren();
  at("block").value = `${birth}.${part}`;
  if (!life.length) add(list, "li", `no block ${birth}.${part} is on this page`);
  for (const said of isLong ? life.slice(0, middle) : life) addMoment(list, said);
  if (isLong) { add(list, "li", `${life.length - MOST_LIFE} more`); for (const said of life.slice(-middle)) addMoment(list, said); }
  return life;
}
// the life of the block in a slot, if one is there
function showSlot(place) { if (place >= 0 && states[place] !== FREE) showLife(slotAt(place, "birth"), slotAt(place, "part")); }
function showStepsBlock() {
  const deed = deedNow() || (now.event ? events[now.event - 1].command.slice(-1)[0] : null), place = deed ? placeOf(deed) : -1;
  if (deed && deed[0] === 7 && deed[2] === 2) showLife(deed[3], deed[4]);
  else showSlot(place);
}
function showAsked() { const found = /^\s*(\d+)(?:\.(\d+))?\s*$/.exec(at("block").value); if (found) showLife(+found[1], +(found[2] || 0)); }

// The chosen page ----------------------------------------------------------------------------------
const PAGE_HEIGHT = 128;
function chosenCell(slot, width) {
  const slots = slotsOf(sizeOf(chosen)), across = Math.min(slots, slots > 32 ? 16 : 8), w = width / across, h = PAGE_HEIGHT / Math.ceil(slots / across);
  return [(slot % across) * w, Math.floor(slot / across) * h, w, h];
}
function drawChosen() {
  const size = sizeOf(chosen), slots = slotsOf(size), [c, width] = pen("page", PAGE_HEIGHT);
  at("page-head").textContent = `page ${chosen}: ` + (size ? `class ${size}, ${slots} slots, ${isFlagged(chosen) ? "flagged as sparse" : "not flagged"}` : "free");
  for (let slot = 0; slot < slots; slot += 1) {
    const [x, y, w, h] = chosenCell(slot, width);
    drawCell(c, [x + 1, y + 1, w - 1, h - 1], 64 * chosen + slot);
    if (w > 90 || states[64 * chosen + slot] === FREE) { c.fillStyle = inkOn(states[64 * chosen + slot]); c.fillText(slot, x + 5, y + 14); }
  }
}

// Lists and facts ----------------------------------------------------------------------------------
const ROW = 17;
// a list of which only the rows in sight are in the document
function fill(id, count, current, text, pick) {
  const box = at(id), inner = box.firstChild || box.appendChild(document.createElement("span"));
  inner.style.display = "block"; inner.style.height = Math.max(1, count) * ROW + "px";
  const show = () => {
    for (const row of box.querySelectorAll("div")) row.remove();
    const first = Math.max(0, Math.floor(box.scrollTop / ROW) - 1), end = Math.min(count, first + 14);
    for (let i = first; i < end; i += 1) {
      const row = box.appendChild(document.createElement("div"));
      row.textContent = text(i); row.style.top = i * ROW + "px"; row.onclick = () => pick(i);
      row.classList.toggle("now", i === current); row.classList.toggle("no", / = refused /.test(row.textContent));
    }
  };
  const y = Math.max(0, current) * ROW;
  if (y < box.scrollTop || y > box.scrollTop + box.clientHeight - 2 * ROW) box.scrollTop = Math.max(0, y - box.clientHeight / 2);
  box.onscroll = show;
  show();
}
const entryOf = (event) => `${events[event - 1].text} = ${events[event - 1].reply}`;
// the steps of an event in words
let told = { event: -1, deeds: [], lefts: [] };
function tell(event) {
  if (told.event === event) return told;
  const e = event ? events[event - 1] : { command: [], deeds: [] };
  let left = quantum;
  const lefts = e.deeds.map((d) => left -= unitsOf(d));
  told = { event, deeds: [...e.command, ...e.deeds], lefts, whole: e.whole, commands: e.command.length };
  return told;
}
function wordsOf(i) {
  const d = told.deeds[i], k = i - told.commands;
  return WORDS[d[0]](d) + (k >= 0 && told.whole ? ` units ${unitsOf(d)} left ${told.lefts[k]}` : "");
}
function drawLists() {
  const e = now.event, { deeds, commands } = tell(e), current = now.deed < 0 ? commands - 1 : commands + now.deed;
  fill("replies", events.length, e - 1, (i) => `${numberOf(i + 1)} ${entryOf(i + 1)}`, (i) => go(lastOf(i + 1)));
  fill("deeds", deeds.length, current, wordsOf, (i) => go(firstMoment[e] + Math.max(0, 1 + i - commands)));
  const ran = e && events[e - 1].spent >= 0 ? `: its quantum spent ${events[e - 1].spent} and ended in ${PHASES[events[e - 1].ended]}` : "";
  at("deeds-head").textContent = e ? `steps of event ${numberOf(e)}${ran}` : "steps: none before the first event";
  at("event-now").textContent = e ? `${numberOf(e)} ${entryOf(e)}` : `before event ${numberOf(1)}`;
  at("step-now").textContent = current < 0 ? "\u00a0" : now.deed < 0 ? commands > 1 ? `${commands} parts and shades, the last: ${wordsOf(current)}` : wordsOf(current) : wordsOf(current);
}
const cursorOf = ({ phase, cursor }) => phase === 1 ? `root slot ${cursor}` : phase > 2 ? word(cursor) : "none";
const MOST_GREYS = 200;
function drawFacts() {
  const grey = greys.slice(now.head, Math.min(now.tail, now.head + MOST_GREYS)).map(word), count = now.tail - now.head, phase = PHASES[now.phase];
  const places = grey.join(" ") + (count > MOST_GREYS ? " ..." : "");
  const facts = {
    stat: `free ${now.free} live ${now.live} old ${now.old} phase ${phase} cycle ${now.cycle}`,
    cursor: cursorOf(now),
    left: now.deed < 0 ? "no quantum runs" : now.left < 0 ? "not known, since steps are left out" : `${now.left} units of ${quantum}`,
    reply: now.event ? events[now.event - 1].reply : "none",
    grey: count ? `${count}: ${places}` : "0",
  };
  for (const name in facts) at("fact-" + name).textContent = facts[name];
  [...at("phases").children].forEach((item, i) => i === now.phase ? item.setAttribute("aria-current", "step") : item.removeAttribute("aria-current"));
  STATES.forEach((state, i) => { at("key").children[i].lastChild.textContent = ` ${state.says} ${counts[i]}`; });
}
// The roots as an event leaves them, and after how many events they were seen last
let roots = [...rootsBefore], rootsSeen = 0;
function drawRoots() {
  if (rootsSeen > now.event) { roots = [...rootsBefore]; rootsSeen = 0; }
  for (; rootsSeen < now.event; rootsSeen += 1) for (const [slot, place] of events[rootsSeen].roots) roots[slot] = place;
  const deed = deedNow(), scanned = deed && deed[0] === 3 ? deed[1] : -1, list = at("roots");
  list.replaceChildren();
  for (let who = 0; who < 9; who += 1) {
    const slots = [...Array(16).keys()].filter((i) => roots[16 * who + i] >= 0 || 16 * who + i === scanned);
    if (!slots.length) continue;
    add(list, "dt", ownerOf(who));
    const own = add(list, "dd", "");
    for (const i of slots) add(own, "span", `${i}: ${word(roots[16 * who + i])}`).classList.toggle("now", 16 * who + i === scanned);
  }
  if (!list.firstChild) add(list, "dd", "all empty");
}
// The map in the form of a dump
function mapText() {
  const words = ["dump"];
  for (let page = 0; page < pages; page += 1) {
    const size = sizeOf(page);
    if (size) words.push("P" + page, "C" + size, isFlagged(page) ? "+" : "-");
    for (let slot = 0; slot < slotsOf(size); slot += 1) {
      const place = 64 * page + slot;
      if (states[place] === FORWARDER) words.push(`${slot}>${word(slotAt(place, "to"))}`);
      else if (states[place] !== FREE) words.push(`${slot}=${slotAt(place, "birth")}.${slotAt(place, "part")}`);
    }
  }
  return words.join(" ");
}

// The whole ----------------------------------------------------------------------------------------
function follow() {
  const deed = deedNow() || (now.event ? events[now.event - 1].command.slice(-1)[0] : null);
  if (at("follow").checked && deed && pageOf(deed) >= 0) chosen = pageOf(deed);
}
function drawSliders() {
  const step = moment - firstMoment[now.event], steps = lastOf(now.event) - firstMoment[now.event];
  at("event").value = numberOf(now.event); at("event-out").textContent = `${numberOf(now.event)} of ${run.all}`;
  at("step").max = steps; at("step").value = step; at("step-out").textContent = `${step} of ${steps}`;
}
function draw() {
  measure(); catchUp(); follow();
  drawMap(); drawChosen(); drawTrace(); drawStrip(); drawTimes(); drawTable(); drawLists(); drawSliders(); drawFacts(); drawRoots();
  if (at("as-text").open) at("text").textContent = mapText();
  at("tip").style.visibility = "hidden";
  document.body.dataset.moment = moment; document.body.dataset.event = numberOf(now.event);
}
let isAsked = false;
// draws once before the next frame, however often it is asked
function ask() {
  if (!isAsked) requestAnimationFrame(() => { isAsked = false; draw(); });
  isAsked = true;
}
function go(m) {
  moment = Math.max(0, Math.min(momentCount - 1, m)); now = momentAt(moment);
  ask(); settleSoon();
}
const goEvent = (event) => go(lastOf(Math.max(0, Math.min(events.length, event))));
function drawAll() { measure(); readColours(); drawCurve(); ask(); }

// The reader's hands -------------------------------------------------------------------------------
// what is under the mouse: a page, and a slot or -1
function underMap(x, y) {
  const column = Math.floor(x / grid.box), page = Math.floor((y + grid.top) / grid.box) * grid.columns + column;
  if (column < 0 || column >= grid.columns || page < 0 || page >= pages) return null;
  if (grid.box >= SLOTS_SEEN) for (let slot = 0; slot < slotsOf(sizeOf(page)); slot += 1) if (isIn(cellIn(page, slot), x, y)) return [page, slot];
  return [page, -1];
}
function underPage(x, y) {
  for (let slot = 0; slot < slotsOf(sizeOf(chosen)); slot += 1) if (isIn(chosenCell(slot, widths.page), x, y)) return [chosen, slot];
  return [chosen, -1];
}
const isIn = ([a, b, w, h], x, y) => x >= a && x < a + w && y >= b && y < b + h;
function slotText(page, slot) {
  const place = 64 * page + slot, state = states[place], lines = [`place ${page}.${slot}: ${STATES[state].says}` + (state === FORWARDER ? ` to ${word(slotAt(place, "to"))}` : "")];
  if (state !== FREE) lines.push(`birth ${slotAt(place, "birth")} part ${slotAt(place, "part")}`, `references ${slotAt(place, "references")} numbers ${slotAt(place, "numbers")}`, `stamp ${slotAt(place, "stamp")}`);
  return lines;
}
function pageText(page) {
  const size = sizeOf(page), lines = [`page ${page}: ` + (size ? `class ${size}${isFlagged(page) ? ", flagged as sparse" : ""}` : "free")];
  STATES.forEach((state, i) => {
    const count = states.subarray(64 * page, 64 * page + slotsOf(size)).reduce((sum, s) => sum + (s === i), 0);
    if (count) lines.push(`${count} ${state.says}`);
  });
  return lines;
}
function curveText(x) {
  const near = pointAt(x);
  return near ? [`window ${near.window}: least ${near.least}, floor ${near.floor < 0 ? "none" : near.floor}`] : [];
}
// the unit of the trace at a place of the canvases that lie over it
const unitUnder = (x) => x / widths.trace * total;
function timesText(x) {
  const event = eventAt(unitUnder(x));
  return events.length ? [`event ${numberOf(event)}`, LINES.map((line) => `${line.name} ${line.at(lastOf(event))}`).join(" ")] : [];
}
function stripText(x) {
  const cycle = cycleAt(unitUnder(x));
  return cycle ? [`cycle ${cycle.number}, ${cycle.cause}: events ${known(numberOf(cycle.firstEvent))} to ${cycle.lastEvent ? numberOf(cycle.lastEvent) : DASH}, units ${unitsBefore + cycle.from} to ${unitsBefore + cycle.to}`] : [];
}
function hover(event, lines) {
  const tip = at("tip");
  tip.textContent = lines.join("\n"); tip.style.visibility = lines.length ? "visible" : "hidden";
  tip.style.left = Math.max(0, Math.min(event.clientX + 14, innerWidth - tip.offsetWidth - 4)) + "px";
  tip.style.top = Math.max(0, Math.min(event.clientY + 16, innerHeight - tip.offsetHeight - 4)) + "px";
}
const textOf = (under) => under ? under[1] < 0 ? pageText(under[0]) : slotText(...under) : [];
at("map").onmousemove = (event) => hover(event, textOf(underMap(event.offsetX, event.offsetY)));
at("page").onmousemove = (event) => hover(event, textOf(underPage(event.offsetX, event.offsetY)));
at("curve").onmousemove = (event) => hover(event, curveText(event.offsetX));
at("times").onmousemove = (event) => hover(event, timesText(event.offsetX));
at("strip").onmousemove = (event) => hover(event, stripText(event.offsetX));
for (const id of ["map", "page", "curve", "times", "strip"]) at(id).onmouseleave = () => { at("tip").style.visibility = "hidden"; };

function choose(page) { chosen = Math.max(0, Math.min(pages - 1, page)); at("follow").checked = false; scrollToChosen(); ask(); }
function resize(by) { zoom = Math.max(0, Math.min(8, zoom + by)); layOut(); scrollToChosen(); ask(); }
// a click on a page chooses it, and one on a slot its block
function pick(under) {
  if (!under) return;
  choose(under[0]);
  if (under[1] >= 0) showSlot(64 * under[0] + under[1]);
}
at("map").onclick = (event) => pick(underMap(event.offsetX, event.offsetY));
at("page").onclick = (event) => pick(underPage(event.offsetX, event.offsetY));
at("frame").onscroll = () => { if (at("frame").scrollTop !== grid.top) ask(); };
at("follow").onchange = ask;
at("smaller").onclick = () => resize(-1);
at("larger").onclick = () => resize(1);
for (const id of ["trace", "times"]) at(id).onclick = ({ offsetX }) => goEvent(eventAt(unitUnder(offsetX)));
at("strip").onclick = ({ offsetX }) => goCycle(cycleAt(unitUnder(offsetX)));
at("curve").onclick = ({ offsetX }) => { if (points.length) markWindow(pointAt(offsetX).window); };
at("to-whole").onchange = drawCurve;
const turnScale = () => { at("to-whole").checked = !at("to-whole").checked; drawCurve(); };
for (const name in SOUGHT) at("seek-" + name).onclick = (event) => search(name, event.shiftKey ? -1 : 1);
at("above").value = Math.floor(quantum / 2);
at("life-form").onsubmit = (event) => { event.preventDefault(); showAsked(); };
at("life-here").onclick = showStepsBlock;
at("copy").onclick = copyLink;
Object.assign(at("event"), { min: skipped, max: numberOf(events.length) });
at("event").oninput = () => goEvent(+at("event").value - skipped);
at("step").oninput = () => go(firstMoment[now.event] + +at("step").value);
at("event-back").onclick = () => goEvent(now.event - 1);
at("event-on").onclick = () => goEvent(now.event + 1);
at("step-back").onclick = () => go(moment - 1);
at("step-on").onclick = () => go(moment + 1);
at("as-text").ontoggle = ask;
const dark = matchMedia("(prefers-color-scheme: dark)");
function setTheme(isDark) { document.documentElement.dataset.theme = isDark ? "dark" : "light"; drawAll(); }
const turnTheme = () => setTheme(document.documentElement.dataset.theme !== "dark");
dark.onchange = () => setTheme(dark.matches);
at("theme").onclick = turnTheme;
const KEYS = {
  ArrowRight: () => go(moment + 1), ArrowLeft: () => go(moment - 1), ArrowDown: () => goEvent(now.event + 1), ArrowUp: () => goEvent(now.event - 1),
  PageDown: () => goEvent(now.event + 100), PageUp: () => goEvent(now.event - 100), Home: () => go(0), End: () => go(momentCount - 1),
  "+": () => resize(1), "-": () => resize(-1), "[": () => choose(chosen - 1), "]": () => choose(chosen + 1), t: turnTheme,
  w: () => nextWindow(1), W: () => nextWindow(-1), Escape: unmark, "%": turnScale, b: showStepsBlock, l: copyLink,
};
for (const name in SOUGHT) { const { key } = SOUGHT[name]; KEYS[key] = () => search(name, 1); KEYS[key.toUpperCase()] = () => search(name, -1); }
// on the slider of events left and right go by events
const ON_EVENTS = { ArrowRight: "ArrowDown", ArrowLeft: "ArrowUp" };
addEventListener("keydown", (event) => {
  if (event.target.matches("#block, #above")) return;
  const key = KEYS[event.target.id === "event" && ON_EVENTS[event.key] || event.key];
  if (!key || event.ctrlKey || event.metaKey || event.altKey) return;
  event.preventDefault(); key();
});
addEventListener("resize", drawAll);

// (the address may have followed the reader since)
addEventListener("hashchange", (event) => visit(new URL(event.newURL).hash));
// which events the page has, and which option shows those after them
function tellRange() {
  const last = numberOf(events.length), isWhole = events.length === run.all;
  const some = events.length ? `events ${numberOf(1)} to ${last}` : "no event";
  return isWhole ? `${run.all} events` : `${some} of ${run.all}` + (last < run.all ? `; --from ${last + 1} shows those after them` : "");
}
(function begin() {
  at("config").textContent = `${pages} pages, quantum ${quantum}, trigger ${trigger}, every ${every}, rules ${rules}; ${tellRange()}`;
  for (const { colour, sign } of STATES) {
    const item = add(at("key"), "li", ""), sample = add(item, "i", sign);
    sample.style.background = `var(${colour})`; add(item, "span", "");
    if (colour === "--marked") sample.style.color = "var(--onmarked)";
    if (colour === "--white") sample.style.color = "var(--ink)";
  }
  for (const phase of PHASES) add(at("phases"), "li", phase);
  for (const phase of PHASES.slice(1)) { const item = add(at("strip-key"), "li", ""); add(item, "i", "").style.background = `var(--${phase})`; add(item, "span", phase); }
  for (const name of ["reply", "stat", "cursor", "left", "grey"]) { add(at("facts"), "dt", name); add(at("facts"), "dd", "").id = "fact-" + name; }
  at("points").textContent = points.map((p) => `window ${p.window} least ${p.least} floor ${p.floor < 0 ? "none" : p.floor}`).join("\n");
  beginTable();
  visit(location.hash);
  setTheme(dark.matches);
})();
</script>
</body>
</html>
"##;
