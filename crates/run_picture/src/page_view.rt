//! What stands below the runs of a page at last: how its script shows what is so after an act, and
//! goes from act to act, and from outcome to outcome.

/// What shows a run, and goes through it, and the outcomes.
pub(crate) const VIEW: &str = r##"
// ---- who owns and watches whom

const ROW = 44;
const LEFT = { x: 2, width: 132 };
const RIGHT = { x: 196, width: 104 };

// All holders and blocks of the run, each with a place that stays; in a long run those of now.
function placesOf(state) {
  const every = run.acts.length * run.threads > 4000 ? [] : run.acts;
  const roots = new Map();
  const blocks = new Set();
  for (const act of every) {
    for (const it of [...act.names, ...act.cells]) if (!it.inside) roots.set(it.holder, it.order);
    for (const [block] of act.counts) blocks.add(block);
  }
  const isLong = every.length === 0 || roots.size > 16 || blocks.size > 16;
  if (isLong) {
    roots.clear();
    blocks.clear();
    for (const block of state.counts.keys()) blocks.add(block);
    for (const it of state.pointers) {
      if (it.inside) blocks.add(it.inside);
      else roots.set(it.holder, it.order);
    }
  }
  const holders = [...roots.keys()].sort((a, b) => roots.get(a) - roots.get(b));
  return { roots: holders, blocks: [...blocks].sort((a, b) => a - b) };
}

function putBox(svg, place, row, kind, words) {
  const group = put(svg, "g", { class: kind });
  put(group, "rect", { x: place.x, y: row * ROW + 6, width: place.width, height: 32, rx: 4 });
  const two = words[1] !== "";
  put(group, "text", { x: place.x + 6, y: row * ROW + (two ? 20 : 26) }, words[0]);
  if (two) put(group, "text", { x: place.x + 6, y: row * ROW + 33, class: "counts" }, words[1]);
}

function putMarker(svg, kind) {
  const marker = put(put(svg, "defs"), "marker", { id: `to-${kind}`, viewBox: "0 0 8 8", refX: 7,
    refY: 4, markerWidth: 8, markerHeight: 8, markerUnits: "userSpaceOnUse", orient: "auto" });
  put(marker, "path", { d: "M0 0L8 4L0 8z", class: kind });
}

// A straight line from a holder to what it points to; a bow from an object to another.
function lineOf(it, places, shift) {
  const to = places.blocks.indexOf(it.block) * ROW + 22 + shift;
  if (!it.inside) {
    const from = places.roots.indexOf(it.holder) * ROW + 22;
    return `M${LEFT.x + LEFT.width} ${from}L${RIGHT.x - 1} ${to}`;
  }
  const middle = places.blocks.indexOf(it.inside) * ROW + 22;
  const x = RIGHT.x + RIGHT.width;
  const [from, end] = it.inside === it.block ? [middle - 9, middle + 9] : [middle - shift, to];
  const bow = x + Math.min(56, 30 + Math.abs(end - from) / 4);
  return `M${x} ${from}C${bow} ${from} ${bow} ${end} ${x + 1} ${end}`;
}

function wordsOf(counts) {
  return `${counts.owners} own, ${counts.weaks} weak`;
}

function drawGraph(state) {
  const places = placesOf(state);
  const rows = Math.max(places.roots.length, places.blocks.length, 1);
  byId("graph").replaceChildren();
  const svg = put(byId("graph"), "svg", { viewBox: `0 0 360 ${rows * ROW}`, role: "img",
    "aria-label": "Who owns and watches whom; the table tells the same" });
  putMarker(svg, "owner");
  putMarker(svg, "weak");
  const holding = new Set(state.pointers.map((it) => it.holder));
  const ending = new Set(state.pointers.map((it) => it.inside));
  places.roots.forEach((holder, row) => {
    if (holding.has(holder)) putBox(svg, LEFT, row, "holder", [holder, ""]);
  });
  places.blocks.forEach((block, row) => {
    const counts = state.counts.get(block);
    if (!counts && !ending.has(block)) return;
    const kind = counts && counts.owners > 0 ? "object" : "object expired";
    putBox(svg, RIGHT, row, kind, [`block ${block}`, counts ? wordsOf(counts) : "is ending"]);
  });
  const seen = new Map();
  for (const it of state.pointers) {
    const before = seen.get(it.block) || 0;
    seen.set(it.block, before + 1);
    const kind = it.owns ? "owner" : "weak";
    const line = put(svg, "path", { class: kind, d: lineOf(it, places, (before % 5) * 6 - 12),
      "marker-end": `url(#to-${kind})`, "data-from": it.holder, "data-to": it.block });
    put(line, "title", {}, `${it.holder} ${it.owns ? "owns" : "watches"} block ${it.block}`);
  }
}

function fillTable(state) {
  byId("objects").replaceChildren();
  for (const block of [...state.counts.keys()].sort((a, b) => a - b)) {
    const { owners, weaks } = state.counts.get(block);
    const row = put(byId("objects"), "tr", { "data-block": block });
    const holders = state.pointers.filter((it) => it.block === block);
    const words = holders.map((it) => `${it.holder}${it.owns ? "" : " (weak)"}`);
    const held = words.map((it) => it.replaceAll(" ", "\u00a0")).join(", ");
    for (const cell of [block, owners, weaks, held]) put(row, "td", {}, String(cell));
  }
}

// ---- the lines that were told

function putLines() {
  byId("lines").replaceChildren();
  for (const [index, act] of run.acts.entries()) {
    for (const line of act.said) {
      const item = put(byId("lines"), "li", { "data-made": index + 1 });
      put(item, "a", { href: linkTo(act.number) }, line);
    }
  }
}

function markLines(made) {
  for (const item of byId("lines").children) {
    const at = Number(item.dataset.made);
    item.className = at === made ? "last" : at > made ? "later" : "";
    if (at === made) showIn(item.parentElement, item);
  }
}

// ---- the outcomes, of which a page of one run has none

let chosen = 0;
const hasOutcomes = () => runs[0].told.length > 0;
const linkTo = (number) => (hasOutcomes() ? `#${chosen + 1}.${number}` : `#${number}`);

// What a line tells of: a statement, or what is left.
const subjectOf = (line) => (/^\d+\.\S+ /.test(line) ? cut(line)[0] : "left");

function putOutcomes() {
  if (!hasOutcomes()) return;
  document.body.classList.add("outcomes");
  byId("title").textContent = document.title = "All orders of a script, outcome by outcome";
  byId("count").textContent = closing.join("; ");
  const differ = (closing[1] || "").split(" ");
  for (const [index, { told: [head, ...lines] }] of runs.entries()) {
    const link = put(put(byId("outcomes"), "li"), "a", { href: `#${index + 1}` });
    put(link, "strong", {}, head);
    for (const line of lines) put(link, differ.includes(subjectOf(line)) ? "b" : "span", {}, line);
  }
}

function choose(index) {
  chosen = index;
  read(runs[index].lines);
  document.querySelector("main").classList.toggle("many", run.threads > 2);
  byId("slider").min = firstShown();
  byId("slider").max = run.acts.length;
  putColumns();
  putLines();
  byId("outcome-back").disabled = index === 0;
  byId("outcome-on").disabled = index === runs.length - 1;
  for (const [at, item] of [...byId("outcomes").children].entries()) {
    item.firstChild.setAttribute("aria-current", at === index);
    if (at === index) showIn(item.parentElement, item);
  }
}

// To another outcome, after as many acts.
function turnTo(index) {
  if (!runs[index]) return;
  choose(index);
  go(made);
}

// ---- from act to act

let made = 0;

function tell() {
  const act = made > 0 ? run.acts[made - 1] : undefined;
  const last = run.acts.length ? run.acts[run.acts.length - 1].number : 0;
  const of = hasOutcomes() ? `outcome ${chosen + 1}, ` : "";
  byId("place").textContent = `${of}act ${numberOf(made)} of ${last}`;
  byId("did").textContent = act ? `${act.at} \u2013 ${act.word}` : "Before the first act";
  byId("told").textContent = act ? act.said.join("\n") : "";
  const isOver = made === run.acts.length;
  const left = run.left.map(([block, color]) => `block ${block} ${meaning[color]}`);
  const end = run.totals ? [run.totals, ...left] : ["The run goes on: no more acts are on this page."];
  byId("left").textContent = isOver ? end.join("; ") : "";
}

const meaning = { white: "is kept", orange: "is leaked, in a knot", lightgrey: "is leaked" };

function show(next) {
  made = Math.min(Math.max(next, firstShown()), run.acts.length);
  const state = stateAfter(made);
  tell();
  markColumns(made);
  markLines(made);
  drawGraph(state);
  fillTable(state);
  byId("slider").value = made;
  byId("slider").setAttribute("aria-valuetext", byId("place").textContent);
  for (const [id, to] of Object.entries(moves)) byId(id).disabled = to() === made;
}

function go(next) {
  show(next);
  history.replaceState(null, "", linkTo(numberOf(made)));
}

// The next act of which this is so, or the last one before; where there is none, where we are.
function seek(step, isSo) {
  for (let at = made + step; at > firstShown() && at <= run.acts.length; at += step) {
    if (isSo(run.acts[at - 1])) return at;
  }
  return made;
}

const hasLine = (act) => act.said.length > 0;
const moves = {
  back: () => Math.max(made - 1, firstShown()),
  on: () => Math.min(made + 1, run.acts.length),
  "line-back": () => seek(-1, hasLine),
  "line-on": () => seek(1, hasLine),
  "end-back": () => seek(-1, isEnd),
  "end-on": () => seek(1, isEnd),
};
const keys = {
  ArrowLeft: moves.back,
  ArrowRight: moves.on,
  n: moves["line-on"],
  N: moves["line-back"],
  e: moves["end-on"],
  E: moves["end-back"],
  Home: firstShown,
  End: () => run.acts.length,
};

function onKey(event) {
  const to = keys[event.key];
  if (event.ctrlKey || event.altKey || event.metaKey) return;
  if (event.key === "o") turnTo(chosen + 1);
  if (event.key === "O") turnTo(chosen - 1);
  if (!to) return;
  event.preventDefault();
  go(to());
}

// After the first act that tells a line; where none does, as the run begins.
function firstTold() {
  const index = run.acts.findIndex((act, at) => at >= firstShown() && hasLine(act));
  return index < 0 ? firstShown() : index + 1;
}

// The outcome and the act that the link names, where they are there. Where it names no act, the first line.
function followLink() {
  const words = location.hash.slice(1).split(".");
  const outcome = hasOutcomes() ? Number(words.shift()) - 1 : 0;
  choose(runs[outcome] ? outcome : 0);
  const index = run.acts.findIndex((act) => act.number === Number(words[0]));
  show(words[0] ? index + 1 : firstTold());
}

function begin() {
  readPage([...document.querySelectorAll("pre")].map((it) => it.textContent));
  document.documentElement.classList.add("shown");
  for (const it of document.querySelectorAll("[hidden]")) it.hidden = false;
  putOutcomes();
  for (const [id, to] of Object.entries(moves)) byId(id).addEventListener("click", () => go(to()));
  byId("outcome-back").addEventListener("click", () => turnTo(chosen - 1));
  byId("outcome-on").addEventListener("click", () => turnTo(chosen + 1));
  byId("slider").addEventListener("input", () => go(Number(byId("slider").value)));
  document.addEventListener("keydown", onKey);
  window.addEventListener("hashchange", followLink);
  followLink();
}

begin();
</script>
</body>
</html>
"##;
