//! What stands below the runs of a page first: how its script reads their lines, and the threads.

/// What reads the runs, and shows the threads of one.
pub(crate) const READER: &str = r##"<script>
"use strict";

// ---- the runs of the page

const byId = (id) => document.getElementById(id);
const runs = [];
let closing = [];

const linesOf = (text) => text.split("\n").filter((line) => line !== "");

// On a page of outcomes the lines that one tells stand before those of its run, and behind all runs how
// many there are, and where they differ.
function readPage(texts) {
  let told = [];
  for (const text of texts) {
    if (text.startsWith("outcome ")) told = linesOf(text);
    else if (text.startsWith("outcomes ")) closing = linesOf(text);
    else runs.push({ told, lines: linesOf(text) });
  }
}

// ---- the run that is shown, as its lines have it

const noRun = () => ({ threads: 0, statements: [], names: [], acts: [], left: [], totals: "" });
let run = noRun();

// A line's first word says what it is; the act whose lines these are is the last.
const readers = {
  threads(rest) {
    run.threads = Number(rest);
    for (let thread = 0; thread <= run.threads; thread++) {
      run.statements.push([]);
      run.names.push([]);
    }
  },
  script(rest) {
    const [thread, statement] = cut(rest);
    run.statements[thread].push(statement);
  },
  spelled(rest) {
    const [thread, number, name] = rest.split(" ");
    run.names[thread][number] = name;
  },
  act(rest) {
    const [number, thread, ...word] = rest.split(" ");
    run.acts.push({ number: Number(number), thread: Number(thread), word: word.join(" "), at: "",
      said: [], counts: [], names: [], cells: [] });
  },
  at(rest) { lastAct().at = rest; },
  said(rest) { lastAct().said.push(rest); },
  block(rest) {
    const [block, owners, weaks] = rest.split(" ");
    lastAct().counts.push([Number(block), Number(owners), Number(weaks.slice(1))]);
  },
  name(rest) {
    const [thread, number, kind, block] = rest.split(" ");
    const name = nameOf(thread, Number(number));
    lastAct().names.push({ ...pointer(name, kind, block), order: thread * 64 + Number(number) });
  },
  free(rest) {
    const [number, kind, block] = rest.split(" ");
    const cell = number < 128 ? `s${number}` : `w${number - 128}`;
    lastAct().cells.push({ ...pointer(cell, kind, block), order: 65536 + Number(number) });
  },
  member(rest) {
    const [inside, number, kind, block] = rest.split(" ");
    const holder = `${inside}.${["first", "next", "up"][number]}`;
    lastAct().cells.push({ ...pointer(holder, kind, block), inside: Number(inside) });
  },
  left(rest) { run.left.push(rest.split(" ")); },
  totals(rest) { run.totals = rest; },
};

const lastAct = () => run.acts[run.acts.length - 1];

function cut(text) {
  const at = text.indexOf(" ");
  return [text.slice(0, at), text.slice(at + 1)];
}

function pointer(holder, kind, block) {
  return { holder, owns: kind === "owner", block: Number(block), inside: 0, order: 0 };
}

// Behind a thread's names are what it is about to drop, and what it has in hand.
function nameOf(thread, number) {
  const names = run.names[thread];
  if (number < names.length) return `${thread} ${names[number]}`;
  return `${thread} ${number === names.length ? "(drops)" : "(in hand)"}`;
}

function read(lines) {
  run = noRun();
  for (const line of lines) {
    const [word, rest] = cut(line);
    readers[word](rest);
  }
}

// ---- what is so after so many acts

function stateAfter(made) {
  const counts = new Map();
  const names = new Map();
  for (const act of run.acts.slice(0, made)) {
    for (const [block, owners, weaks] of act.counts) counts.set(block, { owners, weaks });
    names.set(act.thread, act.names);
  }
  for (const [block, it] of counts) if (it.owners + it.weaks === 0) counts.delete(block);
  const held = [...names.keys()].sort((a, b) => a - b).flatMap((thread) => names.get(thread));
  const cells = made > 0 ? run.acts[made - 1].cells : [];
  return { counts, pointers: [...held, ...cells] };
}

const isEnd = (act) => act.said.some((line) => /^\S+ end /.test(line));
const firstShown = () => (run.acts.length && run.acts[0].number > 1 ? 1 : 0);
const numberOf = (made) => (made > 0 ? run.acts[made - 1].number : 0);

// ---- elements

const SVG = "http://www.w3.org/2000/svg";

function put(parent, tag, attributes, text) {
  const isDrawn = tag === "svg" || parent.namespaceURI === SVG;
  const it = isDrawn ? document.createElementNS(SVG, tag) : document.createElement(tag);
  for (const [name, value] of Object.entries(attributes || {})) it.setAttribute(name, value);
  if (text !== undefined) it.textContent = text;
  parent.append(it);
  return it;
}

// ---- the threads

function putColumns() {
  byId("columns").replaceChildren();
  for (let thread = 1; thread <= run.threads; thread++) {
    const column = put(byId("columns"), "div");
    put(column, "h2", {}, `thread ${thread}`);
    const list = put(column, "ol");
    run.statements[thread].forEach((statement, index) => {
      put(list, "li", { "data-place": `${thread}.${index + 1}` }, `${index + 1} ${statement}`);
    });
    put(list, "li", { "data-place": `${thread}.end` }, "end");
  }
}

const placeOf = (act) => cut(`${act.at} `)[0];

function markColumns(made) {
  const next = new Map();
  for (const act of run.acts.slice(made)) {
    if (!next.has(act.thread)) next.set(act.thread, placeOf(act));
  }
  const turn = made < run.acts.length ? placeOf(run.acts[made]) : "";
  for (let thread = 1; thread <= run.threads; thread++) {
    let isBefore = true;
    for (const item of document.querySelectorAll(`[data-place^="${thread}."]`)) {
      const isNext = item.dataset.place === next.get(thread);
      isBefore = isBefore && !isNext;
      item.className = isNext ? "next" : isBefore ? "done" : "";
      if (item.dataset.place !== turn) continue;
      item.className = "turn";
      showIn(item.parentElement, item);
      showAside(item.parentElement.parentElement);
    }
  }
}

// Scrolls a list, and not the page, to one of its items.
function showIn(list, item) {
  const top = item.offsetTop - list.offsetTop;
  if (top < list.scrollTop || top > list.scrollTop + list.clientHeight - 24) {
    list.scrollTop = top - list.clientHeight / 2;
  }
}

// Scrolls the columns to one of them, where it isn't all to be seen.
function showAside(column) {
  const columns = byId("columns");
  const left = column.offsetLeft - columns.offsetLeft;
  const right = left + column.offsetWidth;
  if (left < columns.scrollLeft) columns.scrollLeft = left;
  else if (right > columns.scrollLeft + columns.clientWidth) {
    columns.scrollLeft = right - columns.clientWidth;
  }
}
"##;
