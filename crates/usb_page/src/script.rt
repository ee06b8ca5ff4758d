//! The page after its text: the script that reads that text and draws it.

/// From the end of the text to the last byte. The script uses no network and no library, and sets no element by markup.
pub(crate) const TAIL: &str = r##"</pre>
<script>
(function () {
"use strict";
const $ = (id) => document.getElementById(id);
const KINDS = [["control", "control"], ["data", "data"], ["nak", "NAK"], ["stall", "STALL"], ["none", "no answer"],
  ["damage", "damage"], ["plug", "plug"], ["unplug", "unplug"], ["listing", "listing"], ["result", "result"]];
const isMark = (kind) => kind === "plug" || kind === "unplug" || kind === "listing" || kind === "result";
const ROW = 22, LANE = 20, AXIS = 18, HEAD = 40, GUTTER = 150;

// The run: each line, and the entry that it is of. A listing and news are one entry of several lines.

function attemptOf(line) {
  const found = /^(\d+) (?:PRE )?(SETUP|IN|OUT) (\d+)\.(\d+)/.exec(line);
  if (!found) return null;
  const at = line.indexOf("    ");
  const text = at < 0 ? line : line.slice(0, at);
  const last = text.slice(text.lastIndexOf(" / ") + 3);
  let kind = found[4] === "0" ? "control" : "data";
  if (/ \[(lost|pre lost|bit \d+)\]/.test(text)) kind = "damage";
  else if (last === "none" || last === "collision") kind = "none";
  else if (last === "STALL") kind = "stall";
  else if (last === "NAK") kind = "nak";
  return { kind, number: found[1], token: found[2], address: found[3], text: text.slice(found[1].length + 1),
    words: at < 0 ? "" : line.slice(at).trim() };
}

function entryOf(line) {
  const attempt = attemptOf(line);
  if (attempt) return attempt;
  const word = line.split(" ", 2);
  const kind = word[0] === "plug" || word[0] === "unplug" || word[0] === "listing" ? word[0] : "result";
  return { kind, text: line, path: kind === "listing" || line === "news" ? "" : word[1] || "" };
}

function read(text) {
  const lines = text.split("\n");
  if (lines[lines.length - 1] === "") lines.pop();
  const entries = [], entryAt = [];
  let open = null;
  lines.forEach((line, at) => {
    if (!open) {
      const entry = entryOf(line);
      entry.line = at;
      entry.index = entries.length;
      entries.push(entry);
      if (/^listing \d+$/.test(line) || line === "news") open = entry;
    } else if (line === "end") open = null;
    entryAt.push(entries[entries.length - 1]);
  });
  return { lines, entries, entryAt };
}

// Where an attempt goes: a device keeps its address until SET_ADDRESS gives that away again. Its path is what a listing
// says of the address; else the port that a hub reset before; else the only root port with a device.

function holderPath(holder) {
  if (holder.path === undefined) {
    const hub = holder.hub ? holderPath(holder.hub) : "";
    holder.path = hub ? hub + "." + holder.port : holder.root || "";
  }
  return holder.path;
}

function place(run) {
  const holders = new Map(), roots = new Set();
  let fresh = null, reset = null;
  const attempt = (entry) => {
    if (entry.address === "0") {
      if (!fresh) fresh = reset || { root: roots.size === 1 ? [...roots][0] : "" };
      reset = null;
      entry.holder = fresh;
      const given = /DATA0 0005(..)/.exec(entry.text);
      if (entry.token === "SETUP" && given) holders.set(String(parseInt(given[1], 16)), fresh);
      return;
    }
    fresh = null;
    if (!holders.has(entry.address)) holders.set(entry.address, {});
    entry.holder = holders.get(entry.address);
    const port = /DATA0 23030400(..)/.exec(entry.text);
    if (entry.token === "SETUP" && port) reset = { hub: entry.holder, port: parseInt(port[1], 16) };
  };
  for (const entry of run.entries) {
    if (entry.holder !== undefined || entry.address !== undefined) attempt(entry);
    else if (entry.kind === "plug" && !entry.path.includes(".")) roots.add(entry.path);
    else if (entry.kind === "unplug" && !entry.path.includes(".")) roots.delete(entry.path);
    else if (entry.kind === "listing") {
      for (let at = entry.line + 1; at < run.lines.length && run.lines[at] !== "end"; at++) {
        const named = /^(\S+) address (\d+) /.exec(run.lines[at]);
        const holder = named && holders.get(named[2]);
        if (holder) holder.path = named[1];
      }
    }
  }
  for (const entry of run.entries) {
    if (entry.holder) entry.path = holderPath(entry.holder);
    entry.where = entry.path || (entry.address === undefined ? "" : "address " + entry.address);
  }
}

const byPath = (one, other) => {
  const a = one.split("."), b = other.split(".");
  for (let i = 0; i < a.length && i < b.length; i++) if (a[i] !== b[i]) return a[i] - b[i];
  return a.length - b.length;
};

function lanesOf(run) {
  const paths = new Set(), others = new Set(), names = new Map();
  for (const entry of run.entries) {
    if (entry.kind === "plug") names.set(entry.path, entry.text.slice(entry.path.length + 6));
    if (isMark(entry.kind)) continue;
    (entry.path ? paths : others).add(entry.where);
  }
  const lanes = [...paths].sort(byPath).concat([...others].sort((a, b) => a.slice(8) - b.slice(8)));
  return lanes.map((where) => ({ where, name: names.get(where) || "" }));
}

const run = read($("run").textContent);
place(run);
const { lines, entries, entryAt } = run;
const lanes = lanesOf(run);
const laneAt = new Map(lanes.map((lane, at) => [lane.where, at]));
for (const entry of entries) entry.lane = isMark(entry.kind) ? -1 : laneAt.get(entry.where);
const attempts = entries.filter((entry) => entry.number);

// Shapes and colours.

function shape(ctx, kind, x, y, size, paint) {
  const r = size / 2;
  ctx.fillStyle = ctx.strokeStyle = paint;
  ctx.lineWidth = Math.max(1.2, size / 6);
  ctx.beginPath();
  if (kind === "control") ctx.rect(x - r * 0.85, y - r * 0.85, r * 1.7, r * 1.7);
  else if (kind === "data") ctx.arc(x, y, r * 0.95, 0, 7);
  else if (kind === "nak") ctx.arc(x, y, r * 0.75, 0, 7);
  else if (kind === "stall" || kind === "result") {
    ctx.moveTo(x, y - r); ctx.lineTo(x + r, y); ctx.lineTo(x, y + r); ctx.lineTo(x - r, y); ctx.closePath();
  } else if (kind === "none") {
    ctx.moveTo(x - r * 0.8, y - r * 0.8); ctx.lineTo(x + r * 0.8, y + r * 0.8);
    ctx.moveTo(x + r * 0.8, y - r * 0.8); ctx.lineTo(x - r * 0.8, y + r * 0.8);
  } else if (kind === "damage" || kind === "unplug") {
    ctx.moveTo(x, y - r * 1.1); ctx.lineTo(x + r * 1.1, y + r * 0.9); ctx.lineTo(x - r * 1.1, y + r * 0.9);
    ctx.closePath();
  } else if (kind === "plug") {
    ctx.moveTo(x, y + r * 1.1); ctx.lineTo(x + r * 1.1, y - r * 0.9); ctx.lineTo(x - r * 1.1, y - r * 0.9);
    ctx.closePath();
  } else for (const dy of [-0.7, 0, 0.7]) { ctx.moveTo(x - r * 0.9, y + dy * r); ctx.lineTo(x + r * 0.9, y + dy * r); }
  if (kind === "nak" || kind === "none" || kind === "listing" || kind === "unplug" || kind === "result") ctx.stroke();
  else ctx.fill();
}

const HEIGHTS = { control: 12, data: 12, nak: 4, stall: 14, none: 7, damage: 16 };
let colours = {};
function readColours() {
  const style = getComputedStyle(document.documentElement);
  for (const name of ["paper", "card", "ink", "soft", "line", "band", "pick", "accent", "mark"]) {
    colours[name] = style.getPropertyValue("--" + name).trim();
  }
  for (const [kind] of KINDS) colours[kind] = isMark(kind) ? colours.mark : style.getPropertyValue("--" + kind).trim();
}

function glyph(kind) {
  const canvas = document.createElement("canvas"), scale = window.devicePixelRatio || 1;
  canvas.width = canvas.height = 14 * scale;
  canvas.style.width = canvas.style.height = "14px";
  canvas.setAttribute("aria-hidden", "true");
  const ctx = canvas.getContext("2d");
  ctx.scale(scale, scale);
  shape(ctx, kind, 7, 7, 10, colours[kind]);
  return canvas;
}

// What the filter lets through.

const hidden = new Set();
let terms = [], visible = [], lets = new Uint8Array(entries.length);
function matches(line, entry) {
  if (hidden.has(entry.kind)) return false;
  if (!terms.length) return true;
  const where = entry.kind === "listing" ? line.split(" ", 1)[0] : entry.where;
  const text = (line + " " + entry.kind + " " + where).toLowerCase();
  return terms.every((term) => term[0] === "@" ? where.replace("address ", "") === term.slice(1) : text.includes(term));
}
function filter() {
  terms = $("filter").value.toLowerCase().split(/\s+/).filter((term) => term && term !== "@");
  visible = [];
  lets.fill(0);
  lines.forEach((line, at) => {
    if (!matches(line, entryAt[at])) return;
    visible.push(at);
    lets[entryAt[at].index] = 1;
  });
  $("shown").textContent = visible.length === lines.length ? lines.length + " lines"
    : visible.length + " of " + lines.length + " lines";
  $("space").style.height = visible.length * ROW + "px";
  drawRows(true);
  drawTime();
}
function only(where) {
  const term = "@" + where.replace("address ", "");
  $("filter").value = $("filter").value === term ? "" : term;
  filter();
}

// The rows: only those in view are elements.

let picked = -1, pickedLine = -1, firstRow = -1, endRow = -1;
function cell(row, text, name) {
  const span = document.createElement("span");
  if (name) span.className = name;
  span.textContent = text;
  row.append(span);
  return span;
}
function rowOf(at, top) {
  const line = lines[at], entry = entryAt[at], head = entry.line === at, row = document.createElement("div");
  row.className = "row";
  row.id = "line-" + at;
  row.setAttribute("role", "option");
  row.setAttribute("aria-selected", String(at === pickedLine));
  row.setAttribute("aria-posinset", String(top + 1));
  row.setAttribute("aria-setsize", String(visible.length));
  row.style.top = top * ROW + "px";
  cell(row, entry.number || "");
  const sign = cell(row, "");
  if (head) sign.append(glyph(entry.kind));
  cell(row, head ? entry.where : "");
  const text = cell(row, head && entry.number ? entry.text : line, head && !entry.number ? "head" : "");
  text.title = line;
  if (entry.words) cell(row, entry.words);
  row.onclick = () => pick(entry, at, false, true);
  return row;
}
function drawRows(anew) {
  const box = $("rows"), first = Math.max(0, Math.floor(box.scrollTop / ROW) - 10);
  const end = Math.min(visible.length, first + Math.ceil(box.clientHeight / ROW) + 20);
  if (!anew && first === firstRow && end === endRow) return;
  firstRow = first;
  endRow = end;
  const rows = document.createDocumentFragment();
  for (let top = first; top < end; top++) rows.append(rowOf(visible[top], top));
  $("space").replaceChildren(rows);
  const own = document.getElementById("line-" + pickedLine);
  if (own) box.setAttribute("aria-activedescendant", own.id);
  else box.removeAttribute("aria-activedescendant");
}
function rank(at) {
  let low = 0, high = visible.length;
  while (low < high) { const mid = (low + high) >> 1; if (visible[mid] < at) low = mid + 1; else high = mid; }
  return low;
}
function showRow(at) {
  const box = $("rows"), top = rank(at) * ROW;
  if (top < box.scrollTop || top + ROW > box.scrollTop + box.clientHeight) {
    box.scrollTop = top - box.clientHeight / 2;
  }
}

// The timeline: a canvas as large as what is in view.

const scroll = $("scroll"), canvas = $("canvas"), ctx = canvas.getContext("2d");
let step = 8, fitted = true;
const fitStep = () => Math.max(0.002, (scroll.clientWidth - GUTTER - 16) / Math.max(1, entries.length));
const clampStep = (wanted) => Math.min(28, Math.max(Math.min(fitStep(), 8), wanted));
function sizeTime() {
  if (fitted) step = Math.min(14, fitStep());
  $("size").style.width = Math.max(scroll.clientWidth, GUTTER + entries.length * step + 16) + "px";
  $("size").style.height = HEAD + Math.max(1, lanes.length) * LANE + 6 + "px";
  drawTime();
}
const xOf = (index) => GUTTER + 8 + (index + 0.5) * step - scroll.scrollLeft;
const yOf = (lane) => lane < 0 ? AXIS + 11 : HEAD + lane * LANE + LANE / 2 - scroll.scrollTop;

function drawLanes(width, height) {
  lanes.forEach((lane, at) => {
    const y = yOf(at) - LANE / 2;
    if (y < HEAD - LANE || y > height) return;
    ctx.fillStyle = at % 2 ? colours.card : colours.band;
    ctx.fillRect(0, y, width, LANE);
  });
}
function drawNames(height) {
  ctx.fillStyle = colours.card;
  ctx.fillRect(0, HEAD, GUTTER, height);
  drawLanes(GUTTER, height);
  ctx.textBaseline = "middle";
  ctx.save();
  ctx.beginPath();
  ctx.rect(0, HEAD, GUTTER - 6, height);
  ctx.clip();
  lanes.forEach((lane, at) => {
    const y = yOf(at);
    if (y < HEAD - LANE || y > height + LANE) return;
    ctx.font = "12px ui-monospace, 'DejaVu Sans Mono', monospace";
    ctx.fillStyle = colours.ink;
    ctx.fillText(lane.where, 8, y);
    const past = 16 + ctx.measureText(lane.where).width;
    ctx.font = "12px system-ui, 'DejaVu Sans', sans-serif";
    ctx.fillStyle = colours.soft;
    ctx.fillText(lane.name, past, y);
  });
  ctx.restore();
}
function drawAxis(first, end, width) {
  ctx.fillStyle = colours.card;
  ctx.fillRect(0, 0, width, HEAD);
  ctx.fillStyle = colours.soft;
  ctx.font = "11px system-ui, 'DejaVu Sans', sans-serif";
  ctx.textBaseline = "middle";
  let past = GUTTER;
  const every = [1, 2, 5, 10, 20, 50, 100, 200, 500, 1000, 2000, 5000, 10000, 20000, 50000, 100000]
    .find((n) => n * step >= 50) || 200000;
  for (let index = first; index < end; index++) {
    const number = entries[index].number;
    if (!number || number % every !== 0) continue;
    const x = xOf(index), wide = ctx.measureText(number).width;
    if (x - wide / 2 < past) continue;
    ctx.fillText(number, x - wide / 2, AXIS / 2);
    past = x + wide / 2 + 6;
  }
}
function drawEntry(entry, drawn) {
  const x = xOf(entry.index), y = yOf(entry.lane), size = Math.min(11, step * 0.8);
  if (y < HEAD - LANE || y > scroll.clientHeight + LANE) return;
  const key = entry.lane + entry.kind + lets[entry.index];
  if (step < 1 && drawn.get(key) === Math.floor(x)) return;
  drawn.set(key, Math.floor(x));
  ctx.globalAlpha = lets[entry.index] ? 1 : 0.13;
  if (step >= 6) shape(ctx, entry.kind, x, y, size, colours[entry.kind]);
  else {
    const tall = HEIGHTS[entry.kind];
    ctx.fillStyle = colours[entry.kind];
    ctx.fillRect(x - step / 2, y - tall / 2, Math.max(1, step * 0.85), tall);
  }
  ctx.globalAlpha = 1;
}
function drawMarks(first, end, height, lines) {
  const past = {};
  for (let index = first; index < end; index++) {
    const entry = entries[index], x = xOf(index), kind = lines ? "line" : entry.kind;
    if (entry.lane >= 0 || (lines && entry.kind === "result") || x - past[kind] < (lines ? 4 : 5)) continue;
    past[kind] = x;
    ctx.globalAlpha = lets[index] ? 1 : 0.13;
    if (lines) {
      ctx.fillStyle = colours.soft;
      ctx.globalAlpha *= 0.45;
      ctx.fillRect(x, HEAD, 1, height);
    } else shape(ctx, kind, x, yOf(-1), 10, colours[kind]);
  }
  ctx.globalAlpha = 1;
}
function drawTime() {
  const width = scroll.clientWidth, height = scroll.clientHeight, scale = window.devicePixelRatio || 1;
  if (canvas.width !== Math.round(width * scale) || canvas.height !== Math.round(height * scale)) {
    canvas.width = Math.round(width * scale);
    canvas.height = Math.round(height * scale);
    canvas.style.width = width + "px";
    canvas.style.height = height + "px";
  }
  ctx.setTransform(scale, 0, 0, scale, 0, 0);
  ctx.fillStyle = colours.card;
  ctx.fillRect(0, 0, width, height);
  const first = Math.max(0, Math.floor((scroll.scrollLeft - 16) / step));
  const end = Math.min(entries.length, Math.ceil((scroll.scrollLeft + width - GUTTER) / step) + 1);
  drawLanes(width, height);
  const chosen = entries[picked];
  if (chosen) {
    ctx.fillStyle = colours.pick;
    ctx.fillRect(xOf(picked) - Math.max(step, 8) / 2, HEAD, Math.max(step, 8), height);
  }
  drawMarks(first, end, height, true);
  const drawn = new Map();
  for (const last of [false, true]) {
    for (let index = first; index < end; index++) {
      const entry = entries[index];
      if (entry.lane >= 0 && (entry.kind === "damage") === last) drawEntry(entry, drawn);
    }
  }
  drawAxis(first, end, width);
  if (chosen) ring(chosen);
  drawMarks(first, end, height, false);
  drawNames(height);
  ctx.fillStyle = colours.card;
  ctx.fillRect(0, 0, GUTTER, HEAD);
  ctx.fillStyle = colours.soft;
  ctx.font = "12px system-ui, 'DejaVu Sans', sans-serif";
  ctx.fillText("attempt", 8, AXIS / 2);
  ctx.fillText("plugs and listings", 8, AXIS + 11);
  ctx.fillStyle = colours.line;
  ctx.fillRect(0, HEAD - 1, width, 1);
  ctx.fillRect(GUTTER - 1, 0, 1, height);
}
function ring(entry) {
  ctx.strokeStyle = colours.accent;
  ctx.lineWidth = 2;
  ctx.beginPath();
  ctx.arc(xOf(entry.index), yOf(entry.lane), 8, 0, 7);
  ctx.stroke();
}
function showMark(entry) {
  const x = xOf(entry.index), y = yOf(entry.lane);
  if (x < GUTTER + 12 || x > scroll.clientWidth - 12) {
    scroll.scrollLeft += x - (scroll.clientWidth + GUTTER) / 2;
  }
  if (entry.lane >= 0 && (y < HEAD + LANE / 2 || y > scroll.clientHeight - LANE / 2)) {
    scroll.scrollTop += y - scroll.clientHeight / 2;
  }
}
function zoom(factor, at) {
  const x = at === undefined ? (scroll.clientWidth - GUTTER) / 2 : at - GUTTER;
  const index = (scroll.scrollLeft + x) / step;
  fitted = false;
  step = clampStep(step * factor);
  sizeTime();
  scroll.scrollLeft = index * step - x;
  drawTime();
}
function markAt(event) {
  const box = canvas.getBoundingClientRect(), x = event.clientX - box.left, y = event.clientY - box.top;
  if (x < GUTTER) return null;
  const lane = y < HEAD ? -1 : Math.floor((y - HEAD + scroll.scrollTop) / LANE);
  const middle = Math.floor((x - GUTTER - 8 + scroll.scrollLeft) / step);
  const reach = Math.ceil(7 / step);
  for (let away = 0; away <= reach; away++) {
    for (const index of [middle - away, middle + away]) {
      const entry = entries[index];
      if (entry && entry.lane === lane) return entry;
    }
  }
  return null;
}

// One line is picked: in the rows, in the timeline, and in words.

function pick(entry, at, toRow, toMark) {
  picked = entry.index;
  pickedLine = at === undefined ? entry.line : at;
  if (toRow) showRow(pickedLine);
  if (toMark) showMark(entry);
  const what = KINDS.find(([kind]) => kind === entry.kind)[1];
  $("selected").textContent = (entry.number ? "Attempt " + entry.number + " at " + entry.where + ", " + what + ": "
    + entry.text : "After attempt " + attemptsBefore(entry.index) + ": " + lines[pickedLine])
    + (entry.words ? " (" + entry.words + ")" : "");
  drawRows(true);
  drawTime();
}
function attemptsBefore(index) {
  while (index >= 0 && !entries[index].number) index--;
  return index < 0 ? 0 : entries[index].number;
}
function along(by, lane) {
  let index = picked + by;
  if (picked < 0) index = by > 0 ? 0 : entries.length - 1;
  while (entries[index] && !(lets[index] && (lane === undefined || entries[index].lane === lane))) index += by;
  if (entries[index]) pick(entries[index], undefined, true, true);
}
function timeKey(event) {
  const lane = picked < 0 ? undefined : entries[picked].lane;
  const keys = { ArrowRight: () => along(1), ArrowLeft: () => along(-1), ArrowDown: () => along(1, lane),
    ArrowUp: () => along(-1, lane), Home: () => { picked = -1; along(1); }, "+": () => zoom(1.5), "=": () => zoom(1.5),
    End: () => { picked = entries.length; along(-1); }, "-": () => zoom(1 / 1.5), 0: fit,
    Enter: () => $("rows").focus(), PageDown: () => { scroll.scrollLeft += scroll.clientWidth / 2; },
    PageUp: () => { scroll.scrollLeft -= scroll.clientWidth / 2; } };
  press(keys, event);
}
function rowKey(event) {
  const page = Math.max(1, Math.floor($("rows").clientHeight / ROW) - 1);
  const move = (by) => {
    const now = pickedLine < 0 ? -1 : rank(pickedLine);
    const top = Math.min(visible.length - 1, Math.max(0, pickedLine < 0 ? 0 : now + by));
    if (visible.length) pick(entryAt[visible[top]], visible[top], true, true);
  };
  const keys = { ArrowDown: () => move(1), ArrowUp: () => move(-1), PageDown: () => move(page),
    PageUp: () => move(-page), Home: () => move(-lines.length), End: () => move(lines.length),
    Enter: () => scroll.focus() };
  press(keys, event);
}
function press(keys, event) {
  if (event.ctrlKey || event.metaKey || event.altKey || !keys[event.key]) return;
  event.preventDefault();
  keys[event.key]();
}
function fit() {
  fitted = true;
  sizeTime();
}

// The listings as trees, each made when it is opened.

const CLASSES = { 1: "audio", 2: "communications", 3: "HID", 5: "physical", 6: "image", 7: "printer",
  8: "mass storage", 9: "hub", 10: "communications data", 11: "smart card", 13: "content security", 14: "video",
  15: "health care", 220: "diagnostic", 224: "wireless", 239: "miscellaneous", 254: "application-specific",
  255: "vendor-specific" };
const byteAt = (hex, at) => parseInt(hex.slice(2 * at, 2 * at + 2), 16) || 0;
function classOf(device) {
  let hex = device.bytes, at = 4;
  if (byteAt(hex, 4) === 0) {
    hex = device.configuration;
    for (at = 0; at * 2 < hex.length && byteAt(hex, at + 1) !== 4; at += byteAt(hex, at) || 1024);
    at += 5;
  }
  const name = byteAt(hex, at), boot = byteAt(hex, at + 1) === 1 && byteAt(hex, at + 2);
  if (name === 3 && boot) return boot === 1 ? "HID keyboard" : boot === 2 ? "HID mouse" : "HID";
  return CLASSES[name] || "class " + hex.slice(2 * at, 2 * at + 2);
}
function devicesOf(entry) {
  const devices = new Map();
  for (let at = entry.line + 1; at < lines.length && lines[at] !== "end"; at++) {
    const found = /^(\S+) (\S+) (.*)$/.exec(lines[at]);
    if (!found) continue;
    const [line, path, key, rest] = found;
    if (!devices.has(path)) devices.set(path, { path, lines: [], below: [], configuration: "" });
    const device = devices.get(path), part = rest.split(" ");
    device.lines.push(line);
    if (key === "address") [device.address, device.speed, device.bytes] = part;
    else if (key === "config" && part[2] === "*") device.configuration = part[1];
    else if (key === "hub") [device.ports, , device.supply] = part;
    else device[key] = rest;
  }
  return devices;
}
const vendor = (hex) => (hex.slice(18, 20) + hex.slice(16, 18) + ":" + hex.slice(22, 24) + hex.slice(20, 22))
  .toLowerCase();
function wordsOf(device, above) {
  if (!device.bytes) return "";
  const given = above ? above.supply : "500";
  const parts = ["address " + device.address, device.speed + " speed", vendor(device.bytes), classOf(device)];
  if (device.ports) parts.push(device.ports + (device.ports === "1" ? " port" : " ports"));
  if (device.configuration) {
    parts.push(2 * byteAt(device.configuration, 8) + (given ? " of " + given : "") + " mA");
  }
  return parts.join(", ");
}
// A string without its quotes, with the letters that it spells by number; what could end or turn a line stays a number.
const shown = (string) => (string || "").replace(/^"|"$/g, "").replace(/\\u([0-9A-F]{4})/g, (all, hex) => {
  const unit = parseInt(hex, 16);
  return unit < 0xa0 || /[\p{C}\p{Z}]/u.test(String.fromCharCode(unit)) ? all : String.fromCharCode(unit);
});
function make(name, text, parent) {
  const made = document.createElement(name);
  made.textContent = text;
  if (parent) parent.append(made);
  return made;
}
function branch(device, above, names) {
  const item = document.createElement("li"), path = make("button", device.path, item);
  path.className = "path";
  path.title = "Only the lines of " + device.path;
  path.onclick = () => only(device.path);
  item.append(" ");
  make("b", shown(device.product) || names.get(device.path) || "", item);
  if (device.manufacturer) item.append(" by " + shown(device.manufacturer));
  if (device.serial) item.append(", serial " + shown(device.serial));
  if (device.refused) make("small", "refused: " + device.refused, item).className = "refused";
  if (device.bytes) {
    const more = make("details", "", item);
    make("summary", wordsOf(device, above), more);
    make("pre", device.lines.join("\n"), more);
  }
  if (device.below.length) {
    const list = make("ul", "", item);
    for (const one of device.below) list.append(branch(one, device, names));
  }
  return item;
}
function tree(entry, box) {
  const devices = devicesOf(entry), names = new Map(), top = make("ul", "", box);
  for (let index = 0; index < entry.index; index++) {
    const one = entries[index];
    if (one.kind === "plug") names.set(one.path, one.text.slice(one.path.length + 6));
  }
  for (const device of devices.values()) {
    let hub = device.path;
    do hub = hub.slice(0, Math.max(0, hub.lastIndexOf("."))); while (hub && !devices.has(hub));
    device.above = devices.get(hub);
    if (device.above) device.above.below.push(device);
  }
  for (const device of devices.values()) if (!device.above) top.append(branch(device, null, names));
  if (!devices.size) make("li", "no devices", top);
}
function trees() {
  const listings = entries.filter((entry) => entry.kind === "listing");
  listings.forEach((entry, at) => {
    const box = make("details", "", $("trees"));
    const after = attemptsBefore(entry.index);
    make("summary", "Listing " + entry.text.slice(8) + ", after attempt " + after, box);
    box.addEventListener("toggle", () => {
      if (box.open && box.childElementCount === 1) tree(entry, box);
    });
    if (at === listings.length - 1) { tree(entry, box); box.open = true; }
  });
  if (!listings.length) make("p", "This run has no listing.", $("trees"));
}

// The page around them.

function kinds() {
  $("kinds").replaceChildren();
  for (const [kind, words] of KINDS) {
    const count = entries.reduce((sum, entry) => sum + (entry.kind === kind), 0);
    if (!count) continue;
    const button = make("button", "", $("kinds"));
    button.className = "kind";
    button.type = "button";
    button.setAttribute("aria-pressed", String(!hidden.has(kind)));
    button.append(glyph(kind), words + " " + count);
    button.onclick = () => {
      if (!hidden.delete(kind)) hidden.add(kind);
      button.setAttribute("aria-pressed", String(!hidden.has(kind)));
      filter();
    };
  }
}
const THEMES = ["system", "light", "dark"];
let theme = "system";
function setTheme(wanted) {
  theme = THEMES.includes(wanted) ? wanted : "system";
  if (theme === "system") delete document.documentElement.dataset.theme;
  else document.documentElement.dataset.theme = theme;
  $("theme").textContent = "Theme: " + theme;
  try { localStorage.setItem("usbplan-theme", theme); } catch (refused) { /* a page without storage */ }
  repaint();
}
function repaint() {
  readColours();
  kinds();
  drawRows(true);
  drawTime();
}
function start() {
  const count = (n, one) => n + " " + one + (n === 1 ? "" : "s");
  const many = (kind) => entries.reduce((sum, entry) => sum + (entry.kind === kind), 0);
  $("name").textContent = document.querySelector("title").textContent.replace(/^usbplan: /, "");
  const ended = lines[lines.length - 1] === "end" && entries[entries.length - 1].kind === "listing";
  $("counts").textContent = [count(attempts.length, "attempt"), count(many("plug"), "plug"),
    count(many("unplug"), "unplug"), count(many("listing"), "listing"), many("damage") + " damaged"].join(", ")
    + (ended ? "" : ". The run stopped before its end.");
  if (entries.some((entry) => entry.words)) { $("log").classList.add("words"); $("words-head").hidden = false; }
  document.querySelector("main").hidden = false;
  let kept = "system";
  try { kept = localStorage.getItem("usbplan-theme"); } catch (refused) { /* a page without storage */ }
  setTheme(kept);
  trees();
  sizeTime();
  filter();
  sizeTime();
  Object.assign(document.documentElement.dataset, { lines: lines.length, attempts: attempts.length,
    lanes: lanes.length, listings: many("listing"), plugs: many("plug"), unplugs: many("unplug"),
    damaged: many("damage") });
}

$("theme").onclick = () => setTheme(THEMES[(THEMES.indexOf(theme) + 1) % 3]);
$("in").onclick = () => zoom(1.5);
$("out").onclick = () => zoom(1 / 1.5);
$("fit").onclick = fit;
$("filter").oninput = filter;
$("rows").onscroll = () => drawRows(false);
$("rows").onkeydown = rowKey;
let due = false;
scroll.onscroll = () => {
  if (!due) requestAnimationFrame(() => { due = false; drawTime(); });
  due = true;
};
scroll.onkeydown = timeKey;
scroll.addEventListener("wheel", (event) => {
  if (!event.ctrlKey) return;
  event.preventDefault();
  zoom(event.deltaY < 0 ? 1.2 : 1 / 1.2, event.clientX - canvas.getBoundingClientRect().left);
}, { passive: false });
canvas.onclick = (event) => {
  const box = canvas.getBoundingClientRect(), y = event.clientY - box.top;
  const lane = lanes[Math.floor((y - HEAD + scroll.scrollTop) / LANE)];
  if (event.clientX - box.left < GUTTER) { if (y > HEAD && lane) only(lane.where); return; }
  const entry = markAt(event);
  if (entry) pick(entry, undefined, true, false);
};
canvas.onmousemove = (event) => {
  const entry = markAt(event), tip = $("tip");
  tip.hidden = !entry;
  canvas.style.cursor = entry ? "pointer" : "default";
  if (!entry) return;
  tip.textContent = entry.where ? entry.where + ": " + lines[entry.line] : lines[entry.line];
  tip.style.left = Math.min(event.clientX + 12, window.innerWidth * 0.6) + "px";
  tip.style.top = event.clientY + 16 + "px";
};
canvas.onmouseleave = () => { $("tip").hidden = true; };
document.addEventListener("keydown", (event) => {
  if (event.key !== "/" || event.target.tagName === "INPUT") return;
  event.preventDefault();
  $("filter").focus();
});
window.addEventListener("resize", () => { sizeTime(); drawRows(true); });
matchMedia("(prefers-color-scheme: dark)").addEventListener("change", repaint);
start();
})();
</script>
</body>
</html>
"##;
