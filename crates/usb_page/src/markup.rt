//! The page before its name, and between its name and its text.

/// From the first byte to the name in the title: how the page looks.
pub(crate) const HEAD: &str = r##"<!doctype html>
<html lang="en">
<head>
<meta charset="utf-8">
<meta name="viewport" content="width=device-width, initial-scale=1">
<meta name="color-scheme" content="light dark">
<meta http-equiv="Content-Security-Policy"
  content="default-src 'none'; style-src 'unsafe-inline'; script-src 'unsafe-inline'">
<style>
:root { color-scheme: light; --paper: #f6f7f9; --card: #ffffff; --ink: #1b2230; --soft: #5a6475; --line: #d5dae3;
  --band: #f0f3f8; --pick: #dbe8ff; --accent: #1f5fd0; --control: #0067b3; --data: #00805c; --nak: #7b8494;
  --stall: #a03a8c; --none: #c05000; --damage: #c8102e; --mark: #1b2230; }
@media (prefers-color-scheme: dark) { :root:not([data-theme=light]) { color-scheme: dark; --paper: #12161d;
  --card: #1a2029; --ink: #e4e9f1; --soft: #9aa6b8; --line: #323b49; --band: #1f2732; --pick: #28416b;
  --accent: #7fb0ff; --control: #5fb4ff; --data: #3fd6a0; --nak: #8d99ab; --stall: #e58ad2; --none: #ff9d4d;
  --damage: #ff6b78; --mark: #e4e9f1; } }
:root[data-theme=dark] { color-scheme: dark; --paper: #12161d; --card: #1a2029; --ink: #e4e9f1; --soft: #9aa6b8;
  --line: #323b49; --band: #1f2732; --pick: #28416b; --accent: #7fb0ff; --control: #5fb4ff; --data: #3fd6a0;
  --nak: #8d99ab; --stall: #e58ad2; --none: #ff9d4d; --damage: #ff6b78; --mark: #e4e9f1; }
* { box-sizing: border-box; }
[hidden] { display: none !important; }
html { height: 100%; }
body { margin: 0; min-height: 100%; display: flex; flex-direction: column; background: var(--paper); color: var(--ink);
  font: 14px/1.4 system-ui, "Segoe UI", Roboto, "DejaVu Sans", sans-serif; }
header { display: flex; flex-wrap: wrap; align-items: baseline; gap: 4px 16px; padding: 10px 16px 2px; }
h1 { margin: 0; font-size: 18px; overflow-wrap: anywhere; }
h2 { margin: 0; font-size: 14px; }
#counts { margin: 0; color: var(--soft); flex: 1; }
main { flex: 1; display: grid; gap: 10px; padding: 8px 16px 16px; min-height: 0;
  grid-template: "trees" auto "time" auto "log" minmax(320px, 60vh) / minmax(0, 1fr); }
section { background: var(--card); border: 1px solid var(--line); border-radius: 8px; padding: 10px 12px;
  display: flex; flex-direction: column; min-width: 0; min-height: 0; }
#listings { grid-area: trees; max-height: 45vh; }
#timeline { grid-area: time; }
#log { grid-area: log; }
@media (min-width: 1100px) { html, body { height: 100%; }
  main { grid-template: "trees time" auto "trees log" minmax(0, 1fr) / minmax(300px, 400px) minmax(0, 1fr); }
  #listings { max-height: none; } }
.bar { display: flex; flex-wrap: wrap; align-items: center; gap: 6px 14px; margin-bottom: 8px; }
.bar > span { display: inline-flex; flex-wrap: wrap; gap: 4px; }
button, input { font: inherit; color: inherit; background: var(--card); border: 1px solid var(--line);
  border-radius: 6px; padding: 2px 8px; }
button { cursor: pointer; }
button:hover { border-color: var(--accent); }
:focus-visible { outline: 2px solid var(--accent); outline-offset: 1px; }
.kind { display: inline-flex; align-items: center; gap: 5px; font-size: 12px; padding: 1px 7px; }
.kind[aria-pressed=false] { opacity: .45; text-decoration: line-through; }
canvas { display: block; }
#scroll { overflow: auto; max-height: 45vh; border: 1px solid var(--line); border-radius: 6px; position: relative; }
#scroll canvas { position: sticky; top: 0; left: 0; }
#tip { position: fixed; z-index: 2; max-width: 70vw; padding: 3px 8px; border-radius: 6px; pointer-events: none;
  background: var(--ink); color: var(--card); font: 12px/1.4 ui-monospace, "DejaVu Sans Mono", monospace;
  overflow: hidden; text-overflow: ellipsis; white-space: nowrap; }
#selected { margin: 8px 0 0; min-height: 38px; max-height: 76px; overflow: auto; overflow-wrap: anywhere;
  font: 12px/1.5 ui-monospace, "DejaVu Sans Mono", monospace; }
.hint { margin: 2px 0 0; color: var(--soft); font-size: 12px; }
#filter { width: 20em; max-width: 60vw; }
#shown { color: var(--soft); }
.row { display: grid; grid-template-columns: 5.5em 16px 11em minmax(0, 1fr); gap: 8px; align-items: center;
  padding: 0 8px; white-space: pre; }
.words .row { grid-template-columns: 5.5em 16px 11em minmax(0, 3fr) minmax(0, 2fr); }
.row > * { overflow: hidden; text-overflow: ellipsis; }
.row > :first-child { text-align: right; color: var(--soft); }
#heads { color: var(--soft); font-size: 12px; border-bottom: 1px solid var(--line); padding-bottom: 2px;
  margin-right: 14px; }
#rows { flex: 1; min-height: 200px; overflow-y: auto; position: relative; overscroll-behavior: contain;
  font: 12px/22px ui-monospace, "DejaVu Sans Mono", monospace; }
#rows .row { position: absolute; left: 0; right: 0; height: 22px; cursor: pointer; }
#rows .row:hover { background: var(--band); }
#rows .row[aria-selected=true] { background: var(--pick); }
#rows .head { font-weight: 700; }
#trees { overflow: auto; flex: 1; min-height: 0; }
#trees summary { cursor: pointer; font-weight: 600; padding: 2px 0; }
#trees ul { list-style: none; margin: 0; padding-left: 18px; }
#trees details > ul { padding-left: 2px; }
#trees li { position: relative; padding: 3px 0 3px 4px; overflow-wrap: anywhere; }
#trees li li::before { content: ""; position: absolute; left: -10px; top: 0; height: 16px; width: 10px;
  border-left: 1px solid var(--line); border-bottom: 1px solid var(--line); }
#trees li li:not(:last-child)::after { content: ""; position: absolute; left: -10px; top: 0; bottom: 0;
  border-left: 1px solid var(--line); }
#trees small { display: block; color: var(--soft); font-size: 12px; }
#trees pre { margin: 2px 0; white-space: pre-wrap; overflow-wrap: anywhere; font-size: 11px; color: var(--soft); }
#trees li summary { font-weight: 400; font-size: 12px; color: var(--soft); padding: 1px 0; }
.path { font-family: ui-monospace, "DejaVu Sans Mono", monospace; padding: 0 6px; }
.refused { color: var(--none); }
</style>
<title>usbplan: "##;

/// From the end of the title to the text: the elements that the script fills. A browser drops the last newline.
pub(crate) const MIDDLE: &str = r##"</title>
</head>
<body>
<header>
<h1 id="name">usbplan</h1>
<p id="counts"></p>
<button id="theme" type="button">Theme: system</button>
</header>
<main hidden>
<section id="listings" aria-labelledby="listings-title">
<div class="bar"><h2 id="listings-title">Listings</h2></div>
<div id="trees"></div>
</section>
<section id="timeline" aria-labelledby="timeline-title">
<div class="bar">
<h2 id="timeline-title">Timeline</h2>
<span id="kinds" role="group" aria-label="Kinds of lines that are shown"></span>
<span role="group" aria-label="Zoom">
<button id="out" type="button" aria-label="Zoom out">&minus;</button>
<button id="in" type="button" aria-label="Zoom in">+</button>
<button id="fit" type="button">Fit</button>
</span>
</div>
<div id="scroll" tabindex="0" role="group" aria-label="Timeline of the run" aria-describedby="keys">
<div id="size"><canvas id="canvas" aria-hidden="true"></canvas></div>
</div>
<p id="selected" role="status">Select a mark or a line.</p>
<p id="keys" class="hint">Left and right: along the run. Up and down: along a lane.
+ and &minus;: zoom; 0: fit. Enter: to the line and back. /: filter.</p>
</section>
<section id="log" aria-labelledby="log-title">
<div class="bar">
<h2 id="log-title">Attempts</h2>
<label>Filter <input id="filter" type="search" placeholder="setup ack, nak, @1.2" autocomplete="off"
  spellcheck="false"></label>
<span id="shown" role="status"></span>
</div>
<div id="heads" class="row" aria-hidden="true"><span>Attempt</span><span></span><span>Where</span><span>Line</span><span
  id="words-head" hidden>Request</span></div>
<div id="rows" tabindex="0" role="listbox" aria-label="Lines of the run">
<div id="space" role="presentation"></div>
</div>
</section>
</main>
<div id="tip" hidden></div>
<noscript><style>#run { display: block !important; padding: 16px; overflow: auto; }</style></noscript>
<pre id="run" hidden>
"##;
