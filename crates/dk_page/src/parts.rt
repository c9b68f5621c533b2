// The parts that are the same on all pages.
ghost use Rattle.std.specs.Prelude.{◌≡◌};
ghost use Rattle.dk_page.specs.Parts.{foot, head, middle};

// Up to the list of the points, with the style. The policy names style and script by their hashes.
pub(crate) const HEAD: &str = r##"<!DOCTYPE html>
<html lang="en">
<head>
<meta charset="utf-8">
<meta http-equiv="Content-Security-Policy" content="default-src 'none'; img-src data:; style-src 'sha256-GEB2CiJqnkLrTn3bdHTJA6ITcdGFA+nZw6zxJfuv/20='; script-src 'sha256-nNbIYtuGCndmTAmxySp6wwBjjDpDs55tres7z6X42NE='; base-uri 'none'; form-action 'none'">
<meta name="viewport" content="width=device-width, initial-scale=1">
<title>Likely invariants</title>
<link rel="icon" href="data:,">
<style>
:root { color-scheme: light dark; --back: #f6f5f1; --card: #fff; --ink: #1f2226; --dim: #5f666d; --rule: #e1dfd8; --link: #0a558c; --aim: #fdf0c3; --byte: #9c2f1d }
@media (prefers-color-scheme: dark) {
  :root { --back: #14161a; --card: #1c1f24; --ink: #e4e4df; --dim: #9aa1a9; --rule: #31363d; --link: #85c4f2; --aim: #3b3519; --byte: #f0a08f }
}
* { box-sizing: border-box }
[hidden] { display: none !important }
html { scroll-padding-top: 6.2rem; -webkit-text-size-adjust: 100% }
body { margin: 0; background: var(--back); color: var(--ink); font: 1rem/1.5 system-ui, sans-serif }
a { color: var(--link); text-decoration: none }
a:hover { text-decoration: underline }
code, h2 a, td a { font-family: ui-monospace, "DejaVu Sans Mono", Menlo, Consolas, monospace; unicode-bidi: isolate; white-space: pre-wrap; overflow-wrap: anywhere }
var { color: var(--byte); font-style: normal; border: 1px solid; border-radius: 3px; padding: 0 2px }
i, b, td + td { font-style: normal; font-variant-numeric: tabular-nums }
code, i, b { font-size: .85rem }
header { position: sticky; top: 0; z-index: 1; display: flex; flex-wrap: wrap; align-items: center; gap: .4rem 1.2rem; padding: .6rem 1.2rem; background: var(--card); border-bottom: 1px solid var(--rule) }
h1 { margin: 0; font-size: 1.15rem }
h1 a { color: inherit }
label { flex: 1 0 100%; order: 1; display: flex }
input { flex: 1; min-width: 0; font: inherit; color: inherit; background: var(--back); border: 1px solid var(--rule); border-radius: 6px; padding: .3rem .7rem }
output, p, small, th, i { color: var(--dim); font-size: .85rem; font-weight: 400 }
output { margin-left: auto }
body > p { margin: 0; padding: .8rem 1.2rem 0 }
nav { padding: .8rem 1.2rem }
summary { cursor: pointer; font-weight: 600 }
table { width: 100%; border-collapse: collapse }
th, td { padding: .25rem 0 .25rem .8rem; text-align: right; vertical-align: top; font-weight: 400 }
td { border-top: 1px solid var(--rule); font-size: .82rem }
th:first-child, td:first-child { padding-left: 0; text-align: left }
main { padding: 0 1.2rem calc(100vh - 9rem); min-width: 0 }
section { columns: 22rem; column-gap: 2.5rem; margin: 0 0 .8rem; padding: .8rem 1.2rem 1rem; background: var(--card); border: 1px solid var(--rule); border-radius: 8px; content-visibility: auto; contain-intrinsic-size: auto 16rem }
section:target { border-color: var(--link) }
section:target h2 { background: var(--aim) }
h2 { column-span: all; display: flex; flex-wrap: wrap; justify-content: space-between; align-items: baseline; gap: 0 1.5rem; margin: 0; font-size: .95rem }
small b { color: var(--ink) }
small b:first-child:not(:last-child) { margin-right: .6rem }
h3 { margin: 0; padding: .7rem 0 .1rem; font-size: .85rem; break-after: avoid }
ul { margin: 0; padding: 0; list-style: none }
li { display: flex; gap: 1rem; justify-content: space-between; padding: .1rem 0; break-inside: avoid }
li:nth-child(-n + 3), li:nth-last-child(-n + 2) { break-before: avoid }
li:hover { background: var(--back) }
@media (min-width: 60rem) {
  html { scroll-padding-top: 4.2rem }
  label { flex: 1; order: 0; max-width: 36rem }
  body { display: grid; grid-template-columns: minmax(20rem, 30vw) 1fr; grid-template-rows: auto auto 1fr }
  header, body > p { grid-column: 1 / 3 }
  nav { position: sticky; top: 3.4rem; align-self: start; max-height: calc(100vh - 3.4rem); overflow: auto }
  main { padding: .8rem 1.2rem calc(100vh - 9rem) 0 }
}
@media print {
  nav, label, output { display: none }
  header { position: static }
  main { padding: 0 }
  section { content-visibility: visible }
}
</style>
</head>
<body>
<header>
<h1><a href="#">Likely invariants</a></h1>
<label hidden><input type="search" placeholder="Filter by name or text" aria-label="Filter by name or text" autocomplete="off" spellcheck="false"></label>
<output></output>
</header>
<p>What held each time that a point was reached. The number behind a line says in how many samples all of its variables were there; it is bold where that isn't all of the point's.</p>
<nav>
<details open>
<summary>Points</summary>
<table>
<thead><tr><th>Name</th><th>Samples</th><th>Lines</th></tr></thead>
<tbody>
"##;

// Between the list and the sections.
pub(crate) const MIDDLE: &str = r##"</tbody>
</table>
</details>
</nav>
<main>
"##;

// Behind the sections, with the script.
pub(crate) const FOOT: &str = r##"</main>
<script>
"use strict";
{
  const all = (selector, inside) => [...inside.querySelectorAll(selector)];
  const plural = (count, word) => `${count} ${word}${count === 1 ? "" : "s"}`;
  const field = document.querySelector("input"), told = document.querySelector("output");
  const tell = (points, lines) => { told.textContent = `${plural(points, "point")}, ${plural(lines, "line")}` };
  const rows = all("tbody tr", document), sections = all("main > section", document);

  // the points and their lines, with what the filter looks at
  const pointOf = (section, place) => {
    const name = section.querySelector("h2 a").textContent.toLowerCase();
    const lineOf = item => ({ item, text: `${name}\n${item.firstChild.textContent.toLowerCase()}` });
    return { section, row: rows[place], name, groups: all("div", section).map(part => ({ part, lines: all("li", part).map(lineOf) })) };
  };
  let points;

  // whether the words stand in the text in this order
  const has = (text, words) => {
    let end = 0;
    return words.every(word => {
      const at = text.indexOf(word, end);
      end = at + word.length;
      return at >= 0;
    });
  };

  // shows the lines that have the words, and the points of such names and of such lines
  const filter = () => {
    points ??= sections.map(pointOf);
    const words = field.value.toLowerCase().split(/\s+/).filter(word => word);
    let pointCount = 0, lineCount = 0;
    for (const { section, row, name, groups } of points) {
      let isShown = has(name, words);
      for (const { part, lines } of groups) {
        let shown = 0;
        for (const { item, text } of lines) {
          const isShown = has(text, words);
          if (item.hidden === isShown) item.hidden = !isShown;
          shown += isShown;
        }
        part.hidden = !shown;
        isShown ||= shown > 0;
        lineCount += shown;
      }
      section.hidden = row.hidden = !isShown;
      pointCount += isShown;
    }
    tell(pointCount, lineCount);
  };

  // a link to a point that the filter hides shows all again
  const follow = () => {
    const point = document.getElementById(location.hash.slice(1));
    if (point && point.hidden) {
      field.value = "";
      filter();
      location.replace(location.hash);
    }
  };

  window.onhashchange = follow;
  field.oninput = filter;
  document.onkeydown = event => {
    if (event.key === "/" && document.activeElement !== field) {
      event.preventDefault();
      field.select();
    }
  };
  field.parentNode.hidden = false;
  if (rows.length > 8 && matchMedia("(max-width: 60rem)").matches) {
    document.querySelector("details").open = false;
  }
  tell(rows.length, all("li", document).length);
  if (field.value) filter();
  follow();
}
</script>
</body>
</html>
"##;

/// Up to the list of the points.
#[tactic(auto, unfolding(crate::specs::Parts::head))]
pub(crate) fn head() -> &'static str
    ensures { result.now ≡ head }
{
    HEAD
}

/// Between the list and the sections.
#[tactic(auto, unfolding(crate::specs::Parts::middle))]
pub(crate) fn middle() -> &'static str
    ensures { result.now ≡ middle }
{
    MIDDLE
}

/// What stands after the sections.
#[tactic(auto, unfolding(crate::specs::Parts::foot))]
pub(crate) fn foot() -> &'static str
    ensures { result.now ≡ foot }
{
    FOOT
}
