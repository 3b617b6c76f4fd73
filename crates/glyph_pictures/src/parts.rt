//! What stands in every page.

/// What begins a page. It asks for nothing from anywhere: what would is refused by the policy.
pub(crate) const HEAD: &str = r#"<!DOCTYPE html>
<html lang="en"><head><meta charset="utf-8">
<meta name="viewport" content="width=device-width, initial-scale=1">
<meta http-equiv="Content-Security-Policy" content="default-src 'none'; style-src 'unsafe-inline'; script-src 'unsafe-inline'">
<title>fontshape</title>
"#;

/// How it looks, dark or light as the reader's system is, wide or narrow.
pub(crate) const STYLE: &str = r#"<style>
:root { color-scheme: light dark; --ink: #111; --paper: #fff; --soft: #f3f3f0; --edge: #ccc; --hot: #ffd76a; --one: #dbe9f6; --two: #f6e3d6; --cut: #c22 }
@media (prefers-color-scheme: dark) {
  :root { --ink: #eee; --paper: #17181a; --soft: #222427; --edge: #444; --hot: #7a5b00; --one: #1f3a52; --two: #523421; --cut: #f66 }
}
* { box-sizing: border-box }
body { margin: 0 auto; padding: 1rem 1rem 9rem; max-width: 100rem; background: var(--paper); color: var(--ink); font: 15px/1.45 system-ui, sans-serif }
h1 { font-size: 1.1rem; margin: 0 }
h2 { font-size: .9rem; margin: 0; grid-column: 1 / -1 }
small { font-weight: normal; opacity: .7 }
header code { display: block; overflow-x: auto; padding: .4rem .6rem; background: var(--soft); white-space: pre-wrap; overflow-wrap: anywhere }
section { display: grid; grid-template-columns: minmax(0, 3fr) minmax(0, 2fr); gap: .5rem 1rem; align-items: start; padding: 1rem 0; border-top: 1px solid var(--edge) }
.text { grid-column: 1 / -1; margin: 0; font-size: 1.6rem; line-height: 2; white-space: pre-wrap; overflow-wrap: anywhere }
.band0 { background: var(--one) }
.band1 { background: var(--two) }
.cut { box-shadow: inset 2px 0 var(--cut) }
[dir=rtl] .cut { box-shadow: inset -2px 0 var(--cut) }
figure { margin: 0; overflow: auto; max-height: 85vh; background: var(--soft) }
svg { display: block }
.baseline { fill: none; stroke: var(--edge); vector-effect: non-scaling-stroke }
.pen { fill: var(--cut) }
.spot { fill: transparent; cursor: pointer; outline: none }
table { border-collapse: collapse; font-size: .8rem; display: block; overflow: auto; max-height: 85vh; font-variant-numeric: tabular-nums }
th, td { text-align: start; padding: .1rem .5rem; border-bottom: 1px solid var(--edge); white-space: nowrap }
thead th { position: sticky; top: 0; background: var(--paper); font-weight: normal; opacity: .8 }
.band.hot, tr.hot { background: var(--hot) }
.spot.hot { fill: var(--hot); fill-opacity: .45 }
:focus-visible { outline: 2px solid var(--cut); outline-offset: 1px }
.spot:focus-visible { stroke: var(--cut); stroke-width: 2px; vector-effect: non-scaling-stroke }
#shown { position: fixed; inset: auto 0 0 0; max-height: 8rem; overflow: auto; padding: .5rem 1rem; background: var(--soft); border-top: 1px solid var(--edge); font-size: .9rem }
#shown p { margin: 0; display: flex; flex-wrap: wrap; gap: 0 1rem }
#shown i { opacity: .7; font-style: normal }
.steps { display: flex; flex-wrap: wrap; gap: .5rem 1rem; align-items: baseline; padding: 0 0 1rem }
.steps p { margin: 0 }
.steps ol { flex: 1 1 20rem; margin: 0; padding: 0; list-style: none; font-size: .85rem; overflow-wrap: anywhere }
.steps i { opacity: .7; font-style: normal; margin-inline-end: 1rem }
.steps .new { background: var(--hot) }
@media (max-width: 60rem) { section { grid-template-columns: minmax(0, 1fr) } }
</style>
"#;

/// What a pointer and the keyboard do. It reads what stands in the page, and writes it as text
/// alone.
pub(crate) const SCRIPT: &str = r#"<script>
'use strict';
addEventListener('DOMContentLoaded', () => {
  const shown = document.getElementById('shown');
  const names = ['glyph', 'number', 'cluster', 'characters', 'advance', 'offset', 'flags'];
  const told = row => {
    const told = document.createElement('p');
    names.forEach((name, at) => {
      const part = document.createElement('span'), title = document.createElement('i'), value = document.createElement('b');
      title.textContent = name + ' ';
      value.dataset.name = name;
      value.textContent = row.cells[at].textContent;
      part.append(title, value);
      told.append(part);
    });
    return told;
  };
  const show = place => {
    const line = place.closest('section'), all = (words) => line.querySelectorAll(words);
    const one = place.dataset.i === undefined ? '' : `[data-i='${place.dataset.i}']`;
    document.querySelectorAll('.hot').forEach(old => old.classList.remove('hot'));
    all(`.band[data-c='${place.dataset.c}'], [data-i][data-c='${place.dataset.c}']${one}`).forEach(hot => hot.classList.add('hot'));
    shown.replaceChildren(...Array.from(all('tr.hot'), told));
  };
  const placed = event => event.target.closest && event.target.closest('[data-c]');
  for (const kind of ['pointerover', 'focusin'])
    document.addEventListener(kind, event => placed(event) && show(placed(event)));
  document.addEventListener('keydown', event => {
    const place = placed(event);
    const step = { ArrowRight: 1, ArrowDown: 1, ArrowLeft: -1, ArrowUp: -1 }[event.key];
    if (!place || !step) return;
    const next = step > 0 ? place.nextElementSibling : place.previousElementSibling;
    if (next && next.dataset.c !== undefined) { next.focus(); event.preventDefault(); }
  });
  const parted = item => {
    const [moment, list = ''] = item.textContent.split('\tbuffer: ');
    return { moment, glyphs: list.slice(1, -1).split('|') };
  };
  const mark = (item, { moment, glyphs }, before) => {
    const said = document.createElement('i');
    said.textContent = moment;
    const parts = glyphs.map(glyph => {
      const part = document.createElement('span');
      part.textContent = glyph;
      part.className = before.includes(glyph) ? '' : 'new';
      return part;
    });
    item.replaceChildren(said, ...parts.flatMap((part, at) => at ? ['|', part] : [part]));
  };
  for (const steps of document.querySelectorAll('.steps')) {
    const items = Array.from(steps.querySelectorAll('li')), all = items.map(parted);
    const [back, on] = steps.querySelectorAll('button'), place = steps.querySelector('b');
    const last = items.length - 1;
    let now = 0;
    items.forEach((item, at) => mark(item, all[at], all[/ start /.test(all[at].moment) ? at : Math.max(0, at - 1)].glyphs));
    const turn = to => {
      now = Math.max(0, Math.min(last, to));
      items.forEach((item, at) => { item.hidden = at !== now; });
      place.textContent = `step ${now + 1} of ${items.length}`;
    };
    back.addEventListener('click', () => turn(now - 1));
    on.addEventListener('click', () => turn(now + 1));
    steps.addEventListener('keydown', event => {
      const to = { ArrowRight: now + 1, ArrowDown: now + 1, ArrowLeft: now - 1, ArrowUp: now - 1, Home: 0, End: last }[event.key];
      if (to === undefined) return;
      turn(to);
      event.preventDefault();
    });
    turn(0);
  }
});
</script></head>
"#;

/// What ends a page that is cut.
pub(crate) const CUT: &str = r#"<p>The lines that follow are left out.</p>
"#;
