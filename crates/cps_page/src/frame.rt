//! What stands around the title and the sections of a page.

/// In front of the title.
pub const FRONT: &[u8] = b"<!DOCTYPE html>
<html xmlns=\"http://www.w3.org/1999/xhtml\" lang=\"en\"><head><meta charset=\"utf-8\"/>
<meta name=\"viewport\" content=\"width=device-width, initial-scale=1\"/>
<title>";

/// Between the title and the sections: the styles, the links to the sections, and how a code is read.
pub const MIDDLE: &[u8] = b"</title>
<style>
:root {
  --paper: #fff; --ink: #1c2024; --soft: #5f6770; --rule: #dde1e6; --i: #9a4a00; --j: #005f4d; --k: #7438b0; --K: #0a58b0;
  --bad: #b42318; --wash: #d92d2012; --seen: #ffd00038; --size: 13px;
  --mono: \"Cascadia Mono\", SFMono-Regular, Menlo, Consolas, \"DejaVu Sans Mono\", monospace;
}
@media (prefers-color-scheme: dark) {
  :root {
    --paper: #15171a; --ink: #dadde1; --soft: #969ea8; --rule: #262a2f; --i: #eda667; --j: #5bc2a3; --k: #c3a0ee; --K: #82b7f5;
    --bad: #ff9d90; --wash: #ff6b5a1c; --seen: #ffd54a22;
  }
}
html { scroll-padding-top: 3.5rem; }
head, title { display: block; }
title { padding: .8rem 1.5rem 0; font: 600 1.15rem/1.4 var(--mono); user-select: none; -webkit-user-select: none; }
body { margin: 0; }
html { background: var(--paper); color: var(--ink); font: 15px/1.5 system-ui, sans-serif; }
nav { display: flex; flex-wrap: wrap; position: sticky; top: 0; z-index: 1; padding: .5rem 1.5rem; background: var(--paper); border-bottom: 1px solid var(--rule); }
nav a { margin-right: 1.2rem; color: var(--soft); text-decoration: none; }
aside { padding: .8rem 1.5rem 0; color: var(--soft); user-select: none; -webkit-user-select: none; }
aside svg { display: inline-block; max-width: 100%; margin: .6rem 1.5rem 0 0; }
aside p { max-width: 44rem; margin: .4rem 0 0; }
svg text { font: 11px system-ui, sans-serif; text-anchor: middle; fill: currentColor; }
svg .n { font: 17px var(--mono); }
svg path { fill: none; stroke: currentColor; }
svg, svg .n { color: var(--ink); }
section { padding: 0 1.5rem; overflow-x: auto; }
h2 { margin: 2rem 0 .6rem; font-size: 1.02rem; user-select: none; -webkit-user-select: none; }
section div, section summary, .t { width: max-content; min-width: 100%; font: var(--size)/1.5 var(--mono); font-variant-ligatures: none; }
section div:not([id], .run), section summary, .t { display: block; position: relative; white-space: pre; }
.run { content-visibility: auto; contain-intrinsic-size: auto 1px auto calc(var(--n) * 1.5 * var(--size)); }
.run:not(.pp) { --border: linear-gradient(90deg, var(--rule) 1px, transparent 1px); background: var(--border) 21ch 0 / 5ch 100% no-repeat, var(--border) 26ch 0 / 5ch 100% no-repeat, var(--border) 31ch 0 / 5ch 100% no-repeat; }
#listing i[class^=\"s\"] { position: relative; }
.s1 { left: 1ch; } .s2 { left: 2ch; } .s3 { left: 3ch; } .s4 { left: 4ch; } .s5 { left: 5ch; } .s6 { left: 6ch; } .s7 { left: 7ch; } .s8 { left: 8ch; } .s9 { left: 9ch; } .s10 { left: 10ch; } .s11 { left: 11ch; } .s12 { left: 12ch; } .s13 { left: 13ch; } .s14 { left: 14ch; } .s15 { left: 15ch; } .s16 { left: 16ch; } .s17 { left: 17ch; } .s18 { left: 18ch; } .s19 { left: 19ch; }
section i { font-style: normal; }
section a { color: inherit; text-decoration-color: color-mix(in srgb, currentColor 35%, transparent); text-underline-offset: 3px; }
section [title] { cursor: help; }
summary { cursor: pointer; }
section summary { list-style: none; }
section summary::-webkit-details-marker { display: none; }
section summary::after { position: absolute; top: 0; left: 43ch; color: var(--soft); content: \"\\25b8\"; }
section details[open] > summary::after { content: \"\\25be\"; }
section details[open] > summary small { display: none; }
summary small { margin-left: 3ch; }
small { font-size: inherit; user-select: none; -webkit-user-select: none; }
#listing span a[href^=\"#w\"], #words a { text-decoration: none; }
#words a + a { box-shadow: -1px 0 var(--soft); }
.b { padding: .25em 0; background: linear-gradient(var(--j), var(--j)) 8ch 0 / 2px 100% no-repeat; }
.c { display: block; padding-left: 44ch; color: var(--bad); font: var(--size)/1.5 var(--mono); white-space: pre-wrap; }
#flags .c { padding-left: 8ch; }
.o { position: absolute; top: 0; left: 44ch; color: var(--soft); }
.u { text-decoration: underline wavy var(--bad) 1px; text-underline-offset: 3px; }
.u a { text-decoration: none; }
#words small { margin-left: 2ch; }
.f { font-weight: 600; color: var(--bad); }
.bad, .bad + .c, .c + .c { background: var(--wash); }
.i { color: var(--i); }
.j { color: var(--j); }
.k { color: var(--k); }
.K { color: var(--K); }
.x, .z { color: var(--soft); }
:target { background: var(--seen); }
@media screen and (min-width: 1500px) { :root { --size: 14.5px; } }
@media screen and (min-width: 1900px) { :root { --size: 16px; } }
@media screen and (max-width: 1020px) { :root { --size: 11.5px; } }
@media screen and (max-width: 760px) {
  title, nav, aside, section { padding-left: .8rem; padding-right: .8rem; }
  nav a { margin-right: .7rem; }
  html { scroll-padding-top: 5rem; }
  section div, section summary, .t { width: auto; }
  section div:not([id], .run), section summary, .t { white-space: pre-wrap; overflow-wrap: anywhere; }
  .run { contain-intrinsic-height: auto calc(var(--n) * 3 * var(--size)); }
  .run:not(.pp) { background: none; }
  #listing div:not([id], .run), section summary { padding-bottom: 1.5em; }
  .o { position: static; }
  aside svg { margin-right: 0; }
  #listing span { position: absolute; bottom: 0; left: 0; white-space: pre; }
  .c { padding-left: 9ch; }
  .b { padding: 0; }
  section summary::after { left: auto; right: 0; }
}
@media print {
  @page { size: landscape; margin: 12mm 14mm 14mm; @bottom-right { content: counter(page); font: 8pt sans-serif; } }
  :root { --paper: #fff; --ink: #000; --soft: #555; --size: 8.2pt; }
  nav, aside, section summary::after { display: none; }
  details::details-content { content-visibility: visible; }
  section { padding: 0; overflow: visible; }
  section { -webkit-print-color-adjust: exact; print-color-adjust: exact; }
  .run { content-visibility: visible; }
  .u { text-underline-offset: 1px; }
  section div:not([id], .run), .bad { break-inside: avoid; }
  .bad { break-after: avoid; }
}
</style></head>
<body><nav><a href=\"#memory\">Memory</a><a href=\"#listing\">Listing</a><a href=\"#words\">Words</a><a href=\"#symbols\">Symbols</a><a href=\"#flags\">Flags</a><a href=\"#instructions\">Instructions</a></nav>
<aside><details open=\"\"><summary>How to read a code</summary>
<svg xmlns=\"http://www.w3.org/2000/svg\" viewBox=\"0 0 588 112\" width=\"588\" role=\"img\" aria-label=\"A word of the central processor: an instruction of two parcels, one of one parcel, and a filling\"><text x=\"14\" y=\"12\" class=\"z\">59</text><text x=\"154\" y=\"12\" class=\"z\">44</text><text x=\"294\" y=\"12\" class=\"z\">29</text><text x=\"434\" y=\"12\" class=\"z\">14</text><text x=\"574\" y=\"12\" class=\"z\">0</text><path d=\"M14 20H574V52H14Z\"/><path class=\"z\" d=\"M154 20V52\"/><path class=\"z\" d=\"M294 20V52\"/><path class=\"z\" d=\"M434 20V52\"/><text class=\"n\" y=\"42\" x=\"28 56 84 112 140 168 196 224 252 280 308 336 364 392 420 448 476 504 532 560\">51<tspan class=\"i\">6</tspan><tspan class=\"j\">2</tspan><tspan class=\"K\">000100</tspan>36<tspan class=\"i\">6</tspan><tspan class=\"j\">1</tspan><tspan class=\"k\">2</tspan><tspan class=\"z\">46000</tspan></text><text x=\"42\" y=\"70\">operation</text><text x=\"84\" y=\"70\" class=\"i\">i</text><text x=\"112\" y=\"70\" class=\"j\">j</text><text x=\"210\" y=\"70\" class=\"K\">K: an address or a number</text><text x=\"322\" y=\"70\">operation</text><text x=\"364\" y=\"70\" class=\"i\">i</text><text x=\"392\" y=\"70\" class=\"j\">j</text><text x=\"420\" y=\"70\" class=\"k\">k</text><text x=\"504\" y=\"70\" class=\"z\">filling</text><path class=\"z\" d=\"M18 82V88H290V82\"/><text x=\"154\" y=\"104\">two parcels: SA6 B2+100B</text><path class=\"z\" d=\"M298 82V88H430V82\"/><text x=\"364\" y=\"104\">one: IX6 X1+X2</text><path class=\"z\" d=\"M438 82V88H570V82\"/><text x=\"504\" y=\"104\">one parcel</text></svg>
<svg xmlns=\"http://www.w3.org/2000/svg\" viewBox=\"0 0 280 112\" width=\"280\" role=\"img\" aria-label=\"Two words of a peripheral processor: an operation and d, and m\"><text x=\"14\" y=\"12\" class=\"z\">11</text><text x=\"126\" y=\"12\" class=\"z\">0</text><text x=\"154\" y=\"12\" class=\"z\">11</text><text x=\"266\" y=\"12\" class=\"z\">0</text><path d=\"M14 20H126V52H14ZM154 20H266V52H154Z\"/><text class=\"n\" y=\"42\" x=\"28 56 84 112 168 196 224 252\">50<tspan class=\"i\">12</tspan><tspan class=\"K\">1000</tspan></text><text x=\"42\" y=\"70\">operation</text><text x=\"98\" y=\"70\" class=\"i\">d</text><text x=\"210\" y=\"70\" class=\"K\">m: an address</text><path class=\"z\" d=\"M18 82V88H262V82\"/><text x=\"140\" y=\"104\">two words: LDM 1000B,12B</text></svg>
<p>Each digit is octal. In the listing a code stands where it stands in its word, between the borders of parcels, and an operand looks as the digits that it makes.</p></details></aside>
";

/// The back of a page.
pub const BACK: &[u8] = b"</body></html>
";
