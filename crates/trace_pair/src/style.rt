//! The style of a page of two logs. This file is written by `scripts/report-style`, of `style/pair.css`.
ghost use Rattle.std.specs.Prelude.{◌≡◌};
ghost use Rattle.trace_pair.specs.Style.{page_style};

/// The rules of the style.
const STYLE: &str = "\
:root { color-scheme: light dark; --bg: #fff; --soft: #f4f6f8; --ink: #181b20; --dim: #59616d; --rule: #d8dde3; --t: #1757b0; --u: #0d6a3a; --bad: #b3231b; --warn: #8a5700; --badbg: #fdecea; --warnbg: #fdf3df; --goodbg: #e6f5ec; }
@media (prefers-color-scheme: dark) { :root { --bg: #15181d; --soft: #1e2228; --ink: #e7e9ec; --dim: #a3abb6; --rule: #373e48; --t: #7fb3ff; --u: #6ed29b; --bad: #ff9b92; --warn: #f2bd60; --badbg: #3a1f1d; --warnbg: #372a12; --goodbg: #173025; } }
* { box-sizing: border-box; }
html { -webkit-text-size-adjust: 100%; scroll-padding-top: 3rem; }
body { margin: 0; background: var(--bg); color: var(--ink); font: 15px/1.45 system-ui, -apple-system, \"Segoe UI\", Roboto, \"DejaVu Sans\", sans-serif; }
.defs { position: absolute; width: 0; height: 0; }
.page { display: flex; flex-direction: column; max-width: 72rem; margin: 0 auto; padding: 0 1.25rem 2rem; }
header { order: 0; padding: 1.25rem 0 1rem; } #verdict { order: 1; } main { order: 2; } footer { order: 3; }
h1 { font-size: 1.5rem; line-height: 1.2; margin: 0; overflow-wrap: anywhere; } h2 { font-size: 1.15rem; margin: 1.5rem 0 .5rem; }
.brand { margin: 0 0 .15rem; color: var(--dim); font-size: .8rem; letter-spacing: .04em; }
.ids, .skip { margin: .3rem 0 0; font-size: .9rem; } .ids span, .skip a { margin-right: 1rem; } .skip { font-size: .85rem; }
.T { color: var(--t); font-weight: 600; } .U { color: var(--u); font-weight: 600; }
a { color: inherit; text-underline-offset: .15em; } a:focus-visible, summary:focus-visible, input:focus-visible { outline: 2px solid var(--t); outline-offset: 2px; }
code, samp { font: .8125rem/1.5 ui-monospace, \"DejaVu Sans Mono\", Menlo, Consolas, monospace; } samp { color: var(--dim); overflow-wrap: anywhere; }
i { font-style: normal; color: var(--dim); font-size: .8125rem; } em { font-style: normal; font-weight: 600; overflow-wrap: anywhere; }
mark { background: #ffd84d; color: #181b20; outline: 2px solid var(--ink); font-weight: 700; }
#cut { margin: .8rem 0 0; padding: .6rem .9rem; border: 2px solid var(--bad); background: var(--badbg); color: var(--ink); }
@supports selector(:has(a)) { body:not(:has(#end)) #cut { display: block; } }
#end { max-width: 72rem; margin: 0 auto; padding: 0 1.25rem 2rem; color: var(--dim); font-size: .8rem; }
#verdict { border: 1px solid var(--rule); border-left: .4rem solid; padding: .9rem 1.1rem 1rem; border-radius: 4px; }
#verdict h2 { margin: 0; font-size: 1.25rem; } #verdict h2 span { display: inline-block; width: 1.2em; } #verdict p { margin: .35rem 0 0; max-width: 60rem; }
.good { border-left-color: var(--u) !important; background: var(--goodbg); } .good h2 { color: var(--u); }
.warn { border-left-color: var(--warn) !important; background: var(--warnbg); } .warn h2 { color: var(--warn); }
.bad { border-left-color: var(--bad) !important; background: var(--badbg); } .bad h2 { color: var(--bad); }
.look { margin: .6rem 0 0; padding-left: 1.2rem; } .look a { white-space: nowrap; }
.counts { display: grid; grid-template-columns: repeat(auto-fill, minmax(5.6rem, 1fr)); gap: .5rem .75rem; margin: .9rem 0 0; } .counts div { display: flex; flex-direction: column-reverse; }
.counts dt { font-size: .8rem; color: var(--dim); } .counts dd { margin: 0; font-size: 1.1rem; font-variant-numeric: tabular-nums; } .counts .zero dd { color: var(--dim); } .counts .hot dd { font-weight: 700; } .counts .hot dt { color: var(--ink); font-weight: 600; }
.span { margin: .8rem 0 0; font-size: .85rem; color: var(--dim); overflow-wrap: anywhere; }
.filter { display: none; margin: 0 0 .6rem; font-size: .9rem; } @supports selector(:has(a)) { .filter { display: block; } }
.b + .b { content-visibility: auto; contain-intrinsic-size: auto 6000px; } .b + .b:not([open]) { contain-intrinsic-size: auto 34px; } .b > summary { padding: .3rem 0; font-size: .85rem; color: var(--dim); cursor: pointer; font-variant-numeric: tabular-nums; }
table { width: 100%; border-collapse: collapse; table-layout: fixed; } 
thead th { position: sticky; top: 0; background: var(--bg); text-align: left; font-size: .8rem; font-weight: 600; color: var(--dim); padding: .35rem .5rem .35rem 0; border-bottom: 1px solid var(--rule); z-index: 1; }
thead th:nth-child(1) { width: 3.9rem; } thead th:nth-child(2) { width: 5.6rem; } thead th:nth-child(3) { width: 6.6rem; } thead th:nth-child(4) { padding: .35rem 0; } thead .U { float: right; }
td, tbody th { padding: .28rem .5rem .28rem 0; vertical-align: top; text-align: left; font-variant-numeric: tabular-nums; font-size: .85rem; line-height: 1.5rem; } tbody th { font-weight: 700; }
td:nth-child(-n+3) { color: var(--dim); } td:nth-child(-n+3), tbody th { overflow-wrap: normal; } td:nth-child(3), thead th:nth-child(3) { text-align: right; padding-right: .9rem; }
tbody tr:first-child > * { border-top: 1px solid var(--rule); }
td:nth-child(4) { padding: .28rem 0; border-left: 2px solid var(--t); border-right: 2px solid var(--u); font-size: .9rem; }
td > div { display: flex; align-items: center; gap: .5rem; } td > div.t { padding-left: .6rem; } td > div.u { padding-right: .6rem; flex-direction: row-reverse; } td > div > div { max-width: 85%; min-width: 0; }
td.t, td.u { padding-left: .6rem !important; padding-right: .6rem !important; } td.u { text-align: right !important; } .q td.t { color: var(--t); } .ok td.u { color: var(--u); } .p td.t, .p td.u { color: var(--dim); }
td code { display: inline-block; max-width: 48ch; vertical-align: top; line-height: 1.5rem; } td code + i { display: inline-block; }
div > svg { flex: 1; min-width: 2rem; height: 12px; overflow: visible; color: var(--dim); } .l { stroke: currentColor; stroke-width: 1.6; } .h { fill: currentColor; } .k { fill: none; stroke: currentColor; stroke-width: 2.4; stroke-dasharray: none; }
.q b, .q svg { color: var(--t); } .ok b, .ok svg { color: var(--u); } .n b, .n svg, .x b, .x svg, .m b, .m svg { color: var(--bad); } .s b, .s svg { color: var(--warn); } .p b, .p svg, .p code { color: var(--dim); }
.x svg, .m svg { stroke-dasharray: 3 4; } .p svg { stroke-dasharray: 7 4; }
.n td:nth-child(4), .x td:nth-child(4), .m td:nth-child(4) { background: var(--badbg); } .s td:nth-child(4) { background: var(--warnbg); }
tr:target > * { box-shadow: inset 0 2px var(--ink), inset 0 -2px var(--ink); }
td details { display: inline-block; vertical-align: top; } td details summary { cursor: pointer; font-size: .8125rem; color: var(--dim); text-decoration: underline; text-underline-offset: .15em; } td details code { display: block; }
.stop { border: 1px solid var(--bad); border-left-width: .4rem; padding: .5rem .8rem; background: var(--badbg); }
footer { margin-top: 2rem; border-top: 1px solid var(--rule); font-size: .9rem; } .legend { columns: 22rem; margin: 0; } .legend div { break-inside: avoid; margin-bottom: .3rem; } .legend dt { display: inline; font-weight: 700; } .legend dd { display: inline; margin: 0 0 0 .4rem; }
.legend .q dt { color: var(--t); } .legend .ok dt { color: var(--u); } .legend .n dt, .legend .x dt, .legend .m dt { color: var(--bad); } .legend .s dt { color: var(--warn); } .legend .p dt { color: var(--dim); }
@media (max-width: 40rem) { body { font-size: 14px; } .page { padding: 0 .6rem 1.5rem; } #end { padding: 0 .6rem 1.5rem; } thead th:nth-child(1) { font-size: .62rem; } #verdict { padding: .7rem .8rem; } thead th { font-size: .7rem; } thead th:nth-child(1) { width: 1.9rem; } thead th:nth-child(2) { width: 2.75rem; } thead th:nth-child(3) { width: 4.35rem; } td, tbody th { font-size: .72rem; padding-right: .25rem; }  td:nth-child(3), thead th:nth-child(3) { padding-right: .4rem; } td:nth-child(4) { font-size: .85rem; } td > div { gap: .3rem; } td > div.t { padding-left: .4rem; } td > div.u { padding-right: .4rem; } td > div > div { max-width: 90%; } code, i, samp, em, td details summary { font-size: .75rem; } td code { max-width: 24ch; } div > svg { min-width: 1rem; } .counts { grid-template-columns: repeat(auto-fill, minmax(4.6rem, 1fr)); gap: .4rem .5rem; } }
.who { display: inline-block; min-width: 1.5em; padding: 0 .3em; border: 1.5px solid; border-radius: 3px; text-align: center; font-weight: 700; font-size: .85em; line-height: 1.35; margin-right: .3em; color: var(--ink); } h1 .who { margin-bottom: .2rem; } h3 { font-size: .95rem; margin: .8rem 0 .3rem; overflow-wrap: anywhere; }
s { text-decoration: none; color: var(--dim); border-bottom: 1px dotted; } .nw { white-space: nowrap; } .bd { color: var(--warn); }
.two { display: grid; grid-template-columns: repeat(auto-fit, minmax(min(30rem, 100%), 1fr)); gap: 0 1.5rem; } .two > section { min-width: 0; } .two thead th { position: static; }
table.ch { --n: 2.45rem; --l: 2.9rem; --s: 4.9rem; } .ch.w3 { --n: 2.56rem; } .ch.w4 { --n: 3.08rem; } .ch.w5 { --n: 3.60rem; } .ch.w6 { --n: 4.12rem; } .ch.w7 { --n: 4.64rem; } .ch.l4 { --l: 3.18rem; } .ch.l5 { --l: 3.70rem; } .ch.l6 { --l: 4.22rem; } .ch.l7 { --l: 4.74rem; } .ch.l8 { --l: 5.26rem; } .ch.s2 { --s: 5.40rem; } .ch.s3 { --s: 5.90rem; } .ch.s4 { --s: 6.40rem; } .ch.s5 { --s: 6.90rem; } .ch.s6 { --s: 7.40rem; } .ch.s7 { --s: 7.90rem; }
.ch thead th:nth-child(1) { width: var(--n); } .ch thead th:nth-child(2) { width: var(--l); } .ch thead th:nth-child(3) { width: var(--s); } .ch thead th:nth-child(-n+3) { padding-right: .4rem; }
.two td, .two tbody th { font-size: .78rem; } .two td:nth-child(4) { font-size: .85rem; } .two td code { max-width: 24ch; } .two td:nth-child(2) { padding-right: .6rem; } .two td:nth-child(3) { padding-right: .4rem; }
.ch .df td:nth-child(4) { background: var(--warnbg); } .ch .df .x td:nth-child(4), .ch .df .m td:nth-child(4), .ch .df .n td:nth-child(4) { background: var(--badbg); } .ch .df th, .ch .df td:first-child { color: var(--warn); font-weight: 700; } .ch tbody:not(.df) td:nth-child(4) { background: none; }
@media not print { .wide { max-width: 84rem; } .wide + #end { max-width: 84rem; } }
td > div > div { overflow-wrap: anywhere; } .ch .end td:nth-child(4) { border-bottom: 2px solid var(--rule); }
.more > summary { padding: .4rem 0; font-size: .9rem; cursor: pointer; text-decoration: underline; text-underline-offset: .15em; border-top: 1px solid var(--rule); }
.lossline { border-left: .25rem solid var(--bad); padding-left: .7rem; } .loss { color: var(--bad); white-space: normal; }
.recs { margin-top: .8rem; table-layout: auto; } .recs thead th { position: static; background: none; } .recs tbody th, .recs td:nth-child(n) { font-size: .88rem; color: var(--ink); font-weight: 400; padding: .3rem .9rem .3rem 0; border: 0; border-top: 1px solid var(--rule); text-align: left; background: none; white-space: normal; line-height: 1.35rem; } .recs tbody th { overflow-wrap: anywhere; font-weight: 600; } .recs thead th:nth-child(n) { width: auto; text-align: left; }
.dl { list-style: none; margin: 0; padding: 0; } .dl li { display: grid; grid-template-columns: 9.5rem 5.2rem 1fr; gap: 0 .8rem; padding: .35rem 0; border-top: 1px solid var(--rule); font-size: .9rem; } .dl .where { font-variant-numeric: tabular-nums; } .dl .what, #difference .what { min-width: 0; overflow-wrap: anywhere; }
.tag { color: var(--warn); white-space: nowrap; } #difference > p .where { margin-right: .6rem; font-weight: 600; } #difference > p .tag { margin-right: .6rem; }
#verdict a { white-space: nowrap; } #verdict .two { margin-top: .6rem; } #difference { border: 2px solid var(--warn); border-radius: 4px; padding: 0 1rem 1rem; margin: 1.5rem 0 .5rem; } #difference h2 { margin-top: .8rem; } #difference > p { margin: 0 0 .3rem; }
#items { --n: 2.6rem; } #items.w3 { --n: 2.9rem; } #items.w4 { --n: 3.3rem; } #items.w5 { --n: 3.8rem; } #items.w6, #items.w7 { --n: 4.8rem; }
table.pair thead th:nth-child(n) { width: auto; text-align: left; padding-right: .8rem; color: var(--ink); } table.pair thead th:nth-child(-n+2) { width: var(--n); color: var(--dim); text-align: right; padding-right: .7rem; }
table.pair td:nth-child(n) { border: 0; border-top: 1px solid var(--rule); padding: .3rem 0; text-align: left; color: var(--ink); font-size: .88rem; overflow-wrap: anywhere; white-space: normal; } table.pair tbody th, table.pair td:nth-child(2) { border-top: 1px solid var(--rule); padding: .3rem .7rem .3rem 0; text-align: right; white-space: nowrap; font-size: .85rem; color: var(--ink); font-weight: 700; overflow-wrap: normal; }
table.pair .same th, table.pair .same td:nth-child(2) { font-weight: 400; color: var(--dim); } table.pair b { font-weight: 600; } .no { color: var(--bad); } .none { color: var(--dim); font-weight: 400; }
td > div.ab { display: grid; grid-template-columns: repeat(auto-fit, minmax(min(19rem, 100%), 1fr)); gap: 0 .8rem; padding: 0; align-items: start; } .ab i { line-height: 1.3rem; } .ab .who { color: var(--dim); font-size: .75rem; min-width: 1.3em; padding: 0; }
table.pair .d td:nth-child(3) { background: var(--warnbg); padding: .35rem .8rem .45rem; border-left: .25rem solid var(--warn); } table.pair .ob td:nth-child(3) { border-left: 0; border-right: .25rem solid var(--warn); }
td > div.it { display: block; padding: 0; } .oa td > div { max-width: 62%; } .ob td > * { margin-left: 38% !important; } .top { margin: 0 0 .15rem; } .nav { font-size: .8rem; color: var(--dim); white-space: nowrap; } table.pair .top { display: flex; justify-content: space-between; align-items: baseline; gap: 0 1rem; } .top > span:first-child { min-width: 0; }
.hx { margin: .15rem 0; } .hx + br { display: none; } .hx p { margin: 0; display: grid; grid-template-columns: 2.2rem 1.6rem minmax(0, max-content) minmax(0, 1fr); gap: 0 .35rem; align-items: baseline; line-height: 1.5rem; } .hx p > i:first-child { text-align: right; font-variant-numeric: tabular-nums; } .hx .who { margin: 0; min-width: 0; padding: 0; } .hx .eq { border-color: transparent; color: var(--dim); font-weight: 400; } .hx code { max-width: none !important; } .hx samp { white-space: pre-wrap; } .hx details { display: block; margin-left: 4.5rem; } .hx details p { margin-left: -4.5rem; } .hx .rest { display: block; margin-left: 4.5rem; } .hx p.lost { display: block; }
.hx.out > div { padding-left: 2.55rem; line-height: 1.5rem; } .hx.out .who { display: inline-block; min-width: 1.6rem; margin-right: .35rem; } .hx.out mark { padding: 0 .2em; outline-width: 1px; } .hx.out details { display: inline-block; margin-left: 0; }
.two .hx p { grid-template-columns: 2.2rem minmax(0, max-content); } .two .hx code { max-width: 24ch !important; } .two .hx p:only-child { display: block; } .two .hx p:only-child > i:first-child { display: none; } .two .hx samp { grid-column: 2; } .two .hx details, .two .hx .rest { margin-left: 2.55rem; } .two .hx details p { margin-left: -2.55rem; }
.lost { margin: .2rem 0 0; padding: .1rem .5rem; background: var(--badbg); border-left: .25rem solid var(--bad); font-size: .85rem; } .lost b { color: var(--bad); }
.b > summary b { color: var(--ink); font-weight: 600; } .same.b { border-top: 1px solid var(--rule); border-bottom: 1px solid var(--rule); background: var(--soft); padding: 0 .6rem; margin: .5rem 0; } .same.b[open] { background: none; } .long > .b { margin-left: .8rem; } .b + .b { contain-intrinsic-size: auto 34px; } .b[open] + .b[open] { contain-intrinsic-size: auto 6000px; }
@supports selector(:has(a)) { main:has(#apart:checked) .same { display: none; } }
@media (max-width: 40rem) { .dl li { grid-template-columns: 1fr auto; } .dl .what { grid-column: 1 / 3; } .dl .tag { text-align: right; } .two td, .two tbody th { font-size: .72rem; } .two td:nth-child(4) { font-size: .8rem; } #items { --n: 1.7rem; } #items.w3 { --n: 2rem; } #items.w4 { --n: 2.4rem; } #items.w5 { --n: 2.9rem; } #items.w6, #items.w7 { --n: 3.6rem; } table.pair thead th:nth-child(-n+2), table.pair tbody th, table.pair td:nth-child(2) { font-size: .72rem; padding-right: .35rem; } table.pair td:nth-child(n+3) { font-size: .8rem; } table.pair .d td:nth-child(3) { padding: .3rem .45rem .4rem; } .oa td > div { max-width: 90%; } .ob td > * { margin-left: 10% !important; } .hx p { grid-template-columns: 1.5rem 1.15rem minmax(0, max-content); gap: 0 .2rem; line-height: 1.3rem; } .hx samp { grid-column: 3; } .hx code { font-size: .625rem; } .hx p > i:first-child { font-size: .625rem; } .hx details, .hx .rest { margin-left: 3rem; } .hx details p { margin-left: -3rem; } .hx.out > div { padding-left: 0; } .two .hx p { grid-template-columns: 1.5rem minmax(0, max-content); } .two .hx details, .two .hx .rest { margin-left: 1.7rem; } .two .hx details p { margin-left: -1.7rem; } .two .hx code { font-size: .75rem; } #difference { padding: 0 .5rem .6rem; } .recs thead { display: none; } .recs tbody tr { display: block; border-top: 1px solid var(--rule); padding: .3rem 0; } .recs tbody th, .recs td:nth-child(n) { display: inline; border: 0; font-size: .8rem; padding: 0 .6rem 0 0; } .recs tbody th { display: block; } .recs td:nth-child(3)::before { content: \"items: \"; } .tag { white-space: normal; } .ch.w2 { --n: 1.85rem; } .ch.w3 { --n: 1.9rem; } .ch.w4 { --n: 2.2rem; } .ch.w5 { --n: 2.6rem; } .ch.w6, .ch.w7 { --n: 3.4rem; } table.ch { --l: 2.1rem; --s: 3.9rem; } .ch.l4 { --l: 2.5rem; } .ch.l5 { --l: 2.9rem; } .ch.l6, .ch.l7, .ch.l8 { --l: 3.8rem; } .ch.s3 { --s: 4.4rem; } .ch.s4 { --s: 4.9rem; } .ch.s5, .ch.s6, .ch.s7 { --s: 5.6rem; } .ch thead th:nth-child(-n+3) { font-size: .62rem; padding-right: .2rem; } .ch td:nth-child(-n+3), .ch tbody th { padding-right: .2rem; } }
@media print { :root { color-scheme: light; --bg: #fff; --ink: #000; --dim: #444; --rule: #999; --t: #0b3f86; --u: #064d28; --bad: #8c1610; --warn: #6b4300; --badbg: #fff; --warnbg: #fff; --goodbg: #fff; } html { font-size: 12px; } body { font-size: 12px; } .page { max-width: none; padding: 0; } .skip, .filter { display: none !important; } .b + .b { content-visibility: visible; } details:not(.same)::details-content { content-visibility: visible; block-size: auto; }
 td, tbody th, td code { line-height: 1.2rem; padding-top: .15rem; padding-bottom: .15rem; } td code { padding: 0; } thead th { position: static; }  tr { break-inside: avoid; } tr.q { break-after: avoid; } #verdict, .two > section, footer { break-inside: avoid; } @page { margin: 14mm; } }
";

/// The style of a page of two logs: one for all logs. Only the proof of a law opens it.
#[tactic(auto, unfolding(crate::specs::Style::page_style))]
pub fn pair_style() -> &'static str
    ensures { result.now ≡ page_style }
{
    STYLE
}
