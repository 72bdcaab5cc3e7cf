//! The style of a report. This file is written by `scripts/report-style`, of `style/report.css`.
ghost use Rattle.std.specs.Prelude.{◌≡◌};
ghost use Rattle.trace_report.specs.Style.{page_style};

/// The rules of the style.
const STYLE: &str = "\
:root { color-scheme: light dark; --bg: #fff; --soft: #f4f6f8; --ink: #181b20; --dim: #59616d; --rule: #d8dde3; --t: #1757b0; --u: #0d6a3a; --bad: #b3231b; --warn: #8a5700; --badbg: #fdecea; --warnbg: #fdf3df; --goodbg: #e6f5ec; }
@media (prefers-color-scheme: dark) { :root { --bg: #15181d; --soft: #1e2228; --ink: #e7e9ec; --dim: #a3abb6; --rule: #373e48; --t: #7fb3ff; --u: #6ed29b; --bad: #ff9b92; --warn: #f2bd60; --badbg: #3a1f1d; --warnbg: #372a12; --goodbg: #173025; } }
* { box-sizing: border-box; }
html { -webkit-text-size-adjust: 100%; scroll-padding-top: 3rem; }
body { margin: 0; background: var(--bg); color: var(--ink); font: 15px/1.45 system-ui, -apple-system, \"Segoe UI\", Roboto, \"DejaVu Sans\", sans-serif; }
.defs { position: absolute; width: 0; height: 0; }
.page { display: flex; flex-direction: column; max-width: 72rem; margin: 0 auto; padding: 0 1.25rem 2rem; }
header { order: 0; padding: 1.25rem 0 1rem; } #verdict { order: 1; } main { order: 2; } footer { order: 3; }
h1 { font-size: 1.5rem; line-height: 1.2; margin: 0; overflow-wrap: anywhere; } h2 { font-size: 1.15rem; margin: 1.5rem 0 .5rem; }
.brand { margin: 0 0 .15rem; color: var(--dim); font-size: .8rem; letter-spacing: .04em; }
.ids, .skip { margin: .3rem 0 0; font-size: .9rem; } .ids span, .skip a { margin-right: 1rem; } .skip { font-size: .85rem; } .plain { display: none; }
.T { color: var(--t); font-weight: 600; } .U { color: var(--u); font-weight: 600; }
a { color: inherit; text-underline-offset: .15em; } a:focus-visible, summary:focus-visible, input:focus-visible { outline: 2px solid var(--t); outline-offset: 2px; }
code, samp { font: .8125rem/1.5 ui-monospace, \"DejaVu Sans Mono\", Menlo, Consolas, monospace; } samp { color: var(--dim); overflow-wrap: anywhere; }
i { font-style: normal; color: var(--dim); font-size: .8125rem; } em { font-style: normal; font-weight: 600; overflow-wrap: anywhere; }
#cut { margin: .8rem 0 0; padding: .6rem .9rem; border: 2px solid var(--bad); background: var(--badbg); color: var(--ink); }
@supports selector(:has(a)) { body:not(:has(#end)) #cut { display: block; } }
#end { max-width: 72rem; margin: 0 auto; padding: 0 1.25rem 2rem; color: var(--dim); font-size: .8rem; }
#verdict { border: 1px solid var(--rule); border-left: .4rem solid; padding: .9rem 1.1rem 1rem; border-radius: 4px; }
#verdict h2 { margin: 0; font-size: 1.25rem; } #verdict h2 span { display: inline-block; width: 1.2em; } #verdict p { margin: .35rem 0 0; max-width: 60rem; }
.good { border-left-color: var(--u) !important; background: var(--goodbg); } .good h2 { color: var(--u); }
.warn { border-left-color: var(--warn) !important; background: var(--warnbg); } .warn h2 { color: var(--warn); }
.bad { border-left-color: var(--bad) !important; background: var(--badbg); } .bad h2 { color: var(--bad); }
.look { margin: .6rem 0 0; padding-left: 1.2rem; } .look a { white-space: nowrap; }
.counts { display: grid; grid-template-columns: repeat(auto-fill, minmax(5.6rem, 1fr)); gap: .5rem .75rem; margin: .9rem 0 0; } .counts div { display: flex; flex-direction: column-reverse; }
.counts dt { font-size: .8rem; color: var(--dim); } .counts dd { margin: 0; font-size: 1.1rem; font-variant-numeric: tabular-nums; } .counts .zero dd { color: var(--dim); } .counts .hot dd { font-weight: 700; } .counts .hot dt { color: var(--ink); font-weight: 600; }
.span { margin: .8rem 0 0; font-size: .85rem; color: var(--dim); overflow-wrap: anywhere; }
.filter { display: none; margin: 0 0 .6rem; font-size: .9rem; } @supports selector(:has(a)) { .filter { display: block; } }
.b + .b { content-visibility: auto; contain-intrinsic-size: auto 6000px; } .b + .b:not([open]) { contain-intrinsic-size: auto 34px; } .b > summary { padding: .3rem 0; font-size: .85rem; color: var(--dim); cursor: pointer; font-variant-numeric: tabular-nums; }
table { width: 100%; border-collapse: collapse; table-layout: fixed; } 
thead th { position: sticky; top: 0; background: var(--bg); text-align: left; font-size: .8rem; font-weight: 600; color: var(--dim); padding: .35rem .5rem .35rem 0; border-bottom: 1px solid var(--rule); z-index: 1; }
thead th:nth-child(1) { width: 3.9rem; } thead th:nth-child(2) { width: 5.6rem; } thead th:nth-child(3) { width: 6.6rem; } thead th:nth-child(4) { padding: .35rem 0; } thead .U { float: right; }
td, tbody th { padding: .28rem .5rem .28rem 0; vertical-align: top; text-align: left; font-variant-numeric: tabular-nums; font-size: .85rem; line-height: 1.5rem; } tbody th { font-weight: 700; }
td:nth-child(-n+3) { color: var(--dim); } td:nth-child(-n+3), tbody th { overflow-wrap: anywhere; } td:nth-child(3), thead th:nth-child(3) { text-align: right; padding-right: .9rem; }
tbody tr:first-child > * { border-top: 1px solid var(--rule); }
td:nth-child(4) { padding: .28rem 0; border-left: 2px solid var(--t); border-right: 2px solid var(--u); font-size: .9rem; }
td > div { display: flex; align-items: center; gap: .5rem; } td > div.t { padding-left: .6rem; } td > div.u { padding-right: .6rem; flex-direction: row-reverse; } td > div > div { max-width: 85%; min-width: 0; }
td.t, td.u { padding-left: .6rem !important; padding-right: .6rem !important; } td.u { text-align: right !important; } .q td.t { color: var(--t); } .ok td.u { color: var(--u); } .p td.t, .p td.u { color: var(--dim); }
td code { display: inline-block; max-width: 48ch; vertical-align: top; line-height: 1.5rem; } td code + i { display: inline-block; }
div > svg { flex: 1; min-width: 2rem; height: 12px; overflow: visible; color: var(--dim); } .l { stroke: currentColor; stroke-width: 1.6; } .h { fill: currentColor; } .k { fill: none; stroke: currentColor; stroke-width: 2.4; stroke-dasharray: none; }
.q b, .q svg { color: var(--t); } .ok b, .ok svg { color: var(--u); } .n b, .n svg, .x b, .x svg, .m b, .m svg { color: var(--bad); } .s b, .s svg { color: var(--warn); } .p b, .p svg, .p code { color: var(--dim); }
.x svg, .m svg { stroke-dasharray: 3 4; } .p svg { stroke-dasharray: 7 4; }
.n td:nth-child(4), .x td:nth-child(4), .m td:nth-child(4) { background: var(--badbg); } .s td:nth-child(4) { background: var(--warnbg); }
tr:target > * { box-shadow: inset 0 2px var(--ink), inset 0 -2px var(--ink); }
td details { display: inline-block; vertical-align: top; } td details summary { cursor: pointer; font-size: .8125rem; color: var(--dim); text-decoration: underline; text-underline-offset: .15em; } td details code { display: block; }
.stop { border: 1px solid var(--bad); border-left-width: .4rem; padding: .5rem .8rem; background: var(--badbg); }
footer { margin-top: 2rem; border-top: 1px solid var(--rule); font-size: .9rem; } .legend { columns: 22rem; margin: 0; } .legend div { break-inside: avoid; margin-bottom: .3rem; } .legend dt { display: inline; font-weight: 700; } .legend dd { display: inline; margin: 0 0 0 .4rem; }
.legend .q dt { color: var(--t); } .legend .ok dt { color: var(--u); } .legend .n dt, .legend .x dt, .legend .m dt { color: var(--bad); } .legend .s dt { color: var(--warn); } .legend .p dt { color: var(--dim); }
@supports selector(:has(a)) { main:has(#only:checked) tbody:not(:has(.n, .x, .m, .s)) { display: none; } main:has(#only:checked) .b:not(:has(.n, .x, .m, .s)) { display: none; } main:has(#only:checked) .b::details-content { content-visibility: visible; block-size: auto; } }
@media (max-width: 40rem) { body { font-size: 14px; } .page { padding: 0 .6rem 1.5rem; } #end { padding: 0 .6rem 1.5rem; } thead th:nth-child(1) { font-size: .62rem; } #verdict { padding: .7rem .8rem; } thead th { font-size: .7rem; } thead th:nth-child(1) { width: 1.9rem; } thead th:nth-child(2) { width: 2.75rem; } thead th:nth-child(3) { width: 4.35rem; } td, tbody th { font-size: .72rem; padding-right: .25rem; } td:nth-child(2) { overflow-wrap: anywhere; } td:nth-child(3), thead th:nth-child(3) { padding-right: .4rem; } td:nth-child(4) { font-size: .85rem; } td > div { gap: .3rem; } td > div.t { padding-left: .4rem; } td > div.u { padding-right: .4rem; } td > div > div { max-width: 90%; } code, i, samp, em, td details summary { font-size: .75rem; } td code { max-width: 24ch; } div > svg { min-width: 1rem; } .counts { grid-template-columns: repeat(auto-fill, minmax(4.6rem, 1fr)); gap: .4rem .5rem; } }
#verdict a { white-space: nowrap; }
td > div > div { overflow-wrap: anywhere; }
@media print { :root { color-scheme: light; --bg: #fff; --ink: #000; --dim: #444; --rule: #999; --t: #0b3f86; --u: #064d28; --bad: #8c1610; --warn: #6b4300; --badbg: #fff; --warnbg: #fff; --goodbg: #fff; } html { font-size: 12px; } body { font-size: 12px; } .page { max-width: none; padding: 0; } .skip, .filter { display: none !important; } .b + .b { content-visibility: visible; } details::details-content { content-visibility: visible; block-size: auto; }
 td, tbody th, td code { line-height: 1.2rem; padding-top: .15rem; padding-bottom: .15rem; } td code { padding: 0; } thead th { position: static; } thead th:nth-child(1) { width: 2.6rem; } thead th:nth-child(2) { width: 4.4rem; } thead th:nth-child(3) { width: 5.6rem; } tr { break-inside: avoid; } tr.q { break-after: avoid; } #verdict, footer { break-inside: avoid; } @page { margin: 14mm; } }
";

/// The style of a report: one for all logs. Only the proof of a law opens it.
#[tactic(auto, unfolding(crate::specs::Style::page_style))]
pub fn report_style() -> &'static str
    ensures { result.now ≡ page_style }
{
    STYLE
}
