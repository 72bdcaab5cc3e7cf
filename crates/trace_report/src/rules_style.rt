//! What the style of a page has besides, where the page is under rules: it shows them above the verdict.

ghost use Rattle.std.specs.Prelude.{◌≡◌};
ghost use Rattle.trace_report.specs.RulesStyle.{ruled_style};

use text_parts::{Part, say};
use trace_io::TextSink;
use uds_rules::Rules;

/// The rules of the style.
const RULES_STYLE: &str = "\
#rules { order: 1; margin: 0 0 .8rem; padding: .6rem 1.1rem .7rem; border: 1px solid var(--rule); border-left: .4rem solid var(--t); border-radius: 4px; }
#rules h2 { margin: 0; font-size: 1rem; color: var(--t); } #rules p, #rules ul { margin: .35rem 0 0; font-size: .9rem; } #rules ul { padding-left: 1.2rem; overflow-wrap: anywhere; }
.ruled { border-left-color: var(--t) !important; background: var(--soft); } .ruled h2 { color: var(--t); }
@media (max-width: 40rem) { #rules { padding: .5rem .8rem; } }
";

/// What the style has besides under rules; nothing, where there are none.
#[derive(Clone, Copy)]
pub struct RulesStyle<'a>(pub &'a Rules);

impl<'a> Part for RulesStyle<'a> {
    ghost use Rattle.trace_report.specs.RulesStyle.{rules_style};

    ghost text = { λ style. rules_style style.0.now };

    fn say<S: TextSink>(self, out: &mut S) {
        if !self.0.is_empty() {
            say(out, rules_style());
        }
    }
}

/// The same where there are some. Only the proof of a law opens it.
#[tactic(auto, unfolding(crate::specs::RulesStyle::ruled_style))]
fn rules_style() -> &'static str
    ensures { result.now ≡ ruled_style }
{
    RULES_STYLE
}
