//! The places of a page of one log to which links lead, and their identifiers.

ghost use Rattle.std.specs.Prelude.{◌≡◌};
ghost use Rattle.trace_report.specs.Targets as Spec;

use direction::Dir;
use text_parts::{Part, say};
use trace_io::TextSink;
use trace_text::Number;

/// A place to which links lead. As a part of a text it is its identifier.
#[derive(Clone, Copy, Debug)]
pub(crate) enum LinkTarget {
    /// The row that begins the item of this number.
    Item(u64),
    /// The first row of the frame in this line of the log.
    Line(u64),
    /// The row of what stands of this side at the end of the log.
    Side(Dir),
}

impl Part for LinkTarget {
    ghost use Rattle.trace_report.specs.Targets.{identifier};

    ghost text = { λ target. identifier target };

    fn say<S: TextSink>(self, out: &mut S) {
        match self {
            LinkTarget::Item(number) => say(out, ("i", Number(number))),
            LinkTarget::Line(number) => say(out, ("l", Number(number))),
            LinkTarget::Side(dir) => say(out, ("e", Side(dir))),
        }
    }
}

/// What stands in a place of a list that has no target yet. It is none of a page, since items are counted from 1.
impl Default for LinkTarget {
    ghost use Rattle.std.specs.Prelude.{◌≡◌};
    ghost use Rattle.trace_report.specs.declared.targets.LinkTarget.TheVariants.{Item};

    ghost is_default = { λ target. target ≡ Item 0 };

    fn default() -> Self {
        LinkTarget::Item(0)
    }
}

/// A place, where links lead to it.
#[inline(always)]
pub(crate) fn target_if(linked: bool, place: LinkTarget) -> Option<LinkTarget>
    ensures { result ≡ Spec.target_if linked place }
{
    if linked { Some(place) } else { None }
}

/// The letter of a side.
#[derive(Clone, Copy)]
pub(crate) struct Side(pub Dir);

impl Part for Side {
    ghost use Rattle.trace_report.specs.Targets.{side_text};

    ghost text = { λ side. side_text side.0 };

    fn say<S: TextSink>(self, out: &mut S) {
        match self.0 {
            Dir::Tester => say(out, "t"),
            Dir::Unit => say(out, "u"),
        }
    }
}
