//! How long the requests of a row waited for their answers, and the name of a row in which one of these took much
//! longer.

ghost use Rattle.std.specs.Prelude.{◌≡◌, option_map};
ghost use Rattle.trace_report.specs.Items.{item_of};
ghost use Rattle.trace_pair.specs.RowTimes as Spec;

use slow_answers::{took_much_longer, waited};
use text_parts::{Part, When, say};
use trace_io::TextSink;
use trace_report::{PlacedItem, asked_at};
use trace_text::Ordinal;

/// How many microseconds the requests of a row waited for their answers, in A and in B.
#[derive(Clone, Copy, Debug)]
pub(crate) struct RowTimes {
    pub left: u64,
    pub right: u64,
}

impl RowTimes {
    /// Whether one of both answers took much longer than the other.
    fn differ_much(self) -> bool
        ensures { result ≡ Spec.differ_much self }
    {
        took_much_longer(self.left, self.right) || took_much_longer(self.right, self.left)
    }
}

/// How long two items of A and B waited for their answers, where both did.
pub(crate) fn row_times(
    one: Option<PlacedItem<'_>>,
    other: Option<PlacedItem<'_>>,
) -> Option<RowTimes>
    ensures { result ≡ Spec.row_times (option_map item_of one.entry) (option_map item_of other.entry) }
{
    let left = item_time(one)?;
    let right = item_time(other)?;
    Some(RowTimes { left, right })
}

/// How long an item waited for its answer, if there is one that did.
fn item_time(item: Option<PlacedItem<'_>>) -> Option<u64>
    ensures { result ≡ Spec.item_time (option_map item_of item.entry) }
{
    let item = item?;
    let reply = item.answer?;
    let asked = asked_at(reply.sent.role)?;
    waited(asked, reply.sent.place.first.micros)
}

/// The name of a row in which an answer took much longer, before which so many items of A stand.
#[derive(Clone, Copy)]
pub(crate) struct LongerName(pub usize);

impl Part for LongerName {
    ghost use Rattle.trace_pair.specs.RowTimes.{longer_name};

    ghost text = { λ name. longer_name name.0 };

    fn say<S: TextSink>(self, out: &mut S) {
        say(out, ("t", Ordinal(self.0)));
    }
}

/// What the verdict links to in a row with these times, before which so many items of A stand.
#[derive(Clone, Copy)]
pub(crate) struct LongerMark(pub Option<RowTimes>, pub usize);

impl Part for LongerMark {
    ghost use Rattle.trace_pair.specs.RowTimes.{longer_mark};

    ghost text = { λ mark. longer_mark mark.0 mark.1 };

    fn say<S: TextSink>(self, out: &mut S) {
        let LongerMark(times, left) = self;
        if let Some(times) = times {
            say(
                out,
                When(
                    times.differ_much(),
                    ("<span id=\"", LongerName(left), "\"></span>"),
                ),
            );
        }
    }
}
