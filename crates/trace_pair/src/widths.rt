//! How wide the columns of numbers are.

ghost use Rattle.std.specs.Prelude.{◌≡◌};
ghost use Rattle.trace_pair.specs.Widths as Spec;

use crate::sessions::Sessions;
use text_parts::{Part, say};
use trace_io::TextSink;
use trace_report::KeptSession;
use trace_text::Number;

/// The classes of a chart: by the largest number of its items, of its lines, and of its seconds.
#[derive(Clone, Copy)]
pub(crate) struct ChartClasses {
    pub items: u64,
    pub lines: u64,
    pub seconds: u64,
}

impl Part for ChartClasses {
    ghost use Rattle.trace_pair.specs.Widths.{chart_classes};

    ghost text = { λ chart. chart_classes chart.items chart.lines chart.seconds };

    fn say<S: TextSink>(self, out: &mut S) {
        let ChartClasses {
            items,
            lines,
            seconds,
        } = self;
        say(
            out,
            (
                "ch w",
                Room {
                    most: 7,
                    number: items,
                },
                " l",
                Room {
                    most: 8,
                    number: lines,
                },
                " s",
                Room {
                    most: 7,
                    number: seconds,
                },
            ),
        );
    }
}

/// The classes of the chart of a session.
#[derive(Clone, Copy)]
pub(crate) struct SessionClasses<'a>(pub &'a KeptSession<'a>);

impl<'a> Part for SessionClasses<'a> {
    ghost use Rattle.trace_pair.specs.Widths.{session_classes};

    ghost text = { λ of. session_classes of.0.now };

    fn say<S: TextSink>(self, out: &mut S) {
        let session = self.0;
        let length = session.last_time().saturating_sub(session.first_time());
        say(
            out,
            ChartClasses {
                items: session.rows().item_count() as u64,
                lines: session.summary().lines,
                seconds: length / 1_000_000,
            },
        );
    }
}

/// The class of the table of items: by the largest number of both sessions.
#[derive(Clone, Copy)]
pub(crate) struct ItemsClass<'a>(pub Sessions<'a>);

impl<'a> Part for ItemsClass<'a> {
    ghost use Rattle.trace_pair.specs.Widths.{items_class};

    ghost text = { λ of. items_class of.0.left.now of.0.right.now };

    fn say<S: TextSink>(self, out: &mut S) {
        let left = self.0.left.rows().item_count();
        let right = self.0.right.rows().item_count();
        say(
            out,
            (
                "w",
                Room {
                    most: 7,
                    number: left.max(right) as u64,
                },
            ),
        );
    }
}

/// How many digits a column has room for, which has room for so many at most.
#[derive(Clone, Copy)]
struct Room {
    most: u64,
    number: u64,
}

impl Part for Room {
    ghost use Rattle.trace_pair.specs.Widths.{room};

    ghost text = { λ it. room it.most it.number };

    fn say<S: TextSink>(self, out: &mut S) {
        let Room { most, number } = self;
        say(out, Number(most.min(digits(number))));
    }
}

/// How many digits a number has, of which no fewer than two are told, and no more than eight.
fn digits(number: u64) -> u64
    ensures { result ≡ Spec.digits number }
{
    if number < 100 {
        2
    } else if number < 1_000 {
        3
    } else if number < 10_000 {
        4
    } else if number < 100_000 {
        5
    } else if number < 1_000_000 {
        6
    } else if number < 10_000_000 {
        7
    } else {
        8
    }
}
