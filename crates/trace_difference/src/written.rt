//! What is written of two sessions.
ghost use Rattle.trace_io.specs.Counted.{IsLowCount};
ghost use Rattle.trace_run.specs.Printed.{Prints};
ghost use Rattle.trace_difference.specs.Written.{written_rows};

use crate::row_objects::say_objects;
use crate::unified_text::say_unified;
use text_parts::Part;
use trace_canon::Session;
use trace_io::{Target, TextSink};
use trace_log::Fault;
use trace_run::print;
use trace_text::Notation;
use uds_difference::Difference;
use uds_rules::Rules;

/// A session, and the name of its file.
#[derive(Clone, Copy)]
pub struct NamedSession<'a> {
    pub name: &'a [u8],
    pub session: &'a Session,
}

/// Writes a difference of two sessions, in this notation; their messages are as these rules left them.
///
/// The target is not flushed.
pub fn write_difference<W: Target>(
    difference: &Difference,
    left: NamedSession<'_>,
    right: NamedSession<'_>,
    notation: Notation,
    rules: &Rules,
    target: &mut W,
) -> Result<(), Fault>
    requires { IsLowCount (W.failures target.old) }

    // Its text was written, or a front of it where writing failed; and what that did with the target.
    ensures printed { Prints W.Target
        (written_rows rules.now notation left.entry.name.now right.entry.name.now difference.now.shortest
        difference.now.rows.items left.entry.session.now right.entry.session.now)
        target.old result target.new }
{
    print(
        DifferenceText {
            difference,
            left,
            right,
            notation,
            rules,
        },
        target,
    )
}

/// Says a difference of two sessions, in this notation.
pub fn say_difference<S: TextSink>(
    difference: &Difference,
    left: NamedSession<'_>,
    right: NamedSession<'_>,
    notation: Notation,
    rules: &Rules,
    out: &mut S,
)
    ensures { S.says out.old
        (written_rows rules.now notation left.entry.name.now right.entry.name.now difference.now.shortest
        difference.now.rows.items left.entry.session.now right.entry.session.now)
        out.new }
{
    match notation {
        Notation::Text => {
            say_unified(
                difference.shortest,
                left,
                right,
                &difference.rows,
                rules,
                out,
            )
        }
        Notation::Json => {
            say_objects(
                difference.shortest,
                left,
                right,
                &difference.rows,
                rules,
                out,
            )
        }
    }
}

/// A difference in a notation.
#[derive(Clone, Copy)]
struct DifferenceText<'a> {
    difference: &'a Difference,
    left: NamedSession<'a>,
    right: NamedSession<'a>,
    notation: Notation,
    rules: &'a Rules,
}

impl<'a> Part for DifferenceText<'a> {
    ghost use Rattle.trace_difference.specs.Written.{written_rows};

    ghost text = { λ t. written_rows t.rules.now t.notation t.left.name.now t.right.name.now t.difference.now.shortest
        t.difference.now.rows.items t.left.session.now t.right.session.now };

    fn say<S: TextSink>(self, out: &mut S) {
        say_difference(
            self.difference,
            self.left,
            self.right,
            self.notation,
            self.rules,
            out,
        );
    }
}
