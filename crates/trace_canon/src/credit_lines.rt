//! The text of credit lines, said line by line, or unit by unit of a profile.
ghost use Rattle.std.specs.Prelude.{◌≡◌, take};
ghost use Rattle.std.specs.List.{flat_map};
ghost use Rattle.trace_canon.specs.CreditLines.{credit_line_text, credit_lines_text, later_unit_text, most_later_units, profile_text};
ghost use Rattle.trace_canon.specs.CreditLines.{answered_comment, unit_head, unit_identifiers, unit_text};

use crate::functional_parts::{FunctionalKey, FunctionalMember, FunctionalOption};
use text_parts::say;
use trace_io::TextSink;
use trace_text::{CreditStyle, Notation, Number, Verbatim};
use uds_find::CreditLine;

/// How many units a profile may have behind its first: 64 in all.
const MOST_LATER_UNITS: usize = 63;

/// Says credit lines, in order.
pub(crate) fn say_credit_lines<S: TextSink>(lines: &[CreditLine], style: CreditStyle, out: &mut S)
    ensures { S.says out.old (credit_lines_text style lines.now) out.new }
{
    match style {
        CreditStyle::Lines(notation) => say_lines(lines, notation, out),
        CreditStyle::Profile => say_profile(lines, out),
    }
}

/// Says each credit line, in order.
fn say_lines<S: TextSink>(lines: &[CreditLine], notation: Notation, out: &mut S)
    ensures { S.says out.old (flat_map (credit_line_text notation) lines.now) out.new }
{
    'lines: for line in lines {
        say_credit_line(line, notation, out);
    }
}

/// Says one credit line.
fn say_credit_line<S: TextSink>(line: &CreditLine, notation: Notation, out: &mut S)
    ensures { S.says out.old (credit_line_text notation line.now) out.new }
{
    match notation {
        Notation::Text => say(
            out,
            (
                Number(line.credits),
                " --tester ",
                Verbatim(line.tester.as_slice()),
                " --unit ",
                Verbatim(line.unit.as_slice()),
                FunctionalOption(line),
                "\n",
            ),
        ),
        Notation::Json => say(
            out,
            (
                "{\"credits\":",
                Number(line.credits),
                ",\"requests\":",
                Number(line.requests),
                (
                    ",\"tester\":\"",
                    Verbatim(line.tester.as_slice()),
                    "\",\"unit\":\"",
                    Verbatim(line.unit.as_slice()),
                    "\"",
                ),
                FunctionalMember(line),
                "}\n",
            ),
        ),
    }
}

/// Says credit lines as a profile.
fn say_profile<S: TextSink>(lines: &[CreditLine], out: &mut S)
    ensures { S.says out.old (profile_text lines.now) out.new }
{
    match lines {
        [] => say(out, "# nobody answered\n"),
        [first, rest @ ..] => {
            say_unit(first, out);
            say_later_units(front(rest), out);
        }
    }
}

/// As many credit lines, from the first on, as a profile may have behind its first unit, or all.
fn front(lines: &[CreditLine]) -> &[CreditLine]
    ensures { result.now ≡ take most_later_units lines.now }
{
    if lines.len() <= MOST_LATER_UNITS {
        lines
    } else {
        &lines[..MOST_LATER_UNITS]
    }
}

/// Says each credit line as a unit behind others, in order.
fn say_later_units<S: TextSink>(lines: &[CreditLine], out: &mut S)
    ensures { S.says out.old (flat_map later_unit_text lines.now) out.new }
{
    'units: for line in lines {
        say_later_unit(line, out);
    }
}

/// Says a credit line as a unit behind another one.
fn say_later_unit<S: TextSink>(line: &CreditLine, out: &mut S)
    ensures { S.says out.old (later_unit_text line.now) out.new }
{
    say(out, "\n");
    say_unit(line, out);
}

/// Says a credit line as a unit of a profile.
fn say_unit<S: TextSink>(line: &CreditLine, out: &mut S)
    ensures { S.says out.old (unit_text line.now) out.new }
{
    say_answered(line, out);
    say_head(line, out);
    say_identifiers(line, out);
}

/// Says how many of its tester's requests a unit answered.
#[tactic(auto, unfolding(crate::specs::CreditLines::answered_comment))]
fn say_answered<S: TextSink>(line: &CreditLine, out: &mut S)
    ensures { S.says out.old (answered_comment line.now) out.new }
{
    say(
        out,
        (
            "# ",
            Number(line.credits),
            " of ",
            Number(line.requests),
            " requests answered\n",
        ),
    );
}

/// Says the head of a unit's table, and its name.
fn say_head<S: TextSink>(line: &CreditLine, out: &mut S)
    ensures { S.says out.old (unit_head line.now) out.new }
{
    say(
        out,
        (
            "[[unit]]\nname = \"",
            (
                Verbatim(line.tester.as_slice()),
                "-",
                Verbatim(line.unit.as_slice()),
            ),
            "\"\n",
        ),
    );
}

/// Says the identifiers of a unit, and the functional one, where there is one.
#[tactic(auto, unfolding(crate::specs::CreditLines::unit_identifiers))]
fn say_identifiers<S: TextSink>(line: &CreditLine, out: &mut S)
    ensures { S.says out.old (unit_identifiers line.now) out.new }
{
    say(
        out,
        (
            "tester = \"",
            Verbatim(line.tester.as_slice()),
            "\"\nunit = \"",
            Verbatim(line.unit.as_slice()),
            "\"\n",
            FunctionalKey(line),
        ),
    );
}
