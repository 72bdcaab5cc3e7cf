//! The text of a comparison, in words or as an object.

ghost use Rattle.trace_canon.specs.ComparisonText.{comparison_lines, comparison_text, shown_lines};
ghost use Rattle.trace_run.specs.Printed.{Prints};
ghost use Rattle.trace_io.specs.Counted.{IsLowCount};

use crate::compared_items::say_item_at;
use crate::comparer::{Compared, Comparison};
use crate::comparison_objects::say_comparison_object;
use text_parts::{Part, say};
use trace_io::{Target, TextSink};
use trace_log::Fault;
use trace_run::print;
use trace_text::{ComparisonStyle, Notation, Ordinal};
use uds_rules::Rules;

/// Writes how two logs compare, in this style; their messages are as these rules left them.
///
/// The target is not flushed.
pub fn write_comparison<W: Target>(
    compared: &Compared,
    style: ComparisonStyle,
    rules: &Rules,
    target: &mut W,
) -> Result<(), Fault>
    requires { IsLowCount (W.failures target.old) }

    // Its text was written, or a front of it where writing failed; and what that did with the target.
    ensures printed { Prints W.Target (comparison_text rules.now style compared.now) target.old result target.new }
{
    let text = StyledComparison {
        compared,
        style,
        rules,
    };
    print(text, target)
}

/// A comparison in a style.
#[derive(Clone, Copy)]
struct StyledComparison<'a> {
    compared: &'a Compared,
    style: ComparisonStyle,
    rules: &'a Rules,
}

impl<'a> Part for StyledComparison<'a> {
    ghost use Rattle.trace_canon.specs.ComparisonText.{comparison_text};

    ghost text = { λ t. comparison_text t.rules.now t.style t.compared.now };

    fn say<S: TextSink>(self, out: &mut S) {
        let StyledComparison {
            compared,
            style,
            rules,
        } = self;
        match style.notation {
            Notation::Text => say_lines(compared, style.shows_items, rules, out),
            Notation::Json => say_comparison_object(compared, style.shows_items, rules, out),
        }
    }
}

/// Says in words how two logs compare.
fn say_lines<S: TextSink>(compared: &Compared, shows_items: bool, rules: &Rules, out: &mut S)
    ensures { S.says out.old
        (comparison_lines rules.now shows_items compared.now.comparison
        compared.now.left.meaning compared.now.right.meaning)
        out.new }
{
    match compared.comparison {
        Comparison::Same => say(out, "same\n"),
        Comparison::Different { item: place } => {
            say(out, ("different at item ", Ordinal(place), "\n"));
            if shows_items {
                say_items_at(compared, place, rules, out);
            }
        }
    }
}

/// Says the items of both logs in a place.
fn say_items_at<S: TextSink>(compared: &Compared, place: usize, rules: &Rules, out: &mut S)
    ensures { S.says out.old
        (shown_lines rules.now place compared.now.left.meaning compared.now.right.meaning) out.new }
{
    say(out, "left: ");
    say_item_at(&compared.left.meaning, place, Notation::Text, rules, out);
    say(out, "right: ");
    say_item_at(&compared.right.meaning, place, Notation::Text, rules, out);
}
