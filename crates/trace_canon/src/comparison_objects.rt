//! A comparison as an object of JSON.

ghost use Rattle.trace_canon.specs.ComparisonText.{comparison_members, different_members, shown_members};
ghost use Rattle.trace_text.specs.Json.{object_line};

use crate::compared_items::say_item_at;
use crate::comparer::{Compared, Comparison};
use text_parts::say;
use trace_io::TextSink;
use trace_text::{Notation, Ordinal};
use uds_rules::Rules;

/// Says how two logs compare, as an object in a line.
pub(crate) fn say_comparison_object<S: TextSink>(
    compared: &Compared,
    shows_items: bool,
    rules: &Rules,
    out: &mut S,
)
    ensures { S.says out.old
        (object_line (comparison_members rules.now shows_items compared.now.comparison
        compared.now.left.meaning compared.now.right.meaning))
        out.new }
{
    match compared.comparison {
        Comparison::Same => say(out, "{\"same\":true}\n"),
        Comparison::Different { item: place } if shows_items => {
            say_shown_object(compared, place, rules, out)
        }
        Comparison::Different { item: place } => {
            say(out, ("{\"same\":false,\"item\":", Ordinal(place), "}\n"));
        }
    }
}

/// Says the object of two logs that differ first in this place, with the items of both there.
fn say_shown_object<S: TextSink>(compared: &Compared, place: usize, rules: &Rules, out: &mut S)
    ensures { S.says out.old
        (object_line
        (different_members place (shown_members rules.now place compared.now.left.meaning compared.now.right.meaning)))
        out.new }
{
    say(
        out,
        ("{\"same\":false,\"item\":", Ordinal(place), ",\"left\":"),
    );
    say_item_at(&compared.left.meaning, place, Notation::Json, rules, out);
    say(out, ",\"right\":");
    say_item_at(&compared.right.meaning, place, Notation::Json, rules, out);
    say(out, "}\n");
}
