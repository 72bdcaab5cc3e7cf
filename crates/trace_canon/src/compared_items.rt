//! The item of a log in the place where two differ, in words and in JSON.

ghost use Rattle.std.specs.Prelude.{ℕ, ◌+◌, List, Some, None, slice_get};
ghost use Rattle.uds_exchange.specs.ItemSeen.{item_value};
ghost use Rattle.trace_canon.specs.ComparisonText.{shown_text};
ghost use Rattle.uds_rules.specs.Rule.{RuleValue};

use text_parts::say;
use trace_io::TextSink;
use trace_text::{Notation, Numbering, say_item_object, say_worded_line};
use uds_exchange::{Item, Meaning};
use uds_rules::Rules;

/// Says the item of a meaning in a place, which is counted from 0, by its number, which is counted from 1; or that
/// there is none.
pub(crate) fn say_item_at<S: TextSink>(
    meaning: &Meaning,
    place: usize,
    notation: Notation,
    rules: &Rules,
    out: &mut S,
)
    ensures { S.says out.old (shown_text rules.now notation (place + 1) (slice_get meaning.now place)) out.new }
{
    // `item` asks this, too. Asked here first, it bounds the place, so that the number, one more, can't overflow.
    if place >= meaning.len() {
        say_nothing(notation, out);
        return;
    }
    if let Some(item) = meaning.item(place) {
        say_shown(place as u64 + 1, item, notation, rules, out);
    }
}

/// Says an item by its number.
fn say_shown<S: TextSink>(
    number: u64,
    item: Item<'_>,
    notation: Notation,
    rules: &Rules,
    out: &mut S,
)
    ensures { S.says out.old (shown_text rules.now notation number (Some (item_value item.entry))) out.new }
{
    match notation {
        Notation::Text => say_worded_line(number, Numbering::Shown, rules, item, out),
        Notation::Json => say_item_object(number, Numbering::Shown, rules, item, out),
    }
}

/// Says that there is no item.
fn say_nothing<S: TextSink>(notation: Notation, out: &mut S)
    ensures { (rules : List RuleValue) (number : ℕ) → S.says out.old (shown_text rules notation number None) out.new }
{
    match notation {
        Notation::Text => say(out, "nothing\n"),
        Notation::Json => say(out, "null"),
    }
}
