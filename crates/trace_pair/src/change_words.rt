//! The changes of two sessions, in a list.

ghost use Rattle.std.specs.Prelude.{◌+◌, ◌<◌, ◌≤◌, ◌^◌};
ghost use Rattle.trace_pair.specs.ChangeWords.{IsSmall, change_line, items_range, run_words, what_text, where_link, where_text};
ghost use Rattle.trace_pair.specs.Verdict.{is_lossy as is_lossy_by};
ghost use Rattle.pair_words.specs.declared.log.PairLog.TheVariants.{A, B};
ghost use Rattle.trace_pair.specs.Sessions.{left_items, right_items, values_in};

use crate::differ_words::DifferWords;
use crate::item_words::{ItemTitle, OutcomeNote};
use crate::losses::is_lossy;
use crate::sessions::{Sessions, item_at};
use pair_words::{DifferenceName, PairLog};
use shown_rows::Change;
use text_parts::{Either, Part, say};
use trace_io::TextSink;
use trace_report::KeptSession;
use trace_text::{Number, Ordinal};
use uds_difference::Row;
use uds_exchange::Item;
use uds_rules::Rules;

/// Says a change in a line: where it stands, with a link to the one of this number, counted from 1, or without; what it
/// is; and whether a log is not clean there.
pub(crate) fn say_change_line<S: TextSink>(
    linked: bool,
    number: usize,
    sessions: Sessions<'_>,
    change: Change,
    out: &mut S,
)
    requires { IsSmall change }
    ensures { S.says out.old (change_line sessions.entry.left.now.rules linked number (is_lossy_by A sessions.entry.left.now change) (is_lossy_by B sessions.entry.right.now change) (left_items sessions.entry) (right_items sessions.entry) change) out.new }
{
    let unclean = Unclean {
        left: is_lossy(PairLog::A, sessions.left, change),
        right: is_lossy(PairLog::B, sessions.right, change),
    };
    say(out, "<span class=\"where\">");
    say_where(linked, number, change, out);
    say(out, "</span> <b class=\"tag\">");
    say(out, Tag(change.kind));
    say(out, "</b> <span class=\"what\">");
    say_what(sessions, change, out);
    say(out, unclean);
    say(out, "</span>");
}

/// Whether both logs are not clean at a change.
#[derive(Clone, Copy, Debug)]
struct Unclean {
    left: bool,
    right: bool,
}

impl Part for Unclean {
    ghost use Rattle.trace_pair.specs.ChangeWords.{unclean_note};

    ghost text = { λ note. unclean_note note.left note.right };

    fn say<S: TextSink>(self, out: &mut S) {
        match (self.left, self.right) {
            (true, true) => say(out, " <em class=\"loss\">neither is clean here</em>"),
            (true, false) => say(out, " <em class=\"loss\">A is not clean here</em>"),
            (false, true) => say(out, " <em class=\"loss\">B is not clean here</em>"),
            (false, false) => {}
        }
    }
}

/// What kind a change is of.
#[derive(Clone, Copy)]
pub(crate) struct Tag(pub Row);

impl Part for Tag {
    ghost use Rattle.trace_pair.specs.ChangeWords.{tag};

    ghost text = { λ kind. tag kind.0 };

    fn say<S: TextSink>(self, out: &mut S) {
        match self.0 {
            Row::Same => {}
            Row::Changed => say(out, "changed"),
            Row::OnlyLeft => say(out, "only in A"),
            Row::OnlyRight => say(out, "only in B"),
        }
    }
}

/// Says where a change stands, as a link to the one of this number or without.
fn say_where<S: TextSink>(linked: bool, number: usize, change: Change, out: &mut S)
    requires { IsSmall change }
    ensures { S.says out.old (where_link linked number (where_text change.kind change.left change.right change.count)) out.new }
{
    if linked {
        say(out, ("<a href=\"#", DifferenceName(number as u64), "\">"));
        say_place(change, out);
        say(out, "</a>");
    } else {
        say_place(change, out);
    }
}

/// Says where a change stands.
fn say_place<S: TextSink>(change: Change, out: &mut S)
    requires { IsSmall change }
    ensures { S.says out.old (where_text change.kind change.left change.right change.count) out.new }
{
    match change.kind {
        Row::Same => {}
        Row::Changed => {
            say_items_range(PairLog::A, change.left, 1, out);
            say(out, ", ");
            say_items_range(PairLog::B, change.right, 1, out);
        }
        Row::OnlyLeft => say_items_range(PairLog::A, change.left, change.count, out),
        Row::OnlyRight => say_items_range(PairLog::B, change.right, change.count, out),
    }
}

/// Says the numbers of items of a log: so many, behind so many.
pub(crate) fn say_items_range<S: TextSink>(log: PairLog, before: usize, count: usize, out: &mut S)
    requires { before + count ≤ 2 ^ 63 }
    ensures { S.says out.old (items_range log before count) out.new }
{
    let last = ("&#8211;", Number((before + count) as u64));
    say(
        out,
        (log, "&#160;", Ordinal(before), Either(count == 1, "", last)),
    );
}

/// Says what a change is.
fn say_what<S: TextSink>(sessions: Sessions<'_>, change: Change, out: &mut S)
    requires { IsSmall change }
    ensures { S.says out.old (what_text sessions.entry.left.now.rules (left_items sessions.entry) (right_items sessions.entry) change.kind change.left change.right change.count) out.new }
{
    match change.kind {
        Row::Same => {}
        Row::Changed => say(
            out,
            ChangedItems(
                sessions.left.rules(),
                item_at(sessions.left, change.left),
                item_at(sessions.right, change.right),
            ),
        ),
        Row::OnlyLeft => say_run(
            sessions.left.rules(),
            sessions.left,
            change.left,
            change.count,
            out,
        ),
        Row::OnlyRight => say_run(
            sessions.left.rules(),
            sessions.right,
            change.right,
            change.count,
            out,
        ),
    }
}

/// Two items that changed, if they are there.
#[derive(Clone, Copy)]
pub(crate) struct ChangedItems<'a>(pub &'a Rules, pub Option<Item<'a>>, pub Option<Item<'a>>);

impl<'a> Part for ChangedItems<'a> {
    ghost use Rattle.std.specs.Prelude.{option_map};
    ghost use Rattle.uds_exchange.specs.ItemSeen.{item_value};
    ghost use Rattle.trace_pair.specs.ChangeWords.{pair_words};

    ghost text = { λ items. pair_words items.0.now (option_map item_value items.1) (option_map item_value items.2) };

    fn say<S: TextSink>(self, out: &mut S) {
        let ChangedItems(rules, one, other) = self;
        if let (Some(x), Some(y)) = (one, other) {
            say(out, (ItemTitle(rules, x), ": ", DifferWords(rules, x, y)));
        }
    }
}

/// Says items that stand alone: so many, from the place of the first one on.
fn say_run<S: TextSink>(
    rules: &Rules,
    session: &KeptSession<'_>,
    first: usize,
    count: usize,
    out: &mut S,
)
    requires { first + count < 2 ^ 63 }
    ensures { S.says out.old (run_words rules.now (values_in session.now) first count) out.new }
{
    let item = item_at(session, first);
    if count == 1 {
        say(out, TitleIf(rules, item));
        say(out, OutcomeIf(item));
    } else {
        let last = item_at(session, (first + count).saturating_sub(1));
        say(
            out,
            (
                Number(count as u64),
                " items, from ",
                TitleIf(rules, item),
                " to ",
                TitleIf(rules, last),
            ),
        );
    }
}

/// The title of an item, if there is one.
#[derive(Clone, Copy)]
pub(crate) struct TitleIf<'a>(pub &'a Rules, pub Option<Item<'a>>);

impl<'a> Part for TitleIf<'a> {
    ghost use Rattle.std.specs.Prelude.{option_map};
    ghost use Rattle.text_parts.specs.Parts.{text_if_some};
    ghost use Rattle.uds_exchange.specs.ItemSeen.{item_value};
    ghost use Rattle.trace_pair.specs.ItemWords.{item_title};

    ghost text = { λ title. text_if_some (item_title title.0.now) (option_map item_value title.1) };

    fn say<S: TextSink>(self, out: &mut S) {
        let TitleIf(rules, item) = self;
        if let Some(item) = item {
            say(out, ItemTitle(rules, item));
        }
    }
}

/// What came of an item, if there is one.
#[derive(Clone, Copy)]
struct OutcomeIf<'a>(Option<Item<'a>>);

impl<'a> Part for OutcomeIf<'a> {
    ghost use Rattle.std.specs.Prelude.{option_map};
    ghost use Rattle.text_parts.specs.Parts.{text_if_some};
    ghost use Rattle.uds_exchange.specs.ItemSeen.{item_value};
    ghost use Rattle.trace_pair.specs.ItemWords.{outcome_note};

    ghost text = { λ outcome. text_if_some outcome_note (option_map item_value outcome.0) };

    fn say<S: TextSink>(self, out: &mut S) {
        if let Some(item) = self.0 {
            say(out, OutcomeNote(item));
        }
    }
}
