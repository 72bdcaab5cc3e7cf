//! A row of the table of items.

ghost use Rattle.std.specs.Prelude.{◌≡◌, option_map};
ghost use Rattle.trace_report.specs.Items.{item_of};
ghost use Rattle.trace_pair.specs.ItemRows as Spec;

use crate::change_top::TopIf;
use crate::loss_words::say_losses;
use crate::row_items::{ItemsOfRow, NoteIf};
use crate::row_times::{LongerMark, row_times};
use crate::sessions::Sessions;
use pair_words::{DifferenceName, PairLog, has_item};
use text_parts::{Part, say};
use trace_io::TextSink;
use trace_report::{KeptSession, PlacedItem};
use trace_text::Ordinal;
use uds_difference::Row;

/// Where a row stands: what it is, and how many items of both stand before it.
#[derive(Clone, Copy)]
pub(crate) struct RowPlace {
    pub kind: Row,
    pub left: usize,
    pub right: usize,
}

/// The change that begins with a row: its number, of how many, and how many rows it has.
#[derive(Clone, Copy)]
pub(crate) struct Begun {
    pub number: u64,
    pub all: u64,
    pub count: usize,
}

/// Says a row, with which a change may begin.
pub(crate) fn say_item_row<S: TextSink>(
    sessions: Sessions<'_>,
    place: RowPlace,
    begun: Option<Begun>,
    out: &mut S,
)
    ensures { S.says out.old (Spec.row_text sessions.entry.left.now sessions.entry.right.now place begun) out.new }
{
    let rules = sessions.left.rules();
    let one = row_item(PairLog::A, sessions.left, place);
    let other = row_item(PairLog::B, sessions.right, place);
    say(
        out,
        (
            RowStart(place.kind, begun),
            Numbers(place),
            LongerMark(row_times(one, other), place.left),
            TopIf {
                rules,
                begun,
                kind: place.kind,
                one,
                other,
            },
            "<div class=\"it\">",
            ItemsOfRow(rules, place.kind, one, other),
            "</div><div class=\"ab\">",
            NoteIf(PairLog::A, sessions.left.first_time(), one),
            " ",
            NoteIf(PairLog::B, sessions.right.first_time(), other),
            "</div>",
        ),
    );
    say_row_losses(PairLog::A, sessions.left, place, out);
    say_row_losses(PairLog::B, sessions.right, place, out);
    say(out, "\n");
}

/// Says what is missing of the item that a row has of a log, if it has one.
fn say_row_losses<S: TextSink>(
    log: PairLog,
    session: &KeptSession<'_>,
    place: RowPlace,
    out: &mut S,
)
    ensures { S.says out.old (Spec.row_losses log session.now place) out.new }
{
    if has_item(log, place.kind) {
        say_losses(log, session, place_in(log, place), out);
    }
}

/// The item that a row has of a log, if it has one.
pub(crate) fn row_item<'a>(
    log: PairLog,
    session: &'a KeptSession<'_>,
    place: RowPlace,
) -> Option<PlacedItem<'a>>
    ensures { option_map item_of result ≡ Spec.row_item log session.now place }
{
    if has_item(log, place.kind) {
        session.rows().item(place_in(log, place))
    } else {
        None
    }
}

/// How many items of a log stand before a row.
pub(crate) fn place_in(log: PairLog, place: RowPlace) -> usize
    ensures { result ≡ Spec.place_in log place }
{
    match log {
        PairLog::A => place.left,
        PairLog::B => place.right,
    }
}

/// The start of a row: what it looks like, and where a change begins, the identifier to which the list leads.
#[derive(Clone, Copy)]
struct RowStart(Row, Option<Begun>);

impl Part for RowStart {
    ghost use Rattle.trace_pair.specs.ItemRows.{begun_number, row_start};

    ghost text = { λ start. row_start start.0 (begun_number start.1) };

    fn say<S: TextSink>(self, out: &mut S) {
        say(out, ("<tr class=\"", RowClass(self.0)));
        match self.1 {
            Some(begun) => say(out, ("\" id=\"", DifferenceName(begun.number), "\">")),
            None => say(out, "\">"),
        }
    }
}

/// What a row looks like.
#[derive(Clone, Copy)]
struct RowClass(Row);

impl Part for RowClass {
    ghost use Rattle.trace_pair.specs.ItemRows.{row_class};

    ghost text = { λ class. row_class class.0 };

    fn say<S: TextSink>(self, out: &mut S) {
        match self.0 {
            Row::Same => say(out, "same"),
            Row::Changed => say(out, "d ch"),
            Row::OnlyLeft => say(out, "d oa"),
            Row::OnlyRight => say(out, "d ob"),
        }
    }
}

/// The numbers of a row: those of the items that it has.
#[derive(Clone, Copy)]
struct Numbers(RowPlace);

impl Part for Numbers {
    ghost use Rattle.trace_pair.specs.ItemRows.{numbers};

    ghost text = { λ row. numbers row.0.kind row.0.left row.0.right };

    fn say<S: TextSink>(self, out: &mut S) {
        let RowPlace { kind, left, right } = self.0;
        say(
            out,
            (
                "<th scope=\"row\">",
                NumberIf(has_item(PairLog::A, kind), left),
                "<td>",
                NumberIf(has_item(PairLog::B, kind), right),
                "<td>",
            ),
        );
    }
}

/// The number of an item, or that there is none.
#[derive(Clone, Copy)]
struct NumberIf(bool, usize);

impl Part for NumberIf {
    ghost use Rattle.trace_pair.specs.ItemRows.{number_if};

    ghost text = { λ number. number_if number.0 number.1 };

    fn say<S: TextSink>(self, out: &mut S) {
        if self.0 {
            say(out, Ordinal(self.1));
        } else {
            say(out, "<span class=\"none\">&#8211;</span>");
        }
    }
}
