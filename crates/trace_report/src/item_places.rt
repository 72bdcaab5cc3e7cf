//! Where the items of a session stand among its rows, noted as these come.

ghost use Rattle.std.specs.Prelude.{◌≡◌, ◌<◌, ◌∷◌, ◌++◌, [], None, IfSome, length};
ghost use Rattle.std.specs.Vec.{vec_capacity, vec_len};
ghost use Rattle.trace_report.specs.Rows.{row_of};
ghost use Rattle.trace_report.specs.proving.Keeping.{places_answered, places_by, places_next, waiting_by, waiting_next};
ghost use Rattle.trace_report.specs.proving.Keeping as Keeping;

use crate::roles::MessageRole;
use crate::row::SessionRow;

/// Where an item stands among the rows: the message that begins it, and its answer, if it has one.
#[derive(Clone, Copy)]
pub(crate) struct ItemPlace {
    pub begin: usize,
    pub answer: Option<usize>,
}

/// Notes what the row at this place is to items.
#[inline(always)]
pub(crate) fn note_row(
    items: &mut Vec<ItemPlace>,
    waiting: &mut Option<usize>,
    at: usize,
    row: SessionRow<'_>,
)
    requires room { vec_len items.old < vec_capacity items.old }
    requires there { IfSome waiting.old (λ number. number < length items.old.items) }
    ensures items { items.new.items ≡ places_next (row_of row.entry) items.old.items waiting.old at }
    ensures waiting { waiting.new ≡ waiting_next (row_of row.entry) items.old.items waiting.old }
{
    match row {
        SessionRow::Message { sent, .. } => note_message(items, waiting, at, sent.role),
        SessionRow::Missing(_) => {}
    }
}

/// Notes what a message of this role is to items, which the row at this place tells.
#[inline(always)]
fn note_message(
    items: &mut Vec<ItemPlace>,
    waiting: &mut Option<usize>,
    at: usize,
    role: MessageRole,
)
    requires room { vec_len items.old < vec_capacity items.old }
    requires there { IfSome waiting.old (λ number. number < length items.old.items) }
    ensures items { items.new.items ≡ places_by role items.old.items waiting.old at }
    ensures waiting { waiting.new ≡ waiting_by role items.old.items waiting.old }
{
    match role {
        MessageRole::Request => {
            *waiting = Some(items.len());
            begin_item(items, at);
        }
        MessageRole::KeepAlive | MessageRole::Stray => begin_item(items, at),
        MessageRole::Positive { .. } | MessageRole::Negative { .. } => {
            answer_waiting(items, *waiting, at);
            *waiting = None;
        }
        MessageRole::Pending { .. } => {}
    }
}

/// Notes that an item begins in the row at this place.
#[inline(always)]
fn begin_item(items: &mut Vec<ItemPlace>, at: usize)
    requires { vec_len items.old < vec_capacity items.old }
    ensures { items.new.items ≡ items.old.items ++ record { begin = at; answer = None } ∷ [] }
{
    items.push_reserved(ItemPlace {
        begin: at,
        answer: None,
    });
}

/// Notes that the row at this place answers the request that waits, if one does.
#[inline(always)]
fn answer_waiting(items: &mut Vec<ItemPlace>, waiting: Option<usize>, at: usize)
    requires { IfSome waiting (λ number. number < length items.old.items) }
    ensures { items.new.items ≡ places_answered items.old.items waiting at }
{
    if let Some(number) = waiting {
        answer_with(&mut items[number], at);
    }
}

/// Notes where the answer of an item stands.
#[inline(always)]
fn answer_with(item: &mut ItemPlace, at: usize)
    ensures { item.new ≡ Keeping.answered_at item.old at }
{
    item.answer = Some(at);
}
