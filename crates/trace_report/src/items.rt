//! The items of a session, lent.

ghost use Rattle.std.specs.Prelude.{◌≡◌, option_map};
ghost use Rattle.trace_report.specs.Items.{message_in, item_of, message_of};
ghost use Rattle.trace_report.specs.proving.Keeping.{AreLaid, IsLaid, rows_at};
ghost use Rattle.trace_report.specs.proving.Keeping as Keeping;

use crate::item_places::ItemPlace;
use crate::kept_rows::KeptRow;
use crate::row::SentMessage;
use uds_exchange::Messages;

/// A message of a session, lent.
#[derive(Clone, Copy)]
pub struct RowMessage<'a> {
    pub sent: &'a SentMessage,
    pub bytes: &'a [u8],
}

/// An item of a session, lent: the message that begins it, and its answer, if it has one.
#[derive(Clone, Copy)]
pub struct PlacedItem<'a> {
    pub begin: RowMessage<'a>,
    pub answer: Option<RowMessage<'a>>,
}

/// The item that stands there among the rows, lent.
#[inline(always)]
pub(crate) fn item_at<'a>(
    messages: &'a Messages,
    rows: &'a [KeptRow],
    item: ItemPlace,
) -> Option<PlacedItem<'a>>
    requires { AreLaid messages.now rows.now }
    ensures { option_map item_of result ≡ Keeping.placed_at (rows_at messages.now rows.now) item }
{
    let begin = message_at(messages, rows, item.begin)?;
    item_with(messages, rows, begin, item.answer)
}

/// The item that begins with this message, and whose answer stands there, if it has one.
#[inline(always)]
fn item_with<'a>(
    messages: &'a Messages,
    rows: &'a [KeptRow],
    begin: RowMessage<'a>,
    answer: Option<usize>,
) -> Option<PlacedItem<'a>>
    requires { AreLaid messages.now rows.now }
    ensures { option_map item_of result ≡ Keeping.item_with (rows_at messages.now rows.now) (message_of begin.entry) answer }
{
    match answer {
        None => Some(PlacedItem {
            begin,
            answer: None,
        }),
        Some(at) => {
            let reply = message_at(messages, rows, at)?;
            Some(PlacedItem {
                begin,
                answer: Some(reply),
            })
        }
    }
}

/// The message of the row at a place, lent, if there is one.
#[inline(always)]
fn message_at<'a>(messages: &'a Messages, rows: &'a [KeptRow], at: usize) -> Option<RowMessage<'a>>
    requires { AreLaid messages.now rows.now }
    ensures { option_map message_of result ≡ Keeping.message_at (rows_at messages.now rows.now) at }
{
    match rows.get(at) {
        Some(row) => message_of_row(messages, row),
        None => None,
    }
}

/// The message of a row, lent, if it has one.
#[inline(always)]
fn message_of_row<'a>(messages: &'a Messages, row: &'a KeptRow) -> Option<RowMessage<'a>>
    requires { IsLaid messages.now row.now }
    ensures { option_map message_of result ≡ message_in (Keeping.row_at messages.now row.now) }
{
    match row {
        KeptRow::Message { sent, bytes } => Some(RowMessage {
            sent,
            bytes: messages.message(*bytes),
        }),
        KeptRow::Missing(_) => None,
    }
}
