//! Two sessions.

ghost use Rattle.std.specs.Prelude.{◌≡◌, option_map, slice_get};
ghost use Rattle.uds_exchange.specs.ItemSeen.{item_value};
ghost use Rattle.trace_report.specs.Items as placed;
ghost use Rattle.trace_report.specs.Items.{item_of as placed_item, message_of};
ghost use Rattle.trace_pair.specs.Sessions.{values_in};

use trace_report::{KeptSession, PlacedItem, RowMessage, is_request_role};
use uds_difference::ItemSource;
use uds_exchange::Item;

/// Both sessions of a page.
#[derive(Clone, Copy)]
pub(crate) struct Sessions<'a> {
    pub left: &'a KeptSession<'a>,
    pub right: &'a KeptSession<'a>,
}

/// The items of a session.
#[derive(Clone, Copy)]
pub(crate) struct ItemsOf<'a>(pub &'a KeptSession<'a>);

impl<'a> ItemSource for ItemsOf<'a> {
    ghost use Rattle.trace_pair.specs.Sessions.{values_in};

    ghost items = { λ of. values_in of.0.now };

    fn count(&self) -> usize {
        self.0.rows().item_count()
    }

    fn item_at(&self, place: usize) -> Option<Item<'_>> {
        item_at(self.0, place)
    }
}

/// The item of a session at a place, counted from 0, if there is one.
pub(crate) fn item_at<'a>(session: &'a KeptSession<'_>, place: usize) -> Option<Item<'a>>
    ensures { option_map item_value result ≡ slice_get (values_in session.now) place }
{
    match session.rows().item(place) {
        Some(item) => Some(item_of(item)),
        None => None,
    }
}

/// An item that is lent, without its places.
pub(crate) fn item_of<'a>(item: PlacedItem<'a>) -> Item<'a>
    ensures { item_value result ≡ placed.item_value (placed_item item.entry) }
{
    if is_request_role(item.begin.sent.role) {
        Item::Exchange {
            request: item.begin.bytes,
            answer: answer_bytes(item.answer),
        }
    } else {
        Item::Stray {
            dir: item.begin.sent.dir,
            bytes: item.begin.bytes,
        }
    }
}

/// The bytes of an answer, if there is one.
fn answer_bytes(answer: Option<RowMessage<'_>>) -> Option<&[u8]>
    ensures { option_map (λ bytes. bytes.now) result ≡ option_map (λ reply. (message_of reply).bytes) answer.entry }
{
    match answer {
        Some(reply) => Some(reply.bytes),
        None => None,
    }
}
