//! What takes items in order.

ghost use Rattle.uds_exchange.specs.ItemSeen.{item_value};
ghost use Rattle.uds_exchange.specs.Meaning.{ItemValue};

use crate::item::Item;

/// What takes items in order. It never fails: an implementation says by a ghost member which values of the sink may
/// follow an item. The bytes are lent for the call alone.
pub trait ItemSink {
    ghost takes: { Self → ItemValue → Self → Type 0 };

    /// Takes the next item.
    fn put(&mut self, item: Item<'_>)
        ensures { takes self.old (item_value item.entry) self.new };
}
