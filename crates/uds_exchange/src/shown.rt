//! What `{:?}` shows of a pairing, an orderer, held messages and a meaning: the fields that they had before their
//! messages lay in blocks, since callers may have these texts in their logs.

use crate::held::HeldMessages;
use crate::item::Item;
use crate::meaning::Meaning;
use crate::orderer::Orderer;
use crate::pairing::Pairing;
use direction::Dir;
use std::fmt::{self, Debug, Formatter, Write};

impl Debug for Pairing {
    fn fmt<W: Write>(&self, f: &mut Formatter<W>) -> fmt::Result {
        let meaning = &self.pairing.meaning;
        f.debug_struct("Pairing")
            .field("alloc", meaning.items.allocator())
            .field("items", &ShownItems { of: meaning })
            .field("open_sid", &self.judge.open_sid)
            .field("last", &last_exchange(meaning))
            .finish()
    }
}

impl Debug for Orderer {
    fn fmt<W: Write>(&self, f: &mut Formatter<W>) -> fmt::Result {
        f.debug_struct("Orderer")
            .field("has_failed", &self.orderer.has_failed)
            .field("open_sid", &self.judge.open_sid)
            .field("held", &self.orderer.held)
            .finish()
    }
}

impl Debug for Meaning {
    fn fmt<W: Write>(&self, f: &mut Formatter<W>) -> fmt::Result {
        f.debug_struct("Meaning")
            .field("items", &ShownItems { of: self })
            .finish()
    }
}

impl Debug for HeldMessages {
    fn fmt<W: Write>(&self, f: &mut Formatter<W>) -> fmt::Result {
        f.debug_struct("Held")
            .field("extents", &Extents { of: self })
            .field("bytes", &ShownBytes { of: self })
            .finish()
    }
}

/// The items of a meaning.
#[derive(Drop)]
struct ShownItems<'a> {
    of: &'a Meaning,
}

impl<'a> Debug for ShownItems<'a> {
    fn fmt<W: Write>(&self, f: &mut Formatter<W>) -> fmt::Result {
        let mut list = f.debug_list();
        for i in 0..self.of.len() {
            if let Some(item) = self.of.item(i) {
                list.entry(&item);
            }
        }
        list.finish()
    }
}

/// The place of the last exchange, or 0 where there is none.
fn last_exchange(meaning: &Meaning) -> usize {
    let mut last = 0;
    for i in 0..meaning.len() {
        if let Some(Item::Exchange { .. }) = meaning.item(i) {
            last = i;
        }
    }
    last
}

/// The side and the length of each message.
#[derive(Drop)]
struct Extents<'a> {
    of: &'a HeldMessages,
}

impl<'a> Debug for Extents<'a> {
    fn fmt<W: Write>(&self, f: &mut Formatter<W>) -> fmt::Result {
        let held = self.of;
        let each = held.places.as_slice();
        let mut list = f.debug_list();
        for one in each {
            list.entry(&Extent {
                dir: one.dir,
                len: one.len,
            });
        }
        list.finish()
    }
}

/// The side and the length of a message.
#[derive(Clone, Copy, Debug)]
struct Extent {
    dir: Dir,
    len: usize,
}

/// The bytes of all messages.
#[derive(Drop)]
struct ShownBytes<'a> {
    of: &'a HeldMessages,
}

impl<'a> Debug for ShownBytes<'a> {
    fn fmt<W: Write>(&self, f: &mut Formatter<W>) -> fmt::Result {
        let held = self.of;
        let each = held.places.as_slice();
        let mut list = f.debug_list();
        for one in each {
            list.slice(held.messages.message(one.span()));
        }
        list.finish()
    }
}
