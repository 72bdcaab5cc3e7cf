//! What a list of messages means.

ghost use Rattle.std.specs.Prelude.{◌≡◌, ◌↔◌, ◌<◌, ◌^◌, ◌++◌, ◌∷◌, IsTrue, [], List, ℕ, Some, None, OnOk, OnErr, length, option_map, slice_get, slice_set};
ghost use Rattle.uds_exchange.specs.ItemSeen.{item_value};
ghost use Rattle.uds_exchange.specs.Difference.{IsFirstDifference};
ghost use Rattle.uds_exchange.specs.Meaning.{exchange, stray};
ghost use Rattle.uds_exchange.specs.proving.KeptItems.{item_at, IsKeptIn, IsInsideIfAny};
ghost use Rattle.uds_exchange.specs.Blocks.{bytes_at, IsInside};
ghost use Rattle.uds_exchange.specs.declared.messages.Span.{Span as SpanValue};
ghost use Rattle.uds_exchange.specs.declared.meaning.KeptItem.TheVariants.{Exchange};

use crate::item::Item;
use crate::messages::{Messages, Span};
use direction::Dir;
use std::alloc::{AllocError, Global};
use std::marker::Model;

/// The meaning of a list of messages, seen as a list of items. It keeps their bytes, and lends them.
#[derive(Drop)]
pub struct Meaning {
    /// The items, by where their messages lie.
    pub(crate) items: Vec<KeptItem>,
    /// The bytes of all messages.
    messages: Messages,
}

/// An item, by where its messages lie.
#[derive(Clone, Copy)]
pub(crate) enum KeptItem {
    Exchange { request: Span, answer: Option<Span> },
    Stray { dir: Dir, bytes: Span },
}

impl Model for Meaning {
    ghost use Rattle.std.specs.Prelude.{List};
    ghost use Rattle.uds_exchange.specs.Meaning.{ItemValue};
    ghost use Rattle.uds_exchange.specs.proving.KeptItems.{items_at, AreKeptIn};

    ghost Value = { List ItemValue };

    ghost view = { λ m. items_at m.messages m.items.items };

    ghost invariant = { λ m. AreKeptIn m.messages m.items.items };
}

impl Meaning {
    /// How many items there are.
    pub fn len(&self) -> usize
        ensures value { result ≡ length self.now }
        ensures small { result < 2 ^ 63 }
    {
        self.items.len()
    }

    /// Whether there is no item.
    pub fn is_empty(&self) -> bool
        ensures { IsTrue result ↔ (self.now ≡ []) }
    {
        self.items.is_empty()
    }

    /// The item at place `i`, counted from 0.
    #[inline(always)]
    pub fn item(&self, i: usize) -> Option<Item<'_>>
        ensures { option_map item_value result ≡ slice_get self.now i }
    {
        match self.items.get(i) {
            Some(item) => Some(item_at(&self.messages, *item)),
            None => None,
        }
    }

    /// The first place, counted from 0, at which the two meanings differ: the items are not equal, or only one of the
    /// two has an item there.
    pub fn first_difference(&self, other: &Meaning) -> Option<usize>
        ensures { IsFirstDifference self.now other.now result }
    {
        let shorter = self.len().min(other.len());
        for i in 0..shorter {
            if !is_same(self.item(i), other.item(i)) {
                return Some(i);
            }
        }
        if self.len() == other.len() {
            None
        } else {
            Some(shorter)
        }
    }

    /// No item. It takes no memory.
    pub(crate) fn new(alloc: Global) -> Meaning
        ensures { result ≡ [] }
    {
        Meaning {
            items: Vec::new(alloc),
            messages: Messages::new(alloc),
        }
    }

    /// Keeps the exchange of a request that has no answer yet.
    pub(crate) fn push_request(&mut self, request: &[u8]) -> Result<(), AllocError>
        ensures ok { OnOk result (self.new ≡ self.old ++ exchange request.now None ∷ []) }
        ensures err { OnErr result (self.new ≡ self.old) }
    {
        self.items.reserve(1)?;
        let request = self.messages.append(request)?;
        self.items.push_reserved(KeptItem::Exchange {
            request,
            answer: None,
        });
        Ok(())
    }

    /// Keeps a message that belongs to no exchange.
    pub(crate) fn push_stray(&mut self, dir: Dir, bytes: &[u8]) -> Result<(), AllocError>
        ensures ok { OnOk result (self.new ≡ self.old ++ stray dir bytes.now ∷ []) }
        ensures err { OnErr result (self.new ≡ self.old) }
    {
        self.items.reserve(1)?;
        let bytes = self.messages.append(bytes)?;
        self.items.push_reserved(KeptItem::Stray { dir, bytes });
        Ok(())
    }

    /// Gives the exchange at this place its answer. It has none before.
    pub(crate) fn answer(&mut self, at: usize, answer: &[u8]) -> Result<(), AllocError>
        requires { at < length self.old }
        ensures ok { OnOk result ((request : List ℕ) → slice_get self.old at ≡ Some (exchange request None)
            → self.new ≡ slice_set self.old at (exchange request (Some answer.now))) }
        ensures err { OnErr result (self.new ≡ self.old) }
    {
        let answer = self.messages.append(answer)?;
        answer_with(&mut self.items[at], answer);
        Ok(())
    }
}

/// Whether there are two equal items, or none.
fn is_same(one: Option<Item<'_>>, other: Option<Item<'_>>) -> bool
    ensures { IsTrue result ↔ (option_map item_value one.entry ≡ option_map item_value other.entry) }
{
    one == other
}

/// Gives an exchange its answer; a stray stays as it is.
fn answer_with(item: &mut KeptItem, answer: Span)
    ensures answered { (request : SpanValue) → item.old ≡ Exchange request None
        → item.new ≡ Exchange request (Some answer) }
    ensures inside { (blocks : List (List ℕ)) → IsInside blocks answer → IsKeptIn blocks item.old
        → IsKeptIn blocks item.new }
{
    if let KeptItem::Exchange { answer: kept, .. } = item {
        *kept = Some(answer);
    }
}

/// The item, lent from the messages.
#[inline(always)]
fn item_at(messages: &Messages, item: KeptItem) -> Item<'_>
    requires { IsKeptIn messages.now item }
    ensures { item_value result ≡ item_at messages.now item }
{
    match item {
        KeptItem::Exchange { request, answer } => Item::Exchange {
            request: messages.message(request),
            answer: answer_at(messages, answer),
        },
        KeptItem::Stray { dir, bytes } => Item::Stray {
            dir,
            bytes: messages.message(bytes),
        },
    }
}

/// The bytes of an answer, if there is one.
#[inline(always)]
fn answer_at(messages: &Messages, span: Option<Span>) -> Option<&[u8]>
    requires { IsInsideIfAny messages.now span }
    ensures { option_map (λ answer. answer.now) result ≡ option_map (bytes_at messages.now) span }
{
    match span {
        Some(span) => Some(messages.message(span)),
        None => None,
    }
}
