//! The items of a meaning, each as soon as it is decided.

ghost use Rattle.std.specs.Prelude.{◌≡◌, ◌++◌, ◌∷◌, [], List, OnOk, OnErr, map, option_map};
ghost use Rattle.direction.specs.Dir.{Message};
ghost use Rattle.uds_exchange.specs.Meaning.{stray_of};
ghost use Rattle.uds_exchange.specs.Decided.{exchange_items, undecided};
ghost use Rattle.uds_exchange.specs.Decider.{decider_after, PutsDecided, IsKept};
ghost use Rattle.uds_exchange.specs.ItemSink.{PutsItems};
ghost use Rattle.uds_exchange.specs.Judging.{IsJudgedAfter, sent};
ghost use Rattle.uds_exchange.specs.proving.Deciding.{decided_for, decider_after_step, Keeps};

use crate::held::HeldMessages;
use crate::item::Item;
use crate::item_sink::ItemSink;
use crate::judge::Judged;
use crate::message_sink::{MessageSink, NoFault};
use crate::messages::block_with;
use crate::step::Step;
use direction::Dir;
use std::alloc::{AllocError, Global};
use std::marker::Model;

/// Puts the items of a meaning in order into a sink, each as soon as nothing that follows can change it: an exchange
/// when its answer comes or the next request does, and the strays after it then too. It keeps the open request, and the
/// messages that are held behind it. A reply that is removed is neither kept nor put.
#[derive(Debug, Drop)]
pub struct Decider {
    alloc: Global,
    /// The open request: the last one, where it waits for its answer.
    request: Option<Vec<u8>>,
    /// What follows that request.
    held: HeldMessages,
}

impl Model for Decider {
    ghost use Rattle.std.specs.Prelude.{option_map};
    ghost use Rattle.uds_exchange.specs.Decider.{DeciderValue};

    ghost Value = { DeciderValue };

    ghost view = { λ d. record { request = option_map (λ bytes. bytes.items) d.request; holds = d.held } };
}

impl Decider {
    /// A decider that has taken no message. It takes no memory.
    pub fn new(alloc: Global) -> Decider
        ensures { result ≡ decider_after [] }
    {
        Decider {
            alloc,
            request: None,
            held: HeldMessages::new(alloc),
        }
    }

    /// Takes one more message, and puts all items that are now decided. Memory is taken for a request, and for a
    /// message that is held. After an `Err` nothing was put, the decider is unchanged, and the call may be made again.
    pub fn take<S: ItemSink>(&mut self, message: Judged<'_>, sink: &mut S) -> Result<(), AllocError>
        ensures stands { OnOk result ((M : List Message) → self.old ≡ decider_after M → IsJudgedAfter M message.entry
            → self.new ≡ decider_after (M ++ sent message.entry ∷ [])) }
        ensures puts { OnOk result ((M : List Message) → self.old ≡ decider_after M → IsJudgedAfter M message.entry
            → PutsDecided S.takes M (sent message.entry) sink.old sink.new) }

        ensures err { OnErr result (self.new ≡ self.old) }
        ensures unput { OnErr result (sink.new ≡ sink.old) }
        ensures needs { OnErr result ((M : List Message) → self.old ≡ decider_after M → IsJudgedAfter M message.entry
            → IsKept M (sent message.entry)) }
    {
        self.advance(message, sink)
    }

    /// Puts what is left: the exchange of the open request, and the strays behind it. It takes no memory.
    pub fn finish<S: ItemSink>(self, sink: &mut S)
        ensures { (M : List Message) → self ≡ decider_after M → PutsItems S.takes sink.old (undecided M) sink.new }
    {
        let Decider {
            alloc: _,
            request,
            held,
        } = self;
        put_exchange(&request, None, &held, sink);
    }

    /// Takes one more message, by what becomes of it and what is kept alone: `take` promises the same by the messages.
    fn advance<S: ItemSink>(&mut self, message: Judged<'_>, sink: &mut S) -> Result<(), AllocError>
        ensures now { OnOk result (self.new ≡ decider_after_step message.entry.step self.old (sent message.entry)) }
        ensures puts { OnOk result (PutsItems S.takes sink.old
            (decided_for message.entry.step self.old (sent message.entry)) sink.new) }
        ensures err { OnErr result (self.new ≡ self.old) }
        ensures unput { OnErr result (sink.new ≡ sink.old) }
        ensures needs { OnErr result (Keeps message.entry.step) }
    {
        let Judged { dir, bytes, .. } = message;
        match message.step {
            Step::Request(_) => {
                let request = block_with(self.alloc, bytes.len(), bytes)?;
                put_exchange(&self.request, None, &self.held, sink);
                self.request = Some(request);
                self.held.clear();
                Ok(())
            }
            Step::Answer => {
                put_exchange(&self.request, Some(bytes), &self.held, sink);
                self.request = None;
                self.held.clear();
                Ok(())
            }
            Step::Removed => Ok(()),
            Step::Hold => self.held.push(dir, bytes),
            Step::Pass => {
                sink.put(Item::Stray { dir, bytes });
                Ok(())
            }
        }
    }
}

/// Puts the exchange of the open request, with its answer, if it has one, and the strays behind it.
fn put_exchange<S: ItemSink>(
    request: &Option<Vec<u8>>,
    answer: Option<&[u8]>,
    held: &HeldMessages,
    sink: &mut S,
)
    ensures { PutsItems S.takes sink.old
        (exchange_items (option_map (λ bytes. bytes.items) request.now)
        (option_map (λ bytes. bytes.now) answer.entry) held.now)
        sink.new }
{
    if let Some(request) = request {
        sink.put(Item::Exchange {
            request: request.as_slice(),
            answer,
        });
        put_strays(held, sink);
    }
}

/// Puts messages as strays.
fn put_strays<S: ItemSink>(held: &HeldMessages, sink: &mut S)
    ensures { PutsItems S.takes sink.old (map stray_of held.now) sink.new }
{
    let mut strays = StraySink { sink };
    match held.put_all(&mut strays) {
        Ok(()) => {}
        Err(fault) => match fault {},
    }
}

/// What takes messages and puts each into a sink of items, as a stray.
#[derive(Drop)]
pub(crate) struct StraySink<'a, S> {
    pub sink: &'a mut S,
}

impl<'a, S: ItemSink> MessageSink for StraySink<'a, S> {
    ghost use Rattle.std.specs.Prelude.{◌≡◌};
    ghost use Rattle.uds_exchange.specs.Meaning.{stray};

    type Fault = NoFault;

    ghost after_ok = { λ s d m t. (t.sink.ghost_name ≡ s.sink.ghost_name) × S.takes s.sink.now (stray d m) t.sink.now };

    ghost after_err = { λ s d m e t. ⊥ };

    fn put(&mut self, dir: Dir, message: &[u8]) -> Result<(), NoFault> {
        self.sink.put(Item::Stray {
            dir,
            bytes: message,
        });
        Ok(())
    }
}
