//! Requests with their answers, by messages that are judged already.

ghost use Rattle.std.specs.Prelude.{◌≡◌, ◌≢◌, ◌++◌, ◌∷◌, [], List, OnOk, OnErr};
ghost use Rattle.direction.specs.Dir.{Message};
ghost use Rattle.uds_exchange.specs.Meaning.{meaning};
ghost use Rattle.uds_exchange.specs.Judging.{IsJudgedAfter, sent};
ghost use Rattle.uds_exchange.specs.proving.OpenExchange.{open_exchange_in};
ghost use Rattle.uds_exchange.specs.proving.Pairing as Spec;

use crate::judge::Judged;
use crate::meaning::Meaning;
use crate::step::Step;
use std::alloc::{AllocError, Global};
use std::marker::Model;

/// Pairs messages that are judged already: a [`Pairing`](crate::Pairing) that is told what becomes of each. Contracts
/// see it as a list of items: the meaning of the messages, where each was judged behind those before it.
#[derive(Debug, Drop)]
pub struct JudgedPairing {
    pub(crate) meaning: Meaning,
    /// The place of the open exchange, if one is open.
    open_place: Option<usize>,
}

impl Model for JudgedPairing {
    ghost use Rattle.std.specs.Prelude.{List};
    ghost use Rattle.uds_exchange.specs.Meaning.{ItemValue};
    ghost use Rattle.uds_exchange.specs.proving.Pairing.{IsOpenPlace};

    ghost Value = { List ItemValue };

    ghost view = { λ p. p.meaning };

    ghost invariant = { λ p. IsOpenPlace p.meaning p.open_place };
}

impl JudgedPairing {
    /// A pairing that has taken no message. It takes no memory.
    pub fn new(alloc: Global) -> JudgedPairing
        ensures { result ≡ meaning [] }
    {
        JudgedPairing {
            meaning: Meaning::new(alloc),
            open_place: None,
        }
    }

    /// Takes one more message. A reply that is removed is not copied. After an `Err` nothing has changed, and the call
    /// may be made again. Whatever is said to become of the message, the call is safe: an answer where none is awaited
    /// is not taken.
    pub fn take(&mut self, message: Judged<'_>) -> Result<(), AllocError>
        ensures ok { OnOk result ((M : List Message) → self.old ≡ meaning M → IsJudgedAfter M message.entry
            → self.new ≡ meaning (M ++ sent message.entry ∷ [])) }
        ensures err { OnErr result (self.new ≡ self.old) }
        ensures needs { OnErr result ((M : List Message) → self.old ≡ meaning M → IsJudgedAfter M message.entry
            → meaning (M ++ sent message.entry ∷ []) ≢ meaning M) }
    {
        self.advance(message)
    }

    /// The meaning of the messages that were taken. It takes no memory.
    pub fn finish(self) -> Meaning
        ensures { result ≡ self }
    {
        let JudgedPairing { meaning, .. } = self;
        meaning
    }

    /// Takes one more message, by what becomes of it and the items alone: `take` promises the same by the messages.
    /// Where none is open, no answer is taken.
    #[inline(always)]
    fn advance(&mut self, message: Judged<'_>) -> Result<(), AllocError>
        ensures ok { OnOk result (self.new
            ≡ Spec.items_after_step message.entry.step (open_exchange_in self.old) self.old (sent message.entry)) }
        ensures err { OnErr result (self.new ≡ self.old) }
        ensures needs { OnErr result
            (Spec.items_after_step message.entry.step (open_exchange_in self.old) self.old (sent message.entry)
            ≢ self.old) }
    {
        match message.step {
            Step::Request(_) => {
                let place = self.meaning.len();
                self.meaning.push_request(message.bytes)?;
                self.open_place = Some(place);
                Ok(())
            }
            Step::Answer => {
                if let Some(place) = self.open_place {
                    self.meaning.answer(place, message.bytes)?;
                    self.open_place = None;
                }
                Ok(())
            }
            Step::Removed => Ok(()),
            Step::Hold | Step::Pass => {
                self.meaning.push_stray(message.dir, message.bytes)?;
                Ok(())
            }
        }
    }
}
