//! Requests with their answers, as the messages come.

ghost use Rattle.std.specs.Prelude.{◌≡◌, ◌≢◌, ◌++◌, ◌∷◌, [], List, OnOk, OnErr};
ghost use Rattle.direction.specs.Dir.{Message};
ghost use Rattle.uds_exchange.specs.Meaning.{meaning};

use crate::judge::Judge;
use crate::judged_pairing::JudgedPairing;
use crate::meaning::Meaning;
use direction::Dir;
use std::alloc::{AllocError, Global};
use std::marker::Model;

/// What the messages so far mean. It stands after a list of messages: contracts see it as the meaning of that list.
#[derive(Drop)]
pub struct Pairing {
    pub(crate) judge: Judge,
    pub(crate) pairing: JudgedPairing,
}

impl Model for Pairing {
    ghost use Rattle.std.specs.Prelude.{List};
    ghost use Rattle.uds_exchange.specs.Meaning.{ItemValue};
    ghost use Rattle.uds_exchange.specs.proving.Pairing.{AreOpenBy};

    ghost Value = { List ItemValue };

    ghost view = { λ p. p.pairing };

    ghost invariant = { λ p. AreOpenBy p.pairing p.judge.open_sid };
}

impl Pairing {
    /// A pairing that has taken no message. It takes no memory.
    pub fn new(alloc: Global) -> Pairing
        ensures { result ≡ meaning [] }
    {
        Pairing {
            judge: Judge::new(),
            pairing: JudgedPairing::new(alloc),
        }
    }

    /// Takes one more message. A reply that is removed is not copied. After an `Err` nothing has changed, and the call
    /// may be made again.
    pub fn take(&mut self, dir: Dir, message: &[u8]) -> Result<(), AllocError>
        ensures ok { OnOk result ((M : List Message) → self.old ≡ meaning M
            → self.new ≡ meaning (M ++ (dir, message.now) ∷ [])) }
        ensures err { OnErr result (self.new ≡ self.old) }
        ensures needs { OnErr result ((M : List Message) → self.old ≡ meaning M
            → meaning (M ++ (dir, message.now) ∷ []) ≢ meaning M) }
    {
        // The judge goes on only where the message was taken.
        let mut judge = self.judge;
        self.pairing.take(judge.take(dir, message))?;
        self.judge = judge;
        Ok(())
    }

    /// The meaning of the messages that were taken. It takes no memory.
    pub fn finish(self) -> Meaning
        ensures { result ≡ self }
    {
        let Pairing { pairing, .. } = self;
        pairing.finish()
    }
}
