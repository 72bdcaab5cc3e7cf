//! Messages put into their order as soon as it is known.

ghost use Rattle.std.specs.Prelude.{◌≡◌, ◌≢◌, ◌++◌, ◌∷◌, [], List, true, Err, OnOk, IfErr, sum_by};
ghost use Rattle.direction.specs.Dir.{Message};
ghost use Rattle.uds_exchange.specs.Order.{held as held_after, message_length};
ghost use Rattle.uds_exchange.specs.MessageSink.{Puts};
ghost use Rattle.uds_exchange.specs.Orderer.{orderer_after, PutsDue, IsHeld, StopsDue, StopsHeld};
ghost use Rattle.uds_exchange.specs.declared.order_fault.OrderFault.TheVariants.{Memory, Sink, Failed};

use crate::judge::Judge;
use crate::judged_orderer::JudgedOrderer;
use crate::message_sink::MessageSink;
use crate::order_fault::OrderFault;
use direction::Dir;
use std::alloc::Global;
use std::marker::Model;

/// Puts the messages of a meaning in order into a sink, each as soon as its place is known. After a request without
/// answer that is when the answer comes, the next request, or the end: until then other messages are held.
#[derive(Drop)]
pub struct Orderer {
    pub(crate) judge: Judge,
    pub(crate) orderer: JudgedOrderer,
}

impl Model for Orderer {
    ghost use Rattle.uds_exchange.specs.Orderer.{OrdererValue};

    ghost Value = { OrdererValue };

    ghost view = { λ o. record {
      has_failed = o.orderer.has_failed;
      open_sid = o.judge.open_sid;
      holds = o.orderer.holds;
    } };
}

impl Orderer {
    /// An orderer that has taken no message. It takes no memory.
    pub fn new(alloc: Global) -> Orderer
        ensures { result ≡ orderer_after [] }
    {
        Orderer {
            judge: Judge::new(),
            orderer: JudgedOrderer::new(alloc),
        }
    }

    /// The sum of the lengths of the messages that are held; 0 where no request is open. After a fault of the sink it
    /// says nothing.
    pub fn held(&self) -> u64
        ensures { result ≡ sum_by message_length self.now.holds }
    {
        self.orderer.held()
    }

    /// Takes one more message, and puts all whose place is now known. No memory is taken for a message that is put
    /// or removed.
    pub fn take<S: MessageSink>(
        &mut self,
        dir: Dir,
        message: &[u8],
        sink: &mut S,
    ) -> Result<(), OrderFault<S::Fault>>
        ensures stands { OnOk result ((M : List Message) → self.old ≡ orderer_after M
            → self.new ≡ orderer_after (M ++ (dir, message.now) ∷ [])) }
        ensures puts { OnOk result ((M : List Message) → self.old ≡ orderer_after M
            → PutsDue S.after_ok M (dir, message.now) sink.old sink.new) }

        ensures memory { result ≡ Err Memory → (self.new ≡ self.old) × (sink.new ≡ sink.old) }
        ensures needs { result ≡ Err Memory → (M : List Message) → self.old ≡ orderer_after M
            → IsHeld M (dir, message.now) }
        ensures stops { IfErr result (λ fault. (M : List Message) → self.old ≡ orderer_after M
            → StopsDue S.after_ok S.after_err M (dir, message.now) sink.old sink.new fault) }

        ensures fails { (why : S.Fault) → result ≡ Err (Sink why) → self.new.has_failed ≡ true }
        ensures failed { self.old.has_failed ≡ true → result ≡ Err Failed }
        ensures failed_only { result ≡ Err Failed
            → (self.old.has_failed ≡ true) × (self.new ≡ self.old) × (sink.new ≡ sink.old) }
    {
        // The judge goes on only where the message was taken.
        let mut judge = self.judge;
        self.orderer.take(judge.take(dir, message), sink)?;
        self.judge = judge;
        Ok(())
    }

    /// Puts what is held. It takes no memory.
    pub fn finish<S: MessageSink>(self, sink: &mut S) -> Result<(), OrderFault<S::Fault>>
        ensures puts { OnOk result ((M : List Message) → self ≡ orderer_after M
            → Puts S.after_ok sink.old (held_after M) sink.new) }
        ensures stops { IfErr result (λ fault. (M : List Message) → self ≡ orderer_after M
            → StopsHeld S.after_ok S.after_err (held_after M) sink.old sink.new fault) }
        ensures never_memory { result ≢ Err Memory }

        ensures failed { self.has_failed ≡ true → result ≡ Err Failed }
        ensures failed_only { result ≡ Err Failed → (self.has_failed ≡ true) × (sink.new ≡ sink.old) }
    {
        let Orderer { orderer, .. } = self;
        orderer.finish(sink)
    }
}
