//! Messages put into their order as soon as it is known, by what becomes of each.

ghost use Rattle.std.specs.Prelude.{◌≡◌, ◌≢◌, ◌++◌, ◌∷◌, [], List, true, false, OnOk, IfErr, sum_by};
ghost use Rattle.direction.specs.Dir.{Message};
ghost use Rattle.uds_exchange.specs.Judging.{IsJudgedAfter, sent};
ghost use Rattle.uds_exchange.specs.Order.{held as held_after, message_length};
ghost use Rattle.uds_exchange.specs.MessageSink.{Puts, Fails};
ghost use Rattle.uds_exchange.specs.Orderer.{judged_orderer_after, PutsDue, IsHeld, StopsDue, StopsHeld};
ghost use Rattle.uds_exchange.specs.proving.Ordering as Spec;
ghost use Rattle.uds_exchange.specs.proving.Ordering.{due_for, Stops};
ghost use Rattle.uds_exchange.specs.declared.order_fault.OrderFault.TheVariants.{Memory, Sink, Failed};

use crate::held::HeldMessages;
use crate::judge::Judged;
use crate::message_sink::MessageSink;
use crate::order_fault::OrderFault;
use crate::step::Step;
use direction::Dir;
use std::alloc::Global;
use std::marker::Model;

/// Orders messages that are judged already: an [`Orderer`](crate::Orderer) that is told what becomes of each. Contracts
/// see whether it has failed, and what it holds.
#[derive(Debug, Drop)]
pub struct JudgedOrderer {
    pub(crate) has_failed: bool,
    /// What follows the open request.
    pub(crate) held: HeldMessages,
}

impl Model for JudgedOrderer {
    ghost use Rattle.uds_exchange.specs.Orderer.{JudgedOrdererValue};

    ghost Value = { JudgedOrdererValue };

    ghost view = { λ o. record { has_failed = o.has_failed; holds = o.held } };
}

impl JudgedOrderer {
    /// An orderer that has taken no message. It takes no memory.
    pub fn new(alloc: Global) -> JudgedOrderer
        ensures { result ≡ judged_orderer_after [] }
    {
        JudgedOrderer {
            has_failed: false,
            held: HeldMessages::new(alloc),
        }
    }

    /// The sum of the lengths of the messages that are held; 0 where no request is open, if each message was judged
    /// rightly. After a fault of the sink it says nothing.
    pub fn held(&self) -> u64
        ensures { result ≡ sum_by message_length self.now.holds }
    {
        self.held.total_len() as u64
    }

    /// Takes one more message, and puts all whose place is now known. No memory is taken for a message that is put
    /// or removed. Whatever is said to become of the message, the call is safe.
    pub fn take<S: MessageSink>(
        &mut self,
        message: Judged<'_>,
        sink: &mut S,
    ) -> Result<(), OrderFault<S::Fault>>
        ensures stands { OnOk result ((M : List Message) → self.old ≡ judged_orderer_after M
            → IsJudgedAfter M message.entry → self.new ≡ judged_orderer_after (M ++ sent message.entry ∷ [])) }
        ensures puts { OnOk result ((M : List Message) → self.old ≡ judged_orderer_after M
            → IsJudgedAfter M message.entry → PutsDue S.after_ok M (sent message.entry) sink.old sink.new) }

        ensures memory { result ≡ Err Memory → (self.new ≡ self.old) × (sink.new ≡ sink.old) }
        ensures needs { result ≡ Err Memory → (M : List Message) → self.old ≡ judged_orderer_after M
            → IsJudgedAfter M message.entry → IsHeld M (sent message.entry) }
        ensures stops { IfErr result (λ fault. (M : List Message) → self.old ≡ judged_orderer_after M
            → IsJudgedAfter M message.entry
            → StopsDue S.after_ok S.after_err M (sent message.entry) sink.old sink.new fault) }

        ensures fails { (why : S.Fault) → result ≡ Err (Sink why) → self.new.has_failed ≡ true }
        ensures front { (why : S.Fault) → result ≡ Err (Sink why)
            → (due : List Message) × Fails S.after_ok S.after_err sink.old due why sink.new }
        ensures failed { self.old.has_failed ≡ true → result ≡ Err Failed }
        ensures failed_only { result ≡ Err Failed
            → (self.old.has_failed ≡ true) × (self.new ≡ self.old) × (sink.new ≡ sink.old) }
    {
        self.advance(message, sink)
    }

    /// Puts what is held. It takes no memory.
    pub fn finish<S: MessageSink>(self, sink: &mut S) -> Result<(), OrderFault<S::Fault>>
        ensures puts { OnOk result ((M : List Message) → self ≡ judged_orderer_after M
            → Puts S.after_ok sink.old (held_after M) sink.new) }
        ensures stops { IfErr result (λ fault. (M : List Message) → self ≡ judged_orderer_after M
            → StopsHeld S.after_ok S.after_err (held_after M) sink.old sink.new fault) }
        ensures never_memory { result ≢ Err Memory }

        ensures failed { self.has_failed ≡ true → result ≡ Err Failed }
        ensures failed_only { result ≡ Err Failed → (self.has_failed ≡ true) × (sink.new ≡ sink.old) }
    {
        if self.has_failed {
            Err(OrderFault::Failed)
        } else {
            self.held.put_all(sink).map_err(OrderFault::Sink)
        }
    }

    /// Takes one more message, by what becomes of it and what is held alone: `take` promises the same by the messages.
    fn advance<S: MessageSink>(
        &mut self,
        message: Judged<'_>,
        sink: &mut S,
    ) -> Result<(), OrderFault<S::Fault>>
        ensures ok { OnOk result ((self.old.has_failed ≡ false)
            × (self.new ≡ Spec.orderer_after_step message.entry.step self.old (sent message.entry))
            × Puts S.after_ok sink.old (due_for message.entry.step self.old.holds (sent message.entry)) sink.new) }
        ensures err { IfErr result (λ fault. Stops S.after_ok S.after_err message.entry.step (sent message.entry)
            self.old sink.old self.new sink.new fault) }
    {
        if self.has_failed {
            return Err(OrderFault::Failed);
        }
        let Judged { dir, bytes, .. } = message;
        match message.step {
            Step::Request(_) => match put_behind(&self.held, dir, bytes, sink) {
                Ok(()) => {
                    self.held.clear();
                    Ok(())
                }
                Err(fault) => Err(self.fail(fault)),
            },
            Step::Answer => match put_before(dir, bytes, &self.held, sink) {
                Ok(()) => {
                    self.held.clear();
                    Ok(())
                }
                Err(fault) => Err(self.fail(fault)),
            },
            Step::Removed => Ok(()),
            Step::Hold => self.held.push(dir, bytes).map_err(|_| OrderFault::Memory),
            Step::Pass => match sink.put(dir, bytes) {
                Ok(()) => Ok(()),
                Err(fault) => Err(self.fail(fault)),
            },
        }
    }

    /// The fault of the sink, after which the orderer has failed.
    #[inline(always)]
    fn fail<E>(&mut self, fault: E) -> OrderFault<E>
        ensures failed { self.new ≡ record self.old { has_failed = true } }
        ensures fault { result ≡ Sink fault }
    {
        self.has_failed = true;
        OrderFault::Sink(fault)
    }
}

/// Puts what is held, and then the message.
fn put_behind<S: MessageSink>(
    held: &HeldMessages,
    dir: Dir,
    message: &[u8],
    sink: &mut S,
) -> Result<(), S::Fault>
    ensures ok { OnOk result (Puts S.after_ok sink.old (held.now ++ (dir, message.now) ∷ []) sink.new) }
    ensures err { IfErr result (λ e. Fails S.after_ok S.after_err sink.old
        (held.now ++ (dir, message.now) ∷ []) e sink.new) }
{
    held.put_all(sink)?;
    sink.put(dir, message)
}

/// Puts the message, and then what is held.
fn put_before<S: MessageSink>(
    dir: Dir,
    message: &[u8],
    held: &HeldMessages,
    sink: &mut S,
) -> Result<(), S::Fault>
    ensures ok { OnOk result (Puts S.after_ok sink.old ((dir, message.now) ∷ held.now) sink.new) }
    ensures err { IfErr result (λ e. Fails S.after_ok S.after_err sink.old
        ((dir, message.now) ∷ held.now) e sink.new) }
{
    sink.put(dir, message)?;
    held.put_all(sink)
}
