//! Messages put one after another, each as its canonical lines, as soon as all that come before it are known: then it
//! is *due*.

ghost use Rattle.std.specs.Prelude.{◌≡◌, List, [], ◌∷◌, ◌++◌, OnOk, OnErr};
ghost use Rattle.direction.specs.Dir.{Message};
ghost use Rattle.isotp_receive.specs.declared.TheConstants.{MESSAGE_LIMIT};
ghost use Rattle.isotp_segment.specs.Timed.{all_frames};
ghost use Rattle.uds_exchange.specs.Judging.{IsJudgedAfter, sent};
ghost use Rattle.uds_exchange.specs.Order.{held as held_after};
ghost use Rattle.uds_exchange.specs.Orderer.{IsHeld, judged_orderer_after};
ghost use Rattle.trace_canon.specs.proving.Saying.{SaysDue};
ghost use Rattle.trace_canon.specs.proving.Writing.{text_from, progress_after};

use crate::canonical_lines::say_canonical;
use crate::progress::Progress;
use direction::Dir;
use std::alloc::AllocError;
use trace_io::TextSink;
use trace_log::Config;
use uds_exchange::{Judged, JudgedOrderer, MessageSink, NoFault, OrderFault};

/// Takes one more message, and says the lines of all that are now due.
pub(crate) fn say_due<S: TextSink>(
    config: &Config,
    progress: &mut Progress,
    orderer: &mut JudgedOrderer,
    message: Judged<'_>,
    out: &mut S,
) -> Result<(), AllocError>
    ensures stands { OnOk result ((M : List Message) → orderer.old ≡ judged_orderer_after M
        → IsJudgedAfter M message.entry → orderer.new ≡ judged_orderer_after (M ++ sent message.entry ∷ [])) }
    ensures says { OnOk result ((M : List Message) → orderer.old ≡ judged_orderer_after M
        → IsJudgedAfter M message.entry
        → SaysDue S.says config.now M (sent message.entry) progress.old out.old progress.new out.new) }
    ensures needs { OnErr result ((M : List Message) → orderer.old ≡ judged_orderer_after M
        → IsJudgedAfter M message.entry → IsHeld M (sent message.entry)) }
    ensures err { OnErr result ((progress.new ≡ progress.old) × S.says out.old [] out.new) }
{
    let mut sink = CanonicalSink {
        out,
        progress,
        config,
    };
    match orderer.take(message, &mut sink) {
        Ok(()) => Ok(()),
        Err(fault) => Err(refused_memory(fault)),
    }
}

/// What a fault of this orderer is: memory was refused. Its sink takes all that is put, so it has no fault of its own,
/// and the orderer has not failed before, since a run ends with its first fault.
fn refused_memory(fault: OrderFault<NoFault>) -> AllocError {
    match fault {
        OrderFault::Memory | OrderFault::Failed => AllocError,
        OrderFault::Sink(fault) => match fault {},
    }
}

/// Says the lines of what is held.
pub(crate) fn say_held<S: TextSink>(
    config: &Config,
    progress: &mut Progress,
    orderer: JudgedOrderer,
    out: &mut S,
)
    ensures progress { (M : List Message) → orderer ≡ judged_orderer_after M
        → progress.new ≡ progress_after config.now progress.old (all_frames MESSAGE_LIMIT (held_after M)) }
    ensures says { (M : List Message) → orderer ≡ judged_orderer_after M
        → S.says out.old (text_from config.now progress.old (all_frames MESSAGE_LIMIT (held_after M))) out.new }
{
    let mut sink = CanonicalSink {
        out,
        progress,
        config,
    };
    // The sink takes all that is put, and no memory is asked for: so this never fails.
    let _ = orderer.finish(&mut sink);
}

/// Says the canonical lines of each message that is put, as far as they are within the limit. It hands its parts one by
/// one to what it calls: so a frame's line is said without a look through the sink.
#[derive(Drop)]
pub(crate) struct CanonicalSink<'a, S> {
    pub out: &'a mut S,
    pub progress: &'a mut Progress,
    pub config: &'a Config,
}

impl<'a, S: TextSink> MessageSink for CanonicalSink<'a, S> {
    ghost use Rattle.trace_canon.specs.proving.Saying.{SaysPutMessage};

    type Fault = NoFault;

    ghost after_ok = { λ s d message t. SaysPutMessage S.says s d message t };

    ghost after_err = { λ s d m e t. ⊥ };

    fn put(&mut self, dir: Dir, message: &[u8]) -> Result<(), NoFault> {
        say_canonical(self.config, self.progress, dir, message, self.out);
        Ok(())
    }
}
