//! Two logs, read and set side by side.

ghost use Rattle.std.specs.Prelude.{◌≡◌, ◌≢◌, ◌-◌, ℕ, List, Err, IfErr};
ghost use Rattle.isotp_receive.specs.declared.TheConstants.{MESSAGE_LIMIT};
ghost use Rattle.trace_canon.specs.Compared.{fault_in};
ghost use Rattle.trace_log.specs.Answers.{ReadsWhile};
ghost use Rattle.trace_log.specs.Devices.{AgreesWith, bytes_given, ReadFrom, HasLowCounts};
ghost use Rattle.trace_log.specs.Refusal.{HasNoBadPlaceWithin};
ghost use Rattle.trace_log.specs.declared.fault.Fault.{Fault as FaultValue};
ghost use Rattle.trace_report.specs.Kept.{HasOwnFrame, KeepsTwo};
ghost use Rattle.trace_pair.specs.MemoryNeeded.{NeedsMemoryToAlign};
ghost use Rattle.trace_pair.specs.proving.Beside.{IsSetBeside};

use crate::aligned::Aligned;
use std::alloc::Global;
use trace_io::Source;
use trace_log::{CompareFault, Config, Fault};
use trace_report::laws::items_are_the_meaning;
use trace_report::{KeptSessions, keep_two};

/// Reads two logs, the first one whole before the second, and sets side by side what both say. No announcement and no
/// canonical log is too long for it. Memory that is refused for that, of two logs that can be read, is told of the
/// second.
pub fn align_two<'a, A: Source, B: Source>(
    alloc: Global,
    config: &'a Config,
    left: &mut A,
    right: &mut B,
) -> Result<Aligned<'a>, CompareFault>
    requires left { HasLowCounts A.Source left.old }
    requires right { HasLowCounts B.Source right.old }

    // What is answered, for all logs with which the bytes that were read agree.
    ensures answer { (one other : List ℕ)
        → AgreesWith A.Source left.old left.new one → AgreesWith B.Source right.old right.new other
        → KeepsTwo MESSAGE_LIMIT config.now one other result }

    // After a fault of the first log nothing of the second was read.
    ensures unread { (fault : FaultValue) → result ≡ Err (CompareFault.Left fault) → right.new ≡ right.old }

    // Reading stops within one piece, as it does where two logs are kept.
    ensures left_near { (one : List ℕ) → AgreesWith A.Source left.old left.new one
        → ReadsWhile (HasNoBadPlaceWithin one) (bytes_given A.Source left.old left.new) (A.failures left.old) (A.failures left.new) }
    ensures right_near { (other : List ℕ) → AgreesWith B.Source right.old right.new other
        → ReadsWhile (HasNoBadPlaceWithin other) (bytes_given B.Source right.old right.new) (B.failures right.old) (B.failures right.new) }

    // Memory is refused for the first log only where that has a frame of one of the two sides, and told of the second
    // only where that has one, or the first log means an item.
    ensures left_memory { (one : List ℕ) → AgreesWith A.Source left.old left.new one
        → result ≡ Err (CompareFault.Left Fault.Memory) → HasOwnFrame config.now one }
    ensures right_memory { (one other : List ℕ)
        → AgreesWith A.Source left.old left.new one → AgreesWith B.Source right.old right.new other
        → result ≡ Err (CompareFault.Right Fault.Memory) → NeedsMemoryToAlign MESSAGE_LIMIT config.now one other }

    // What it did with the sources. Nothing is written.
    ensures left_read { ReadFrom A.Source (CompareFault.Left Fault.Read) config.now.max_bytes result left.old left.new }
    ensures right_read { ReadFrom B.Source (CompareFault.Right Fault.Read) config.now.max_bytes result right.old right.new }
    ensures never_write { IfErr result (λ fault. fault_in fault ≢ Fault.Write) }
{
    items_are_the_meaning();
    let kept = keep_two(alloc, config, left, right);
    set_beside(alloc, kept)
}

/// What is answered of two logs that were kept, set side by side.
fn set_beside<'a>(
    alloc: Global,
    kept: Result<KeptSessions<'a>, CompareFault>,
) -> Result<Aligned<'a>, CompareFault>
    ensures { IsSetBeside kept.entry result }
{
    match kept {
        Ok(two) => match Aligned::of(alloc, two) {
            Ok(aligned) => Ok(aligned),
            Err(_refused) => Err(CompareFault::Right(Fault::Memory)),
        },
        Err(fault) => Err(fault),
    }
}
