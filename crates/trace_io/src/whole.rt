//! The whole of a text written.
ghost use Rattle.std.specs.Prelude.{◌≡◌, ℕ, ◌+◌, ◌^◌, ◌<◌, ◌≤◌, List, ◌++◌, length, MatchResult};
ghost use Rattle.trace_io.specs.Counted.{IsLowCount};
ghost use Rattle.trace_io.specs.Stream.{Took};
ghost use Rattle.trace_io.specs.Written.{HasWritten};

use crate::device::{DeviceFault, Target};

/// How often a target may have failed before a text is written to it. No run of an engine writes beyond it: each begins at no
/// more, and ends with its first failure.
pub const MOST_FAILURES: u64 = 1 << 62;

/// Writes all of the text, and nothing where that is empty. A target that fails has taken a part of it.
pub fn write_all<W: Target>(target: &mut W, text: &[u8]) -> Result<(), DeviceFault>
    requires { IsLowCount (W.failures target.old) }
    ensures taken { HasWritten result (W.taken target.old) text.now (W.taken target.new) }
    ensures took { Took (W.taken target.old) (W.taken target.new) (W.contents target.old) (W.contents target.new) }
    ensures failures { MatchResult result
        (λ _. W.failures target.new ≡ W.failures target.old) (λ _. W.failures target.new ≡ W.failures target.old + 1) }
    ensures no_empty_write { W.had_empty_write target.new ≡ W.had_empty_write target.old }
    ensures flushes { W.flushes target.new ≡ W.flushes target.old }
{
    let mut rest = text;
    'writing: while !rest.is_empty() {
        let n = target.write(rest)?;
        rest = &rest[n..];
    }
    Ok(())
}
