//! A target for machines that say nothing.

ghost use Rattle.std.specs.Prelude.{None, [], false};

use trace_io::{DeviceFault, Target};

/// A target that takes no byte. Each write and each flush fails, and the target counts these failures.
#[derive(Drop)]
pub struct Nowhere {
    failures: u64,
}

impl Nowhere {
    ghost use Rattle.trace_io.specs.Counted.{IsLowCount};

    /// Before the first write.
    pub fn new() -> Nowhere
        ensures { IsLowCount (⟦<Nowhere as Target>⟧.failures result) }
    {
        Nowhere { failures: 0 }
    }
}

impl Target for Nowhere {
    ghost taken = { λ n. [] };

    ghost contents = { λ n. None };

    ghost failures = { λ n. n.failures };

    ghost had_empty_write = { λ n. false };

    ghost is_flushed = { λ n. false };

    ghost flushes = { λ n. 0 };

    fn write(&mut self, _piece: &[u8]) -> Result<usize, DeviceFault> {
        self.failures += 1;
        Err(DeviceFault)
    }

    fn flush(&mut self) -> Result<(), DeviceFault> {
        self.failures += 1;
        Err(DeviceFault)
    }

    fn has_taken(&self) -> bool {
        false
    }

    fn failures(&self) -> u64 {
        self.failures
    }
}
