//! An answer, and how long its request waited for it.

ghost use Rattle.std.specs.Prelude.{◌≡◌};
ghost use Rattle.slow_answers.specs.Waited as Spec;

/// An answer that was waited for.
#[derive(Clone, Copy, Debug, Default, PartialEq, Eq)]
pub struct SlowAnswer {
    /// The number of its item.
    pub item: u64,
    /// The service identifier of its request.
    pub service: u8,
    /// How many microseconds the request waited.
    pub micros: u64,
    /// How many replies before it said that it is pending.
    pub pending: u64,
}

/// How many microseconds a request waited: from the time of its last frame to that of the first one of its answer; `None`
/// where the answer began before.
pub fn waited(asked: u64, began: u64) -> Option<u64>
    ensures { result ≡ Spec.waited asked began }
{
    began.checked_sub(asked)
}
