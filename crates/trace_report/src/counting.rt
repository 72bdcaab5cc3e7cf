//! Counts that grow by one.

ghost use Rattle.std.specs.Prelude.{◌≡◌};
ghost use Rattle.uds_exchange.specs.Judging as Spec;

/// One more of a count. No log has as many frames as 64 bits count, so it never stays at the largest number; but what
/// calls this knows of no log, and a sum that could wrap is refused.
#[inline(always)]
pub(crate) fn one_more(count: u64) -> u64
    ensures { result ≡ Spec.one_more count }
{
    count.saturating_add(1)
}
