//! Why a request has no answer.

ghost use Rattle.std.specs.Prelude.{◌≡◌};
ghost use Rattle.trace_report.specs.Silences as Spec;

use crate::row::Silence;
use uds_message::is_suppressing;

/// Why a request has no answer, which went to all units or to one.
pub(crate) fn silence_of(to_all: bool, request: &[u8]) -> Silence
    ensures { result ≡ Spec.silence_of to_all request.now }
{
    if is_suppressing(request) {
        Silence::Suppressed
    } else if to_all {
        Silence::ToAllUnits
    } else {
        Silence::Unanswered
    }
}

/// Why a request has no final answer behind a response pending, by why it would have none without that: the unit spoke,
/// so the request concerns it.
pub(crate) fn silence_behind_pending(silence: Silence) -> Silence
    ensures { result ≡ Spec.silence_behind_pending silence }
{
    match silence {
        Silence::Suppressed => Silence::Suppressed,
        Silence::ToAllUnits | Silence::Unanswered => Silence::Unanswered,
    }
}
