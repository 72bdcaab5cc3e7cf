//! What becomes of a message, by the request that is open.

ghost use Rattle.std.specs.Prelude.{◌≡◌};
ghost use Rattle.uds_exchange.specs.OneMessage as Spec;

use direction::Dir;
use uds_message::{Answer, TesterKind, answer_to, tester_kind};

/// What becomes of a message of a session, by the request that is open. Both [`Hold`](Step::Hold) and
/// [`Pass`](Step::Pass) are strays, which belong to no exchange.
#[derive(Clone, Copy, Debug, PartialEq, Eq)]
pub enum Step {
    /// A request with this first byte. It ends the part of the request before it.
    Request(u8),
    /// The answer to the open request.
    Answer,
    /// A reply that says that the answer to the open request is pending. It is removed: it is not in the meaning.
    Removed,
    /// None of these, while a request is open: the answer would come before it, so it waits.
    Hold,
    /// None of these, and no request is open: it has its place.
    Pass,
}

/// What becomes of a message, where `open_sid` is the first byte of the open request, which waits for its answer.
/// Nothing else of the messages before it has a say, so that a judge holds none.
pub(crate) fn step_of(open_sid: Option<u8>, dir: Dir, message: &[u8]) -> Step
    ensures { result ≡ Spec.step_of open_sid (dir, message.now) }
{
    let stray = if open_sid.is_some() {
        Step::Hold
    } else {
        Step::Pass
    };
    match (dir, open_sid) {
        (Dir::Tester, _) => match tester_kind(message) {
            TesterKind::Request => Step::Request(message[0]),
            TesterKind::KeepAlive | TesterKind::Other => stray,
        },
        (Dir::Unit, None) => stray,
        (Dir::Unit, Some(sid)) => match answer_to(sid, message) {
            Answer::Final => Step::Answer,
            Answer::Pending => Step::Removed,
            Answer::No => stray,
        },
    }
}
