//! What a message is to its item, and what is asked of that.

ghost use Rattle.std.specs.Prelude.{◌≡◌};
ghost use Rattle.trace_report.specs.Roles as Spec;

use direction::Dir;
use uds_exchange::Step;
use uds_message::{TesterKind, is_negative_response, tester_kind};

/// What a message is to its item. A reply has the time of the last frame of its request.
#[derive(Clone, Copy, Debug)]
pub enum MessageRole {
    Request,
    Positive { asked: u64 },
    Negative { asked: u64 },
    Pending { asked: u64 },
    KeepAlive,
    Stray,
}

/// What a message is, by what becomes of it, where the last request was complete at the time `asked`.
pub(crate) fn role_of_step(asked: u64, step: Step, dir: Dir, message: &[u8]) -> MessageRole
    ensures { result ≡ Spec.role_of_step asked step dir message.now }
{
    match step {
        Step::Request(_) => MessageRole::Request,
        Step::Answer => answer_role(asked, message),
        Step::Removed => MessageRole::Pending { asked },
        Step::Hold | Step::Pass => other_role(dir, message),
    }
}

/// What an answer is to its item, by its first byte.
fn answer_role(asked: u64, message: &[u8]) -> MessageRole
    ensures { result ≡ Spec.answer_role asked message.now }
{
    if is_negative_response(message) {
        MessageRole::Negative { asked }
    } else {
        MessageRole::Positive { asked }
    }
}

/// What a message of either side is that belongs to no exchange.
fn other_role(dir: Dir, message: &[u8]) -> MessageRole
    ensures { result ≡ Spec.other_role dir message.now }
{
    match dir {
        Dir::Tester => other_tester_role(message),
        Dir::Unit => MessageRole::Stray,
    }
}

/// A message of the tester that belongs to no exchange: the keep-alive, or a stray.
fn other_tester_role(message: &[u8]) -> MessageRole
    ensures { result ≡ Spec.other_tester_role message.now }
{
    match tester_kind(message) {
        TesterKind::KeepAlive => MessageRole::KeepAlive,
        TesterKind::Request | TesterKind::Other => MessageRole::Stray,
    }
}

/// Whether a message is a request, with which an exchange begins.
pub fn is_request_role(role: MessageRole) -> bool
    ensures { result ≡ Spec.is_request_role role }
{
    match role {
        MessageRole::Request => true,
        MessageRole::Positive { .. }
        | MessageRole::Negative { .. }
        | MessageRole::Pending { .. }
        | MessageRole::KeepAlive
        | MessageRole::Stray => false,
    }
}

/// Whether a message answers a request.
pub fn is_answer_role(role: MessageRole) -> bool
    ensures { result ≡ Spec.is_answer_role role }
{
    match role {
        MessageRole::Positive { .. } | MessageRole::Negative { .. } => true,
        MessageRole::Request
        | MessageRole::Pending { .. }
        | MessageRole::KeepAlive
        | MessageRole::Stray => false,
    }
}

/// Whether a message begins an item.
pub fn begins_item(role: MessageRole) -> bool
    ensures { result ≡ Spec.begins_item role }
{
    match role {
        MessageRole::Request | MessageRole::KeepAlive | MessageRole::Stray => true,
        MessageRole::Positive { .. } | MessageRole::Negative { .. } | MessageRole::Pending { .. } =>
            false,
    }
}

/// When the last frame of the request came to which a message replies, if it replies to one.
pub fn asked_at(role: MessageRole) -> Option<u64>
    ensures { result ≡ Spec.asked_at role }
{
    match role {
        MessageRole::Positive { asked }
        | MessageRole::Negative { asked }
        | MessageRole::Pending { asked } => Some(asked),
        MessageRole::Request | MessageRole::KeepAlive | MessageRole::Stray => None,
    }
}
