//! What one frame says of a service.

ghost use Rattle.std.specs.Prelude.{◌≡◌};
ghost use Rattle.uds_find.specs.Mention as Spec;

use can_log::{Frame, Id};
use isotp_pdu::{Pdu, layout_of};
use uds_message::{
    TesterKind, is_negative_response, is_response_pending, is_response_sid, service_answered,
    tester_kind,
};

/// What the beginning of a message says of a service.
#[derive(Clone, Copy, Debug)]
pub enum Mention {
    /// It asks for the service.
    Asks(u8),
    /// It answers the service, finally.
    Answers(u8),
}

/// What a frame says of a service. One whose identifier no bus carries says nothing.
#[tactic(auto, unfolding(crate::specs::Mention::mention_of))]
pub fn mention_of(frame: &Frame) -> Option<Mention>
    ensures { result ≡ Spec.mention_of frame.now }
{
    if !is_can_identifier(frame.id()) {
        return None;
    }
    match layout_of(frame) {
        Ok(Pdu::Single(bytes)) | Ok(Pdu::First { bytes, .. }) => mention_in(bytes),
        Ok(Pdu::Next { .. }) | Ok(Pdu::Flow(_)) | Err(_) => None,
    }
}

/// Whether a bus carries the identifier of a frame. `can_log` has a definition of it, and no call.
fn is_can_identifier(id: Id) -> bool
    ensures { result ≡ Spec.is_can_identifier id }
{
    match id {
        Id::Std(_) => true,
        Id::Ext(number) => number <= 0x1FFF_FFFF,
    }
}

/// What a message says whose first bytes are these.
fn mention_in(bytes: &[u8]) -> Option<Mention>
    ensures { result ≡ Spec.mention_in bytes.now }
{
    match tester_kind(bytes) {
        TesterKind::KeepAlive => None,
        TesterKind::Request | TesterKind::Other => mention_by_sid(bytes),
    }
}

/// The same of a message that is no keep-alive.
fn mention_by_sid(bytes: &[u8]) -> Option<Mention>
    ensures { result ≡ Spec.mention_by_sid bytes.now }
{
    match bytes {
        [] => None,
        [_, rest @ ..] if is_negative_response(bytes) => mention_in_negative_response(rest),
        [sid, ..] if is_response_sid(*sid) => Some(Mention::Answers(service_answered(*sid))),
        [sid, ..] => Some(Mention::Asks(*sid)),
    }
}

/// What a negative response says whose bytes after the first are these.
fn mention_in_negative_response(rest: &[u8]) -> Option<Mention>
    ensures { result ≡ Spec.mention_in_negative_response rest.now }
{
    match rest {
        [_, code, ..] if is_response_pending(*code) => None,
        [service, _, ..] => Some(Mention::Answers(*service)),
        _ => None,
    }
}
