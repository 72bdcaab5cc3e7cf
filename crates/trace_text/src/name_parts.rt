//! What has a name, as parts of a text.
ghost use Rattle.std.specs.Prelude.{◌≡◌, ◌++◌, codes};
ghost use Rattle.can_log.specs.Digits.{hexadecimal};

use crate::digits::hexadecimal_digits;
use crate::names::{cause_name, direction_name, layout_fault_name, role_name};
use crate::numbers::{HexadecimalDigit, Length};
use can_log::{Id, identifier_text};
use direction::Dir;
use isotp_pdu::PduFault;
use isotp_receive::{Cause, Reason};
use text_parts::{Part, say};
use trace_io::TextSink;
use uds_exchange::Step;
use uds_message::{code_name, service_name};

/// The name of a service (ISO 14229-1), or `service_` and two digits where it has none.
#[derive(Clone, Copy)]
pub struct ServiceName(pub u8);

impl Part for ServiceName {
    ghost use Rattle.trace_text.specs.Words.{service_text};

    ghost text = { λ service. service_text service.0 };

    #[inline(never)]
    fn say<S: TextSink>(self, out: &mut S) {
        match service_name(self.0) {
            Some(name) => say(out, name),
            None => out.put(&numbered_service(self.0)),
        }
    }
}

/// What is written for a service that has no name.
#[tactic(auto, unfolding(can_log::specs::Digits::digits))]
fn numbered_service(sid: u8) -> [u8; 10]
    ensures { result ≡ codes "service_" ++ hexadecimal 2 sid }
{
    let [high, low] = hexadecimal_digits(sid);
    [b's', b'e', b'r', b'v', b'i', b'c', b'e', b'_', high, low]
}

/// The name of a response code (ISO 14229-1, Annex A.1), or `code_` and two digits where it has none.
#[derive(Clone, Copy)]
pub struct ResponseCode(pub u8);

impl Part for ResponseCode {
    ghost use Rattle.trace_text.specs.Words.{code_text};

    ghost text = { λ code. code_text code.0 };

    #[inline(never)]
    fn say<S: TextSink>(self, out: &mut S) {
        match code_name(self.0) {
            Some(name) => say(out, name),
            None => out.put(&numbered_code(self.0)),
        }
    }
}

/// What is written for a response code that has no name.
#[tactic(auto, unfolding(can_log::specs::Digits::digits))]
fn numbered_code(code: u8) -> [u8; 7]
    ensures { result ≡ codes "code_" ++ hexadecimal 2 code }
{
    let [high, low] = hexadecimal_digits(code);
    [b'c', b'o', b'd', b'e', b'_', high, low]
}

/// The name of who sent something.
#[derive(Clone, Copy)]
pub struct Sender(pub Dir);

impl Part for Sender {
    ghost use Rattle.trace_text.specs.Words.{direction_text};

    ghost text = { λ sender. direction_text sender.0 };

    fn say<S: TextSink>(self, out: &mut S) {
        say(out, direction_name(self.0));
    }
}

/// The name of what a message is to its item.
#[derive(Clone, Copy)]
pub struct Role(pub Step);

impl Part for Role {
    ghost use Rattle.trace_text.specs.Words.{role_text};

    ghost text = { λ role. role_text role.0 };

    #[inline(always)]
    fn say<S: TextSink>(self, out: &mut S) {
        say(out, role_name(self.0));
    }
}

/// The identifier of a side.
#[derive(Clone, Copy)]
pub struct Identifier(pub Id);

impl Part for Identifier {
    ghost use Rattle.can_log.specs.Canonical.{identifier_text};

    ghost text = { λ id. identifier_text id.0 };

    fn say<S: TextSink>(self, out: &mut S) {
        out.put(identifier_text(self.0).as_slice());
    }
}

/// Why a reception ended.
#[derive(Clone, Copy)]
pub struct EndCause(pub Cause);

impl Part for EndCause {
    ghost use Rattle.trace_text.specs.RemarkLines.{cause_text};

    ghost text = { λ end. cause_text end.0 };

    fn say<S: TextSink>(self, out: &mut S) {
        say(out, cause_name(self.0));
    }
}

/// Why a frame has no layout.
#[derive(Clone, Copy)]
pub struct LayoutFault(pub PduFault);

impl Part for LayoutFault {
    ghost use Rattle.trace_text.specs.RemarkLines.{layout_fault_text};

    ghost text = { λ fault. layout_fault_text fault.0 };

    fn say<S: TextSink>(self, out: &mut S) {
        say(out, layout_fault_name(self.0));
    }
}

/// Why a frame was dropped.
#[derive(Clone, Copy)]
pub struct DropReason(pub Reason);

impl Part for DropReason {
    ghost use Rattle.trace_text.specs.RemarkLines.{reason_text};

    ghost text = { λ why. reason_text why.0 };

    fn say<S: TextSink>(self, out: &mut S) {
        match self.0 {
            Reason::Pdu(fault) => say(out, LayoutFault(fault)),
            Reason::FlowUnexpected => say(out, "flow control unexpected"),
            Reason::NextUnexpected => say(out, "consecutive frame unexpected"),
            Reason::NextLate => say(out, "consecutive frame late"),
            Reason::NextSequence { expected, found } => say(
                out,
                (
                    "sequence number ",
                    HexadecimalDigit(expected),
                    " expected, ",
                    HexadecimalDigit(found),
                    " found",
                ),
            ),
            Reason::NextLength => say(out, "consecutive frame length"),
            Reason::FunctionalNotSingle => say(out, "functional frame not single"),
            Reason::TooLong { announced } => say(out, (Length(announced), " bytes announced")),
        }
    }
}
