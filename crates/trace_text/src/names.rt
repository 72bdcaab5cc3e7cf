//! Names that lines of text have for what is in them, each one of a few.
ghost use Rattle.std.specs.Prelude.{◌≡◌};
ghost use Rattle.trace_text.specs.Words.{direction_text, role_text};
ghost use Rattle.trace_text.specs.RemarkLines.{cause_text, layout_fault_text};

use direction::Dir;
use isotp_pdu::PduFault;
use isotp_receive::Cause;
use uds_exchange::Step;

/// The name of a direction.
pub(crate) fn direction_name(dir: Dir) -> &'static str
    ensures { result.now ≡ direction_text dir }
{
    match dir {
        Dir::Tester => "tester",
        Dir::Unit => "unit",
    }
}

/// The name of what a message is to its item.
pub(crate) fn role_name(step: Step) -> &'static str
    ensures { result.now ≡ role_text step }
{
    match step {
        Step::Request(_) => "request",
        Step::Answer => "answer",
        Step::Removed => "pending",
        Step::Hold | Step::Pass => "stray",
    }
}

/// The name of what ended a reception.
pub(crate) fn cause_name(cause: Cause) -> &'static str
    ensures { result.now ≡ cause_text cause }
{
    match cause {
        Cause::NewStart => "new start",
        Cause::Overflow => "overflow",
        Cause::Late => "late",
        Cause::Sequence => "sequence",
        Cause::Length => "length",
    }
}

/// The name of what is wrong with a frame that has no layout.
pub(crate) fn layout_fault_name(fault: PduFault) -> &'static str
    ensures { result.now ≡ layout_fault_text fault }
{
    match fault {
        PduFault::Remote => "remote frame",
        PduFault::FrameLength => "frame length",
        PduFault::Empty => "empty frame",
        PduFault::UnknownKind => "unknown kind",
        PduFault::SingleLength => "single frame length",
        PduFault::FirstLength => "first frame length",
        PduFault::FlowShort => "flow control too short",
        PduFault::FlowStatus => "flow control status",
    }
}
