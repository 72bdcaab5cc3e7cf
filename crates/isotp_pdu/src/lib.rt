//! What a CAN frame says under ISO 15765-2: a whole message, the beginning of one, the next part of
//! one, or flow control. [`layout_of`] tells it from one frame alone, whatever came before; receiving
//! a message of several frames is the layer above. Nothing is copied: the bytes of a [`Pdu`] lie in
//! the frame.
//!
//! ```
//! let data = [0x10, 0x14, 0x62, 0xF1, 0x90, 0x57, 0x42, 0x41];
//! if let Some(frame) = Frame::new(Id::Std(0x7E8), Kind::Classic, &data) {
//!     match layout_of(&frame) {
//!         // a message of 20 bytes in frames of 8 bytes: six of its bytes are here
//!         Ok(Pdu::First { len: 20, rx_dl: 8, bytes: [0x62, 0xF1, 0x90, 0x57, 0x42, 0x41] }) => ..
//!     }
//! }
//! ```
#![tactic(auto)]

pub mod laws;

ghost use Rattle.std.specs.Prelude.{◌≡◌, ◌↔◌, ◌≤◌, ◌<◌, length, IfOk};
ghost use Rattle.isotp_pdu.specs.Layout.{Layout, HasLayout, IsSoundLayout, layout_seen};
ghost use Rattle.isotp_pdu.specs.Layout as Layouts;
ghost use Rattle.isotp_pdu.specs.Reading as Spec;
ghost use Rattle.isotp_pdu.specs.Fault.{IsFault};

use can_log::{Frame, Kind};

/// The flow status of a flow control frame.
#[derive(Clone, Copy, Debug, PartialEq, Eq)]
pub enum Status {
    /// Go on sending.
    Continue,
    /// Send nothing yet.
    Wait,
    /// The message is too long for the receiver, and is given up.
    Overflow,
}

/// What a frame says. The bytes lie in the frame.
#[derive(Clone, Copy, Debug, PartialEq, Eq)]
pub enum Pdu<'a> {
    /// A single frame: the whole message, of at least one byte.
    Single(&'a [u8]),
    /// A first frame: the beginning of a message.
    First {
        /// The length of the whole message.
        len: u32,
        /// RX_DL, the number of bytes of this frame and of each that follows but the last: 8, 12, 16,
        /// 20, 24, 32, 48 or 64.
        rx_dl: u8,
        /// The bytes of the message to the end of the frame, fewer than `len`.
        bytes: &'a [u8],
    },
    /// A consecutive frame: the next part of a message.
    Next {
        /// The sequence number, 0 to 15.
        sn: u8,
        /// CAN_DL, the number of bytes of this frame, 1 to 64.
        can_dl: u8,
        /// The bytes to the end of the frame. Where the message ends before, the others are padding.
        bytes: &'a [u8],
    },
    /// A flow control frame: how a sender goes on after a first frame or a block of consecutive ones.
    Flow(Status),
}

/// Why a frame says nothing. Of several faults the first in this order is told.
#[derive(Clone, Copy, Debug, PartialEq, Eq)]
pub enum PduFault {
    /// It is a remote frame.
    Remote,
    /// Its data has a length that no CAN frame has, such as 9.
    FrameLength,
    /// It has no data.
    Empty,
    /// The high four bits of the first byte are 4 to 15.
    UnknownKind,
    /// A single frame of no message, or of a longer one than it carries; or one above 8 bytes that
    /// does not have its length in the second byte.
    SingleLength,
    /// A first frame below 8 bytes, or one that announces what a single frame holds, or that spends
    /// 32 bits on a length that 12 bits hold.
    FirstLength,
    /// Flow control below 3 bytes.
    FlowShort,
    /// A flow status above 2.
    FlowStatus,
}

/// What the frame says, or else the first fault that applies. It takes neither the identifier nor
/// the frames before into account, and treats classic and FD frames of equal length the same.
#[inline(always)]
pub fn layout_of(frame: &Frame) -> Result<Pdu<'_>, PduFault>
    ensures value { layout_seen result ≡ Spec.layout_of frame.now }
    ensures layout { (layout : Layout) → (layout_seen result ≡ Ok layout) ↔ HasLayout frame.now layout }
    ensures fault { (e : PduFault) → (layout_seen result ≡ Err e) ↔ IsFault e frame.now }
    ensures sound { IfOk (layout_seen result) IsSoundLayout }
{
    layout_by_kind(frame)
}

/// The same by the one equation that the other clauses follow from.
#[inline(always)]
#[tactic(auto, unfolding(crate::specs::Reading::layout_of))]
fn layout_by_kind(frame: &Frame) -> Result<Pdu<'_>, PduFault>
    ensures { layout_seen result ≡ Spec.layout_of frame.now }
{
    match frame.kind() {
        Kind::Remote => Err(PduFault::Remote),
        Kind::Classic | Kind::Fd => of_bytes(frame.data()),
    }
}

/// A data frame of these bytes.
#[inline(always)]
fn of_bytes(bytes: &[u8]) -> Result<Pdu<'_>, PduFault>
    requires { length bytes.now ≤ 64 }
    ensures { layout_seen result ≡ Spec.of_bytes bytes.now }
{
    if !is_can_dl(bytes.len()) {
        return Err(PduFault::FrameLength);
    }
    if bytes.is_empty() {
        return Err(PduFault::Empty);
    }
    match bytes[0] / 16 {
        0 => single_of(bytes),
        1 => first_of(bytes),
        2 => Ok(Pdu::Next {
            sn: bytes[0] % 16,
            can_dl: bytes.len() as u8,
            bytes: &bytes[1..],
        }),
        3 => flow_of(bytes),
        _ => Err(PduFault::UnknownKind),
    }
}

/// Whether a CAN frame may have this many bytes (ISO 11898-1). Those of a classic frame are asked for first.
fn is_can_dl(len: usize) -> bool
    ensures { result ≡ Layouts.is_can_dl len }
{
    len <= 8 || matches!(len, 12 | 16 | 20 | 24 | 32 | 48 | 64)
}

/// A single frame (ISO 15765-2, section 9.6.2).
#[inline(always)]
fn single_of(bytes: &[u8]) -> Result<Pdu<'_>, PduFault>
    requires { 0 < length bytes.now }
    ensures { layout_seen result ≡ Spec.single_of bytes.now }
{
    if bytes.len() <= 8 {
        let len = (bytes[0] % 16) as usize;
        if len >= 1 && len + 1 <= bytes.len() {
            return Ok(Pdu::Single(&bytes[1..len + 1]));
        }
    } else {
        let len = bytes[1] as usize;
        if bytes[0] == 0 && len >= 1 && len + 2 <= bytes.len() {
            return Ok(Pdu::Single(&bytes[2..len + 2]));
        }
    }
    Err(PduFault::SingleLength)
}

/// A first frame (section 9.6.3).
#[inline(always)]
fn first_of(bytes: &[u8]) -> Result<Pdu<'_>, PduFault>
    requires { length bytes.now ≤ 64 }
    ensures { layout_seen result ≡ Spec.first_of bytes.now }
{
    if bytes.len() < 8 {
        return Err(PduFault::FirstLength);
    }
    if bytes[0] % 16 == 0 && bytes[1] == 0 {
        escaped_first_of(bytes)
    } else {
        short_first_of(bytes)
    }
}

/// The announced length is in 12 bits of the first two bytes.
#[inline(always)]
fn short_first_of(bytes: &[u8]) -> Result<Pdu<'_>, PduFault>
    requires long { 2 ≤ length bytes.now }
    requires few { length bytes.now ≤ 64 }
    ensures { layout_seen result ≡ Spec.short_first_of bytes.now }
{
    let announced = u16::from_be_bytes([bytes[0] % 16, bytes[1]]) as u32;
    let rx_dl = bytes.len() as u8;
    if announced < least_first(rx_dl) {
        return Err(PduFault::FirstLength);
    }
    Ok(Pdu::First {
        len: announced,
        rx_dl,
        bytes: &bytes[2..],
    })
}

/// The least length that a first frame of this many bytes announces.
fn least_first(rx_dl: u8) -> u32
    requires { 0 < rx_dl }
    ensures { result ≡ Layouts.least_first rx_dl }
{
    if rx_dl == 8 { 8 } else { rx_dl as u32 - 1 }
}

/// The announced length is in the four bytes after the first two.
fn escaped_first_of(bytes: &[u8]) -> Result<Pdu<'_>, PduFault>
    requires long { 6 ≤ length bytes.now }
    requires few { length bytes.now ≤ 64 }
    ensures { layout_seen result ≡ Spec.escaped_first_of bytes.now }
{
    let announced = u32::from_be_bytes([bytes[2], bytes[3], bytes[4], bytes[5]]);
    if announced <= 4095 {
        return Err(PduFault::FirstLength);
    }
    Ok(Pdu::First {
        len: announced,
        rx_dl: bytes.len() as u8,
        bytes: &bytes[6..],
    })
}

/// Flow control (section 9.6.5).
fn flow_of(bytes: &[u8]) -> Result<Pdu<'_>, PduFault>
    requires { 0 < length bytes.now }
    ensures { layout_seen result ≡ Spec.flow_of bytes.now }
{
    if bytes.len() < 3 {
        return Err(PduFault::FlowShort);
    }
    match bytes[0] % 16 {
        0 => Ok(Pdu::Flow(Status::Continue)),
        1 => Ok(Pdu::Flow(Status::Wait)),
        2 => Ok(Pdu::Flow(Status::Overflow)),
        _ => Err(PduFault::FlowStatus),
    }
}
