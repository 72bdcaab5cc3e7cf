//! What holds of every frame: `HasLayout`, `IsFault` and the function `layout_of` that [`read_pdu`]
//! computes are three ways to say one thing. The functions do nothing; their contracts are the laws.
//!
//! [`read_pdu`]: crate::read_pdu

ghost use Rattle.isotp_pdu.specs.Laws.{LayoutIsRead, FaultIsRead, AtMostOneLayout, AtMostOneFault, LayoutOrFault, LayoutHasNoFault, LayoutIsSound, FirstLengthMeans};
ghost use Rattle.isotp_pdu.specs.Laws.{CarriedBytesAreOfFrame, CanDlIsAtMost64};

/// `layout_of` gives a layout exactly where the frame has it.
pub fn layout_is_read()
    ensures { LayoutIsRead }
{}

/// `layout_of` gives a fault exactly where it is the lowest that applies.
pub fn fault_is_read()
    ensures { FaultIsRead }
{}

/// A frame has at most one layout.
pub fn at_most_one_layout()
    ensures { AtMostOneLayout }
{}

/// A frame has at most one lowest fault.
pub fn at_most_one_fault()
    ensures { AtMostOneFault }
{}

/// A frame has a layout or a lowest fault.
pub fn layout_or_fault()
    ensures { LayoutOrFault }
{}

/// No fault applies to a frame that has a layout.
pub fn layout_has_no_fault()
    ensures { LayoutHasNoFault }
{}

/// The numbers of each layout that a frame has are in their ranges.
pub fn layout_is_sound()
    ensures { LayoutIsSound }
{}

/// The bytes that a layout carries are in its frame, one after another.
pub fn carried_bytes_are_of_frame()
    ensures { CarriedBytesAreOfFrame }
{}

/// A data length of a CAN frame is at most 64.
pub fn can_dl_is_at_most_64()
    ensures { CanDlIsAtMost64 }
{}

/// A first frame that is refused for its length is below 8 bytes, or announces less than a first
/// frame of its length may, or spends 32 bits on a length that 12 bits hold.
pub fn first_length_means()
    ensures { FirstLengthMeans }
{}
