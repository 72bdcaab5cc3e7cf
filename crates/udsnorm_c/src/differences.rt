//! Where two logs differ, in a style that C names by a number.
ghost use Rattle.isotp_receive.specs.declared.TheConstants.{MESSAGE_LIMIT};
ghost use Rattle.udsnorm_c.specs.Answered.{StyledDifferencePuts};

use crate::answer::{UdsnormAnswer, no_style};
use crate::room::put_difference;
use crate::sides::notation_of;
use std::alloc::Global;
use trace_difference::in_memory::pair_difference;
use trace_log::Config;

/// Puts the text of where two logs differ, which have these names there, if there is such a style.
pub(crate) fn put_pair_difference(
    alloc: Global,
    config: &Config,
    style: u32,
    left_name: &[u8],
    left: &[u8],
    right_name: &[u8],
    right: &[u8],
    out: &mut [u8],
) -> UdsnormAnswer
    ensures { StyledDifferencePuts MESSAGE_LIMIT style left_name.now right_name.now left.now right.now out.old out.new result config.now }
{
    match notation_of(style) {
        Some(notation) => put_difference(
            pair_difference(alloc, config, notation, left_name, right_name, left, right),
            out,
        ),
        None => no_style(),
    }
}
