//! Memory of the caller, into which a text is put.
ghost use Rattle.std.specs.Prelude.{◌≡◌};
ghost use Rattle.udsnorm_c.specs.Answered.{IsDifferencePut, IsPagePut, IsPut};
ghost use Rattle.udsnorm_c.specs.Spelled.{put_at_front};

use crate::answer::{
    UdsnormAnswer, fault_answer, no_pair_answer, pair_answer, side_answer, text_answer,
};
use trace_canon::in_memory::CountedText;
use trace_difference::in_memory::CountedDifference;
use trace_log::{CompareFault, Fault};
use trace_pair::in_memory::{CountedPage, NoPairPage};

/// Puts what was told of a log at the front of a buffer, where it has room, and answers what is known of it.
pub(crate) fn put(told: Result<CountedText, Fault>, out: &mut [u8]) -> UdsnormAnswer
    ensures { IsPut told out.old out.new result }
{
    match told {
        Ok(CountedText { text, summary }) => {
            put_front(text.as_slice(), out);
            text_answer(text.len(), summary, out.len())
        }
        Err(fault) => fault_answer(fault),
    }
}

/// Puts a page of two logs there, and answers how they compare.
pub(crate) fn put_page(told: Result<CountedPage, NoPairPage>, out: &mut [u8]) -> UdsnormAnswer
    ensures { IsPagePut told out.old out.new result }
{
    match told {
        Ok(CountedPage { text, counted }) => {
            put_front(text.as_slice(), out);
            pair_answer(text.len(), counted, out.len())
        }
        Err(why) => no_pair_answer(why),
    }
}

/// Puts the text of where two logs differ there, and answers how they compare.
pub(crate) fn put_difference(
    told: Result<CountedDifference, CompareFault>,
    out: &mut [u8],
) -> UdsnormAnswer
    ensures { IsDifferencePut told out.old out.new result }
{
    match told {
        Ok(CountedDifference { text, counted }) => {
            put_front(text.as_slice(), out);
            pair_answer(text.len(), counted, out.len())
        }
        Err(fault) => side_answer(fault),
    }
}

/// Puts a text at the front of a buffer, where it has room.
pub(crate) fn put_front(text: &[u8], out: &mut [u8])
    ensures { out.new ≡ put_at_front text.now out.old }
{
    if text.len() <= out.len() {
        out[..text.len()].copy_from_slice(text);
    }
}
