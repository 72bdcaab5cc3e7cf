//! Pages, in the style of the program. Which one that is no clause says.
ghost use Rattle.std.specs.Prelude.{List, ℕ};
ghost use Rattle.isotp_receive.specs.declared.TheConstants.{MESSAGE_LIMIT};
ghost use Rattle.udsnorm_c.specs.Answered.{PagePuts, PairPagePuts};

use crate::answer::UdsnormAnswer;
use crate::room::{put, put_page};
use std::alloc::Global;
use trace_log::Config;
use trace_pair::in_memory::pair_page;
use trace_pair::pair_style;
use trace_report::in_memory::page;
use trace_report::report_style;

/// Puts the page of a log, which has this name there.
pub(crate) fn put_report(
    alloc: Global,
    config: &Config,
    name: &[u8],
    log: &[u8],
    out: &mut [u8],
) -> UdsnormAnswer
    ensures { PagePuts MESSAGE_LIMIT name.now log.now out.old out.new result config.now }
{
    put(page(alloc, config, report_style(), name, log), out)
}

/// Puts the page of two logs, which have these names there.
pub(crate) fn put_pair_report(
    alloc: Global,
    config: &Config,
    left_name: &[u8],
    left: &[u8],
    right_name: &[u8],
    right: &[u8],
    out: &mut [u8],
) -> UdsnormAnswer
    ensures { PairPagePuts MESSAGE_LIMIT left_name.now right_name.now left.now right.now out.old out.new result config.now }
{
    let style = pair_style();
    put_page(
        pair_page(alloc, config, style, left_name, right_name, left, right),
        out,
    )
}
