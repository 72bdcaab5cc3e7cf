//! The page of a log that lies in memory, gathered there. No device is asked.

ghost use Rattle.std.specs.Prelude.{MatchResult};
ghost use Rattle.isotp_receive.specs.declared.TheConstants.{MESSAGE_LIMIT};
ghost use Rattle.trace_canon.specs.InMemory.{IsUnread};
ghost use Rattle.trace_report.specs.Front.{page_title};
ghost use Rattle.trace_report.specs.InMemory.{IsPageWith, NeedsMemoryForPage};

use crate::reporter::report;
use std::alloc::Global;
use trace_canon::in_memory::{CountedText, counted_text};
use trace_io::{Bytes, Writing};
use trace_log::{Config, Fault};

/// The page of a log, as [`report`](crate::report) writes it with this style and this name, and the counts of the log.
pub fn page(
    alloc: Global,
    config: &Config,
    style: &str,
    name: &[u8],
    log: &[u8],
) -> Result<CountedText, Fault>
    ensures { MatchResult result (λ counted. IsPageWith (page_title style.now name.now config.now) MESSAGE_LIMIT config.now log.now counted.text.items counted.summary) (IsUnread NeedsMemoryForPage MESSAGE_LIMIT config.now log.now) }
{
    let mut target = Writing::new(Vec::new(alloc));
    let answer = report(
        alloc,
        config,
        style,
        name,
        &mut Bytes::new(log),
        &mut target,
    );
    counted_text(answer, target.into_inner())
}
