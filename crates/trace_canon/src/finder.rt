//! `find`: the credit lines of a log (`specs/CreditLines.antt` says what they are), written once it has ended. `hearer`
//! reads the log and gives them, `credit_lines` has their text, and here the one is joined to the other.
ghost use Rattle.trace_canon.specs.Finding.{RanToFind};
ghost use Rattle.trace_io.specs.Counted.{IsLowCount};
ghost use Rattle.trace_log.specs.Devices.{HasLowCounts};

use crate::credit_lines::say_credit_lines;
use crate::hearer::found_in;
use std::alloc::Global;
use text_parts::Part;
use trace_io::{Source, Target, TextSink};
use trace_log::{Config, Fault, Summary};
use trace_run::print;
use trace_text::CreditStyle;
use uds_find::CreditLine;

/// Reads a log, and then writes its credit lines in this style. Of the configuration `max_bytes` alone counts.
///
/// The target is not flushed.
pub fn find<R: Source, W: Target>(
    alloc: Global,
    config: &Config,
    style: CreditStyle,
    source: &mut R,
    target: &mut W,
) -> Result<Summary, Fault>
    requires source { HasLowCounts R.Source source.old }
    requires target { IsLowCount (W.failures target.old) }

    ensures ran { RanToFind R.Source W.Target style config.now source.old target.old result source.new target.new }
{
    let found = found_in(alloc, config, source)?;
    let lines = CreditLines {
        lines: &found.credit_lines,
        style,
    };
    print(lines, target)?;
    Ok(found.summary)
}

/// The text of credit lines, in order, in a style.
#[derive(Clone, Copy)]
struct CreditLines<'a> {
    lines: &'a [CreditLine],
    style: CreditStyle,
}

impl<'a> Part for CreditLines<'a> {
    ghost use Rattle.trace_canon.specs.CreditLines.{credit_lines_text};

    ghost text = { λ part. credit_lines_text part.style part.lines.now };

    fn say<S: TextSink>(self, out: &mut S) {
        say_credit_lines(self.lines, self.style, out);
    }
}
