//! The end of a report: what stands behind its rows.

use crate::block_fronts::BlockEnd;
use crate::blocks::Blocks;
use crate::cause::RefusalCause;
use crate::help::Help;
use crate::refusal::StopLine;
use crate::rule_words::RulesSection;
use crate::sorts::has_answers;
use crate::verdict::{Findings, RefusedVerdict, VerdictSection};
use text_parts::{Part, say};
use trace_io::TextSink;
use trace_log::Fault;

/// What stands behind all rows, which left these blocks.
#[derive(Clone, Copy)]
pub(crate) struct PageEnd<'a> {
    pub blocks: Blocks,
    pub found: Findings<'a>,
}

impl<'a> Part for PageEnd<'a> {
    ghost use Rattle.trace_report.specs.Page.{page_end};
    ghost use Rattle.trace_report.specs.proving.Lending.{findings_value};

    ghost text = { λ end. page_end end.blocks (findings_value end.found) };

    fn say<S: TextSink>(self, out: &mut S) {
        let PageEnd { blocks, found } = self;
        say(
            out,
            (
                BlockEnd(blocks.count),
                BehindBlocks {
                    found,
                    verdict: VerdictSection(found),
                },
            ),
        );
    }
}

/// What stands behind all rows of a log that is refused.
#[derive(Clone, Copy)]
pub(crate) struct RefusedEnd<'a> {
    pub why: Fault,
    pub cause: Option<RefusalCause>,
    pub blocks: Blocks,
    pub found: Findings<'a>,
}

impl<'a> Part for RefusedEnd<'a> {
    ghost use Rattle.trace_report.specs.Page.{refused_end};
    ghost use Rattle.trace_report.specs.proving.Lending.{findings_value};

    ghost text = { λ end. refused_end end.why end.cause end.blocks (findings_value end.found) };

    fn say<S: TextSink>(self, out: &mut S) {
        let RefusedEnd {
            why,
            cause,
            blocks,
            found,
        } = self;
        let verdict = RefusedVerdict { why, cause, found };
        say(
            out,
            (
                BlockEnd(blocks.count),
                StopLine(why),
                BehindBlocks { found, verdict },
            ),
        );
    }
}

/// What stands behind the blocks of rows, with this verdict: the rules that the page is under, and how to read it.
#[derive(Clone, Copy)]
struct BehindBlocks<'a, V> {
    found: Findings<'a>,
    verdict: V,
}

impl<'a, V: Part> Part for BehindBlocks<'a, V> {
    ghost use Rattle.trace_report.specs.Page.{behind_blocks};
    ghost use Rattle.trace_report.specs.proving.Lending.{findings_value};

    ghost text = { λ behind. behind_blocks (findings_value behind.found) (V.text behind.verdict) };

    fn say<S: TextSink>(self, out: &mut S) {
        let BehindBlocks { found, verdict } = self;
        let answers = has_answers(&found.tally.counts);
        say(
            out,
            (
                "</main>\n",
                RulesSection(found.rules, found.spoken),
                verdict,
                Help(answers),
            ),
        );
    }
}
