//! `explain`: a machine that says what became of each frame.

ghost use Rattle.std.specs.Prelude.{ℕ, List, IfOk};
ghost use Rattle.trace_io.specs.Counted.{IsLowCount};
ghost use Rattle.isotp_receive.specs.EventSeen.{seen_event, seen_verdict};
ghost use Rattle.isotp_receive.specs.declared.TheConstants.{MESSAGE_LIMIT};
ghost use Rattle.trace_log.specs.Devices.{AgreesWith, HasLowCounts};
ghost use Rattle.trace_log.specs.Laws.{Certifies};
ghost use Rattle.trace_log.specs.Settings.{without_rules};
ghost use Rattle.trace_run.specs.Ran.{RanLenient};
ghost use Rattle.trace_run.specs.Script.{answers_counts, command, needs_none, says_no_refusal};
ghost use Rattle.trace_canon.specs.ExplainScript.{dropped_text, ending_text, ended_text, event_text, unfinished_line};
ghost use Rattle.trace_canon.specs.ExplainScript.{explain_script};

use direction::Dir;
use isotp_receive::{Ended, Event, Pair, Verdict};
use std::alloc::{AllocError, Global};
use trace_io::{Source, Target, TextSink};
use trace_log::{Config, Fault, Summary};
use trace_run::{Glimpse, Machine, NoAnswer, Seen, run_lenient};
use trace_text::{Notation, Remark, say_remark};

/// Reads a log and writes a line for each reception that ended without its message and for each frame that was dropped,
/// as they come; then the receptions that stand at the end, and the counts. In words or as objects of JSON. It tells of
/// the log as it is: it knows no rules, and counts none of their messages as left out.
///
/// The target is not flushed.
pub fn explain<R: Source, W: Target>(
    alloc: Global,
    config: &Config,
    notation: Notation,
    source: &mut R,
    target: &mut W,
) -> Result<Summary, Fault>
    requires source { HasLowCounts R.Source source.old }
    requires target { IsLowCount (W.failures target.old) }

    // What is answered and written; that it is written before more is read; and what was done with the devices.
    ensures ran { RanLenient R.Source W.Target
        (command (explain_script notation MESSAGE_LIMIT) says_no_refusal answers_counts needs_none)
        (without_rules config.now) source.old target.old result source.new target.new }

    // Where nothing was dropped, ended or left unfinished, the log is a recording.
    ensures certificate { (log : List ℕ) → AgreesWith R.Source source.old source.new log
        → IfOk result (Certifies MESSAGE_LIMIT config.now log) }
{
    let plain = config.without_rules();
    run_lenient(alloc, &plain, Explainer { notation }, source, target)
}

/// Says the lines of each frame.
#[derive(Drop)]
struct Explainer {
    notation: Notation,
}

impl Machine for Explainer {
    ghost use Rattle.std.specs.Prelude.{◌≡◌};
    ghost use Rattle.isotp_receive.specs.declared.TheConstants.{MESSAGE_LIMIT};
    ghost use Rattle.trace_run.specs.Script.{answers_counts, needs_none};
    ghost use Rattle.trace_canon.specs.ExplainScript.{explain_script};

    type Answer = Summary;

    ghost stands = { λ rules start T now. now.notation ≡ start.notation };

    ghost script = { λ rules start. explain_script start.notation MESSAGE_LIMIT };

    ghost answers = { λ rules start. answers_counts };

    ghost needs = { λ rules start. needs_none };

    #[inline(always)]
    fn is_strict(&self) -> bool {
        false
    }

    #[inline(always)]
    fn event<S: TextSink>(&mut self, seen: Seen<'_>, out: &mut S) -> Result<(), AllocError> {
        say_event(
            self.notation,
            seen.line,
            seen.channel.dir(),
            seen.event,
            out,
        );
        Ok(())
    }

    fn end<S: TextSink>(
        self,
        pair: &Pair,
        summary: &Summary,
        out: &mut S,
    ) -> Result<Summary, NoAnswer> {
        say_end(self.notation, pair, summary, out);
        Ok(*summary)
    }

    fn refused<S: TextSink>(
        self,
        _summary: &Summary,
        _why: Fault,
        _glimpse: Glimpse<'_>,
        _out: &mut S,
    ) {}
}

/// Says the lines of a frame, which is in this line and was sent by this side. It is inlined, since most frames have
/// none: a call would hand over in memory what the frame did, and that would be read by a covering load.
#[inline(always)]
fn say_event<S: TextSink>(notation: Notation, line: u64, dir: Dir, event: Event<'_>, out: &mut S)
    ensures { S.says out.old (event_text notation line dir (seen_event event.entry)) out.new }
{
    say_ended(notation, line, event.ended, out);
    say_dropped(notation, line, dir, event.verdict, out);
}

/// Says the line of the reception that a frame ended, if it ended one.
#[inline(always)]
fn say_ended<S: TextSink>(notation: Notation, line: u64, ended: Option<Ended>, out: &mut S)
    ensures { S.says out.old (ended_text notation line ended) out.new }
{
    if let Some(ended) = ended {
        say_remark(notation, Remark::Ended { line, ended }, out);
    }
}

/// Says the line of a frame, if it was dropped.
#[inline(always)]
fn say_dropped<S: TextSink>(
    notation: Notation,
    line: u64,
    dir: Dir,
    verdict: Verdict<'_>,
    out: &mut S,
)
    ensures { S.says out.old (dropped_text notation line dir (seen_verdict verdict.entry)) out.new }
{
    match verdict {
        Verdict::Dropped(reason) => say_remark(
            notation,
            Remark::Dropped { line, dir, reason },
            out,
        ),
        Verdict::Message(_) | Verdict::Began | Verdict::Stored | Verdict::Flow => {}
    }
}

/// Says what follows the lines of all frames: the receptions that stand, the tester's first, and the counts.
fn say_end<S: TextSink>(notation: Notation, pair: &Pair, summary: &Summary, out: &mut S)
    ensures { S.says out.old (ending_text notation pair.now.receptions summary.now) out.new }
{
    say_unfinished(notation, Dir::Tester, pair.open(Dir::Tester), out);
    say_unfinished(notation, Dir::Unit, pair.open(Dir::Unit), out);
    say_remark(notation, Remark::Counts(*summary), out);
}

/// Says the line of a reception that stands, by the line and the announced length of its first frame, if one does.
fn say_unfinished<S: TextSink>(notation: Notation, dir: Dir, begun: Option<(u64, u32)>, out: &mut S)
    ensures { S.says out.old (unfinished_line notation dir begun) out.new }
{
    if let Some((line, len)) = begun {
        say_remark(notation, Remark::Unfinished { dir, line, len }, out);
    }
}
