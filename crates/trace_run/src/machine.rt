//! A command as a machine: what it says of each frame of a log, and at the end or of a refusal.

ghost use Rattle.std.specs.Prelude.{◌≡◌, List, [], ◌∷◌, ◌++◌, OnOk, OnErr, Result};
ghost use Rattle.isotp_receive.specs.declared.TheConstants.{MESSAGE_LIMIT};
ghost use Rattle.isotp_receive.specs.StandingReception.{receptions_after};
ghost use Rattle.isotp_receive.specs.Trace.{Entry};
ghost use Rattle.uds_rules.specs.Rule.{RuleValue};
ghost use Rattle.trace_run.specs.Seen.{IsSeen};
ghost use Rattle.trace_run.specs.Script.{GlimpseValue, RefusalText, Script, glimpse_value, says_no_refusal};
ghost use Rattle.trace_run.specs.declared.machine.NoAnswer.{NoAnswer as NoAnswerValue};
ghost use Rattle.trace_log.specs.declared.fault.Fault.TheVariants.{OutputLimit};
ghost use Rattle.trace_log.specs.declared.summary.Summary.{Summary as SummaryValue};

use isotp_receive::{Channel, Event, Pair};
use std::alloc::AllocError;
use trace_io::{Source, TextSink};
use trace_log::{Fault, Summary};
use uds_exchange::Judged;

/// A command's machine. It is handed what each frame did ([`Seen`]), in order, and the end or why the log is refused,
/// and says its text. It sees no source and no target. Its ghost members begin with the rules that messages are under.
pub trait Machine {
    /// What it answers at the end.
    type Answer: Drop;

    /// What it is after a trace, by what it was at the start.
    ghost stands: { List RuleValue → Self → List Entry → Self → Type 0 };

    /// What it says, by what it was at the start.
    ghost script: { List RuleValue → Self → Script };

    /// What it says where the log is refused, by what it was at the start, and by what is then seen of the source.
    ghost refusal: { List RuleValue → Self → GlimpseValue → RefusalText } = { λ _ _ _. says_no_refusal };

    /// What it may answer at the end of a trace with these counts, by what it was at the start.
    ghost answers: { List RuleValue → Self → List Entry → SummaryValue → Result Self.Answer NoAnswerValue → Type 0 };

    /// For which frame it may be refused memory, after a trace.
    ghost needs: { List RuleValue → Self → List Entry → Entry → Type 0 };

    /// Whether a first frame that announces a message above the limit refuses the log, and is not handed to it.
    fn is_strict(&self) -> bool
        ensures { (rules : List RuleValue) (machine_start : Self) (T : List Entry)
            → stands rules machine_start T self.now → result ≡ (script rules machine_start).strict };

    /// Takes what the next frame of the trace did. Where memory is refused, nothing is said.
    fn event<S: TextSink>(&mut self, seen: Seen<'_>, out: &mut S) -> Result<(), AllocError>
        ensures ok { OnOk result ((rules : List RuleValue) (machine_start : Self) (T : List Entry) (e : Entry)
            → IsSeen rules T e seen.entry → stands rules machine_start T self.old
            → stands rules machine_start (T ++ e ∷ []) self.new
            × S.says out.old ((script rules machine_start).of_frame T e) out.new) }
        ensures err { OnErr result ((rules : List RuleValue) (machine_start : Self) (T : List Entry)
            → stands rules machine_start T self.old → S.says out.old [] out.new) }
        ensures needs { OnErr result ((rules : List RuleValue) (machine_start : Self) (T : List Entry) (e : Entry)
            → IsSeen rules T e seen.entry → stands rules machine_start T self.old → needs rules machine_start T e) };

    /// Takes the end of the log: the receptions that stand, and the counts.
    fn end<S: TextSink>(
        self,
        pair: &Pair,
        summary: &Summary,
        out: &mut S,
    ) -> Result<Self::Answer, NoAnswer>
        ensures says { (rules : List RuleValue) (machine_start : Self) (T : List Entry)
            → stands rules machine_start T self → pair.now.receptions ≡ receptions_after MESSAGE_LIMIT T
            → S.says out.old ((script rules machine_start).at_the_end T summary.now) out.new }
        ensures answered { (rules : List RuleValue) (machine_start : Self) (T : List Entry)
            → stands rules machine_start T self → pair.now.receptions ≡ receptions_after MESSAGE_LIMIT T
            → answers rules machine_start T summary.now result };

    /// Takes why the log is refused, where a line or the limit of the log refuses it, the counts of the lines before,
    /// and what is seen of the source. No event and no end follows. The counts are those of a log that ends in no line
    /// feed.
    fn refused<S: TextSink>(self, summary: &Summary, why: Fault, glimpse: Glimpse<'_>, out: &mut S)
        ensures says { (rules : List RuleValue) (machine_start : Self) (T : List Entry)
            → stands rules machine_start T self → S.says out.old
            (refusal rules machine_start (glimpse_value glimpse.entry) T summary.now why) out.new };
}

/// What is seen of a frame: what it did in the log as it is, and what rules leave of the message that it completed.
#[derive(Clone, Copy, Debug)]
pub struct Seen<'a> {
    /// Its line, from 1 on.
    pub line: u64,
    /// Its time in microseconds.
    pub micros: u64,
    /// Its channel: which side sent it, to the other one or to all.
    pub channel: Channel,
    /// What it did to the receptions.
    pub event: Event<'a>,
    /// What rules leave of the message that it completed, if it completed one and they leave it, with what becomes of
    /// it.
    pub message: Option<Judged<'a>>,
}

/// What is seen of the source where a log is refused.
#[derive(Clone, Copy, Debug)]
pub struct Glimpse<'a> {
    /// Its first bytes, as many as it keeps.
    pub first: &'a [u8],
    /// Whether it is over.
    pub is_over: bool,
}

impl<'a> Glimpse<'a> {
    ghost use Rattle.std.specs.Prelude.{◌≡◌};
    ghost use Rattle.trace_run.specs.Script.{glimpse_of, glimpse_value};

    /// What is now seen of a source.
    pub fn of<R: Source>(source: &'a R) -> Glimpse<'a>
        ensures { glimpse_value result ≡ glimpse_of R.Source source.now }
    {
        Glimpse {
            first: source.first(),
            is_over: source.has_ended(),
        }
    }
}

/// Why a machine has no answer at the end of a log.
#[derive(Clone, Copy, Debug)]
pub enum NoAnswer {
    /// Its canonical log would be longer than the limit.
    OutputLimit,
}

impl From<NoAnswer> for Fault {
    ghost from_gives = { λ _ fault. fault ≡ OutputLimit };

    fn from(reason: NoAnswer) -> Fault {
        match reason {
            NoAnswer::OutputLimit => Fault::OutputLimit,
        }
    }
}
