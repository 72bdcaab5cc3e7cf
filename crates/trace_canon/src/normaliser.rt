//! `normalise`: a machine that says the canonical log. No other command writes one: so what it promises of that is no
//! record that several commands share, but stands clause by clause at its call.

ghost use Rattle.std.specs.Prelude.{◌≡◌, ◌++◌, ℕ, List, OnOk, IfOk, Err};
ghost use Rattle.direction.specs.Dir.{Message};
ghost use Rattle.trace_io.specs.Counted.{IsLowCount};
ghost use Rattle.isotp_receive.specs.declared.TheConstants.{MESSAGE_LIMIT};
ghost use Rattle.uds_rules.specs.Under.{under};
ghost use Rattle.uds_exchange.specs.Meaning.{meaning, flattened};
ghost use Rattle.trace_log.specs.Answers.{Answers, WritesEagerly};
ghost use Rattle.trace_log.specs.CanonicalLog.{canonical_log, canonical_log_of_lines};
ghost use Rattle.trace_log.specs.Devices.{AgreesWith, bytes_given, WroteTo, HasLowCounts};
ghost use Rattle.trace_log.specs.Laws.{IsCanonicalFor, Records, Certifies};
ghost use Rattle.trace_log.specs.Needing.{HasTextOf};
ghost use Rattle.trace_log.specs.declared.fault.Fault.TheVariants.{Write};
ghost use Rattle.trace_canon.specs.WaysOfReading.{ReadInThisWay, reading_to_order};

use crate::canonical_sink::{say_due, say_held};
use crate::progress::Progress;
use isotp_receive::Pair;
use std::alloc::{AllocError, Global};
use trace_io::{Source, Target, TextSink};
use trace_log::{Config, Fault, Summary};
use trace_run::{Glimpse, Machine, NoAnswer, Seen, run};
use uds_exchange::JudgedOrderer;

/// Reads a log and writes the canonical lines of its messages, each as soon as all that come before it are known.
///
/// The target is not flushed.
pub fn normalise<R: Source, W: Target>(
    alloc: Global,
    config: &Config,
    source: &mut R,
    target: &mut W,
) -> Result<Summary, Fault>
    requires source { HasLowCounts R.Source source.old }
    requires target { IsLowCount (W.failures target.old) }

    // What is answered and written, for each log with which the bytes that were read agree.
    ensures answer { (log : List ℕ) → AgreesWith R.Source source.old source.new log
        → Answers MESSAGE_LIMIT config.now log (bytes_given R.Source source.old source.new)
        result (W.taken target.old) (W.taken target.new) }

    // For who follows a log that is still being recorded: before each read all is written that the lines so far decide.
    ensures eager { (log : List ℕ) → AgreesWith R.Source source.old source.new log
        → WritesEagerly MESSAGE_LIMIT config.now log (bytes_given R.Source source.old source.new)
        (W.taken target.old) (W.taken target.new) }

    // For who reads what is written instead of the log: it is accepted, is its own canonical log, under the rules and
    // without them, and has the meaning of the log.
    ensures again { (log : List ℕ) → AgreesWith R.Source source.old source.new log
        → OnOk result ((text : List ℕ) → W.taken target.new ≡ W.taken target.old ++ text
        → IsCanonicalFor MESSAGE_LIMIT config.now log text) }

    // For a recording of messages the canonical log of their meaning under the rules is written; and a summary that
    // counts nothing dropped, ended or unfinished certifies that the log is one.
    ensures recording { (log : List ℕ) → AgreesWith R.Source source.old source.new log
        → OnOk result ((M : List Message) → Records MESSAGE_LIMIT config.now log M
        → W.taken target.new ≡ W.taken target.old
        ++ canonical_log MESSAGE_LIMIT config.now (flattened (meaning (under config.now.rules M)))) }
    ensures certificate { (log : List ℕ) → AgreesWith R.Source source.old source.new log
        → IfOk result (λ summary. Certifies MESSAGE_LIMIT config.now log summary) }

    // How the log was read: reading stops within one piece of what refuses it, and memory is refused only for a log
    // that needs some, for a message of several frames, for one that is masked, or for one that is held.
    ensures way { ReadInThisWay R.Source (reading_to_order MESSAGE_LIMIT config.now) source.old result source.new }

    // Writing fails only where the lines read have a canonical line.
    ensures some { (log : List ℕ) → AgreesWith R.Source source.old source.new log
        → result ≡ Err Write → HasTextOf (canonical_log_of_lines MESSAGE_LIMIT config.now) log }

    // What it did with the target.
    ensures wrote { WroteTo W.Target Fault.Write result target.old target.new }
{
    let machine = Normaliser {
        orderer: JudgedOrderer::new(alloc),
        progress: Progress::start(config),
        config,
    };
    run(alloc, config, machine, source, target)
}

/// Says the canonical lines of the messages, each as soon as all that come before it are known.
#[derive(Drop)]
pub(crate) struct Normaliser<'a> {
    pub orderer: JudgedOrderer,
    pub progress: Progress,
    pub config: &'a Config,
}

impl<'a> Machine for Normaliser<'a> {
    ghost use Rattle.isotp_receive.specs.declared.TheConstants.{MESSAGE_LIMIT};
    ghost use Rattle.trace_canon.specs.MemoryNeeded.{CompletesHeld};
    ghost use Rattle.trace_canon.specs.proving.CanonicalScript.{StandsCanonical, answers_canonical, canonical_script};

    type Answer = Summary;

    ghost stands = { λ rules start T now.
        StandsCanonical rules start.config.now T now.orderer now.config.now now.progress };

    ghost script = { λ rules start. canonical_script rules start.config.now };

    ghost answers = { λ rules start. answers_canonical rules start.config.now };

    ghost needs = { λ rules start. CompletesHeld MESSAGE_LIMIT rules };

    #[inline(always)]
    fn is_strict(&self) -> bool {
        true
    }

    #[inline(always)]
    fn event<S: TextSink>(&mut self, seen: Seen<'_>, out: &mut S) -> Result<(), AllocError> {
        let Some(message) = seen.message else {
            return Ok(());
        };
        say_due(
            self.config,
            &mut self.progress,
            &mut self.orderer,
            message,
            out,
        )
    }

    fn end<S: TextSink>(
        self,
        _pair: &Pair,
        summary: &Summary,
        out: &mut S,
    ) -> Result<Summary, NoAnswer> {
        let Normaliser {
            orderer,
            mut progress,
            config,
        } = self;
        say_held(config, &mut progress, orderer, out);
        if progress.is_full() {
            return Err(NoAnswer::OutputLimit);
        }
        Ok(*summary)
    }

    fn refused<S: TextSink>(
        self,
        _summary: &Summary,
        _why: Fault,
        _glimpse: Glimpse<'_>,
        _out: &mut S,
    ) {}
}
