//! What a log means, with its counts: a machine that says nothing, and collects the items. `list` and `compare` stand
//! on it.
//!
//! Once the canonical log is certainly longer than the limit, it lets go of all that it holds and takes no more. It
//! reads on, since a later line may still refuse the log, and that refusal is what is told.

ghost use Rattle.std.specs.Prelude.{◌≡◌, ◌+◌, ℕ, List, [], ◌∷◌, ◌++◌};
ghost use Rattle.direction.specs.Dir.{Message};
ghost use Rattle.isotp_receive.specs.declared.TheConstants.{MESSAGE_LIMIT};
ghost use Rattle.uds_exchange.specs.Meaning.{meaning, flattened};
ghost use Rattle.uds_exchange.specs.Judging.{IsJudgedAfter, sent};
ghost use Rattle.trace_canon.specs.proving.Measuring.{HaveLengths};
ghost use Rattle.trace_canon.specs.proving.SessionScript.{is_in_meaning};
ghost use Rattle.trace_canon.specs.Sessions.{GivesMeaning, GivesSession, RanToCollect};
ghost use Rattle.trace_log.specs.Devices.{HasLowCounts};
ghost use Rattle.trace_log.specs.Settings.{AreSettings};

use crate::length::lines_length;
use isotp_receive::Pair;
use std::alloc::{AllocError, Global};
use trace_io::{Source, TextSink};
use trace_log::{Config, Fault, Summary};
use trace_run::{
    Glimpse, Machine, NoAnswer, Nowhere, RuleCounts, Seen, count_message, no_counts, run,
};
use uds_exchange::{Judged, JudgedPairing, Meaning, Step};

/// What an accepted log means, and what was counted in it.
#[derive(Debug, Drop)]
pub struct Session {
    pub meaning: Meaning,
    pub summary: Summary,
    /// Of how many messages of the log each rule spoke.
    pub spoken: RuleCounts,
}

/// Reads a log, and gives what its messages mean. It accepts the logs that [`normalise`](crate::normalise) accepts, and
/// refuses every other one in the same way.
pub fn meaning_of<R: Source>(
    alloc: Global,
    config: &Config,
    source: &mut R,
) -> Result<Meaning, Fault>
    requires source { HasLowCounts R.Source source.old }
    ensures ran { RanToCollect R.Source GivesMeaning MESSAGE_LIMIT config.now source.old result source.new }
{
    let session = session_of(alloc, config, source)?;
    Ok(session.meaning)
}

/// What a log means, with what was counted in it.
pub(crate) fn session_of<R: Source>(
    alloc: Global,
    config: &Config,
    source: &mut R,
) -> Result<Session, Fault>
    requires source { HasLowCounts R.Source source.old }
    ensures ran { RanToCollect R.Source GivesSession MESSAGE_LIMIT config.now source.old result source.new }
    ensures configured { AreSettings config.now }
{
    let machine = Collector {
        config,
        collected: Some(Collected {
            pairing: JudgedPairing::new(alloc),
            room: config.max_bytes(),
        }),
        spoken: no_counts(config.rules()),
    };
    run(alloc, config, machine, source, &mut Nowhere::new())
}

/// Pairs the messages, and answers with all items at the end.
#[derive(Drop)]
pub(crate) struct Collector<'a> {
    pub config: &'a Config,
    /// What the messages so far mean, if the canonical log of that is within the limit.
    pub collected: Option<Collected>,
    /// Of how many messages each rule spoke.
    pub spoken: RuleCounts,
}

/// Items whose canonical log is within the limit.
#[derive(Drop)]
pub(crate) struct Collected {
    pub pairing: JudgedPairing,
    /// By how many bytes their canonical log may still grow.
    pub room: u64,
}

impl<'a> Machine for Collector<'a> {
    ghost use Rattle.isotp_receive.specs.declared.TheConstants.{MESSAGE_LIMIT};
    ghost use Rattle.trace_canon.specs.FirstFrames.{CompletesMessage};
    ghost use Rattle.trace_canon.specs.proving.SessionScript.{CollectsSession, answers_session, silent_script};

    type Answer = Session;

    ghost stands = { λ rules start T now.
        CollectsSession rules start.config.now T now.collected now.config.now now.spoken.items };

    ghost script = { λ rules start. silent_script };

    ghost answers = { λ rules start. answers_session rules start.config.now };

    ghost needs = { λ rules start. CompletesMessage MESSAGE_LIMIT };

    #[inline(always)]
    fn is_strict(&self) -> bool {
        true
    }

    #[inline(always)]
    fn event<S: TextSink>(&mut self, seen: Seen<'_>, _out: &mut S) -> Result<(), AllocError> {
        count_message(self.config.rules(), seen.event.verdict, &mut self.spoken);
        let Some(message) = seen.message else {
            return Ok(());
        };
        self.take(message)
    }

    fn end<S: TextSink>(
        self,
        _pair: &Pair,
        summary: &Summary,
        _out: &mut S,
    ) -> Result<Session, NoAnswer> {
        let Collector {
            config: _,
            collected,
            spoken,
        } = self;
        match collected {
            Some(collected) => Ok(Session {
                meaning: collected.pairing.finish(),
                summary: *summary,
                spoken,
            }),
            None => Err(NoAnswer::OutputLimit),
        }
    }

    fn refused<S: TextSink>(
        self,
        _summary: &Summary,
        _why: Fault,
        _glimpse: Glimpse<'_>,
        _out: &mut S,
    ) {}
}

impl<'a> Collector<'a> {
    ghost use Rattle.std.specs.Prelude.{◌≡◌, List, [], ◌∷◌, ◌++◌, OnOk};
    ghost use Rattle.direction.specs.Dir.{Message};
    ghost use Rattle.uds_exchange.specs.Judging.{IsJudgedAfter, sent};
    ghost use Rattle.trace_log.specs.Settings.{Settings};
    ghost use Rattle.trace_canon.specs.proving.SessionScript.{Collects};

    /// Takes one more message. Once there is no room for its canonical lines nothing is kept any more.
    fn take(&mut self, message: Judged<'_>) -> Result<(), AllocError>
        ensures collects { OnOk result ((settings : Settings) (M : List Message) → IsJudgedAfter M message.entry
            → Collects settings M self.old.collected self.old.config.now
            → Collects settings (M ++ sent message.entry ∷ []) self.new.collected self.new.config.now) }
        ensures spoken { self.new.spoken ≡ self.old.spoken }
    {
        let added = added_length(self.config, message);
        let Some(collected) = &mut self.collected else {
            return Ok(());
        };
        if collected.room < added {
            self.collected = None;
            return Ok(());
        }
        collected.take(message, added)
    }
}

impl Collected {
    ghost use Rattle.std.specs.Prelude.{◌+◌, ◌≤◌, List, [], ◌∷◌, ◌++◌, OnOk};
    ghost use Rattle.direction.specs.Dir.{Message};
    ghost use Rattle.uds_exchange.specs.Meaning.{meaning};
    ghost use Rattle.uds_exchange.specs.Judging.{IsJudgedAfter, sent};

    /// Takes one more message, by which the canonical log grows by so many bytes.
    fn take(&mut self, message: Judged<'_>, added: u64) -> Result<(), AllocError>
        requires { added ≤ self.old.room }
        ensures pairing { OnOk result ((M : List Message) → self.old.pairing ≡ meaning M → IsJudgedAfter M message.entry
            → self.new.pairing ≡ meaning (M ++ sent message.entry ∷ [])) }
        ensures room { OnOk result (self.old.room ≡ self.new.room + added) }
    {
        self.pairing.take(message)?;
        self.room -= added;
        Ok(())
    }
}

/// By how many bytes one more message makes the canonical log longer.
fn added_length(config: &Config, message: Judged<'_>) -> u64
    ensures { (M : List Message) (size : ℕ) → IsJudgedAfter M message.entry
        → HaveLengths config.now (flattened (meaning M)) size
        → HaveLengths config.now (flattened (meaning (M ++ sent message.entry ∷ []))) (size + result) }
{
    if is_in_meaning(message.step) {
        lines_length(config, message.dir, message.bytes)
    } else {
        0
    }
}

/// Whether a message with this step is in the meaning: all are but those that are removed.
fn is_in_meaning(step: Step) -> bool
    ensures { result ≡ is_in_meaning step }
{
    match step {
        Step::Removed => false,
        Step::Request(_) | Step::Answer | Step::Hold | Step::Pass => true,
    }
}
