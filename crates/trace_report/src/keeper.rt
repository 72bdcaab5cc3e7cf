//! Logs that are kept as a whole: a machine that says nothing, and keeps the rows of a session.

ghost use Rattle.std.specs.Prelude.{◌≡◌, ◌≢◌, ℕ, List, [], ◌++◌, IfOk, IfErr, Err, OnOk, Some};
ghost use Rattle.isotp_receive.specs.declared.TheConstants.{MESSAGE_LIMIT};
ghost use Rattle.isotp_receive.specs.Trace.{Entry};
ghost use Rattle.trace_log.specs.Answers.{ReadsWhile};
ghost use Rattle.trace_canon.specs.Compared.{fault_in};
ghost use Rattle.trace_log.specs.declared.fault.Fault.{Fault as FaultValue};
ghost use Rattle.trace_log.specs.Devices.{AgreesWith, bytes_given, ReadFrom, HasLowCounts};
ghost use Rattle.trace_log.specs.Refusal.{HasNoBadPlaceWithin};
ghost use Rattle.uds_rules.specs.Rule.{RuleValue};
ghost use Rattle.trace_report.specs.Kept.{KeepsOne, HasOwnFrame, KeepsTwo};
ghost use Rattle.trace_report.specs.proving.Following.{row_if, rows_in};
ghost use Rattle.trace_report.specs.Session.{session_of};
ghost use Rattle.trace_report.specs.proving.Heard.{IsHeardOf};
ghost use Rattle.trace_log.specs.declared.summary.Summary.{Summary as SummaryValue};

use crate::follower::{Follower, NewRows};
use crate::kept_rows::KeptRows;
use crate::row::SessionRow;
use crate::session::KeptSession;
use crate::sessions::KeptSessions;
use crate::times::{Times, times_with};
use isotp_receive::Pair;
use std::alloc::{AllocError, Global};
use trace_io::{Source, TextSink};
use trace_log::{CompareFault, Config, Fault, Summary};
use trace_run::{
    Glimpse, Machine, NoAnswer, Nowhere, RuleCounts, Seen, count_message, no_counts, run,
};
use uds_rules::Rules;

/// Reads two logs, the first one whole before the second, and answers what both say. No announcement and no canonical
/// log is too long for it.
pub fn keep_two<'a, A: Source, B: Source>(
    alloc: Global,
    config: &'a Config,
    left: &mut A,
    right: &mut B,
) -> Result<KeptSessions<'a>, CompareFault>
    requires left { HasLowCounts A.Source left.old }
    requires right { HasLowCounts B.Source right.old }

    // What is answered, for all logs with which the bytes that were read agree.
    ensures answer { (one other : List ℕ)
        → AgreesWith A.Source left.old left.new one → AgreesWith B.Source right.old right.new other
        → KeepsTwo MESSAGE_LIMIT config.now one other result }

    // After a fault of the first log nothing of the second was read.
    ensures unread { (fault : FaultValue) → result ≡ Err (CompareFault.Left fault) → right.new ≡ right.old }

    // Reading stops within one piece: there is no refused place among all bytes given of a log but the last 4,096, and
    // none among all where a read of it failed.
    ensures left_near { (one : List ℕ) → AgreesWith A.Source left.old left.new one
        → ReadsWhile (HasNoBadPlaceWithin one) (bytes_given A.Source left.old left.new) (A.failures left.old) (A.failures left.new) }
    ensures right_near { (other : List ℕ) → AgreesWith B.Source right.old right.new other
        → ReadsWhile (HasNoBadPlaceWithin other) (bytes_given B.Source right.old right.new) (B.failures right.old) (B.failures right.new) }

    // Memory is refused only for a log that has a frame of one of the two sides.
    ensures left_memory { (one : List ℕ) → AgreesWith A.Source left.old left.new one
        → result ≡ Err (CompareFault.Left Fault.Memory) → HasOwnFrame config.now one }
    ensures right_memory { (other : List ℕ) → AgreesWith B.Source right.old right.new other
        → result ≡ Err (CompareFault.Right Fault.Memory) → HasOwnFrame config.now other }

    // What it did with the sources. Nothing is written.
    ensures left_read { ReadFrom A.Source (CompareFault.Left Fault.Read) config.now.max_bytes result left.old left.new }
    ensures right_read { ReadFrom B.Source (CompareFault.Right Fault.Read) config.now.max_bytes result right.old right.new }
    ensures never_write { IfErr result (λ fault. fault_in fault ≢ Fault.Write) }
{
    let left = match keep_session(alloc, config, left) {
        Ok(session) => session,
        Err(fault) => return Err(CompareFault::Left(fault)),
    };
    let right = match keep_session(alloc, config, right) {
        Ok(session) => session,
        Err(fault) => return Err(CompareFault::Right(fault)),
    };
    Ok(KeptSessions::of(left, right))
}

/// Reads a log, and answers what it says.
fn keep_session<'a, R: Source>(
    alloc: Global,
    config: &'a Config,
    source: &mut R,
) -> Result<KeptSession<'a>, Fault>
    requires source { HasLowCounts R.Source source.old }
    ensures answer { (log : List ℕ) → AgreesWith R.Source source.old source.new log → KeepsOne MESSAGE_LIMIT config.now log result }
    ensures near { (log : List ℕ) → AgreesWith R.Source source.old source.new log
        → ReadsWhile (HasNoBadPlaceWithin log) (bytes_given R.Source source.old source.new) (R.failures source.old) (R.failures source.new) }
    ensures memory { (log : List ℕ) → AgreesWith R.Source source.old source.new log → result ≡ Err Fault.Memory → HasOwnFrame config.now log }
    ensures read { ReadFrom R.Source Fault.Read config.now.max_bytes result source.old source.new }
    ensures never_write { IfErr result (λ fault. fault ≢ Fault.Write) }
{
    let rules = config.rules();
    let machine = Keeper {
        rules,
        times: None,
        follower: Follower::start(),
        rows: KeptRows::new(alloc),
        spoken: no_counts(rules),
    };
    match run(alloc, config, machine, source, &mut Nowhere::new()) {
        Ok(heard) => match finished(rules, heard) {
            Ok(session) => Ok(session),
            Err(_refused) => Err(Fault::Memory),
        },
        Err(fault) => Err(fault),
    }
}

/// What was heard of a log that ended.
#[derive(Drop)]
pub(crate) struct Heard {
    pub rows: KeptRows,
    /// The rows of the end.
    pub last: NewRows<'static>,
    pub summary: Summary,
    pub times: Option<Times>,
    /// Of how many messages each rule spoke.
    pub spoken: RuleCounts,
}

/// What a log under rules says of which this was heard.
fn finished<'a>(rules: &'a Rules, heard: Heard) -> Result<KeptSession<'a>, AllocError>
    ensures session { IfOk result (λ session. (T : List Entry) (summary : SummaryValue)
        → IsHeardOf rules.now T summary heard → session ≡ session_of MESSAGE_LIMIT rules.now T summary) }
    ensures refused { IfErr result (λ refused. rows_in heard.last ≢ []) }
{
    let Heard {
        mut rows,
        last,
        summary,
        times,
        spoken,
    } = heard;
    keep_rows(&mut rows, last)?;
    Ok(KeptSession::of(rules, rows, summary, times, spoken))
}

/// Keeps new rows behind those before.
#[inline(always)]
fn keep_rows(rows: &mut KeptRows, new: NewRows<'_>) -> Result<(), AllocError>
    ensures kept { OnOk result (rows.new ≡ rows.old ++ rows_in new.entry) }
    ensures refused { IfErr result (λ refused. rows_in new.entry ≢ []) }
{
    keep_row_if(rows, new.first)?;
    keep_row_if(rows, new.second)?;
    keep_row_if(rows, new.third)
}

/// Keeps a row, if there is one.
#[inline(always)]
fn keep_row_if(rows: &mut KeptRows, row: Option<SessionRow<'_>>) -> Result<(), AllocError>
    ensures kept { OnOk result (rows.new ≡ rows.old ++ row_if row.entry) }
    ensures refused { IfErr result (λ refused. row_if row.entry ≢ []) }
{
    match row {
        Some(row) => rows.keep(row),
        None => Ok(()),
    }
}

/// Keeps the rows of a session, under these rules.
#[derive(Drop)]
pub(crate) struct Keeper<'a> {
    pub rules: &'a Rules,
    /// The times of the first frame so far and of the last one, if there are frames.
    pub times: Option<Times>,
    pub follower: Follower,
    pub rows: KeptRows,
    /// Of how many messages each rule spoke.
    pub spoken: RuleCounts,
}

impl<'a> Machine for Keeper<'a> {
    ghost use Rattle.std.specs.Prelude.{⊤};
    ghost use Rattle.trace_report.specs.proving.Heard.{Keeps, answers_heard, quiet_script};

    type Answer = Heard;

    ghost stands = { λ rules start T now. Keeps rules T now };

    ghost script = { λ rules start. quiet_script };

    ghost answers = { λ rules start. answers_heard rules };

    ghost needs = { λ rules start T e. ⊤ };

    #[inline(always)]
    fn is_strict(&self) -> bool {
        false
    }

    #[inline(always)]
    fn event<S: TextSink>(&mut self, seen: Seen<'_>, _out: &mut S) -> Result<(), AllocError> {
        self.times = Some(times_with(self.times, seen.micros));
        count_message(self.rules, seen.event.verdict, &mut self.spoken);
        let rows = self.follower.take(seen);
        keep_rows(&mut self.rows, rows)?;
        Ok(())
    }

    fn end<S: TextSink>(
        self,
        pair: &Pair,
        summary: &Summary,
        _out: &mut S,
    ) -> Result<Heard, NoAnswer> {
        let Keeper {
            rules: _,
            times,
            follower,
            rows,
            spoken,
        } = self;
        Ok(Heard {
            rows,
            last: follower.end(pair),
            summary: *summary,
            times,
            spoken,
        })
    }

    fn refused<S: TextSink>(
        self,
        _summary: &Summary,
        _why: Fault,
        _glimpse: Glimpse<'_>,
        _out: &mut S,
    ) {}
}
