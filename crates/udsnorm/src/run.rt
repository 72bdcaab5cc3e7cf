//! Runs of the program over devices that are open.

ghost use Rattle.std.specs.Prelude.{◌≡◌, ℕ, ◌+◌, ◌-◌, ◌^◌, ◌<◌, ◌≤◌, ◌⊎◌, ◌↔◌, ◌&&◌, List, ◌++◌, true, OnOk, IfErr, MatchResult};
ghost use Rattle.std.specs.Io.KnownBytes.{Keeps};
ghost use Rattle.isotp_receive.specs.declared.TheConstants.{MESSAGE_LIMIT};
ghost use Rattle.trace_log.specs.Laws.{IsCertified};
ghost use Rattle.trace_io.specs.Counted.{IsLowCount};
ghost use Rattle.trace_io.specs.Written.{HasFront};
ghost use Rattle.udsnorm.specs.Ending.{EndsAs, answer_written, flushes, status_of_comparison, status_of_run, status_of_run_of_two};
ghost use Rattle.udsnorm.specs.FaultLines.{run_text, run_two_text};
ghost use Rattle.udsnorm.specs.Run.{RanOne, RanTwo};
ghost use Rattle.udsnorm.specs.Telling.{TookText};
ghost use Rattle.udsnorm.specs.proving.Flushed.{FlushedIf};
ghost use Rattle.trace_log.specs.Devices.{AgreesWith, HasLowCounts};

use crate::ended::{OneEnd, TwoEnd};
use crate::jobs::do_job;
use crate::pair_jobs::{PairAnswer, do_pair_job, has_text, has_unclean};
use crate::tell::{is_refusal, tell_fault, tell_side, tell_unclean, tell_unclean_sides};
use command_line::{Job, PairJob};
use std::alloc::Global;
use trace_canon::Comparison;
use trace_io::{Source, Target, write_all};
use trace_log::{CompareFault, Config, Fault, Summary};

/// Does a job over one log, which has this name on a page, and answers how that ended. The text goes to the output,
/// which is flushed before a fault of the log is told, or that it is not clean, where the run is strict; and what is
/// told to the error output, as far as that takes it.
pub fn run_one<R: Source, W: Target, E: Target>(
    alloc: Global,
    job: Job,
    name: &str,
    strict: bool,
    config: &Config,
    input: &mut R,
    out: &mut W,
    err: &mut E,
) -> OneEnd
    requires input { HasLowCounts R.Source input.old }
    requires out { IsLowCount (W.failures out.old) }
    requires err { IsLowCount (E.failures err.old) }

    // What the engine answered, what was read and written, and what the run came to: its status and what is told of it.
    ensures ran { RanOne R.Source W.Target E.Target job name.now strict MESSAGE_LIMIT config.now input.old out.old err.old result.status result.outcome input.new out.new err.new }

    // Where it is done, the input was read to its end, the output was flushed last and once, and nothing was told.
    ensures over { result.status ≡ 0 → R.is_over input.new ≡ true }
    ensures flushed { result.status ≡ 0 → W.is_flushed out.new ≡ true }
    ensures once { result.status ≡ 0 → W.flushes out.new ≡ W.flushes out.old + 1 }
    ensures flushes { W.flushes out.new ≤ W.flushes out.old + 1 }
    ensures quiet { result.status ≡ 0 → err.new ≡ err.old }

    // Where a strict run is done, the log is a recording of exactly the messages that it delivers.
    ensures recording { strict ≡ true → result.status ≡ 0 → (log : List ℕ)
        → AgreesWith R.Source input.old input.new log → IsCertified MESSAGE_LIMIT config.now log }

    // The status is 4 exactly where a device failed.
    ensures device { (result.status ≡ 4) ↔ ((R.failures input.old < R.failures input.new) ⊎ (W.failures out.old < W.failures out.new)) }
{
    let answer = do_job(alloc, job, name, config, input, out);
    let outcome = flushed_one(answer, out);
    OneEnd {
        status: tell_outcome(outcome, strict, err),
        outcome,
    }
}

/// What a run comes to, once what it wrote is flushed: its answer, or a failed write.
fn flushed_one<W: Target>(answer: Result<Summary, Fault>, out: &mut W) -> Result<Summary, Fault>
    requires { W.failures out.old ≤ 2 ^ 62 + 1 }
    ensures ends { EndsAs (flushes answer (W.taken out.old)) answer (W.failures out.old) (W.failures out.new) (W.flushes out.old) (W.flushes out.new) (W.is_flushed out.new) result }
    ensures taken { W.taken out.new ≡ W.taken out.old }
    ensures told { Keeps (W.contents out.old) (W.contents out.new) }
    ensures no_empty_write { W.had_empty_write out.new ≡ W.had_empty_write out.old }
{
    if !is_flushed_after(answer, out) {
        return answer;
    }
    match out.flush() {
        Ok(()) => answer,
        Err(_) => Err(Fault::Write),
    }
}

/// Whether the output is flushed after this answer: where the log was accepted, and where it is refused and the output took
/// any text. After a failed device or refused memory it is not.
fn is_flushed_after<W: Target>(answer: Result<Summary, Fault>, out: &W) -> bool
    ensures { result ≡ flushes answer (W.taken out.now) }
{
    match answer {
        Ok(_) => true,
        Err(fault) => is_refusal(fault) && out.has_taken(),
    }
}

/// Tells what a run over one log came to, where that is a fault, or a log that has to be clean and is not. Answers the exit
/// status.
fn tell_outcome<E: Target>(outcome: Result<Summary, Fault>, strict: bool, err: &mut E) -> u8
    requires { IsLowCount (E.failures err.old) }
    ensures status { result ≡ status_of_run strict outcome }
    ensures quiet { result ≡ 0 → err.new ≡ err.old }
    ensures told { TookText (run_text strict outcome) (E.failures err.old) (E.failures err.new) (E.taken err.old) (E.taken err.new) }
{
    match outcome {
        Ok(summary) => {
            if strict && !summary.is_clean() {
                tell_unclean(&summary, err)
            } else {
                0
            }
        }
        Err(fault) => tell_fault(fault, err),
    }
}

/// Does a job over two logs, which have these names on a page, the left one read whole before the right one, and
/// answers how that ended. The text goes to the output, which is flushed before a fault of a log is told, or which one
/// is not clean, where the run is strict; and what is told to the error output, as far as that takes it.
pub fn run_two<A: Source, B: Source, W: Target, E: Target>(
    alloc: Global,
    job: PairJob,
    left_name: &str,
    right_name: &str,
    strict: bool,
    config: &Config,
    left: &mut A,
    right: &mut B,
    out: &mut W,
    err: &mut E,
) -> TwoEnd
    requires left { HasLowCounts A.Source left.old }
    requires right { HasLowCounts B.Source right.old }
    requires out { IsLowCount (W.failures out.old) }
    requires err { IsLowCount (E.failures err.old) }

    // What the engine answered, what was read and written, and what the run came to: its status and what is told of it.
    ensures ran { RanTwo A.Source B.Source W.Target E.Target job left_name.now right_name.now strict MESSAGE_LIMIT config.now left.old right.old out.old err.old result.status result.answer left.new right.new out.new err.new }

    // Where both logs were accepted, and clean where they had to be, the output was flushed last and once, and nothing
    // was told.
    ensures flushed { result.status ≤ 1 → W.is_flushed out.new ≡ true }
    ensures once { result.status ≤ 1 → W.flushes out.new ≡ W.flushes out.old + 1 }
    ensures flushes { W.flushes out.new ≤ W.flushes out.old + 1 }
    ensures quiet { result.status ≤ 1 → err.new ≡ err.old }

    // Where a strict run ends so, each log is a recording of exactly the messages that it delivers.
    ensures recording { strict ≡ true → result.status ≤ 1 → (one other : List ℕ)
        → AgreesWith A.Source left.old left.new one → AgreesWith B.Source right.old right.new other
        → IsCertified MESSAGE_LIMIT config.now one × IsCertified MESSAGE_LIMIT config.now other }

    // No write to the output is empty.
    ensures no_empty_write { W.had_empty_write out.new ≡ W.had_empty_write out.old }

    // The status is 4 exactly where a device failed.
    ensures device { (result.status ≡ 4) ↔ ((A.failures left.old < A.failures left.new)
        ⊎ ((B.failures right.old < B.failures right.new) ⊎ (W.failures out.old < W.failures out.new))) }
{
    let done = do_pair_job(
        alloc, job, left_name, right_name, strict, config, left, right, out,
    );
    let due = has_text(job, strict, &done.answer);
    let wrote = flush_written(due, done.wrote, out);
    TwoEnd {
        status: tell_pair(&done.answer, wrote, strict, err),
        answer: answer_written(wrote, done.answer),
    }
}

/// Flushes a text that was written, where there is one. Answers whether neither failed.
fn flush_written<W: Target>(due: bool, wrote: bool, out: &mut W) -> bool
    requires { W.failures out.old ≤ 2 ^ 62 + 1 }
    ensures { FlushedIf W.Target (due && wrote) wrote out.old result out.new }
{
    if due && wrote {
        out.flush().is_ok()
    } else {
        wrote
    }
}

/// The answer of a run over two logs, where its text was written.
fn answer_written(
    wrote: bool,
    answer: Result<PairAnswer, CompareFault>,
) -> Option<Result<PairAnswer, CompareFault>>
    ensures { result ≡ answer_written wrote answer }
{
    if wrote { Some(answer) } else { None }
}

/// Tells what a run over two logs came to, where its text was not written, or that is a fault, or a log has to be clean
/// and is not. Answers the exit status.
fn tell_pair<E: Target>(
    answer: &Result<PairAnswer, CompareFault>,
    wrote: bool,
    strict: bool,
    err: &mut E,
) -> u8
    requires { IsLowCount (E.failures err.old) }
    ensures status { result ≡ status_of_run_of_two wrote strict answer.now }
    ensures quiet { result ≤ 1 → err.new ≡ err.old }
    ensures told { TookText (run_two_text wrote strict answer.now) (E.failures err.old) (E.failures err.new) (E.taken err.old) (E.taken err.new) }
{
    if !wrote {
        return tell_fault(Fault::Write, err);
    }
    match answer {
        Ok(pair) if has_unclean(strict, pair) => tell_unclean_sides(pair, err),
        Ok(pair) => comparison_status(pair.comparison),
        Err(fault) => tell_side(*fault, err),
    }
}

/// Writes a text, and flushes it.
pub(crate) fn write_flushed<W: Target>(text: &[u8], out: &mut W) -> Result<(), Fault>
    requires { IsLowCount (W.failures out.old) }
    ensures taken { HasFront (W.taken out.old) text.now (W.taken out.new) }
    ensures whole { OnOk result (W.taken out.new ≡ W.taken out.old ++ text.now) }
    ensures fault { IfErr result (λ fault. fault ≡ Fault.Write) }
    ensures flushed { OnOk result (W.is_flushed out.new ≡ true) }
    ensures flushes { MatchResult result
        (λ _. W.flushes out.new ≡ W.flushes out.old + 1) (λ _. W.flushes out.new ≡ W.flushes out.old) }
    ensures failures { MatchResult result
        (λ _. W.failures out.new ≡ W.failures out.old) (λ _. W.failures out.new ≡ W.failures out.old + 1) }
    ensures no_empty_write { W.had_empty_write out.new ≡ W.had_empty_write out.old }
{
    match write_all(out, text) {
        Ok(()) => match out.flush() {
            Ok(()) => Ok(()),
            Err(_) => Err(Fault::Write),
        },
        Err(_) => Err(Fault::Write),
    }
}

/// The exit status of a comparison.
fn comparison_status(comparison: Comparison) -> u8
    ensures { result ≡ status_of_comparison comparison }
{
    match comparison {
        Comparison::Same => 0,
        Comparison::Different { .. } => 1,
    }
}
