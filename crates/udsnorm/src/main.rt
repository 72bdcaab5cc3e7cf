//! Compares recorded UDS sessions (ISO 14229 over ISO-TP), gives them one canonical spelling, and tells what is in them.
//!
//! ```text
//! $ udsnorm normalise recorded.log > canonical.log
//! $ udsnorm list recorded.log
//! $ udsnorm explain recorded.log
//! $ udsnorm compare yesterday.log today.log
//! ```
//!
//! Without words it writes the canonical log of standard input. The exit status tells how it went: 0 done or the same,
//! 1 different, 2 wrong words, 3 a log is refused, 4 a file can't be opened, or reading or writing failed, 5 memory was
//! refused, 6 with `--strict` the log is not clean.
#![tactic(auto)]

ghost use Rattle.std.specs.Prelude.{◌≡◌, ◌+◌, ◌≤◌, ◌&&◌, ◌||◌, ℕ, List, ◌++◌, length, true, map, string_bytes, MatchResult};
ghost use Rattle.std.specs.Process.{exit_status};
ghost use Rattle.trace_canon.specs.Compared.{fault_in};
ghost use Rattle.trace_io.specs.Counted.{AreLowCounts, IsLowCount};
ghost use Rattle.clap.specs.Words.{Text};
ghost use Rattle.udsnorm.specs.Asked.{Did, DidFile, DidFiles, DidWords, IsDone, RanFiles, ToldWords};
ghost use Rattle.isotp_receive.specs.declared.TheConstants.{MESSAGE_LIMIT};
ghost use Rattle.udsnorm.specs.FaultLines.{side_line};
ghost use Rattle.command_line.specs.Commands.{command_in, words_or_normalise};
ghost use Rattle.udsnorm.specs.Known.{knows_unopened};
ghost use Rattle.udsnorm.specs.Opening.{opened, two_files};
ghost use Rattle.command_line.specs.Words.{asks_for_hints, IsPlanned};
ghost use Rattle.udsnorm.specs.Process.{Hinted, Served};
ghost use Rattle.udsnorm.specs.Profiled.{IsSeenOf};
ghost use Rattle.udsnorm.specs.Status.{status_of};
ghost use Rattle.udsnorm.specs.Telling.{TookText};
ghost use Rattle.command_line.specs.declared.seen_profile.SeenProfile.{SeenProfile};

mod ended;
mod fault_lines;
mod hint_lines;
mod hints;
mod jobs;
mod names;
mod noticing;
mod opening;
mod pair_jobs;
mod profiled;
mod run;
mod stream;
mod tell;
mod text;

use crate::ended::{End, Run, Which, known_of_file, known_of_files, known_of_input, unopened};
use crate::hints::{give_hint, tell_awaited};
use crate::noticing::Noticing;
use crate::opening::Opener;
use crate::profiled::seen_profile;
use crate::run::{run_one, run_two};
use crate::tell::{tell, tell_fault, tell_one_stream, tell_side};
use command_line::{
    Job, OpenFault, PairJob, Plan, WordsFault, asks_for_hints, found, page_name, plan, shown_name,
};
use std::env::Env;
use std::io::{ErrorKind, Input, IsTerminal, Print, Read};
use std::process::ExitCode;
use std::rt::Files;
use std::{env, io};
use trace_io::{Source, Target, Writing};
use trace_log::{CompareFault, Config, Fault};

/// What is told of a command line that is no text.
const NO_TEXT: &str =
    "error: the command line is not UTF-8; a file with such a name is read as udsnorm list < FILE\n";

fn main(rt: HostRuntime) -> ExitCode {
    let stderr = rt.stderr();
    let stdin = rt.reader();
    let terminals = Terminals {
        input: stdin.is_terminal(),
        errors: stderr.is_terminal(),
    };
    answer(
        &rt,
        given_words(&rt),
        terminals,
        &mut Noticing::new(stdin),
        &mut Writing::new(io::writer(&rt)),
        &mut Writing::new(io::writer(&stderr)),
    )
}

/// Which of the process's devices are terminals.
#[derive(Clone, Copy)]
struct Terminals {
    input: bool,
    errors: bool,
}

/// Does what the words ask for, or tells why there are none, and answers how the process ends. Nothing is written beside:
/// only where input and error output are terminals, that the input is read; and where the error output is one, or the
/// words ask for hints, the hint of the run.
fn answer<R: AllocGlobal + Files + Opener, I: Read, W: Target, E: Target>(
    rt: &R,
    words: Result<Vec<String>, WordsFault>,
    terminals: Terminals,
    input: &mut Noticing<I>,
    out: &mut W,
    err: &mut E,
) -> ExitCode
    requires input { AreLowCounts input.old.reads (length input.old.given) input.old.failures }
    requires out { IsLowCount (W.failures out.old) }
    requires err { IsLowCount (E.failures err.old) }
    ensures ended { (status : ℕ) × (exit_status result ≡ status) × MatchResult words
        (λ given. Served (R.says rt.now) ⟦<Noticing<R::Log> as Source>⟧ ⟦<Noticing<I> as Source>⟧ W.Target E.Target (map string_bytes given.items) terminals input.old out.old err.old status input.new out.new err.new)
        (λ fault. (input.new ≡ input.old) × ToldWords W.Target E.Target fault out.old err.old status out.new err.new) }
{
    ExitCode::from(serve_or_tell(rt, words, terminals, input, out, err))
}

/// Does what the words ask for, or tells why there are none. Answers the exit status.
fn serve_or_tell<R: AllocGlobal + Files + Opener, I: Read, W: Target, E: Target>(
    rt: &R,
    words: Result<Vec<String>, WordsFault>,
    terminals: Terminals,
    input: &mut Noticing<I>,
    out: &mut W,
    err: &mut E,
) -> u8
    requires input { AreLowCounts input.old.reads (length input.old.given) input.old.failures }
    requires out { IsLowCount (W.failures out.old) }
    requires err { IsLowCount (E.failures err.old) }
    ensures served { MatchResult words
        (λ given. Served (R.says rt.now) ⟦<Noticing<R::Log> as Source>⟧ ⟦<Noticing<I> as Source>⟧ W.Target E.Target (map string_bytes given.items) terminals input.old out.old err.old result input.new out.new err.new)
        (λ fault. (input.new ≡ input.old) × ToldWords W.Target E.Target fault out.old err.old result out.new err.new) }
{
    match words {
        Ok(words) => serve(rt, words.as_slice(), terminals, input, out, err),
        Err(fault) => tell(&fault, out, err),
    }
}

/// Does what the words ask for, with what is told beside, and answers the exit status.
fn serve<R: AllocGlobal + Files + Opener, I: Read, W: Target, E: Target>(
    rt: &R,
    words: &[String],
    terminals: Terminals,
    input: &mut Noticing<I>,
    out: &mut W,
    err: &mut E,
) -> u8
    requires input { AreLowCounts input.old.reads (length input.old.given) input.old.failures }
    requires out { IsLowCount (W.failures out.old) }
    requires err { IsLowCount (E.failures err.old) }
    ensures served { Served (R.says rt.now) ⟦<Noticing<R::Log> as Source>⟧ ⟦<Noticing<I> as Source>⟧ W.Target E.Target (map string_bytes words.now) terminals input.old out.old err.old result input.new out.new err.new }
{
    let asked = read_words(rt, words);
    tell_awaited(&asked, is_awaited(terminals), err);
    let end = run_words(rt, &asked, input, out, err);
    let run = Run { asked, end };
    hint_where_wanted(rt, is_hinted(terminals, words), words, &run, err);
    run.end.status
}

/// What the words ask for, with what is seen of the profile that they name. The parser is asked once: what it finds is the
/// name of the profile, and then all else.
fn read_words<R: AllocGlobal + Opener>(rt: &R, words: &[String]) -> Result<Plan, WordsFault>
    ensures asked { (seen : SeenProfile)
        × IsSeenOf (R.says rt.now) ⟦<Noticing<R::Log> as Source>⟧ (command_in (words_or_normalise (map string_bytes words.now))) seen
        × IsPlanned (words_or_normalise (map string_bytes words.now)) seen result }
{
    let parsed = found(rt.alloc(), words);
    let profile = seen_profile(rt, &parsed);
    plan(rt.alloc(), words, &parsed, &profile)
}

/// Whether somebody at a terminal may wait for the end of an input that is read there.
fn is_awaited(terminals: Terminals) -> bool
    ensures { result ≡ (terminals.errors && terminals.input) }
{
    terminals.errors && terminals.input
}

/// Whether hints are wanted: at a terminal, or where the words ask for them.
fn is_hinted(terminals: Terminals, words: &[String]) -> bool
    ensures { result ≡ (terminals.errors || asks_for_hints (map string_bytes words.now)) }
{
    terminals.errors || asks_for_hints(words)
}

/// Gives the hint of a run where it is wanted.
#[tactic(auto, using(crate::proofs::Serving::hinted_by))]
fn hint_where_wanted<R: AllocGlobal + Files, E: Target>(
    rt: &R,
    is_wanted: bool,
    words: &[String],
    run: &Run,
    err: &mut E,
)
    ensures hinted { Hinted E.Target is_wanted run.now.asked (map string_bytes words.now) run.now.end.known err.old err.new }
{
    // Where memory is refused there is none.
    let _ = give_hint(rt, words, run, is_wanted, err);
}

/// The words after the program's name.
fn given_words<R: AllocGlobal + Env>(rt: &R) -> Result<Vec<String>, WordsFault> {
    let alloc = rt.alloc();
    match env::args(rt) {
        Ok(args) => Ok(args.skip(1).collect(alloc)?),
        Err(error) if error.kind() == ErrorKind::OutOfMemory => Err(WordsFault::Memory),
        Err(_) => Err(WordsFault::Words(String::from_str(alloc, NO_TEXT)?)),
    }
}

/// Does what words ask for, over the input where they name no log. Answers how it ended.
fn run_words<R: AllocGlobal + Opener, I: Read, W: Target, E: Target>(
    rt: &R,
    asked: &Result<Plan, WordsFault>,
    input: &mut Noticing<I>,
    out: &mut W,
    err: &mut E,
) -> End
    requires input { AreLowCounts input.old.reads (length input.old.given) input.old.failures }
    requires out { IsLowCount (W.failures out.old) }
    requires err { IsLowCount (E.failures err.old) }

    // For each status, and of all words that ask for this with what is seen of their profile: what was done of it, from the
    // input's reads to the output's writes and the error output's, and what is then known for a hint.
    ensures run { (given : List Text) (seen : SeenProfile) → IsPlanned given seen asked.now
        → DidWords (R.says rt.now) ⟦<Noticing<R::Log> as Source>⟧ ⟦<Noticing<I> as Source>⟧ W.Target E.Target given seen asked.now input.old out.old err.old result.status result.known input.new out.new err.new }

    // With status 0 it is done: the output's writes took what is asked for, of the bytes that the input's reads gave.
    ensures done { (given : List Text) (seen : SeenProfile) → IsPlanned given seen asked.now
        → result.status ≡ 0 → (log : List ℕ) → input.new.given ≡ input.old.given ++ log
        → IsDone (R.says rt.now) ⟦<Noticing<R::Log> as Source>⟧ given seen log (W.taken out.old) (W.taken out.new) }
    ensures flushed { result.status ≡ 0 → W.is_flushed out.new ≡ true }
    ensures once { result.status ≡ 0 → W.flushes out.new ≡ W.flushes out.old + 1 }
    ensures flushes { W.flushes out.new ≤ W.flushes out.old + 1 }
{
    match asked {
        Ok(plan) => carry_out(rt, plan, input, out, err),
        Err(fault) => End {
            status: tell(fault, out, err),
            known: None,
        },
    }
}

/// Does what is planned, over the files that are named or the input. Answers how it ended.
fn carry_out<R: AllocGlobal + Opener, I: Read, W: Target, E: Target>(
    rt: &R,
    plan: &Plan,
    input: &mut Noticing<I>,
    out: &mut W,
    err: &mut E,
) -> End
    requires input { AreLowCounts input.old.reads (length input.old.given) input.old.failures }
    requires out { IsLowCount (W.failures out.old) }
    requires err { IsLowCount (E.failures err.old) }
    ensures did { Did (R.says rt.now) ⟦<Noticing<R::Log> as Source>⟧ ⟦<Noticing<I> as Source>⟧ W.Target E.Target plan.now input.old out.old err.old result.status result.known input.new out.new err.new }
    ensures flushed { result.status ≡ 0 → W.is_flushed out.new ≡ true }
    ensures once { result.status ≡ 0 → W.flushes out.new ≡ W.flushes out.old + 1 }
    ensures flushes { W.flushes out.new ≤ W.flushes out.old + 1 }
{
    match plan {
        Plan::One {
            job,
            strict,
            config,
            log,
        } => match log {
            None => {
                let end = run_one(
                    rt.alloc(),
                    *job,
                    page_name(None),
                    *strict,
                    config,
                    input,
                    out,
                    err,
                );
                End {
                    status: end.status,
                    known: known_of_input(*job, config, end.outcome, input, out),
                }
            }
            Some(name) => run_file(rt, *job, *strict, config, name, out, err),
        },
        Plan::Two {
            job,
            strict,
            config,
            left,
            right,
        } => run_files(rt, *job, *strict, config, left, right, out, err),
    }
}

/// Does a job over the log of a file.
fn run_file<R: AllocGlobal + Opener, W: Target, E: Target>(
    rt: &R,
    job: Job,
    strict: bool,
    config: &Config,
    name: &String,
    out: &mut W,
    err: &mut E,
) -> End
    requires out { IsLowCount (W.failures out.old) }
    requires err { IsLowCount (E.failures err.old) }
    ensures did { DidFile (R.says rt.now) ⟦<Noticing<R::Log> as Source>⟧ W.Target E.Target job (string_bytes name.now) strict config.now out.old err.old result.status result.known out.new err.new }
    ensures flushed { result.status ≡ 0 → W.is_flushed out.new ≡ true }
    ensures once { result.status ≡ 0 → W.flushes out.new ≡ W.flushes out.old + 1 }
    ensures flushes { W.flushes out.new ≤ W.flushes out.old + 1 }
{
    match rt.open_log(name) {
        Ok(log) => {
            let mut log = Noticing::new(log);
            let end = run_one(
                rt.alloc(),
                job,
                page_name(Some(name.as_str())),
                strict,
                config,
                &mut log,
                out,
                err,
            );
            End {
                status: end.status,
                known: known_of_file(job, config, end.outcome, log, out),
            }
        }
        Err(fault) => End {
            status: tell_fault(Fault::Read, err),
            known: unopened(Which::First, fault),
        },
    }
}

/// Does a job over the logs of two files. Both are opened before either is read, and neither is where they are one stream.
fn run_files<R: AllocGlobal + Opener, W: Target, E: Target>(
    rt: &R,
    job: PairJob,
    strict: bool,
    config: &Config,
    left_name: &String,
    right_name: &String,
    out: &mut W,
    err: &mut E,
) -> End
    requires out { IsLowCount (W.failures out.old) }
    requires err { IsLowCount (E.failures err.old) }
    ensures did { DidFiles (R.says rt.now) ⟦<Noticing<R::Log> as Source>⟧ W.Target E.Target job (string_bytes left_name.now) (string_bytes right_name.now) strict config.now out.old err.old result.status result.known out.new err.new }
    ensures flushed { result.status ≡ 0 → W.is_flushed out.new ≡ true }
    ensures once { result.status ≡ 0 → W.flushes out.new ≡ W.flushes out.old + 1 }
    ensures flushes { W.flushes out.new ≤ W.flushes out.old + 1 }
{
    let left = match rt.open_log(left_name) {
        Ok(log) => log,
        Err(why) => {
            let fault = CompareFault::Left(Fault::Read);
            return tell_unopened(fault, Which::First, why, err);
        }
    };
    let right = match rt.open_log(right_name) {
        Ok(log) => log,
        Err(why) => {
            let fault = CompareFault::Right(Fault::Read);
            return tell_unopened(fault, Which::Second, why, err);
        }
    };
    if rt.are_one_stream(&left, &right) {
        return End {
            status: tell_one_stream(err),
            known: None,
        };
    }
    run_opened(
        rt, job, strict, config, left_name, right_name, left, right, out, err,
    )
}

/// The same over the files that were opened by these names.
fn run_opened<R: AllocGlobal + Opener, W: Target, E: Target>(
    rt: &R,
    job: PairJob,
    strict: bool,
    config: &Config,
    left_name: &String,
    right_name: &String,
    left: R::Log,
    right: R::Log,
    out: &mut W,
    err: &mut E,
) -> End
    requires left { R.says rt.now (opened (string_bytes left_name.now) left) }
    requires right { R.says rt.now (opened (string_bytes right_name.now) right) }
    requires two { R.says rt.now (two_files left right) }
    requires out { IsLowCount (W.failures out.old) }
    requires err { IsLowCount (E.failures err.old) }
    ensures ran { RanFiles (R.says rt.now) ⟦<Noticing<R::Log> as Source>⟧ W.Target E.Target job (string_bytes left_name.now) (string_bytes right_name.now) strict MESSAGE_LIMIT config.now out.old err.old result.status result.known out.new err.new }
    ensures flushed { result.status ≡ 0 → W.is_flushed out.new ≡ true }
    ensures once { result.status ≡ 0 → W.flushes out.new ≡ W.flushes out.old + 1 }
    ensures flushes { W.flushes out.new ≤ W.flushes out.old + 1 }
{
    let mut left = Noticing::new(left);
    let mut right = Noticing::new(right);
    let end = run_two(
        rt.alloc(),
        job,
        shown_name(job, left_name.as_str(), right_name.as_str()),
        shown_name(job, right_name.as_str(), left_name.as_str()),
        strict,
        config,
        &mut left,
        &mut right,
        out,
        err,
    );
    End {
        status: end.status,
        known: known_of_files(config, end.answer, left, right),
    }
}

/// Tells that the file of one of two logs can't be opened. Answers how that ended, with why it can't.
fn tell_unopened<E: Target>(fault: CompareFault, which: Which, why: OpenFault, err: &mut E) -> End
    requires { IsLowCount (E.failures err.old) }
    ensures status { result.status ≡ status_of (fault_in fault) }
    ensures told { TookText (side_line fault) (E.failures err.old) (E.failures err.new) (E.taken err.old) (E.taken err.new) }
    ensures known { result.known ≡ knows_unopened which why }
{
    End {
        status: tell_side(fault, err),
        known: unopened(which, why),
    }
}
