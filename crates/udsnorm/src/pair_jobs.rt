//! What the program does with two logs: the engine of each job, what it answers, and its text.

ghost use Rattle.std.specs.Prelude.{◌≡◌, ◌≢◌, ◌-◌, ◌⊎◌, ℕ, List, [], Ok, Err, IfOk, IfErr, false, true};
ghost use Rattle.isotp_receive.specs.declared.TheConstants.{MESSAGE_LIMIT};
ghost use Rattle.trace_canon.specs.Compared.{fault_in};
ghost use Rattle.trace_canon.specs.ComparisonText.{comparison_text};
ghost use Rattle.trace_log.specs.Devices.{AgreesWith, bytes_given, ReadFrom, HasLowCounts};
ghost use Rattle.trace_log.specs.declared.fault.Fault.{Fault as FaultValue};
ghost use Rattle.trace_io.specs.Counted.{IsLowCount};
ghost use Rattle.trace_pair.specs.Page.{pair_page};
ghost use Rattle.trace_pair.specs.Titles.{title_for};
ghost use Rattle.udsnorm.specs.Engines.{PairEngineAnswers, PairEngineNeedsForLeft, PairEngineNeedsForRight, PairEngineReads, has_text, pair_kept, pair_of, text_of_difference};
ghost use Rattle.udsnorm.specs.Ending.{has_unclean};
ghost use Rattle.udsnorm.specs.Telling.{WroteText};
ghost use Rattle.udsnorm.specs.proving.Pairs.{HasItems, answer_kept, answer_of, cause_in, text_of_answer};
ghost use Rattle.trace_report.specs.Causes as Causes;
ghost use Rattle.trace_run.specs.Script.{glimpse_of};

use crate::tell::is_refusal;
use command_line::PairJob;
use std::alloc::{AllocError, Global};
use trace_canon::{Compared, Comparison, compare, write_comparison};
use trace_difference::{NamedSession, write_difference};
use trace_io::{Source, Target};
use trace_log::{CompareFault, Config, Fault, Summary};
use trace_pair::{Aligned, Title, align_two, pair_style, write_pair_page};
use trace_report::{RefusalCause, cause_of};
use trace_run::Glimpse;
use trace_text::{ComparisonStyle, Notation};
use uds_difference::Difference;
use uds_rules::Rules;

/// What two accepted logs are to each other, and what was counted in each.
#[derive(Clone, Copy)]
pub struct PairAnswer {
    pub comparison: Comparison,
    pub left: Summary,
    pub right: Summary,
}

/// What a job over two logs came to.
#[derive(Clone, Copy)]
pub struct PairDone {
    pub answer: Result<PairAnswer, CompareFault>,
    /// Whether its text was written. Where it has none, there is nothing that could fail.
    pub wrote: bool,
}

/// Whether a job over two logs has a text of this answer.
pub(crate) fn has_text(
    job: PairJob,
    strict: bool,
    answer: &Result<PairAnswer, CompareFault>,
) -> bool
    ensures { result ≡ has_text job strict answer.now }
{
    match job {
        PairJob::Compare(_) | PairJob::Diff(_) => match answer {
            Ok(pair) => !has_unclean(strict, pair),
            Err(_) => false,
        },
        PairJob::Report => match answer {
            Ok(_) => true,
            Err(fault) => is_refusal(fault_in(*fault)),
        },
    }
}

/// The fault of either log.
fn fault_in(fault: CompareFault) -> Fault
    ensures { result ≡ fault_in fault }
{
    match fault {
        CompareFault::Left(fault) | CompareFault::Right(fault) => fault,
    }
}

/// Whether one of two logs has to be clean, and is not.
pub(crate) fn has_unclean(strict: bool, pair: &PairAnswer) -> bool
    ensures { result ≡ has_unclean strict pair.now }
{
    strict && !(pair.left.is_clean() && pair.right.is_clean())
}

/// What the engine comes to that does the job, over two logs that have these names in its text. The left one is read
/// whole before the right one, and the text is not flushed.
pub(crate) fn do_pair_job<A: Source, B: Source, W: Target>(
    alloc: Global,
    job: PairJob,
    left_name: &str,
    right_name: &str,
    strict: bool,
    config: &Config,
    left: &mut A,
    right: &mut B,
    out: &mut W,
) -> PairDone
    requires left { HasLowCounts A.Source left.old }
    requires right { HasLowCounts B.Source right.old }
    requires out { IsLowCount (W.failures out.old) }

    // What is answered, and the text of that, for all logs with which the bytes that were read agree.
    ensures engine { (text : List ℕ)
        × ((one other : List ℕ) → AgreesWith A.Source left.old left.new one → AgreesWith B.Source right.old right.new other
        → PairEngineAnswers job left_name.now right_name.now (glimpse_of A.Source left.new) (glimpse_of B.Source right.new) strict MESSAGE_LIMIT config.now one other result.answer text)
        × WroteText W.Target text result.wrote out.old out.new }
    ensures left_alone { has_text job strict result.answer ≡ false → (result.wrote ≡ true) × (out.new ≡ out.old) }
    ensures flushes { W.flushes out.new ≡ W.flushes out.old }

    // After a fault of the left log nothing of the right one was read.
    ensures unread { (fault : FaultValue) → result.answer ≡ Err (CompareFault.Left fault) → right.new ≡ right.old }

    // Memory is refused only for a log that needs it, or to the difference of both, where one means an item: that is told
    // of the right one.
    ensures left_memory { (one : List ℕ) → AgreesWith A.Source left.old left.new one
        → result.answer ≡ Err (CompareFault.Left Fault.Memory) → PairEngineNeedsForLeft job left_name.now right_name.now (glimpse_of A.Source left.new) (glimpse_of B.Source right.new) MESSAGE_LIMIT config.now one }
    ensures right_memory { (one other : List ℕ) → AgreesWith A.Source left.old left.new one → AgreesWith B.Source right.old right.new other
        → result.answer ≡ Err (CompareFault.Right Fault.Memory) → PairEngineNeedsForRight job left_name.now right_name.now (glimpse_of A.Source left.new) (glimpse_of B.Source right.new) MESSAGE_LIMIT config.now one other }

    // How near to what refuses a log it stops reading, and what it did with both.
    ensures left_near { (one : List ℕ) → AgreesWith A.Source left.old left.new one
        → PairEngineReads job left_name.now right_name.now (glimpse_of A.Source left.new) (glimpse_of B.Source right.new) MESSAGE_LIMIT config.now one (bytes_given A.Source left.old left.new) (A.failures left.old) (A.failures left.new) }
    ensures right_near { (other : List ℕ) → AgreesWith B.Source right.old right.new other
        → PairEngineReads job left_name.now right_name.now (glimpse_of A.Source left.new) (glimpse_of B.Source right.new) MESSAGE_LIMIT config.now other (bytes_given B.Source right.old right.new) (B.failures right.old) (B.failures right.new) }
    ensures left_read { ReadFrom A.Source (CompareFault.Left Fault.Read) config.now.max_bytes result.answer left.old left.new }
    ensures right_read { ReadFrom B.Source (CompareFault.Right Fault.Read) config.now.max_bytes result.answer right.old right.new }
    ensures never_write { IfErr result.answer (λ fault. fault_in fault ≢ Fault.Write) }
{
    match job {
        PairJob::Compare(style) => {
            let answer = compare(alloc, config, left, right);
            PairDone {
                answer: answer_of(&answer),
                wrote: write_answer(&answer, strict, style, config.rules(), out),
            }
        }
        PairJob::Diff(notation) => {
            let compared = compare(alloc, config, left, right);
            match write_diff(
                alloc,
                left_name,
                right_name,
                &compared,
                strict,
                notation,
                config.rules(),
                out,
            ) {
                Ok(wrote) => PairDone {
                    answer: answer_of(&compared),
                    wrote,
                },
                Err(_refused) => PairDone {
                    answer: Err(CompareFault::Right(Fault::Memory)),
                    wrote: true,
                },
            }
        }
        PairJob::Report => {
            let answer = align_two(alloc, config, left, right);
            let cause = cause_in(&answer, config.max_bytes(), left, right);
            PairDone {
                answer: answer_kept(&answer),
                wrote: write_page(left_name, right_name, config, &answer, cause, out),
            }
        }
    }
}

/// An answer about two logs, without what they mean.
fn answer_of(answer: &Result<Compared, CompareFault>) -> Result<PairAnswer, CompareFault>
    ensures { result ≡ answer_of answer.now }
{
    match answer {
        Ok(compared) => Ok(pair_of(compared)),
        Err(fault) => Err(*fault),
    }
}

/// What two accepted logs are to each other, and what was counted in each.
fn pair_of(compared: &Compared) -> PairAnswer
    ensures { result ≡ pair_of compared.now }
{
    PairAnswer {
        comparison: compared.comparison,
        left: compared.left.summary,
        right: compared.right.summary,
    }
}

/// Writes how two logs compare, where each is clean that has to be. Answers whether that did not fail.
fn write_answer<W: Target>(
    answer: &Result<Compared, CompareFault>,
    strict: bool,
    style: ComparisonStyle,
    rules: &Rules,
    out: &mut W,
) -> bool
    requires { IsLowCount (W.failures out.old) }
    ensures text { WroteText W.Target (text_of_answer strict (λ under. comparison_text under style) rules.now answer.now) result out.old out.new }
    ensures left_alone { has_text (PairJob.Compare style) strict (answer_of answer.now) ≡ false → (result ≡ true) × (out.new ≡ out.old) }
    ensures flushes { W.flushes out.new ≡ W.flushes out.old }
{
    match answer {
        Ok(compared) if !has_unclean(strict, &pair_of(compared)) => {
            write_comparison(compared, style, rules, out).is_ok()
        }
        _ => true,
    }
}

/// Writes where two logs differ, which have these names, where each is clean that has to be. Answers whether that did not
/// fail. Where memory is refused nothing is written, and one of both means an item.
fn write_diff<W: Target>(
    alloc: Global,
    left_name: &str,
    right_name: &str,
    answer: &Result<Compared, CompareFault>,
    strict: bool,
    notation: Notation,
    rules: &Rules,
    out: &mut W,
) -> Result<bool, AllocError>
    requires { IsLowCount (W.failures out.old) }
    ensures text { IfOk result (λ wrote. WroteText W.Target (text_of_answer strict (text_of_difference notation left_name.now right_name.now) rules.now answer.now) wrote out.old out.new) }
    ensures left_alone { has_text (PairJob.Diff notation) strict (answer_of answer.now) ≡ false → (result ≡ Ok true) × (out.new ≡ out.old) }
    ensures flushes { W.flushes out.new ≡ W.flushes out.old }
    ensures answered { IfErr result (λ refused. HasItems answer.now) }
    ensures nothing { IfErr result (λ refused. WroteText W.Target [] true out.old out.new) }
    ensures unwritten { IfErr result (λ refused. out.new ≡ out.old) }
{
    match answer {
        Ok(compared) if !has_unclean(strict, &pair_of(compared)) => {
            write_differing(alloc, left_name, right_name, compared, notation, rules, out)
        }
        _ => Ok(true),
    }
}

/// The same of two accepted logs.
fn write_differing<W: Target>(
    alloc: Global,
    left_name: &str,
    right_name: &str,
    compared: &Compared,
    notation: Notation,
    rules: &Rules,
    out: &mut W,
) -> Result<bool, AllocError>
    requires { IsLowCount (W.failures out.old) }
    ensures text { IfOk result (λ wrote. WroteText W.Target (text_of_difference notation left_name.now right_name.now rules.now compared.now) wrote out.old out.new) }
    ensures flushes { W.flushes out.new ≡ W.flushes out.old }
    ensures items { IfErr result (λ refused. (compared.now.left.meaning ≢ []) ⊎ (compared.now.right.meaning ≢ [])) }
    ensures nothing { IfErr result (λ refused. WroteText W.Target [] true out.old out.new) }
    ensures unwritten { IfErr result (λ refused. out.new ≡ out.old) }
{
    let left = NamedSession {
        name: left_name.as_bytes(),
        session: &compared.left,
    };
    let right = NamedSession {
        name: right_name.as_bytes(),
        session: &compared.right,
    };
    let difference = Difference::between(alloc, &compared.left.meaning, &compared.right.meaning)?;
    Ok(write_difference(&difference, left, right, notation, rules, out).is_ok())
}

/// An answer about two logs that are kept, without what they say.
fn answer_kept(answer: &Result<Aligned<'_>, CompareFault>) -> Result<PairAnswer, CompareFault>
    ensures { result ≡ answer_kept answer.now }
{
    match answer {
        Ok(aligned) => Ok(pair_kept(aligned)),
        Err(fault) => Err(*fault),
    }
}

/// What two logs that are kept are to each other, without what they say.
fn pair_kept(aligned: &Aligned<'_>) -> PairAnswer
    ensures { result ≡ pair_kept aligned.now }
{
    let two = aligned.two();
    PairAnswer {
        comparison: aligned.comparison(),
        left: two.left().summary(),
        right: two.right().summary(),
    }
}

/// The cause of a refusal of one of two logs with this limit, by what is seen of both sources.
fn cause_in<A: Source, B: Source>(
    answer: &Result<Aligned<'_>, CompareFault>,
    max_bytes: u64,
    left: &A,
    right: &B,
) -> Option<RefusalCause>
    ensures { result ≡ cause_in answer.now max_bytes (glimpse_of A.Source left.now) (glimpse_of B.Source right.now) }
{
    match answer {
        Ok(_) => None,
        Err(CompareFault::Left(why)) => cause_by(*why, max_bytes, left),
        Err(CompareFault::Right(why)) => cause_by(*why, max_bytes, right),
    }
}

/// The cause of a fault over a log with this limit, by what is seen of its source.
fn cause_by<R: Source>(why: Fault, max_bytes: u64, source: &R) -> Option<RefusalCause>
    ensures { result ≡ Causes.cause_of why max_bytes (glimpse_of R.Source source.now) }
{
    let seen = Glimpse {
        first: source.first(),
        is_over: source.has_ended(),
    };
    cause_of(why, max_bytes, seen)
}

/// Writes the page of two logs, which have these names there, where there is one. Answers whether that did not fail.
fn write_page<W: Target>(
    left_name: &str,
    right_name: &str,
    config: &Config,
    answer: &Result<Aligned<'_>, CompareFault>,
    cause: Option<RefusalCause>,
    out: &mut W,
) -> bool
    requires { IsLowCount (W.failures out.old) }
    ensures text { (style : List ℕ) × WroteText W.Target (pair_page (title_for style left_name.now right_name.now config.now) answer.now cause) result out.old out.new }
    ensures left_alone { has_text PairJob.Report false (answer_kept answer.now) ≡ false → (result ≡ true) × (out.new ≡ out.old) }
    ensures flushes { W.flushes out.new ≡ W.flushes out.old }
{
    let title = Title {
        style: pair_style(),
        left: left_name.as_bytes(),
        right: right_name.as_bytes(),
        tester: config.tester(),
        functional: config.functional(),
        unit: config.unit(),
        rules: config.rules(),
    };
    match answer {
        Err(fault) if !is_refusal(fault_in(*fault)) => true,
        _ => write_pair_page(&title, answer, cause, out).is_ok(),
    }
}
