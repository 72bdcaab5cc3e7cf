//! How a run of the program ended, and what is known of that for a hint.

ghost use Rattle.std.specs.Prelude.{◌≡◌, ◌⊎◌, option_map};
ghost use Rattle.udsnorm.specs.Hints.{name_in};
ghost use Rattle.udsnorm.specs.Known.{IsKnownBy, IsKnownByFault, IsKnownByTwo, known_by_counts, known_of_done, known_of_pair, knows, knows_all_left_out, knows_nothing_left, knows_dropped, knows_dropped_for, knows_no_pair, knows_refused, knows_unopened};
ghost use Rattle.udsnorm.specs.declared.ended.Matter.TheVariants as matter;

use crate::noticing::Noticing;
use crate::pair_jobs::PairAnswer;
use can_log::Id;
use command_line::{Job, OpenFault, Plan, WordsFault};
use std::fs::OpenFile;
use std::io::Read;
use trace_io::{Source, Target};
use trace_log::{CompareFault, Config, Fault, Summary};
use trace_report::{RefusalCause, cause_of};
use trace_run::Glimpse;

/// What the words asked for, and how that ended.
#[derive(Drop)]
pub struct Run {
    pub asked: Result<Plan, WordsFault>,
    pub end: End,
}

/// How a run over one log ended.
#[derive(Clone, Copy)]
pub struct OneEnd {
    /// The exit status.
    pub status: u8,
    /// What the run came to.
    pub outcome: Result<Summary, Fault>,
}

/// How a run over two logs ended.
#[derive(Clone, Copy)]
pub struct TwoEnd {
    /// The exit status.
    pub status: u8,
    /// What was answered, where the text of that was written.
    pub answer: Option<Result<PairAnswer, CompareFault>>,
}

/// How a plan ended.
#[derive(Clone, Copy)]
pub struct End {
    /// The exit status.
    pub status: u8,
    /// What is known beyond the text that was told.
    pub known: Option<Known>,
}

/// What is known of a log.
#[derive(Clone, Copy)]
pub struct Known {
    pub which: Which,
    pub matter: Matter,
}

/// A log of a plan.
#[derive(Clone, Copy)]
pub enum Which {
    /// The only one, or the left one.
    First,
    /// The right one.
    Second,
}

/// What a hint is about.
#[derive(Clone, Copy)]
pub enum Matter {
    /// There is no file of this name.
    Missing,
    /// It is a folder.
    Folder,
    /// It may not be read.
    Denied,
    /// It can't be opened, for another reason.
    Unopened,
    /// Reading it failed.
    Unread,
    /// It is refused, and this is why.
    Refused(RefusalCause),
    /// No identifier in it answers another one.
    NoPair,
    /// It has no bytes.
    Empty,
    /// It has lines, and no frame with one of these identifiers.
    Foreign {
        tester: Id,
        unit: Id,
    },
    /// Tester and unit look exchanged in it, where these are their identifiers, beside that of functional requests.
    Exchanged {
        tester: Id,
        unit: Id,
        functional: Option<Id>,
    },
    /// Rules leave nothing of it.
    AllLeftOut,
    /// Rules leave nothing of it, nor of the other one.
    NothingLeft,
    /// So many of its frames were dropped.
    Dropped(u64),
}

/// What is known of a log that can't be opened.
pub(crate) fn unopened(which: Which, fault: OpenFault) -> Option<Known>
    ensures { result ≡ knows_unopened which fault }
{
    let matter = match fault {
        OpenFault::Missing => Matter::Missing,
        OpenFault::Denied => Matter::Denied,
        OpenFault::Other => Matter::Unopened,
    };
    Some(Known { which, matter })
}

/// What is known of standard input, by what a job over it came to.
pub(crate) fn known_of_input<I: Read, W: Target>(
    job: Job,
    config: &Config,
    outcome: Result<Summary, Fault>,
    input: &Noticing<I>,
    out: &W,
) -> Option<Known>
    ensures { IsKnownBy job config.now input.now.given input.now.is_over outcome (W.taken out.now) result }
{
    match outcome {
        Ok(summary) => known_of_done(job, config, &summary, out),
        Err(fault) => known_of(Which::First, config, fault, input),
    }
}

/// What is known of the log of a file, by what a job over it came to.
pub(crate) fn known_of_file<F: OpenFile + Read + Drop, W: Target>(
    job: Job,
    config: &Config,
    outcome: Result<Summary, Fault>,
    log: Noticing<F>,
    out: &W,
) -> Option<Known>
    ensures { IsKnownBy job config.now log.given log.is_over outcome (W.taken out.now) result }
{
    match outcome {
        Ok(summary) => known_of_done(job, config, &summary, out),
        Err(fault) => known_of_fault(Which::First, config, fault, log),
    }
}

/// What is known of a log that was accepted.
fn known_of_done<W: Target>(job: Job, config: &Config, summary: &Summary, out: &W) -> Option<Known>
    ensures { result ≡ known_of_done job config.now summary.now (W.taken out.now) }
{
    match job {
        Job::Find(_) => known_of_pairs(summary, out),
        _ => match known_by_counts(Which::First, config, summary) {
            Some(known) => Some(known),
            None => match known_of_left_out(summary) {
                Some(known) => Some(known),
                None => known_of_drops(job, summary.dropped),
            },
        },
    }
}

/// What is known of a log by its counts: that it is empty, or has no frame of either side, or that these look exchanged.
fn known_by_counts(which: Which, config: &Config, summary: &Summary) -> Option<Known>
    ensures { result ≡ known_by_counts which config.now summary.now }
{
    let tester = config.tester();
    let unit = config.unit();
    if summary.lines == 0 {
        knows(which, Matter::Empty)
    } else if summary.frames == 0 {
        knows(which, Matter::Foreign { tester, unit })
    } else if summary.looks_exchanged {
        let functional = config.functional();
        knows(
            which,
            Matter::Exchanged {
                tester,
                unit,
                functional,
            },
        )
    } else {
        None
    }
}

/// This is known of this log.
fn knows(which: Which, matter: Matter) -> Option<Known>
    ensures { result ≡ knows which matter }
{
    Some(Known { which, matter })
}

/// What is known of a log of which rules leave out each message, where it has one. Where it is explained they leave out
/// none.
fn known_of_left_out(summary: &Summary) -> Option<Known>
    ensures { result ≡ knows_all_left_out summary.now }
{
    if summary.messages == summary.left_out && summary.left_out > 0 {
        knows(Which::First, Matter::AllLeftOut)
    } else {
        None
    }
}

/// What is known of a log of which so many frames were dropped, where the job is not to explain that.
fn known_of_drops(job: Job, count: u64) -> Option<Known>
    ensures { result ≡ knows_dropped_for job count }
{
    match job {
        Job::Explain(_) => None,
        _ => known_of_dropped(count),
    }
}

/// What is known of a log of which so many frames were dropped: that, where any was.
fn known_of_dropped(count: u64) -> Option<Known>
    ensures { result ≡ knows_dropped count }
{
    if count > 0 {
        Some(Known {
            which: Which::First,
            matter: Matter::Dropped(count),
        })
    } else {
        None
    }
}

/// What is known of a log in which pairs were to be found: that it is empty, or that there is none, where nothing was
/// written.
fn known_of_pairs<W: Target>(summary: &Summary, out: &W) -> Option<Known>
    ensures { result ≡ knows_no_pair summary.now (W.taken out.now) }
{
    if out.has_taken() {
        None
    } else if summary.lines == 0 {
        knows(Which::First, Matter::Empty)
    } else {
        knows(Which::First, Matter::NoPair)
    }
}

/// What is known of one of two logs of files, by what a job over them came to.
pub(crate) fn known_of_files<F: OpenFile + Read + Drop>(
    config: &Config,
    answer: Option<Result<PairAnswer, CompareFault>>,
    left: Noticing<F>,
    right: Noticing<F>,
) -> Option<Known>
    ensures { IsKnownByTwo config.now left.given left.is_over right.given right.is_over answer result }
{
    match answer {
        None => None,
        Some(Ok(pair)) => known_of_pair(config, &pair),
        Some(Err(CompareFault::Left(fault))) => known_of_fault(Which::First, config, fault, left),
        Some(Err(CompareFault::Right(fault))) => {
            known_of_fault(Which::Second, config, fault, right)
        }
    }
}

/// What is known of one of two logs that were accepted.
fn known_of_pair(config: &Config, pair: &PairAnswer) -> Option<Known>
    ensures { result ≡ known_of_pair config.now pair.now }
{
    match known_by_counts(Which::First, config, &pair.left) {
        Some(known) => Some(known),
        None => match known_by_counts(Which::Second, config, &pair.right) {
            Some(known) => Some(known),
            None => known_of_rules(&pair.left, &pair.right),
        },
    }
}

/// What is known of two logs of which nothing is left, where rules leave out something.
fn known_of_rules(left: &Summary, right: &Summary) -> Option<Known>
    ensures { result ≡ knows_nothing_left left.now right.now }
{
    let leaves_none = left.messages == left.left_out && right.messages == right.left_out;
    if leaves_none && (left.left_out > 0 || right.left_out > 0) {
        knows(Which::First, Matter::NothingLeft)
    } else {
        None
    }
}

/// What is known of the log of a file, by the fault of a run over it.
fn known_of_fault<F: OpenFile + Read + Drop>(
    which: Which,
    config: &Config,
    fault: Fault,
    log: Noticing<F>,
) -> Option<Known>
    ensures { IsKnownByFault which config.now log.given log.is_over fault result }
{
    match fault {
        Fault::Read => Some(Known {
            which,
            matter: why_unread(&log.into_inner()),
        }),
        _ => known_of(which, config, fault, &log),
    }
}

/// Why the log of a file can't be read. A folder can be opened, and not read.
fn why_unread<F: OpenFile>(log: &F) -> Matter
    ensures { (result ≡ matter.Unread) ⊎ (result ≡ matter.Folder) }
{
    match log.metadata() {
        Ok(found) if found.is_dir() => Matter::Folder,
        _ => Matter::Unread,
    }
}

/// What is known of a log, by the fault of a run over it.
fn known_of<R: Read>(
    which: Which,
    config: &Config,
    fault: Fault,
    log: &Noticing<R>,
) -> Option<Known>
    ensures { IsKnownByFault which config.now log.now.given log.now.is_over fault result }
{
    match fault {
        Fault::BadLine { .. } | Fault::LogLimit | Fault::OutputLimit => {
            known_of_refused(which, config, fault, log)
        }
        Fault::Read => Some(Known {
            which,
            matter: Matter::Unread,
        }),
        _ => None,
    }
}

/// What is known of a log that is refused: the cause.
fn known_of_refused<R: Read>(
    which: Which,
    config: &Config,
    fault: Fault,
    log: &Noticing<R>,
) -> Option<Known>
    ensures { result ≡ knows_refused which config.now log.now.given log.now.is_over fault }
{
    let seen = Glimpse {
        first: log.first(),
        is_over: log.has_ended(),
    };
    match cause_of(fault, config.max_bytes(), seen) {
        Some(cause) => Some(Known {
            which,
            matter: Matter::Refused(cause),
        }),
        None => None,
    }
}

/// The name of a log of a plan, if it has one.
pub(crate) fn name_of(plan: &Plan, which: Which) -> Option<&str>
    ensures { option_map (λ t. t.now) result ≡ name_in plan.now which }
{
    match plan {
        Plan::One { log, .. } => match log {
            Some(name) => Some(name.as_str()),
            None => None,
        },
        Plan::Two { left, right, .. } => match which {
            Which::First => Some(left.as_str()),
            Which::Second => Some(right.as_str()),
        },
    }
}
