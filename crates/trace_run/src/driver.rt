//! A log that a machine is told: where a run reads, writes and fails.

ghost use Rattle.std.specs.Prelude.{◌≡◌, List, [], Err, false};
ghost use Rattle.isotp_receive.specs.Trace.{Entry};
ghost use Rattle.trace_io.specs.Counted.{IsLowCount};
ghost use Rattle.trace_log.specs.Devices.{HasLowCounts};
ghost use Rattle.trace_log.specs.declared.summary.Summary.{Summary as SummaryValue};
ghost use Rattle.trace_run.specs.Ran.{Ran, RanLenient, command_of};
ghost use Rattle.trace_run.specs.Script.{glimpse_of, glimpse_value};
ghost use Rattle.trace_run.specs.declared.machine.NoAnswer.TheVariants.{OutputLimit};
ghost use Rattle.trace_run.specs.proving.Ending.{EndsBehind, EndsRun, GivesUp, RefusesSaying, SettlesAs};

use crate::machine::{Glimpse, Machine};
use crate::receiver::Receiver;
use crate::sheet::Sheet;
use crate::telling::{Telling, tell_end, tell_refusal};
use isotp_receive::Pair;
use std::alloc::Global;
use trace_io::{Source, Target};
use trace_log::{Config, Fault, Summary, feed_lines};

/// Reads a log, hands a machine what each frame did and the end, and writes what it says, as it comes.
///
/// The target is not flushed.
pub fn run<M: Machine + Drop, R: Source, W: Target>(
    alloc: Global,
    config: &Config,
    machine: M,
    source: &mut R,
    target: &mut W,
) -> Result<M::Answer, Fault>
    requires machine { M.stands config.now.rules machine [] machine }
    requires source { HasLowCounts R.Source source.old }
    requires target { IsLowCount (W.failures target.old) }
    ensures ran { Ran R.Source W.Target
        (command_of M.Machine (glimpse_of R.Source source.new) config.now.rules machine)
        config.now source.old target.old result source.new target.new }
{
    let pair = Pair::new(alloc);
    let mut receiver = Receiver::start(config, pair, Telling::start(alloc, machine));
    match feed_lines(config.max_bytes(), source, &mut receiver, target) {
        Ok(ends_in_line_feed) => finish(receiver, ends_in_line_feed, target),
        Err(fault) => Err(give_up(fault, Glimpse::of(source), receiver, target)),
    }
}

/// [`run`] of a machine that is not strict, and that has an answer at the end of each log. More is known of such a run.
pub fn run_lenient<M: Machine + Drop, R: Source, W: Target>(
    alloc: Global,
    config: &Config,
    machine: M,
    source: &mut R,
    target: &mut W,
) -> Result<M::Answer, Fault>
    requires machine { M.stands config.now.rules machine [] machine }
    requires lenient { (M.script config.now.rules machine).strict ≡ false }
    requires has_answer { (T : List Entry) (summary : SummaryValue)
        → M.answers config.now.rules machine T summary (Err OutputLimit) → ⊥ }
    requires source { HasLowCounts R.Source source.old }
    requires target { IsLowCount (W.failures target.old) }
    ensures ran { RanLenient R.Source W.Target
        (command_of M.Machine (glimpse_of R.Source source.new) config.now.rules machine)
        config.now source.old target.old result source.new target.new }
{
    run(alloc, config, machine, source, target)
}

/// Ends a run on a fault, and answers the fault to report, this one or that of writing: the machine is told of a line
/// or a limit that refuses the log, and what was said is written. A fault of a device stands as it is, and nothing is
/// written.
fn give_up<M: Machine + Drop, W: Target>(
    fault: Fault,
    glimpse: Glimpse<'_>,
    receiver: Receiver<'_, M, W>,
    target: &mut W,
) -> Fault
    ensures { GivesUp M.Machine W.Target (glimpse_value glimpse.entry) fault receiver.entry target.old result target.new }
{
    match fault {
        Fault::BadLine { .. } | Fault::LogLimit => refuse(fault, glimpse, receiver, target),
        Fault::Oversize { .. } | Fault::OutputLimit | Fault::Memory => {
            end_untold(fault, receiver, target)
        }
        Fault::Read | Fault::Write => fault,
    }
}

/// Writes what was said before a fault of which the machine is told nothing, and answers that fault, or that of
/// writing.
fn end_untold<M: Machine + Drop, W: Target>(
    fault: Fault,
    receiver: Receiver<'_, M, W>,
    target: &mut W,
) -> Fault
    ensures { SettlesAs W.Target fault receiver.entry.telling.sheet target.old result target.new }
{
    let Receiver { telling, .. } = receiver;
    let Telling { mut sheet, .. } = telling;
    settle_before(fault, target, &mut sheet)
}

/// Writes what is said of a refusal, behind what was said of the lines before, and answers why the log is refused, or
/// the fault of writing.
fn refuse<M: Machine, W: Target>(
    why: Fault,
    glimpse: Glimpse<'_>,
    receiver: Receiver<'_, M, W>,
    target: &mut W,
) -> Fault
    ensures { RefusesSaying M.Machine W.Target (glimpse_value glimpse.entry) why receiver.entry target.old result
        target.new }
{
    let summary = receiver.summary(false);
    let Receiver { telling, .. } = receiver;
    let Telling {
        machine,
        mut sheet,
        ..
    } = telling;
    tell_refusal(machine, target, &mut sheet, &summary, why, glimpse);
    settle_before(why, target, &mut sheet)
}

/// Writes what was said before a fault, and answers that fault, or that of writing where this failed.
fn settle_before<W: Target>(fault: Fault, target: &mut W, sheet: &mut Sheet) -> Fault
    ensures { SettlesAs W.Target fault sheet.old target.old result target.new }
{
    if sheet.settle(target) {
        fault
    } else {
        Fault::Write
    }
}

/// Writes what is said at the end, and answers. The log ended in a line feed, or not. All that is said of the log is
/// written, or writing failed; and what was written before stays.
fn finish<M: Machine, W: Target>(
    receiver: Receiver<'_, M, W>,
    ends_in_line_feed: bool,
    target: &mut W,
) -> Result<M::Answer, Fault>
    ensures ends { EndsRun M.Machine W.Target receiver.entry ends_in_line_feed target.old result target.new }
    ensures more { EndsBehind M.Machine W.Target receiver.entry target.old target.new }
{
    let summary = receiver.summary(ends_in_line_feed);
    let Receiver { pair, telling, .. } = receiver;
    let Telling {
        machine,
        mut sheet,
        ..
    } = telling;
    let answer = tell_end(machine, target, &mut sheet, &pair, &summary);
    if !sheet.settle(target) {
        return Err(Fault::Write);
    }
    Ok(answer?)
}
