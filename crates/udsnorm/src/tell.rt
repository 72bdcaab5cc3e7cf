//! What is told where a run has no answer, and the exit status that goes with it.

ghost use Rattle.std.specs.Prelude.{◌≡◌, ◌≤◌};
ghost use Rattle.trace_canon.specs.Compared.{fault_in};
ghost use Rattle.trace_io.specs.Counted.{IsLowCount};
ghost use Rattle.udsnorm.specs.Asked.{ToldHelp, ToldWords};
ghost use Rattle.udsnorm.specs.FaultLines.{fault_line, one_stream_line, side_line, unclean_line, unclean_sides};
ghost use Rattle.udsnorm.specs.Status.{is_refusal as refuses, status_of};
ghost use Rattle.udsnorm.specs.Telling.{TookText};

use crate::fault_lines::{fault_line, side_line, unclean_line, unclean_side};
use crate::pair_jobs::PairAnswer;
use crate::run::write_flushed;
use command_line::{WordsFault, words_text};
use trace_io::{Target, write_all};
use trace_log::{CompareFault, Fault, Summary};

/// Tells why the words ask for nothing that the program does: help or the version on the output, which is flushed, anything
/// else on the error output. Answers the exit status.
pub fn tell<W: Target, E: Target>(fault: &WordsFault, out: &mut W, err: &mut E) -> u8
    requires out { IsLowCount (W.failures out.old) }
    requires err { IsLowCount (E.failures err.old) }
    ensures { ToldWords W.Target E.Target fault.now out.old err.old result out.new err.new }
{
    let text = words_text(fault);
    match fault {
        WordsFault::Help(_) => tell_help(text, out, err),
        WordsFault::Words(_)
        | WordsFault::Identifier
        | WordsFault::Config(_)
        | WordsFault::Misfit(_) => {
            tell_text(text, err);
            2
        }
        WordsFault::Unread(_) => {
            tell_text(text, err);
            4
        }
        WordsFault::Memory => {
            tell_text(text, err);
            5
        }
    }
}

/// Tells help, or that it can't be written. Answers the exit status.
fn tell_help<W: Target, E: Target>(text: &[u8], out: &mut W, err: &mut E) -> u8
    requires out { IsLowCount (W.failures out.old) }
    requires err { IsLowCount (E.failures err.old) }
    ensures { ToldHelp W.Target E.Target text.now out.old err.old result out.new err.new }
{
    match write_flushed(text, out) {
        Ok(()) => 0,
        Err(fault) => tell_fault(fault, err),
    }
}

/// Tells a fault, and answers its exit status.
pub(crate) fn tell_fault<E: Target>(fault: Fault, err: &mut E) -> u8
    requires { IsLowCount (E.failures err.old) }
    ensures status { result ≡ status_of fault }
    ensures failed { 3 ≤ result }
    ensures told { TookText (fault_line fault) (E.failures err.old) (E.failures err.new) (E.taken err.old) (E.taken err.new) }
{
    tell_text(fault_line(fault).as_slice(), err);
    status(fault)
}

/// Tells the fault of one of two logs, and answers its exit status.
pub(crate) fn tell_side<E: Target>(fault: CompareFault, err: &mut E) -> u8
    requires { IsLowCount (E.failures err.old) }
    ensures status { result ≡ status_of (fault_in fault) }
    ensures failed { 3 ≤ result }
    ensures told { TookText (side_line fault) (E.failures err.old) (E.failures err.new) (E.taken err.old) (E.taken err.new) }
{
    tell_text(side_line(fault).as_slice(), err);
    match fault {
        CompareFault::Left(fault) | CompareFault::Right(fault) => status(fault),
    }
}

/// Tells that both logs are one stream, and answers the exit status.
pub(crate) fn tell_one_stream<E: Target>(err: &mut E) -> u8
    requires { IsLowCount (E.failures err.old) }
    ensures status { result ≡ 2 }
    ensures told { TookText one_stream_line (E.failures err.old) (E.failures err.new) (E.taken err.old) (E.taken err.new) }
{
    tell_text("both logs are the same stream\n".as_bytes(), err);
    2
}

/// Tells that a log is not clean, and answers the exit status.
pub(crate) fn tell_unclean<E: Target>(summary: &Summary, err: &mut E) -> u8
    requires { IsLowCount (E.failures err.old) }
    ensures status { result ≡ 6 }
    ensures told { TookText (unclean_line summary.now) (E.failures err.old) (E.failures err.new) (E.taken err.old) (E.taken err.new) }
{
    tell_text(unclean_line("", summary).as_slice(), err);
    6
}

/// Tells which of two logs are not clean, a line each, and answers the exit status.
pub(crate) fn tell_unclean_sides<E: Target>(pair: &PairAnswer, err: &mut E) -> u8
    requires { IsLowCount (E.failures err.old) }
    ensures status { result ≡ 6 }
    ensures told { TookText (unclean_sides pair.now) (E.failures err.old) (E.failures err.new) (E.taken err.old) (E.taken err.new) }
{
    let left = unclean_side("left: ", &pair.left);
    let right = unclean_side("right: ", &pair.right);
    if let Ok(()) = write_all(err, left.as_slice()) {
        tell_text(right.as_slice(), err);
    }
    6
}

/// Writes a text, as far as the device takes it.
pub(crate) fn tell_text<W: Target>(text: &[u8], device: &mut W)
    requires { IsLowCount (W.failures device.old) }
    ensures { TookText text.now (W.failures device.old) (W.failures device.new) (W.taken device.old) (W.taken device.new) }
{
    // What can't be written has nowhere to be told.
    let _ = write_all(device, text);
}

/// The exit status of a fault.
pub(crate) fn status(fault: Fault) -> u8
    ensures status { result ≡ status_of fault }
    ensures failed { 3 ≤ result }
{
    match fault {
        Fault::BadLine { .. } | Fault::Oversize { .. } | Fault::LogLimit | Fault::OutputLimit => 3,
        Fault::Read | Fault::Write => 4,
        Fault::Memory => 5,
    }
}

/// Whether a fault is that the log is refused.
pub(crate) fn is_refusal(fault: Fault) -> bool
    ensures { result ≡ refuses fault }
{
    status(fault) == 3
}
