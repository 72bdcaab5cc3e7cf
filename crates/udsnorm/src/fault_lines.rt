//! What is told of each fault. The faults display the same texts, but no contract says which text a fault displays.

ghost use Rattle.std.specs.Prelude.{◌≡◌, ◌≤◌, ◌++◌, length};
ghost use Rattle.std.specs.Fmt.{decimal};
ghost use Rattle.udsnorm.specs.FaultLines.{fault_line, side_line, unclean_line, unclean_side};

use crate::text::{Line, line_of};
use text_parts::When;
use trace_log::{CompareFault, Fault, Summary};
use trace_text::Number;

/// The line of a fault.
pub(crate) fn fault_line(fault: Fault) -> Line
    ensures { result.items ≡ fault_line fault }
{
    line_after("", fault)
}

/// The line of a fault of one of two logs, which names the log.
pub(crate) fn side_line(fault: CompareFault) -> Line
    ensures { result.items ≡ side_line fault }
{
    match fault {
        CompareFault::Left(fault) => line_after("left: ", fault),
        CompareFault::Right(fault) => line_after("right: ", fault),
    }
}

/// The line of a fault, after the name of a log.
fn line_after(log: &'static str, fault: Fault) -> Line
    requires { length log.now ≤ 7 }
    ensures { result.items ≡ log.now ++ fault_line fault }
{
    match fault {
        Fault::BadLine { line, column } => {
            let place = (
                "line ",
                Number(line),
                " column ",
                Number(u64::from(column)),
                ": not a log line\n",
            );
            line_of((log, place))
        }
        Fault::Oversize { line, announced } => {
            let announcement = (
                "line ",
                Number(line),
                ": ",
                Number(u64::from(announced)),
                " bytes announced, the limit is 1048575\n",
            );
            line_of((log, announcement))
        }
        Fault::LogLimit => line_of((log, "log longer than the limit\n")),
        Fault::OutputLimit => line_of((log, "canonical log longer than the limit\n")),
        Fault::Read => line_of((log, "read failed\n")),
        Fault::Write => line_of((log, "write failed\n")),
        Fault::Memory => line_of((log, "out of memory\n")),
    }
}

/// The line of a log that is not clean, after the name of the log.
pub(crate) fn unclean_line(log: &'static str, summary: &Summary) -> Line
    requires { length log.now ≤ 7 }
    ensures { result.items ≡ log.now ++ unclean_line summary.now }
{
    let lost = (
        "not clean: frames ",
        count(summary.frames),
        " dropped ",
        count(summary.dropped),
        " ended ",
        count(summary.ended),
        " unfinished ",
        count(summary.unfinished),
    );
    let lacking = (
        When(summary.tester_frames == 0, ", no frame of the tester"),
        When(summary.unit_frames == 0, ", no frame of the unit"),
        When(summary.lacks_line_feed(), ", no line feed at the end"),
        "\n",
    );
    line_of((log, (lost, lacking)))
}

/// A count, which has twenty digits at most.
fn count(number: u64) -> Number
    ensures same { result.0 ≡ number }
    ensures short { length (decimal result.0) ≤ 20 }
{
    Number(number)
}

/// The line of one of two logs, which names the log; it is empty where that is clean.
pub(crate) fn unclean_side(log: &'static str, summary: &Summary) -> Line
    requires { length log.now ≤ 7 }
    ensures { result.items ≡ unclean_side log.now summary.now }
{
    if summary.is_clean() {
        Line::new()
    } else {
        unclean_line(log, summary)
    }
}
