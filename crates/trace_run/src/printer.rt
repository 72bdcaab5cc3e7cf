//! A text that is known as a whole, written by way of a sheet of its own.

ghost use Rattle.trace_run.specs.Printed.{Prints};
ghost use Rattle.trace_run.specs.proving.Carrying.{Says};
ghost use Rattle.trace_io.specs.Counted.{IsLowCount};

use crate::sheet::{Sheet, SheetSink};
use text_parts::Part;
use trace_io::Target;
use trace_log::Fault;

/// Writes the text of a part, all of it or a front where writing fails. The target is not flushed.
pub fn print<P: Part, W: Target>(part: P, target: &mut W) -> Result<(), Fault>
    requires { IsLowCount (W.failures target.old) }
    ensures { Prints W.Target (P.text part) target.old result target.new }
{
    let mut sheet = Sheet::new();
    say_part(part, target, &mut sheet);
    if sheet.settle(target) {
        Ok(())
    } else {
        Err(Fault::Write)
    }
}

/// Says the text of a part to a sheet.
fn say_part<P: Part, W: Target>(part: P, target: &mut W, sheet: &mut Sheet)
    ensures { Says W.Target sheet.old target.old (P.text part) sheet.new target.new }
{
    let mut out = SheetSink { target, sheet };
    part.say(&mut out);
}
