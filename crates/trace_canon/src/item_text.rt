//! A text of the items of a log, written once they are known: what a command says that needs the whole meaning.

ghost use Rattle.std.specs.Prelude.{ℕ};
ghost use Rattle.isotp_receive.specs.declared.TheConstants.{MESSAGE_LIMIT};
ghost use Rattle.trace_canon.specs.ItemText.{RanOverItems};
ghost use Rattle.trace_io.specs.Counted.{IsLowCount};
ghost use Rattle.trace_log.specs.Devices.{HasLowCounts};

use crate::collector::session_of;
use std::alloc::Global;
use text_parts::Part;
use trace_io::{Source, Target, TextSink};
use trace_log::{Config, Fault, Summary};
use trace_run::print;
use uds_exchange::Meaning;

/// A text of items. A command that writes one is an `ItemText`, and a call of [`write_items`]. Of those here that is
/// [`list`](crate::list) alone. It is a trait, and public, for who adds an output: their text, in whichever crate, is
/// written with all that is promised of the list, and they prove no more than that they say it.
pub trait ItemText: Copy {
    ghost use Rattle.std.specs.Prelude.{List, ℕ};
    ghost use Rattle.uds_exchange.specs.Meaning.{ItemValue};

    /// The text of these items.
    ghost text: { Self → List ItemValue → List ℕ };

    /// Says the text of these items.
    fn say<S: TextSink>(&self, items: &Meaning, out: &mut S)
        ensures { S.says out.old (text self.now items.now) out.new };
}

/// Reads a log, and then writes this text of the items of its meaning. Where the log is refused nothing is written.
///
/// The target is not flushed.
pub fn write_items<T: ItemText, R: Source, W: Target>(
    alloc: Global,
    config: &Config,
    text: &T,
    source: &mut R,
    target: &mut W,
) -> Result<Summary, Fault>
    requires source { HasLowCounts R.Source source.old }
    requires target { IsLowCount (W.failures target.old) }
    ensures ran { RanOverItems R.Source W.Target (T.text text.now) MESSAGE_LIMIT
        config.now source.old target.old result source.new target.new }
{
    let session = session_of(alloc, config, source)?;
    let items = &session.meaning;
    print(TextWithItems { text, items }, target)?;
    Ok(session.summary)
}

/// A text of these items.
#[derive(Clone, Copy)]
struct TextWithItems<'a, T> {
    text: &'a T,
    items: &'a Meaning,
}

impl<'a, T: ItemText> Part for TextWithItems<'a, T> {
    ghost text = { λ of. T.text of.text.now of.items.now };

    fn say<S: TextSink>(self, out: &mut S) {
        self.text.say(self.items, out);
    }
}
