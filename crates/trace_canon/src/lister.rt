//! `list`: the items of a log, written once they are known.

ghost use Rattle.isotp_receive.specs.declared.TheConstants.{MESSAGE_LIMIT};
ghost use Rattle.trace_text.specs.ItemLines.{list_text};
ghost use Rattle.trace_canon.specs.ItemText.{RanOverItems};
ghost use Rattle.trace_io.specs.Counted.{IsLowCount};
ghost use Rattle.trace_log.specs.Devices.{HasLowCounts};

use crate::item_text::{ItemText, write_items};
use std::alloc::Global;
use trace_io::{Source, Target, TextSink};
use trace_log::{Config, Fault, Summary};
use trace_text::{ItemStyle, say_items};
use uds_exchange::Meaning;
use uds_rules::Rules;

/// Reads a log, and then writes a line for each item of its meaning, in this style.
///
/// The target is not flushed.
pub fn list<R: Source, W: Target>(
    alloc: Global,
    config: &Config,
    style: ItemStyle,
    source: &mut R,
    target: &mut W,
) -> Result<Summary, Fault>
    requires source { HasLowCounts R.Source source.old }
    requires target { IsLowCount (W.failures target.old) }
    ensures ran { RanOverItems R.Source W.Target (list_text config.now.rules style) MESSAGE_LIMIT
        config.now source.old target.old result source.new target.new }
{
    let text = RuledList {
        style,
        rules: config.rules(),
    };
    write_items(alloc, config, &text, source, target)
}

/// The list of items in a style, whose messages are as these rules left them.
#[derive(Clone, Copy)]
struct RuledList<'a> {
    style: ItemStyle,
    rules: &'a Rules,
}

impl<'a> ItemText for RuledList<'a> {
    ghost use Rattle.trace_text.specs.ItemLines.{list_text};

    ghost text = { λ list. list_text list.rules.now list.style };

    fn say<S: TextSink>(&self, items: &Meaning, out: &mut S) {
        say_items(items, self.style, self.rules, out);
    }
}
