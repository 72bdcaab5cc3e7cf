//! `watch`: a machine that says the line of each item as soon as it is decided.

ghost use Rattle.std.specs.Prelude.{◌≡◌, ℕ, List, [], ◌∷◌, ◌++◌, OnOk, OnErr};
ghost use Rattle.direction.specs.Dir.{Message};
ghost use Rattle.isotp_receive.specs.declared.TheConstants.{MESSAGE_LIMIT};
ghost use Rattle.uds_exchange.specs.Judging.{IsJudgedAfter, sent};
ghost use Rattle.uds_exchange.specs.Decided.{undecided};
ghost use Rattle.uds_exchange.specs.Decider.{decider_after, IsKept};
ghost use Rattle.trace_canon.specs.MemoryNeeded.{CompletesKept};
ghost use Rattle.trace_run.specs.Script.{answers_counts, command, says_no_refusal};
ghost use Rattle.trace_run.specs.Ran.{RanLenient};
ghost use Rattle.trace_canon.specs.WatchScript.{watch_script, WritesTheList};
ghost use Rattle.trace_canon.specs.proving.Watching.{SaysDecided, SaysLines};
ghost use Rattle.trace_io.specs.Counted.{IsLowCount};
ghost use Rattle.trace_log.specs.Devices.{AgreesWith, HasLowCounts};

use isotp_receive::Pair;
use std::alloc::{AllocError, Global};
use trace_io::{Source, Target, TextSink};
use trace_log::{Config, Fault, Summary};
use trace_run::{Glimpse, Machine, NoAnswer, Seen, run_lenient};
use trace_text::{ItemStyle, say_item_line};
use uds_exchange::{Decider, Item, ItemSink, Judged};
use uds_rules::Rules;

/// Reads a log and writes the lines of [`list`](crate::list), each as soon as its item is decided: an exchange when its
/// answer comes or the next request does, and the strays after it then too. What is not decided is written at the end.
///
/// The target is not flushed.
pub fn watch<R: Source, W: Target>(
    alloc: Global,
    config: &Config,
    style: ItemStyle,
    source: &mut R,
    target: &mut W,
) -> Result<Summary, Fault>
    requires source { HasLowCounts R.Source source.old }
    requires target { IsLowCount (W.failures target.old) }

    // What is answered and written; that it is written before more is read; and what was done with the devices.
    ensures ran { RanLenient R.Source W.Target
        (command (watch_script style MESSAGE_LIMIT config.now.rules) says_no_refusal answers_counts
        (CompletesKept MESSAGE_LIMIT config.now.rules))
        config.now source.old target.old result source.new target.new }

    // At the end of the log that is the list of its meaning.
    ensures whole { (log : List ℕ) → AgreesWith R.Source source.old source.new log
        → OnOk result (WritesTheList style MESSAGE_LIMIT config.now log (W.taken target.old) (W.taken target.new)) }
{
    let machine = Watcher {
        decider: Decider::new(alloc),
        style,
        rules: config.rules(),
        number: 1,
    };
    run_lenient(alloc, config, machine, source, target)
}

/// Says the line of each item as soon as it is decided.
#[derive(Drop)]
pub(crate) struct Watcher<'a> {
    pub decider: Decider,
    pub style: ItemStyle,
    pub rules: &'a Rules,
    /// The number of the next item.
    pub number: u64,
}

impl<'a> Machine for Watcher<'a> {
    ghost use Rattle.isotp_receive.specs.declared.TheConstants.{MESSAGE_LIMIT};
    ghost use Rattle.trace_canon.specs.MemoryNeeded.{CompletesKept};
    ghost use Rattle.trace_run.specs.Script.{answers_counts};
    ghost use Rattle.trace_canon.specs.WatchScript.{watch_script};
    ghost use Rattle.trace_canon.specs.proving.Watching.{WatchesItems};

    type Answer = Summary;

    ghost stands = { λ rules start T now.
        WatchesItems start.style rules T now.decider now.style now.rules.now now.number };

    ghost script = { λ rules start. watch_script start.style MESSAGE_LIMIT rules };

    ghost answers = { λ rules start. answers_counts };

    ghost needs = { λ rules start. CompletesKept MESSAGE_LIMIT rules };

    #[inline(always)]
    fn is_strict(&self) -> bool {
        false
    }

    #[inline(always)]
    fn event<S: TextSink>(&mut self, seen: Seen<'_>, out: &mut S) -> Result<(), AllocError> {
        let Some(message) = seen.message else {
            return Ok(());
        };
        say_decided(
            self.style,
            self.rules,
            &mut self.number,
            &mut self.decider,
            message,
            out,
        )
    }

    fn end<S: TextSink>(
        self,
        _pair: &Pair,
        summary: &Summary,
        out: &mut S,
    ) -> Result<Summary, NoAnswer> {
        let Watcher {
            decider,
            style,
            rules,
            mut number,
        } = self;
        say_undecided(style, rules, &mut number, decider, out);
        Ok(*summary)
    }

    fn refused<S: TextSink>(
        self,
        _summary: &Summary,
        _why: Fault,
        _glimpse: Glimpse<'_>,
        _out: &mut S,
    ) {}
}

/// Says the line of each item that is put, numbered on from those before.
#[derive(Drop)]
pub(crate) struct LineSink<'a, S> {
    pub out: &'a mut S,
    pub number: &'a mut u64,
    pub style: ItemStyle,
    pub rules: &'a Rules,
}

impl<'a, S: TextSink> ItemSink for LineSink<'a, S> {
    ghost use Rattle.trace_canon.specs.proving.Watching.{SaysPutItem};

    ghost takes = { λ s item t. SaysPutItem S.says s item t };

    fn put(&mut self, item: Item<'_>) {
        say_item_line(*self.number, self.style, self.rules, item, self.out);
        *self.number = self.number.saturating_add(1);
    }
}

/// Takes one more message, and says the lines of all items that are now decided.
fn say_decided<S: TextSink>(
    style: ItemStyle,
    rules: &Rules,
    number: &mut u64,
    decider: &mut Decider,
    message: Judged<'_>,
    out: &mut S,
) -> Result<(), AllocError>
    ensures stands { OnOk result ((M : List Message) → decider.old ≡ decider_after M → IsJudgedAfter M message.entry
        → decider.new ≡ decider_after (M ++ sent message.entry ∷ [])) }
    ensures says { OnOk result ((M : List Message) → decider.old ≡ decider_after M → IsJudgedAfter M message.entry
        → SaysDecided S.says rules.now style M (sent message.entry) number.old out.old number.new out.new) }
    ensures needs { OnErr result ((M : List Message) → decider.old ≡ decider_after M → IsJudgedAfter M message.entry
        → IsKept M (sent message.entry)) }
    ensures err { OnErr result (S.says out.old [] out.new) }
{
    let mut sink = LineSink {
        out,
        number,
        style,
        rules,
    };
    decider.take(message, &mut sink)
}

/// Says the lines of the items that are not decided.
fn say_undecided<S: TextSink>(
    style: ItemStyle,
    rules: &Rules,
    number: &mut u64,
    decider: Decider,
    out: &mut S,
)
    ensures { (M : List Message) → decider ≡ decider_after M
        → SaysLines S.says rules.now style (undecided M) number.old out.old number.new out.new }
{
    let mut sink = LineSink {
        out,
        number,
        style,
        rules,
    };
    decider.finish(&mut sink);
}
