//! `report`: a machine that says a session as a page, each row as its frame comes.

ghost use Rattle.std.specs.Prelude.{◌≡◌, List};
ghost use Rattle.isotp_receive.specs.declared.TheConstants.{MESSAGE_LIMIT};
ghost use Rattle.isotp_receive.specs.Trace.{Entry};
ghost use Rattle.trace_run.specs.Script.{answers_counts, command, glimpse_of, needs_none};
ghost use Rattle.trace_run.specs.Ran.{RanLenient};
ghost use Rattle.trace_io.specs.Counted.{IsLowCount};
ghost use Rattle.trace_report.specs.Front.{page_title};
ghost use Rattle.trace_report.specs.Page.{front_before, refused_text, report_script};
ghost use Rattle.trace_report.specs.proving.Following.{times_of};
ghost use Rattle.trace_report.specs.proving.Pages.{title_of};
ghost use Rattle.trace_log.specs.Devices.{HasLowCounts};

use crate::cause::cause_of;
use crate::chart::Chart;
use crate::follower::Follower;
use crate::front::{Front, PageTitle};
use crate::page_end::{PageEnd, RefusedEnd};
use crate::times::{Times, first_of, times_with};
use crate::verdict::Findings;
use isotp_receive::Pair;
use std::alloc::{AllocError, Global};
use text_parts::say;
use trace_io::{Source, Target, TextSink};
use trace_log::{Config, Fault, Summary};
use trace_run::{
    Glimpse, Machine, NoAnswer, RuleCounts, Seen, count_message, no_counts, run_lenient,
};

/// Reads a log and writes its session as a page of HTML, with this style and the name of the log: each row as its frame
/// comes, of what the rules leave of its message, and at the end the rules and the verdict, which the style shows
/// first.
///
/// The target is not flushed.
pub fn report<R: Source, W: Target>(
    alloc: Global,
    config: &Config,
    style: &str,
    name: &[u8],
    source: &mut R,
    target: &mut W,
) -> Result<Summary, Fault>
    requires source { HasLowCounts R.Source source.old }
    requires target { IsLowCount (W.failures target.old) }

    // What is answered and written; that it is written before more is read; and what was done with the devices.
    ensures ran { RanLenient R.Source W.Target
        (command (report_script (page_title style.now name.now config.now) MESSAGE_LIMIT config.now.rules)
        (refused_text (page_title style.now name.now config.now) MESSAGE_LIMIT config.now.rules (glimpse_of R.Source source.new))
        answers_counts needs_none)
        config.now source.old target.old result source.new target.new }
{
    let rules = config.rules();
    let machine = Reporter {
        title: PageTitle {
            style,
            name,
            tester: config.tester(),
            functional: config.functional(),
            unit: config.unit(),
            max_bytes: config.max_bytes(),
            rules,
        },
        times: None,
        follower: Follower::start(),
        chart: Chart::start(),
        spoken: no_counts(rules),
    };
    run_lenient(alloc, config, machine, source, target)
}

/// Says a page. It keeps no message, and no row.
#[derive(Drop)]
pub(crate) struct Reporter<'a> {
    pub title: PageTitle<'a>,
    /// The times of the first frame so far and of the last one, if there are frames.
    pub times: Option<Times>,
    pub follower: Follower,
    pub chart: Chart,
    /// Of how many messages each rule spoke.
    pub spoken: RuleCounts,
}

impl<'a> Machine for Reporter<'a> {
    ghost use Rattle.isotp_receive.specs.declared.TheConstants.{MESSAGE_LIMIT};
    ghost use Rattle.trace_run.specs.Script.{answers_counts};
    ghost use Rattle.trace_report.specs.Page.{refused_text, report_script};
    ghost use Rattle.trace_report.specs.proving.Following.{Reports};
    ghost use Rattle.trace_report.specs.proving.Pages.{title_of};

    type Answer = Summary;

    ghost stands = { λ rules start T now. Reports rules (title_of start.title) T now };

    ghost script = { λ rules start. report_script (title_of start.title) MESSAGE_LIMIT rules };

    ghost refusal = { λ rules start. refused_text (title_of start.title) MESSAGE_LIMIT rules };

    ghost answers = { λ rules start. answers_counts };

    ghost needs = { λ rules start T e. ⊥ };

    #[inline(always)]
    fn is_strict(&self) -> bool {
        false
    }

    #[inline(always)]
    fn event<S: TextSink>(&mut self, seen: Seen<'_>, out: &mut S) -> Result<(), AllocError> {
        say_front_before(&self.title, self.times, out);
        let times = times_with(self.times, seen.micros);
        self.times = Some(times);
        let rules = self.title.rules;
        count_message(rules, seen.event.verdict, &mut self.spoken);
        let rows = self.follower.take(seen);
        self.chart.say_rows(rules, times.first, rows, out);
        Ok(())
    }

    fn end<S: TextSink>(
        self,
        pair: &Pair,
        summary: &Summary,
        out: &mut S,
    ) -> Result<Summary, NoAnswer> {
        let Reporter {
            title,
            times,
            follower,
            mut chart,
            spoken,
        } = self;
        say_front_before(&title, times, out);
        chart.say_rows(title.rules, first_of(times), follower.end(pair), out);
        let closing = PageEnd {
            blocks: chart.blocks,
            found: Findings {
                rules: title.rules,
                spoken: spoken.as_slice(),
                tally: &chart.tally,
                summary,
                times,
                slowest: chart.times.slowest(),
                others: &chart.echoes.others,
            },
        };
        say(out, closing);
        Ok(*summary)
    }

    fn refused<S: TextSink>(
        self,
        summary: &Summary,
        why: Fault,
        glimpse: Glimpse<'_>,
        out: &mut S,
    ) {
        let Reporter {
            title,
            times,
            follower: _,
            chart,
            spoken,
        } = self;
        say_front_before(&title, times, out);
        let closing = RefusedEnd {
            why,
            cause: cause_of(why, title.max_bytes, glimpse),
            blocks: chart.blocks,
            found: Findings {
                rules: title.rules,
                spoken: spoken.as_slice(),
                tally: &chart.tally,
                summary,
                times,
                slowest: chart.times.slowest(),
                others: &chart.echoes.others,
            },
        };
        say(out, closing);
    }
}

/// Says the front of the page, where no frame came before.
fn say_front_before<S: TextSink>(title: &PageTitle<'_>, times: Option<Times>, out: &mut S)
    ensures { (T : List Entry) → times ≡ times_of T → S.says out.old (front_before (title_of title.now) T) out.new }
{
    if times.is_none() {
        say(out, Front(*title));
    }
}
