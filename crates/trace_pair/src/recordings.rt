//! What was found of both logs.

ghost use Rattle.trace_pair.specs.Recordings.{recordings};

use crate::sessions::Sessions;
use pair_words::{LetteredName, Moment, PairLog};
use text_parts::{Part, say};
use trace_io::TextSink;
use trace_log::Summary;
use trace_report::{KeptSession, Seconds, UncleanReasons, is_called_clean};
use trace_text::Number;
use uds_rules::Rules;

/// Says the table of both recordings.
pub(crate) fn say_recordings<S: TextSink>(
    left_name: &[u8],
    right_name: &[u8],
    sessions: Sessions<'_>,
    out: &mut S,
)
    ensures { S.says out.old (recordings left_name.now right_name.now sessions.entry.left.now sessions.entry.right.now) out.new }
{
    say(
        out,
        (
            "<table class=\"recs\">\n<thead><tr><th scope=\"col\">Recording<th scope=\"col\">State<th scope=\"col\">Items<th scope=\"col\">First frame<th scope=\"col\">Length</thead>\n<tbody>\n",
            Recording(PairLog::A, left_name, sessions.left),
            Recording(PairLog::B, right_name, sessions.right),
            "</table>\n",
        ),
    );
}

/// The row of a log, by its name.
#[derive(Clone, Copy)]
struct Recording<'a>(PairLog, &'a [u8], &'a KeptSession<'a>);

impl<'a> Part for Recording<'a> {
    ghost use Rattle.trace_pair.specs.Recordings.{recording};

    ghost text = { λ row. recording row.0 row.1.now row.2.now };

    fn say<S: TextSink>(self, out: &mut S) {
        let Recording(log, name, session) = self;
        let summary = session.summary();
        say(
            out,
            (
                "<tr><th scope=\"row\">",
                LetteredName(log, name),
                "<td>",
                State(session.rules(), &summary),
                "<td>",
                Number(session.rows().item_count() as u64),
                RecordingTimes {
                    frames: summary.frames,
                    first: session.first_time(),
                    last: session.last_time(),
                },
                "\n",
            ),
        );
    }
}

/// Whether a recording is called clean, and each reason why it isn't, by the rules that its messages are under.
#[derive(Clone, Copy)]
struct State<'a>(&'a Rules, &'a Summary);

impl<'a> Part for State<'a> {
    ghost use Rattle.trace_pair.specs.Recordings.{state};

    ghost text = { λ recording. state recording.0.now recording.1.now };

    fn say<S: TextSink>(self, out: &mut S) {
        let State(rules, summary) = self;
        if is_called_clean(summary) {
            say(out, "clean");
        } else {
            say(out, (StateStart(summary), UncleanReasons(rules, summary)));
        }
    }
}

/// What is said in front of the reasons: that a recording is not clean, that its sides look exchanged, or both.
#[derive(Clone, Copy)]
struct StateStart<'a>(&'a Summary);

impl<'a> Part for StateStart<'a> {
    ghost use Rattle.trace_pair.specs.Recordings.{state_start};

    ghost text = { λ start. state_start start.0.now };

    fn say<S: TextSink>(self, out: &mut S) {
        let summary = self.0;
        if !summary.looks_exchanged {
            say(out, "<b class=\"bd\">not clean:</b> ");
        } else if summary.is_clean() {
            say(out, "<b class=\"bd\">tester and unit look exchanged:</b> ");
        } else {
            say(
                out,
                "<b class=\"bd\">not clean, and tester and unit look exchanged:</b> ",
            );
        }
    }
}

/// When the frames of a log were, where it has some.
#[derive(Clone, Copy)]
struct RecordingTimes {
    frames: u64,
    first: u64,
    last: u64,
}

impl Part for RecordingTimes {
    ghost use Rattle.trace_pair.specs.Recordings.{times_text};

    ghost text = { λ times. times_text times.frames times.first times.last };

    fn say<S: TextSink>(self, out: &mut S) {
        if self.frames == 0 {
            say(out, "<td>&#8211;<td>&#8211;");
        } else {
            say(
                out,
                (
                    "<td>",
                    Moment(self.first),
                    "<td>",
                    Seconds(self.first, self.last),
                    "&#160;s",
                ),
            );
        }
    }
}
