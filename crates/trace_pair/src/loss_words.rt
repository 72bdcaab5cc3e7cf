//! What is missing of an item, in words.

ghost use Rattle.std.specs.Prelude.{◌≡◌, ◌-◌, drop, length, option_map, take};
ghost use Rattle.std.specs.List.{flat_map};
ghost use Rattle.trace_pair.specs.Losses.{loss_line, losses_of, losses_text, told_losses};
ghost use Rattle.trace_pair.specs.proving.Losing.{loss_if, lost};
ghost use Rattle.trace_report.specs.Rows.{row_of};

use crate::losses::{is_loss, lost_in, stretch};
use pair_words::{LetterMark, PairLog};
use text_parts::{Part, When, say};
use trace_io::TextSink;
use trace_report::{
    DroppedWords, EndedWords, KeptRows, KeptSession, Missing, SessionRow, UnfinishedWords,
};
use trace_text::Number;

/// So many losses of an item are told.
const TOLD: usize = 20;

/// Says what is missing of an item: up to twenty losses, and how many more there are.
pub(crate) fn say_losses<S: TextSink>(
    log: PairLog,
    session: &KeptSession<'_>,
    item: usize,
    out: &mut S,
)
    ensures { S.says out.old (losses_text log (losses_of session.now.rows item)) out.new }
{
    let rows = session.rows();
    let (from, to) = stretch(rows, item, 1);
    let told = say_lost(log, rows, from, to, out);
    say(out, MoreLosses(log, told));
}

/// Says the first twenty losses that rows tell, from one place up to another, and answers how many these tell.
fn say_lost<S: TextSink>(
    log: PairLog,
    rows: &KeptRows,
    from: usize,
    to: usize,
    out: &mut S,
) -> usize
    ensures text { S.says out.old (flat_map (loss_line log) (take told_losses (lost (take (to - from) (drop from rows.now))))) out.new }
    ensures count { result ≡ length (lost (take (to - from) (drop from rows.now))) }
{
    let mut told: usize = 0;
    'rows: for at in from..to {
        let row = rows.row(at);
        say_loss_if(log, told, row, out);
        told += lost_in(row);
    }
    told
}

/// Says the loss that a row tells, if it tells one and fewer than twenty were told before.
fn say_loss_if<S: TextSink>(log: PairLog, told: usize, row: Option<SessionRow<'_>>, out: &mut S)
    ensures { S.says out.old (loss_if log told (option_map row_of row.entry)) out.new }
{
    if let Some(row) = row {
        let shown = is_loss(row) && told < TOLD;
        say(out, When(shown, LossLine(log, row)));
    }
}

/// That there are more losses than twenty, where so many are there.
#[derive(Clone, Copy)]
struct MoreLosses(PairLog, usize);

impl Part for MoreLosses {
    ghost use Rattle.trace_pair.specs.Losses.{more_losses};

    ghost text = { λ more. more_losses more.0 more.1 };

    fn say<S: TextSink>(self, out: &mut S) {
        let MoreLosses(log, count) = self;
        if count > TOLD {
            say(
                out,
                (
                    "<p class=\"lost\">and ",
                    Number((count - TOLD) as u64),
                    " more in ",
                    log,
                    "</p>",
                ),
            );
        }
    }
}

/// A loss of a log.
#[derive(Clone, Copy)]
struct LossLine<'a>(PairLog, SessionRow<'a>);

impl<'a> Part for LossLine<'a> {
    ghost use Rattle.trace_report.specs.Rows.{row_of};
    ghost use Rattle.trace_pair.specs.Losses.{loss_line};

    ghost text = { λ loss. loss_line loss.0 (row_of loss.1) };

    fn say<S: TextSink>(self, out: &mut S) {
        say(
            out,
            (
                "<p class=\"lost\">",
                LetterMark(self.0),
                LossWords(self.1),
                "</p>",
            ),
        );
    }
}

/// A loss in words.
#[derive(Clone, Copy)]
struct LossWords<'a>(SessionRow<'a>);

impl<'a> Part for LossWords<'a> {
    ghost use Rattle.trace_report.specs.Rows.{row_of};
    ghost use Rattle.trace_pair.specs.Losses.{loss_words};

    ghost text = { λ loss. loss_words (row_of loss.0) };

    fn say<S: TextSink>(self, out: &mut S) {
        match self.0 {
            SessionRow::Message { .. } => {}
            SessionRow::Missing(missing) => say(out, MissingWords(missing)),
        }
    }
}

/// What is missing in words: nothing of an answer, which is no loss of the log.
#[derive(Clone, Copy)]
struct MissingWords(Missing);

impl Part for MissingWords {
    ghost use Rattle.trace_report.specs.Rows.{missing_of};
    ghost use Rattle.trace_pair.specs.Losses.{loss_words};

    ghost text = { λ words. loss_words (missing_of words.0) };

    fn say<S: TextSink>(self, out: &mut S) {
        match self.0 {
            Missing::NoAnswer { .. } => {}
            Missing::Dropped {
                place,
                dir,
                reason,
                ..
            } => say(out, (LineMark(place.line), DroppedWords(dir, reason))),
            Missing::Ended { place, ended } => say(out, (LineMark(place.line), EndedWords(ended))),
            Missing::Unfinished { dir, line, len } => say(out, UnfinishedWords(dir, line, len)),
        }
    }
}

/// The line of a frame, before what became of it.
#[derive(Clone, Copy)]
struct LineMark(u64);

impl Part for LineMark {
    ghost use Rattle.trace_pair.specs.Losses.{line_mark};

    ghost text = { λ mark. line_mark mark.0 };

    fn say<S: TextSink>(self, out: &mut S) {
        say(out, ("line ", Number(self.0), ": "));
    }
}
