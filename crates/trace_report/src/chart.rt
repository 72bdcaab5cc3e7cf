//! The chart of a page, as far as its rows were said.

ghost use Rattle.std.specs.Prelude.{◌≡◌, ◌^◌, ◌<◌, ◌-◌, List, [], ◌∷◌, ◌++◌, length};
ghost use Rattle.trace_report.specs.Blocks.{blocks_behind, blocks_of};
ghost use Rattle.trace_report.specs.Chart.{plain_text, row_text, rows_text};
ghost use Rattle.trace_report.specs.OtherAnswers.{is_other, last_asked};
ghost use Rattle.trace_report.specs.Rows.{RowValue, row_of};
ghost use Rattle.trace_report.specs.proving.Following.{IsChartOf, row_if, rows_in};
ghost use Rattle.uds_rules.specs.Rule.{RuleValue};

use crate::answer_times::AnswerTimes;
use crate::block_fronts::Opening;
use crate::blocks::{Blocks, begins_exchange, is_brief, no_blocks, one_more_row};
use crate::brief_rows::{say_brief_message, say_brief_missing};
use crate::follower::NewRows;
use crate::message_rows::say_message_row;
use crate::missing_rows::say_missing_row;
use crate::other_answers::Echoes;
use crate::other_rows::say_other_row;
use crate::row::{RowContext, SentMessage, SessionRow};
use crate::tally::Tally;
use text_parts::say;
use trace_io::TextSink;
use uds_rules::Rules;

/// The blocks of the rows that were said, and what the verdict needs of them.
#[derive(Debug, Drop)]
pub(crate) struct Chart {
    pub blocks: Blocks,
    pub tally: Tally,
    pub times: AnswerTimes,
    pub echoes: Echoes,
}

impl Chart {
    /// Before the first row.
    pub(crate) fn start() -> Chart
        ensures { (rules : List RuleValue) → IsChartOf rules [] result }
    {
        Chart {
            blocks: no_blocks(),
            tally: Tally::start(),
            times: AnswerTimes::start(),
            echoes: Echoes::start(),
        }
    }

    /// Says new rows of what rules have left, in a page whose first frame has the time `origin`.
    #[inline(always)]
    pub(crate) fn say_rows<S: TextSink>(
        &mut self,
        rules: &Rules,
        origin: u64,
        rows: NewRows<'_>,
        out: &mut S,
    )
        ensures stands { (before : List RowValue) → length before < 2 ^ 64 - 3 → IsChartOf rules.now before self.old → IsChartOf rules.now (before ++ rows_in rows.entry) self.new }
        ensures says { (before : List RowValue) → length before < 2 ^ 64 - 3 → IsChartOf rules.now before self.old
            → S.says out.old (rows_text rules.now origin (blocks_of before) (last_asked before) (rows_in rows.entry)) out.new }
    {
        self.say_row_if(rules, origin, rows.first, out);
        self.say_row_if(rules, origin, rows.second, out);
        self.say_row_if(rules, origin, rows.third, out);
    }

    /// Says a row, if there is one.
    #[inline(always)]
    fn say_row_if<S: TextSink>(
        &mut self,
        rules: &Rules,
        origin: u64,
        row: Option<SessionRow<'_>>,
        out: &mut S,
    )
        ensures stands { (before : List RowValue) → length before < 2 ^ 64 - 1 → IsChartOf rules.now before self.old → IsChartOf rules.now (before ++ row_if row.entry) self.new }
        ensures says { (before : List RowValue) → length before < 2 ^ 64 - 1 → IsChartOf rules.now before self.old
            → S.says out.old (rows_text rules.now origin (blocks_of before) (last_asked before) (row_if row.entry)) out.new }
    {
        if let Some(row) = row {
            let other = self.echoes.is_other(rules, row);
            let asked = self.echoes.asked();
            let context = RowContext {
                rules,
                origin,
                asked,
            };
            say_next_row(context, &mut self.blocks, other, row, out);
            self.tally.take(row);
            self.times.note(row);
            self.echoes.follow(other, row);
        }
    }
}

/// Says a row behind those before, and what begins before it. Whether it tells an answer that is other than was asked is
/// known.
fn say_next_row<S: TextSink>(
    context: RowContext<'_>,
    blocks: &mut Blocks,
    other: bool,
    row: SessionRow<'_>,
    out: &mut S,
)
    requires { other ≡ is_other context.rules.now context.asked.now (row_of row) }
    ensures says { blocks.old.count < 2 ^ 64 - 1 → blocks.old.rows < 2 ^ 64 - 1
        → S.says out.old (rows_text context.entry.rules.now context.entry.origin blocks.old context.entry.asked.now (row_of row.entry ∷ [])) out.new }
    ensures stands { blocks.old.count < 2 ^ 64 - 1 → blocks.old.rows < 2 ^ 64 - 1 → blocks.new ≡ blocks_behind blocks.old (row_of row.entry ∷ []) }
{
    let opening = Opening {
        origin: context.origin,
        blocks: *blocks,
        row,
    };
    say(out, opening);
    *blocks = one_more_row(begins_exchange(row), *blocks);
    say_row(context, is_brief(*blocks), other, row, out);
}

/// Says a row, in a block of brief rows or in another.
fn say_row<S: TextSink>(
    context: RowContext<'_>,
    brief: bool,
    other: bool,
    row: SessionRow<'_>,
    out: &mut S,
)
    requires { other ≡ is_other context.rules.now context.asked.now (row_of row) }
    ensures { S.says out.old (row_text context.entry.rules.now brief context.entry.origin context.entry.asked.now (row_of row.entry)) out.new }
{
    match row {
        SessionRow::Message { sent, message } => {
            if other {
                say_other_row(context, sent, message, out);
            } else {
                say_plain_row(context, brief, sent, message, out);
            }
        }
        SessionRow::Missing(missing) => {
            if brief {
                say_brief_missing(context.origin, missing, out);
            } else {
                say_missing_row(true, context.origin, missing, out);
            }
        }
    }
}

/// Says the row of a message, but for an answer that is other than was asked.
#[inline(always)]
fn say_plain_row<S: TextSink>(
    context: RowContext<'_>,
    brief: bool,
    sent: SentMessage,
    message: &[u8],
    out: &mut S,
)
    ensures { S.says out.old (plain_text context.entry.rules.now brief context.entry.origin sent.role sent.dir sent.place message.now) out.new }
{
    if brief {
        say_brief_message(context.rules, context.origin, sent, message, out);
    } else {
        say_message_row(context.rules, context.origin, sent, message, out);
    }
}
