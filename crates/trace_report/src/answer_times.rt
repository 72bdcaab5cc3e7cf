//! The answers of a session, as its rows come: how long their requests waited for them.

ghost use Rattle.std.specs.Prelude.{◌≡◌, List, [], ◌∷◌, ◌++◌};
ghost use Rattle.std.specs.List.{cons_option};
ghost use Rattle.slow_answers.specs.Slowest.{slowest};
ghost use Rattle.slow_answers.specs.declared.answer.SlowAnswer.{SlowAnswer as SlowAnswerValue};
ghost use Rattle.trace_report.specs.AnswerTimes as Spec;
ghost use Rattle.trace_report.specs.Rows.{RowValue, row_of};
ghost use Rattle.trace_report.specs.proving.Following.{AreTimesOf};

use crate::counting::one_more;
use crate::roles::MessageRole;
use crate::row::{MessagePlace, SessionRow};
use slow_answers::{SlowAnswer, SlowestAnswers, waited};
use uds_message::sid;

/// What is known of the last request: its service, and how many replies said since that it is pending.
#[derive(Clone, Copy, Debug)]
pub(crate) struct LastRequest {
    pub service: u8,
    pub pending: u64,
}

/// The slowest answers of the rows so far.
#[derive(Debug, Drop)]
pub(crate) struct AnswerTimes {
    pub last: LastRequest,
    pub slowest: SlowestAnswers,
}

impl AnswerTimes {
    /// Before the first row.
    pub(crate) fn start() -> AnswerTimes
        ensures { AreTimesOf [] result }
    {
        AnswerTimes {
            last: LastRequest {
                service: 0,
                pending: 0,
            },
            slowest: SlowestAnswers::new(),
        }
    }

    /// Takes one more row.
    pub(crate) fn note(&mut self, row: SessionRow<'_>)
        ensures { (rows : List RowValue) → AreTimesOf rows self.old → AreTimesOf (rows ++ row_of row.entry ∷ []) self.new }
    {
        take_if_told(&mut self.slowest, answer_told(self.last, row));
        self.last = request_with(self.last, row);
    }

    /// The slowest ones, the slowest one first.
    pub(crate) fn slowest(&self) -> &[SlowAnswer]
        ensures { result.now ≡ self.now.slowest }
    {
        self.slowest.as_slice()
    }
}

/// Takes an answer, if one is told.
fn take_if_told(kept: &mut SlowestAnswers, told: Option<SlowAnswer>)
    ensures { (answers : List SlowAnswerValue) → kept.old ≡ slowest answers → kept.new ≡ slowest (answers ++ cons_option told []) }
{
    match told {
        Some(answer) => kept.take(answer),
        None => {}
    }
}

/// What is known of the last request behind a row.
fn request_with(last: LastRequest, row: SessionRow<'_>) -> LastRequest
    ensures { result ≡ Spec.request_with last (row_of row.entry) }
{
    match row {
        SessionRow::Message { sent, message } => request_by(sent.role, message, last),
        SessionRow::Missing(_) => last,
    }
}

/// What is known of the last request behind a message of this role.
fn request_by(role: MessageRole, message: &[u8], last: LastRequest) -> LastRequest
    ensures { result ≡ Spec.request_by role message.now last }
{
    match role {
        MessageRole::Request => LastRequest {
            service: sid(message),
            pending: 0,
        },
        MessageRole::Pending { .. } => LastRequest {
            service: last.service,
            pending: one_more(last.pending),
        },
        MessageRole::Positive { .. }
        | MessageRole::Negative { .. }
        | MessageRole::KeepAlive
        | MessageRole::Stray => last,
    }
}

/// The answer that a row tells, if it tells one that was waited for.
fn answer_told(last: LastRequest, row: SessionRow<'_>) -> Option<SlowAnswer>
    ensures { result ≡ Spec.answer_told last (row_of row.entry) }
{
    match row {
        SessionRow::Message { sent, .. } => answer_by(last, sent.role, sent.place),
        SessionRow::Missing(_) => None,
    }
}

/// The answer that a message of this role is, if it is one that was waited for.
fn answer_by(last: LastRequest, role: MessageRole, place: MessagePlace) -> Option<SlowAnswer>
    ensures { result ≡ Spec.answer_by last role place }
{
    match role {
        MessageRole::Positive { asked } | MessageRole::Negative { asked } => {
            answer_after(last, place, waited(asked, place.first.micros))
        }
        MessageRole::Request
        | MessageRole::Pending { .. }
        | MessageRole::KeepAlive
        | MessageRole::Stray => None,
    }
}

/// The answer in this place, where the last request waited so long for it.
fn answer_after(last: LastRequest, place: MessagePlace, micros: Option<u64>) -> Option<SlowAnswer>
    ensures { result ≡ Spec.answer_after last place micros }
{
    let micros = micros?;
    Some(SlowAnswer {
        item: place.item,
        service: last.service,
        micros,
        pending: last.pending,
    })
}
