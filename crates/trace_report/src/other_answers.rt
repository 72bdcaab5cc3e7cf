//! Positive answers that are other than was asked, as the rows come.

ghost use Rattle.std.specs.Prelude.{◌≡◌, ◌<◌, ◌^◌, ◌-◌, List, [], ◌∷◌, ◌++◌, length};
ghost use Rattle.trace_report.specs.OtherAnswers as Spec;
ghost use Rattle.trace_report.specs.Rows.{RowValue, row_of};
ghost use Rattle.trace_report.specs.proving.Following.{AreEchoesOf};
ghost use Rattle.uds_rules.specs.Rule.{RuleValue};

use crate::counting::one_more;
use crate::roles::MessageRole;
use crate::row::SessionRow;
use crate::sorts::target_of;
use crate::tally::{Targets, push_if_room};
use arrayvec::ArrayVec;
use asked_request::AskedRequest;
use uds_echo::answers_other;
use uds_rules::Rules;

/// How many answers are other than was asked, and where links to the first of them lead.
#[derive(Debug, Drop)]
pub(crate) struct OtherAnswers {
    pub count: u64,
    pub first: Targets,
}

impl OtherAnswers {
    /// Counts the answer that a row tells, where it is other than was asked.
    #[inline(always)]
    fn count_if(&mut self, other: bool, row: SessionRow<'_>)
        ensures { (rules : List RuleValue) (before : List RowValue) → length before < 2 ^ 64 - 1 → self.old ≡ Spec.others_of rules before
            → other ≡ Spec.is_other rules (Spec.last_asked before) (row_of row.entry)
            → self.new ≡ Spec.others_of rules (before ++ row_of row.entry ∷ []) }
    {
        if other {
            self.count = one_more(self.count);
            push_if_room(&mut self.first, target_of(row));
        }
    }
}

/// What was asked last, and the answers so far that are other than was asked.
#[derive(Debug, Drop)]
pub(crate) struct Echoes {
    pub asked: AskedRequest,
    pub others: OtherAnswers,
}

impl Echoes {
    /// Before the first row.
    pub(crate) fn start() -> Echoes
        ensures { (rules : List RuleValue) → AreEchoesOf rules [] result }
    {
        Echoes {
            asked: AskedRequest::none(),
            others: OtherAnswers {
                count: 0,
                first: ArrayVec::new(),
            },
        }
    }

    /// Whether a row behind those so far tells an answer that is other than was asked.
    #[inline(always)]
    pub(crate) fn is_other(&self, rules: &Rules, row: SessionRow<'_>) -> bool
        ensures { result ≡ Spec.is_other rules.now self.now.asked (row_of row.entry) }
    {
        is_other(rules, self.asked.bytes(), row)
    }

    /// What is kept of the last request.
    pub(crate) fn asked(&self) -> &[u8]
        ensures { result.now ≡ self.now.asked }
    {
        self.asked.bytes()
    }

    /// Takes one more row, which tells such an answer or does not.
    #[inline(always)]
    pub(crate) fn follow(&mut self, other: bool, row: SessionRow<'_>)
        ensures { (rules : List RuleValue) (before : List RowValue) → length before < 2 ^ 64 - 1 → AreEchoesOf rules before self.old
            → other ≡ Spec.is_other rules (Spec.last_asked before) (row_of row.entry)
            → AreEchoesOf rules (before ++ row_of row.entry ∷ []) self.new }
    {
        self.others.count_if(other, row);
        self.keep_asked(row);
    }

    /// Keeps what a row asks, if it asks something.
    #[inline(always)]
    fn keep_asked(&mut self, row: SessionRow<'_>)
        ensures asked { self.new.asked ≡ Spec.asked_with self.old.asked (row_of row.entry) }
        ensures others { self.new.others ≡ self.old.others }
    {
        match row {
            SessionRow::Message { sent, message } => match sent.role {
                MessageRole::Request => self.asked.keep(message),
                MessageRole::Positive { .. }
                | MessageRole::Negative { .. }
                | MessageRole::Pending { .. }
                | MessageRole::KeepAlive
                | MessageRole::Stray => {}
            },
            SessionRow::Missing(_) => {}
        }
    }
}

/// Whether a row tells an answer that is other than was asked.
fn is_other(rules: &Rules, asked: &[u8], row: SessionRow<'_>) -> bool
    ensures { result ≡ Spec.is_other rules.now asked.now (row_of row.entry) }
{
    match row {
        SessionRow::Message { sent, message } => is_other_by(rules, asked, sent.role, message),
        SessionRow::Missing(_) => false,
    }
}

/// Whether a message of this role is an answer that is other than was asked.
fn is_other_by(rules: &Rules, asked: &[u8], role: MessageRole, message: &[u8]) -> bool
    ensures { result ≡ Spec.is_other_by rules.now asked.now role message.now }
{
    match role {
        MessageRole::Positive { .. } => answers_other(rules, asked, message),
        MessageRole::Request
        | MessageRole::Negative { .. }
        | MessageRole::Pending { .. }
        | MessageRole::KeepAlive
        | MessageRole::Stray => false,
    }
}
