//! What came of a request.

ghost use Rattle.std.specs.Prelude.{◌≡◌, option_map};
ghost use Rattle.trace_pair.specs.ItemWords as Spec;

use pair_words::{PairLog, PartedCode};
use text_parts::{Either, Part, say};
use trace_io::TextSink;
use uds_message::{is_negative_response, is_suppressing, response_code};

/// What came of a request.
#[derive(Clone, Copy, Debug, PartialEq, Eq)]
pub(crate) enum Outcome {
    Positive,
    /// By its response code.
    Refused(u8),
    /// No answer, as the request asks.
    Silent,
    Unanswered,
}

impl Part for Outcome {
    ghost use Rattle.trace_pair.specs.ItemWords.{outcome_words};

    ghost text = { λ outcome. outcome_words outcome };

    fn say<S: TextSink>(self, out: &mut S) {
        match self {
            Outcome::Positive => say(out, "positive"),
            Outcome::Refused(code) => say(out, ("refused with <b>", PartedCode(code), "</b>")),
            Outcome::Silent => say(out, "silent, as the request asks"),
            Outcome::Unanswered => say(out, "without an answer"),
        }
    }
}

/// How the outcomes of two requests differ, where they do.
#[derive(Clone, Copy)]
pub(crate) struct OutcomesDiffer(pub Outcome, pub Outcome);

impl Part for OutcomesDiffer {
    ghost use Rattle.trace_pair.specs.ItemWords.{outcomes_differ};

    ghost text = { λ both. outcomes_differ both.0 both.1 };

    fn say<S: TextSink>(self, out: &mut S) {
        let OutcomesDiffer(one, other) = self;
        say(
            out,
            (
                OutcomeIn {
                    log: PairLog::A,
                    said: false,
                    outcome: one,
                },
                Between(one),
                OutcomeIn {
                    log: PairLog::B,
                    said: is_refusal(one),
                    outcome: other,
                },
            ),
        );
    }
}

/// What came of a request in a log; that it was refused may have been said before.
#[derive(Clone, Copy)]
struct OutcomeIn {
    log: PairLog,
    said: bool,
    outcome: Outcome,
}

impl Part for OutcomeIn {
    ghost use Rattle.trace_pair.specs.ItemWords.{outcome_in};

    ghost text = { λ words. outcome_in words.log words.said words.outcome };

    fn say<S: TextSink>(self, out: &mut S) {
        let OutcomeIn { log, said, outcome } = self;
        let refused = Either(said, "with <b>", "refused with <b>");
        match outcome {
            Outcome::Positive => say(out, ("positive in ", log)),
            Outcome::Refused(code) => say(out, (refused, PartedCode(code), "</b> in ", log)),
            Outcome::Silent => say(out, ("silent in ", log, ", as the request asks")),
            Outcome::Unanswered => say(out, ("without an answer in ", log)),
        }
    }
}

/// What stands between an outcome and another one.
#[derive(Clone, Copy)]
struct Between(Outcome);

impl Part for Between {
    ghost use Rattle.trace_pair.specs.ItemWords.{between};

    ghost text = { λ words. between words.0 };

    fn say<S: TextSink>(self, out: &mut S) {
        match self.0 {
            Outcome::Positive => say(out, ", "),
            Outcome::Refused(_) => say(out, ", "),
            Outcome::Silent => say(out, "; "),
            Outcome::Unanswered => say(out, ", "),
        }
    }
}

/// Whether a request was refused.
fn is_refusal(outcome: Outcome) -> bool
    ensures { result ≡ Spec.is_refusal outcome }
{
    match outcome {
        Outcome::Refused(_) => true,
        Outcome::Positive | Outcome::Silent | Outcome::Unanswered => false,
    }
}

/// What came of a request, as the mark of its line says it.
#[derive(Clone, Copy)]
pub(crate) struct OutcomeMark(pub Outcome);

impl Part for OutcomeMark {
    ghost use Rattle.trace_pair.specs.ItemWords.{outcome_mark};

    ghost text = { λ outcome. outcome_mark outcome.0 };

    fn say<S: TextSink>(self, out: &mut S) {
        match self.0 {
            Outcome::Positive => say(out, "positive"),
            Outcome::Refused(code) => say(out, ("negative ", PartedCode(code))),
            Outcome::Silent => say(out, "silent"),
            Outcome::Unanswered => say(out, "no answer"),
        }
    }
}

/// What came of a request with this answer, if it has one.
pub(crate) fn came_of(request: &[u8], answer: Option<&[u8]>) -> Outcome
    ensures { result ≡ Spec.came_of request.now (option_map (λ reply. reply.now) answer.entry) }
{
    match answer {
        Some(reply) => {
            if is_negative_response(reply) {
                Outcome::Refused(response_code(reply))
            } else {
                Outcome::Positive
            }
        }
        None => {
            if is_suppressing(request) {
                Outcome::Silent
            } else {
                Outcome::Unanswered
            }
        }
    }
}

/// Whether both are of one kind; a refusal is another one by its code.
pub(crate) fn same_outcome(one: Outcome, other: Outcome) -> bool
    ensures { result ≡ Spec.same_outcome one other }
{
    match (one, other) {
        (Outcome::Positive, Outcome::Positive) => true,
        (Outcome::Refused(code), Outcome::Refused(reply)) => code == reply,
        (Outcome::Silent, Outcome::Silent) => true,
        (Outcome::Unanswered, Outcome::Unanswered) => true,
        (Outcome::Positive | Outcome::Refused(_) | Outcome::Silent | Outcome::Unanswered, _) =>
            false,
    }
}
