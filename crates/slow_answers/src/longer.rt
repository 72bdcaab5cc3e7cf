//! Answers of two sessions beside each other: in how many the one took much longer, and the slowest of these.

ghost use Rattle.std.specs.Prelude.{◌≡◌, ◌≤◌, ◌<◌, ◌+◌, ◌^◌};
ghost use Rattle.slow_answers.specs.Longer as Spec;

/// So many microseconds longer is much longer.
const MUCH_LONGER: u64 = 50_000;

/// An answer of one of two sessions, beside that of the other: where both stand, and how long the requests waited.
#[derive(Clone, Copy, Debug, PartialEq, Eq)]
pub struct AnswerBeside {
    /// How many items of the left session stand before its item.
    pub left: usize,
    /// How many of the right one.
    pub right: usize,
    /// How many microseconds its request waited.
    pub micros: u64,
    /// How many that of the other answer did.
    pub other: u64,
}

/// Whether an answer took much longer than another, by how many microseconds the requests waited: more than twice as
/// long, and at least 50 ms longer.
pub fn took_much_longer(micros: u64, other: u64) -> bool
    ensures { result ≡ Spec.took_much_longer micros other }
{
    let longer = micros.saturating_sub(other);
    longer > other && longer >= MUCH_LONGER
}

/// How many answers took much longer than the ones beside them, and the slowest of those.
#[derive(Clone, Copy, Debug, PartialEq, Eq)]
pub struct LongerAnswers {
    pub count: u64,
    pub slowest: Option<AnswerBeside>,
}

impl LongerAnswers {
    /// Of no answer.
    pub fn none() -> LongerAnswers
        ensures { result ≡ Spec.none_longer }
    {
        LongerAnswers {
            count: 0,
            slowest: None,
        }
    }

    /// With one answer more.
    pub fn with(self, answer: AnswerBeside) -> LongerAnswers
        requires { self.count < 2 ^ 63 }
        ensures value { result ≡ Spec.longer_with self answer }
        ensures few { result.count ≤ self.count + 1 }
    {
        if took_much_longer(answer.micros, answer.other) {
            LongerAnswers {
                count: self.count + 1,
                slowest: Some(slowest_with(self.slowest, answer)),
            }
        } else {
            self
        }
    }
}

/// The slowest one so far, if there is one, and one answer more.
fn slowest_with(slowest: Option<AnswerBeside>, answer: AnswerBeside) -> AnswerBeside
    ensures { result ≡ Spec.slowest_with slowest answer }
{
    match slowest {
        Some(slowest) if slowest.micros >= answer.micros => slowest,
        Some(_) | None => answer,
    }
}
