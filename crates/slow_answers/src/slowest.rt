//! The slowest answers, kept in order.

ghost use Rattle.std.specs.Prelude.{◌≡◌, ◌≤◌, length};
ghost use Rattle.slow_answers.specs.Slowest as Spec;

use crate::answer::SlowAnswer;
use arrayvec::ArrayVec;
use std::marker::Model;

/// So many answers are kept.
const MOST_KEPT: usize = 10;

/// The ten slowest of the answers that it was told, or all of fewer.
#[derive(Clone, Debug, Drop)]
pub struct SlowestAnswers {
    kept: ArrayVec<SlowAnswer, MOST_KEPT>,
}

impl Model for SlowestAnswers {
    ghost use Rattle.std.specs.Prelude.{List};
    ghost use Rattle.slow_answers.specs.declared.answer.SlowAnswer.{SlowAnswer};

    ghost Value = { List SlowAnswer };

    ghost view = { λ s. s.kept.items };
}

impl SlowestAnswers {
    ghost use Rattle.std.specs.Prelude.{◌≡◌, ◌≤◌, [], ◌∷◌, ◌++◌, List, length};
    ghost use Rattle.slow_answers.specs.declared.answer.SlowAnswer.{SlowAnswer};
    ghost use Rattle.slow_answers.specs.Slowest as Spec;

    /// Of no answers.
    pub fn new() -> SlowestAnswers
        ensures { result ≡ [] }
    {
        SlowestAnswers {
            kept: ArrayVec::new(),
        }
    }

    /// Tells it one more answer.
    pub fn take(&mut self, answer: SlowAnswer)
        ensures stands { (answers : List SlowAnswer) → self.old ≡ Spec.slowest answers → self.new ≡ Spec.slowest (answers ++ answer ∷ []) }
    {
        self.keep(answer);
    }

    /// Keeps one more answer in its place, if this is among the first ten.
    fn keep(&mut self, answer: SlowAnswer)
        ensures { self.new ≡ Spec.kept_with self.old answer }
    {
        let place = place_for(answer.micros, self.kept.as_slice());
        if place >= MOST_KEPT {
            return;
        }
        if self.kept.is_full() {
            let _quickest = self.kept.pop();
        }
        self.kept.insert(place, answer);
    }

    /// The slowest answers, the slowest one first.
    pub fn as_slice(&self) -> &[SlowAnswer]
        ensures value { result.now ≡ self.now }
        ensures few { length result.now ≤ 10 }
    {
        self.kept.as_slice()
    }
}

/// How many of these answers, the slowest one first, stand before one that so many microseconds were waited for.
fn place_for(micros: u64, answers: &[SlowAnswer]) -> usize
    ensures value { result ≡ Spec.place_for micros answers.now }
    ensures within { result ≤ length answers.now }
{
    let mut rest = answers;
    let mut place = 0;
    'answers: while let Some((first, behind)) = rest.split_first() {
        if first.micros < micros {
            return place;
        }
        place += 1;
        rest = behind;
    }
    place
}
