//! Which of the bytes of a message are masked, byte by byte.
ghost use Rattle.std.specs.Prelude.{◌≡◌, drop};
ghost use Rattle.shown_bytes.specs.Data.{is_marked, marks_behind, marks_of};
ghost use Rattle.shown_bytes.specs.proving.Marking.{marks_in};

use uds_rules::Mask;

/// Which of some bytes are masked: of so many none, and of those behind them by the places of a mask.
#[derive(Clone, Copy)]
pub(crate) struct Marks {
    pub before: usize,
    pub mask: Mask,
}

impl Marks {
    /// Those of a message with this mask from this place on.
    pub(crate) fn of(mask: Mask, start: usize) -> Marks
        ensures { marks_in result ≡ marks_of (mask, start) }
    {
        Marks {
            before: start,
            mask,
        }
    }

    /// Whether the first byte is masked, and the marks of those behind it.
    #[tactic(auto, using(crate::proofs::MarkedBytes::none_marked, crate::proofs::MarkedBytes::one_less, crate::proofs::MarkedBytes::none_before))]
    pub(crate) fn split_first(self) -> (bool, Marks)
        ensures first { result.0 ≡ is_marked (marks_in self) }
        ensures behind { marks_in result.1 ≡ marks_behind (marks_in self) }
    {
        if self.before > 0 {
            let behind = Marks {
                before: self.before - 1,
                mask: self.mask,
            };
            return (false, behind);
        }
        match self.mask.split_first() {
            Some((is_masked, mask)) => (is_masked, Marks { before: 0, mask }),
            None => (false, self),
        }
    }

    /// The marks of the bytes behind so many.
    pub(crate) fn skip(self, count: usize) -> Marks
        ensures { marks_in result ≡ drop count (marks_in self) }
    {
        let mut marks = self;
        'bytes: for _at in 0..count {
            let (_is_masked, behind) = marks.split_first();
            marks = behind;
        }
        marks
    }
}
