//! The identifiers whose frames are wanted.

ghost use Rattle.std.specs.Prelude.{◌≡◌};
ghost use Rattle.can_log.specs.Wanted.{number_of_id};

use crate::frame::Id;
use std::marker::Model;

/// Two identifiers, and a third where one is wanted, made once for all lines of a log. Each is kept beside its one number,
/// so that a line is compared with all in three steps.
#[derive(Clone, Copy, Debug, PartialEq, Eq)]
pub struct Wanted {
    first: Id,
    second: Id,
    third: Option<Id>,
    first_number: u64,
    second_number: u64,
    /// Where no third is wanted, the number of the first once more.
    third_number: u64,
}

impl Model for Wanted {
    ghost use Rattle.std.specs.Prelude.{◌≡◌, unwrap_or};
    ghost use Rattle.can_log.specs.Wanted.{WantedValue, number_of_id};

    ghost Value = { WantedValue };

    ghost view = { λ w. record { first = w.first; second = w.second; third = w.third } };

    ghost invariant = { λ w. (w.first_number ≡ number_of_id w.first) × (w.second_number ≡ number_of_id w.second) × (w.third_number ≡ number_of_id (unwrap_or w.third w.first)) };

    ghost inverse = { λ v. record { first = v.first; second = v.second; third = v.third; first_number = number_of_id v.first; second_number = number_of_id v.second; third_number = number_of_id (unwrap_or v.third v.first) } };
}

impl Wanted {
    ghost use Rattle.std.specs.Prelude.{◌≡◌, ◌↔◌, Some, None, IsTrue};
    ghost use Rattle.can_log.specs.Wanted.{IsWanted};

    /// These two.
    pub fn new(first: Id, second: Id) -> Wanted
        ensures { result ≡ record { first = first; second = second; third = None } }
    {
        let first_number = number_of_id(first);
        Wanted {
            first,
            second,
            third: None,
            first_number,
            second_number: number_of_id(second),
            third_number: first_number,
        }
    }

    /// These, with this one as the third.
    pub fn with_third(self, third: Id) -> Wanted
        ensures { result ≡ record self { third = Some third } }
    {
        Wanted {
            first: self.first,
            second: self.second,
            third: Some(third),
            first_number: self.first_number,
            second_number: self.second_number,
            third_number: number_of_id(third),
        }
    }

    /// The first of them.
    pub fn first(&self) -> Id
        ensures { result ≡ self.now.first }
    {
        self.first
    }

    /// The second of them.
    pub fn second(&self) -> Id
        ensures { result ≡ self.now.second }
    {
        self.second
    }

    /// The third of them, if one is wanted.
    pub fn third(&self) -> Option<Id>
        ensures { result ≡ self.now.third }
    {
        self.third
    }

    /// Whether an identifier is the first of them.
    #[inline(always)]
    pub fn is_first(&self, id: Id) -> bool
        ensures { IsTrue result ↔ (id ≡ self.now.first) }
    {
        number_of_id(id) == self.first_number
    }

    /// Whether an identifier is the second of them.
    #[inline(always)]
    pub fn is_second(&self, id: Id) -> bool
        ensures { IsTrue result ↔ (id ≡ self.now.second) }
    {
        number_of_id(id) == self.second_number
    }

    /// Whether an identifier that is not the first of them is the third. Ask [`is_first`](Wanted::is_first) before: where no
    /// third is wanted, this is true of the first.
    #[inline(always)]
    pub fn is_third(&self, id: Id) -> bool
        ensures { (id ≡ self.now.first → ⊥) → IsTrue result ↔ (self.now.third ≡ Some id) }
    {
        number_of_id(id) == self.third_number
    }

    /// Whether an identifier is one of them.
    #[inline(always)]
    pub(crate) fn is_wanted(&self, id: Id) -> bool
        ensures { IsTrue result ↔ IsWanted self.now id }
    {
        self.is_first(id) || self.is_second(id) || self.is_third(id)
    }
}

/// An identifier of either format as one number: the base ones are even and the extended ones odd, so that `7E0` and `000007E0`
/// differ.
#[inline(always)]
fn number_of_id(id: Id) -> u64
    ensures { result ≡ number_of_id id }
{
    match id {
        Id::Std(number) => 2 * u64::from(number),
        Id::Ext(number) => 2 * u64::from(number) + 1,
    }
}
