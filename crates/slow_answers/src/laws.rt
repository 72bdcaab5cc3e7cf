//! What holds of the slowest answers, and of answers beside each other, whatever answers there are. Each law is its
//! contract; a call does nothing.

ghost use Rattle.slow_answers.specs.Laws.{SlowestComeFirst, EqualOnesStayInOrder};
ghost use Rattle.slow_answers.specs.LongerLaws.{LongerAreFoundOneByOne, NeverLongerBothWays, SlowestIsOneOfThem};

/// Each answer was waited for at least as long as those behind it.
pub fn slowest_come_first()
    ensures { SlowestComeFirst }
{}

/// Of equal ones the first stays first; none is lost or made up.
pub fn equal_ones_stay_in_order()
    ensures { EqualOnesStayInOrder }
{}

/// Of two answers beside each other at most one took much longer than the other.
pub fn never_longer_both_ways()
    ensures { NeverLongerBothWays }
{}

/// The slowest of some answers is one of them, none took longer, and of equal ones it is the first.
pub fn slowest_is_one_of_them()
    ensures { SlowestIsOneOfThem }
{}

/// What is known of answers is what is found of them one after another.
pub fn longer_are_found_one_by_one()
    ensures { LongerAreFoundOneByOne }
{}
