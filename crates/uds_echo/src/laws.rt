//! What holds of the echo, whatever messages and rules there are. Each law is its contract; a call does nothing.

ghost use Rattle.uds_echo.specs.Laws.{AskedIsNotTold, MaskedIsNotTold, NegativeIsNotTold, NoOtherServiceIsTold, RepeatedIsNotTold};

/// An answer that repeats what was asked is never told, whatever rules mask.
pub fn repeated_is_not_told()
    ensures { RepeatedIsNotTold }
{}

/// An answer with any of the data identifiers that were asked for is never told.
pub fn asked_is_not_told()
    ensures { AskedIsNotTold }
{}

/// An answer of which rules mask each place that is repeated is never told.
pub fn masked_is_not_told()
    ensures { MaskedIsNotTold }
{}

/// A negative response is never told.
pub fn negative_is_not_told()
    ensures { NegativeIsNotTold }
{}

/// Of other services than those whose response repeats something no answer is ever told.
pub fn no_other_service_is_told()
    ensures { NoOtherServiceIsTold }
{}
