//! What holds of any dates. Each law is its contract; a call does nothing.
ghost use Rattle.calendar.specs.Laws.{NumberIsOfOneDate};

/// No two dates of the calendar have one number.
pub fn number_is_of_one_date()
    ensures { NumberIsOfOneDate }
{}
