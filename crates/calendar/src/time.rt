//! Times of days.
ghost use Rattle.std.specs.Prelude.{◌≡◌, ◌<◌};
ghost use Rattle.calendar.specs.Times.{IsCivilTime, time_after};

use crate::date::{Date, date_of};

/// A time of a day, in UTC.
#[derive(Clone, Copy, Debug, PartialEq, Eq)]
pub struct CivilTime {
    pub date: Date,
    pub hour: u64,
    pub minute: u64,
    pub second: u64,
}

/// What day and time it is so many seconds after the start of 1970.
pub fn civil_time(seconds: u64) -> CivilTime
    requires { seconds < 371085174374400 }
    ensures time { IsCivilTime seconds result }
    ensures value { result ≡ time_after seconds }
{
    let days = seconds / 86_400;
    let rest = seconds % 86_400;
    CivilTime {
        date: date_of(days as u32),
        hour: rest / 3_600,
        minute: rest / 60 % 60,
        second: rest % 60,
    }
}
