//! Dates.
ghost use Rattle.std.specs.Prelude.{◌≡◌, ◌+◌, ◌-◌, ◌≤◌, ◌<◌};
ghost use Rattle.calendar.specs.Dates.{IsDate, date_after, day_number, days_in_month, days_in_year, days_of_months, days_of_years, is_leap};

/// A day of the Gregorian calendar.
#[derive(Clone, Copy, Debug, PartialEq, Eq)]
pub struct Date {
    pub year: u64,
    /// January is 1.
    pub month: u64,
    pub day: u64,
}

/// The date so many days after the first of January 1970.
pub fn date_of(days: u32) -> Date
    ensures date { IsDate result }
    ensures number { day_number result ≡ days }
    ensures value { result ≡ date_after days }
{
    let (year, of_year) = year_of(days as u64);
    let (month, of_month) = month_of(year, of_year);
    Date {
        year,
        month,
        day: of_month + 1,
    }
}

/// The year so many days after the start of 1970, and how many days of it lie before.
fn year_of(days: u64) -> (u64, u64)
    requires { days < 4294967296 }
    ensures since { 1970 ≤ result.0 }
    ensures within { result.1 < days_in_year result.0 }
    ensures sum { days_of_years (result.0 - 1970) + result.1 ≡ days }
{
    let mut year: u64 = 1970;
    let mut left = days;
    'years: while left >= days_in_year(year) {
        left -= days_in_year(year);
        year += 1;
    }
    (year, left)
}

/// The month behind so many days of a year, and how many days of it lie before.
fn month_of(year: u64, days: u64) -> (u64, u64)
    requires { days < days_in_year year }
    ensures from_january { 1 ≤ result.0 }
    ensures to_december { result.0 ≤ 12 }
    ensures within { result.1 < days_in_month year result.0 }
    ensures sum { days_of_months year (result.0 - 1) + result.1 ≡ days }
{
    let mut month: u64 = 1;
    let mut left = days;
    'months: while left >= days_in_month(year, month) {
        left -= days_in_month(year, month);
        month += 1;
    }
    (month, left)
}

fn is_leap(year: u64) -> bool
    ensures { result ≡ is_leap year }
{
    year % 4 == 0 && (year % 100 != 0 || year % 400 == 0)
}

fn days_in_year(year: u64) -> u64
    ensures value { result ≡ days_in_year year }
    ensures least { 365 ≤ result }
{
    if is_leap(year) { 366 } else { 365 }
}

fn days_in_month(year: u64, month: u64) -> u64
    ensures value { result ≡ days_in_month year month }
    ensures least { 28 ≤ result }
    ensures most { result ≤ 31 }
{
    if month == 2 {
        if is_leap(year) { 29 } else { 28 }
    } else if month == 4 || month == 6 || month == 9 || month == 11 {
        30
    } else {
        31
    }
}
