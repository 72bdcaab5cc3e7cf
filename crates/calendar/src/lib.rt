//! Dates of the Gregorian calendar, in UTC: what day and time it is so many seconds after the start of 1970.
//!
//! A day has 86,400 seconds, as POSIX counts: no zone, no leap second, no table.
//!
//! ```text
//! civil_time(1_700_000_000)   14 November 2023, 22:13:20
//! ```
#![tactic(auto)]

mod date;
pub mod laws;
mod time;

pub use date::{Date, date_of};
pub use time::{CivilTime, civil_time};
