//! What a run asks of a profile: its rules, the unit that it is about, and what is told where something is wrong in it.
#![tactic(auto)]

mod asked;
mod choice;
pub mod laws;
mod unit_names;
mod unit_wrong_text;
mod wrong_text;

pub use asked::{AskedFault, WrongProfile, profile_in};
pub use choice::{ChoiceFault, RunIdentifiers, chosen};
pub use unit_names::UnitNames;
