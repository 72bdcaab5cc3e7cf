//! Which identifiers of a log ask, and which answer them, for a log whose tester and unit nobody named.
//!
//! A frame that begins a message says of a service that it asks for it or that it answers it ([`mention_of`]), whatever
//! its identifier. A [`Finder`] takes frames one by one, and credits each answer to the identifier that last asked for
//! its service, once for each asking; its lines are the identifiers with a credit, each with its tester, and with a
//! functional identifier beside them.
//!
//! ```text
//! 7E0#0322F190          asks for service 22
//! 7E8#101462F190574241  answers it: credited to 7E0
//! 7E0#300000            says nothing
//! 7E8#2131413345304645  says nothing
//!
//! CreditLine { credits: 1, requests: 1, tester: "7E0", unit: "7E8", functional: None }
//! ```
#![tactic(auto)]

mod candidate;
mod finder;
mod functional;
pub mod laws;
mod lines;
mod mention;
mod pair;
mod tables;

pub use finder::Finder;
pub use mention::{Mention, mention_of};
pub use pair::{CreditLine, IdPair};
