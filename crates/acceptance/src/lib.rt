//! The layers by themselves: a library of tests and of nothing else.
//!
//! Each crate below is proved by itself, without a test: the gate would prove it again with them. That its definitions say
//! what was meant is shown here, layer by layer, by worked values: `log_lines`, `device_calls`, `frame_layouts`,
//! `frame_verdicts`, `message_frames`, `message_kinds`, `standard_names`, `profiles`, `echoes`, `kept_requests`, `pairings`,
//! `slow_rows`, `credited_answers`, `functional_identifiers`, `session_rows`.
//!
//! `message_frames` also tries the lengths at which a message has a frame more, and `sizes` those at which a buffer may grow.
//!
//! No crate of a log's texts is below, so that these tests are proved beside those crates. The calls that make texts are in
//! `call_acceptance`, those that make pages in `page_acceptance`.
#![tactic(auto)]

#[cfg(test)]
mod ample_memory;
#[cfg(test)]
mod credited_answers;
#[cfg(test)]
mod device_calls;
#[cfg(test)]
mod echoes;
#[cfg(test)]
mod frame_layouts;
#[cfg(test)]
mod frame_verdicts;
#[cfg(test)]
mod functional_identifiers;
#[cfg(test)]
mod kept_requests;
#[cfg(test)]
mod log_lines;
#[cfg(test)]
mod message_frames;
#[cfg(test)]
mod message_kinds;
#[cfg(test)]
mod pairings;
#[cfg(test)]
mod profiles;
#[cfg(test)]
mod rows;
#[cfg(test)]
mod session_rows;
#[cfg(test)]
mod sizes;
#[cfg(test)]
mod slow_rows;
#[cfg(test)]
mod standard_names;
