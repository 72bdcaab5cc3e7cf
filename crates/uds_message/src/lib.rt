//! The messages of a diagnostic session (ISO 14229-1), told apart by their bytes.
//!
//! A tester sends requests, and a keep-alive that asks for no answer. The control unit gives a request one final
//! answer, and before that it may say any number of times that the answer is pending. This crate says which
//! message is which, and has the names of services and of response codes; `uds_exchange` says which answer
//! belongs to which request.
//!
//! ```text
//! tester_kind(&[0x22, 0xF1, 0x90])             Request: ReadDataByIdentifier
//! answer_to(0x22, &[0x7F, 0x22, 0x78])         Pending: the unit needs more time
//! answer_to(0x22, &[0x62, 0xF1, 0x90, 0x41])   Final: the positive response
//! ```
#![tactic(auto)]

pub mod laws;
mod message;
mod names;

pub use message::{
    Answer, TesterKind, answer_to, is_negative_response, is_response_pending, is_response_sid,
    is_suppressing, response_code, service_answered, sid, tester_kind,
};
pub use names::{code_name, has_sub_function, service_name};
