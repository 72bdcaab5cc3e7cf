//! What the tests of calls share, in a library that they stand on: what it promises is nothing, so that no proof of a test weighs it.
//!
//! `session` has a session with the devices over which it is taken through each call, `sessions` several, layer by layer, and `page`
//! a writer that takes no memory.
#![tactic(auto)]

pub use page::Page;
pub use session::{
    CANONICAL, LOG, byte_by_byte, failing, full, is_front, is_of_session, repeated, sides,
};
pub use sessions::{Message, OF_MESSAGES, SESSIONS, Session};

mod page;
mod session;
mod sessions;
