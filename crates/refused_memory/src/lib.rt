//! Each call that takes memory, over small sessions, but for those that make pages, which are in `refused_pages`: a library of tests
//! and of nothing else.
//!
//! With ample memory all of them pass. `tests/memory/refused_memory.py` runs each with every growth of memory refused in
//! turn. A call that is refused memory has to say so, and to have written a front of its text. The same call is then made
//! again, and has to give what it gives otherwise. Only then does its test end with the name of the session. So the growths of a
//! call over a session can be counted: a table in that script has the counts.
//!
//! Nothing here but the calls takes memory.
#![tactic(auto)]

#[cfg(test)]
mod calls;
