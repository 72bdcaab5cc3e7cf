//! Each call that makes a page, over small sessions, as `refused_memory` has the other calls: a library of tests and of nothing else.
#![tactic(auto)]

#[cfg(test)]
mod calls;
