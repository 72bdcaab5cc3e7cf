//! A session through each call that makes a text, over devices that only a test has, and each part of a text: a library of tests and
//! of nothing else.
//!
//! `calls` has the calls of `trace_canon`, and that of `trace_difference` in memory; `said_texts` each part of a line, and each name
//! and number that commands share; `told_profiles` what is told of wrong profiles. What whole logs become is tested over the built program, by `tests/program/sessions.py`.
#![tactic(auto)]

#[cfg(test)]
mod calls;
#[cfg(test)]
mod said_texts;
#[cfg(test)]
mod told_profiles;
