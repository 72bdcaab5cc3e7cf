//! A session through each call that makes a page, of `trace_report` and of `trace_pair`: a library of tests and of nothing else. What
//! whole pages are is tested over the built program, by `tests/pages/report.py` and `tests/pages/report_pairs.py`.
#![tactic(auto)]

#[cfg(test)]
mod pages;
