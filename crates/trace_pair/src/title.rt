//! What a page of two logs is made for.

use can_log::Id;
use uds_rules::Rules;

/// What a page is made for: its style, the names of the logs, the identifiers (`functional` where the tester
/// asks all units), and the rules.
#[derive(Clone, Copy)]
pub struct Title<'a> {
    pub style: &'a str,
    pub left: &'a [u8],
    pub right: &'a [u8],
    pub tester: Id,
    pub functional: Option<Id>,
    pub unit: Id,
    pub rules: &'a Rules,
}
