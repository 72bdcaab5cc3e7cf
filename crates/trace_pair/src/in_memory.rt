//! The page of two logs that lie in memory, gathered there. No device is asked.

ghost use Rattle.std.specs.Prelude.{◌≡◌, Ok, IfOk, MatchResult};
ghost use Rattle.isotp_receive.specs.declared.TheConstants.{MESSAGE_LIMIT};
ghost use Rattle.trace_pair.specs.InMemory.{HasNoPairPage, KeepsInMemory, IsPairPageWith, counted_two};
ghost use Rattle.trace_pair.specs.Page as Spec;
ghost use Rattle.trace_pair.specs.Titles.{title_for, title_of};

use crate::aligned::Aligned;
use crate::page::write_pair_page;
use crate::title::Title;
use std::alloc::Global;
use trace_canon::in_memory::CountedComparison;
use trace_io::{Bytes, Writing};
use trace_log::{CompareFault, Config, Fault};
use trace_report::{KeptSessions, keep_two};

/// A page of two logs, how they compare, and the counts of each.
#[derive(Debug, Drop)]
pub struct CountedPage {
    pub text: Vec<u8>,
    pub counted: CountedComparison,
}

/// Why there is no page of two logs: a log can't be read, or memory for what it says was refused; or memory for the
/// page.
#[derive(Clone, Copy, Debug, PartialEq, Eq)]
pub enum NoPairPage {
    OfLog(CompareFault),
    OfMemory,
}

/// The page of two logs, as [`write_pair_page`](crate::write_pair_page) writes it with this style and these names, how
/// they compare, and the counts of each.
pub fn pair_page(
    alloc: Global,
    config: &Config,
    style: &str,
    left_name: &[u8],
    right_name: &[u8],
    left: &[u8],
    right: &[u8],
) -> Result<CountedPage, NoPairPage>
    ensures { MatchResult result (λ page. IsPairPageWith (title_for style.now left_name.now right_name.now config.now) MESSAGE_LIMIT config.now left.now right.now page.text.items page.counted) (HasNoPairPage MESSAGE_LIMIT config.now left.now right.now) }
{
    let title = Title {
        style,
        left: left_name,
        right: right_name,
        tester: config.tester(),
        functional: config.functional(),
        unit: config.unit(),
        rules: config.rules(),
    };
    match keep_both(alloc, config, left, right) {
        Ok(two) => page_of(alloc, &title, two),
        Err(fault) => Err(NoPairPage::OfLog(fault)),
    }
}

/// What two logs say, as [`keep_two`](trace_report::keep_two) answers it.
fn keep_both<'a>(
    alloc: Global,
    config: &'a Config,
    left: &[u8],
    right: &[u8],
) -> Result<KeptSessions<'a>, CompareFault>
    ensures { KeepsInMemory MESSAGE_LIMIT config.now left.now right.now result }
{
    keep_two(alloc, config, &mut Bytes::new(left), &mut Bytes::new(right))
}

/// The page of two logs that are kept, unless memory for it was refused.
fn page_of(
    alloc: Global,
    title: &Title<'_>,
    two: KeptSessions<'_>,
) -> Result<CountedPage, NoPairPage>
    ensures { MatchResult result (λ page. (page.text.items ≡ Spec.page_of (title_of title.now) two.entry.left two.entry.right) × (page.counted ≡ counted_two two.entry)) (λ why. why ≡ NoPairPage.OfMemory) }
{
    let Ok(aligned) = Aligned::of(alloc, two) else {
        return Err(NoPairPage::OfMemory);
    };
    let counted = counted_two(&aligned);
    match text_of(alloc, title, aligned) {
        Ok(text) => Ok(CountedPage { text, counted }),
        Err(_refused) => Err(NoPairPage::OfMemory),
    }
}

/// The text of a page of two logs, unless memory for it was refused.
fn text_of(alloc: Global, title: &Title<'_>, aligned: Aligned<'_>) -> Result<Vec<u8>, Fault>
    ensures { IfOk result (λ text. text.items ≡ Spec.page_of (title_of title.now) aligned.entry.left aligned.entry.right) }
{
    let answer = Ok(aligned);
    let mut writer = Writing::new(Vec::new(alloc));
    match write_pair_page(title, &answer, None, &mut writer) {
        Ok(()) => Ok(writer.into_inner()),
        Err(fault) => Err(fault),
    }
}

/// How two logs compare that are kept, and the counts of each.
fn counted_two(aligned: &Aligned<'_>) -> CountedComparison
    ensures { result ≡ counted_two aligned.now }
{
    let two = aligned.two();
    CountedComparison {
        comparison: aligned.comparison(),
        left: two.left().summary(),
        right: two.right().summary(),
    }
}
