//! What logs in memory are answered with: the meaning of one, or a text, with the counts of the log beside it. No
//! device is asked: so what has no answer is refused, or memory was.

ghost use Rattle.std.specs.Prelude.{◌≡◌, Ok, Err, MatchResult};
ghost use Rattle.isotp_receive.specs.declared.TheConstants.{MESSAGE_LIMIT};
ghost use Rattle.trace_canon.specs.InMemory.{IsCanonicalLogWith, IsListWith, AreMessageLinesWith, IsExplanationWith};
ghost use Rattle.trace_canon.specs.InMemory.{AreCreditLinesWith, MeansInMemory, ComparesWithCounts, fault_in_memory};
ghost use Rattle.trace_canon.specs.InMemory.{NeedsMemoryForCanonicalLog, NeedsMemoryForList, NeedsMemoryForMessageLines};
ghost use Rattle.trace_canon.specs.InMemory.{NeedsMemoryForExplanation, NeedsMemoryForCreditLines, IsRefused, IsUnread};
ghost use Rattle.trace_canon.specs.InMemory as Spec;

use crate::collector::meaning_of;
use crate::comparer::{Compared, Comparison, compare};
use crate::explainer::explain;
use crate::finder::find;
use crate::lister::list;
use crate::messenger::messages;
use crate::normaliser::normalise;
use std::alloc::Global;
use trace_io::{Bytes, Writing};
use trace_log::{CompareFault, Config, Fault, Summary};
use trace_text::{CreditStyle, ItemStyle, Notation};
use uds_exchange::Meaning;

/// A text about a log, and the counts of the log.
#[derive(Debug, Drop)]
pub struct CountedText {
    pub text: Vec<u8>,
    pub summary: Summary,
}

/// How two logs compare, and the counts of each.
#[derive(Clone, Copy, Debug, PartialEq, Eq)]
pub struct CountedComparison {
    pub comparison: Comparison,
    pub left: Summary,
    pub right: Summary,
}

/// What the messages of a log mean, as [`meaning_of`](crate::meaning_of) answers it.
pub fn meaning(alloc: Global, config: &Config, log: &[u8]) -> Result<Meaning, Fault>
    ensures answer { MeansInMemory MESSAGE_LIMIT config.now log.now result }
{
    meaning_of(alloc, config, &mut Bytes::new(log))
}

/// The canonical log of a log, as [`normalise`](crate::normalise) writes it.
pub fn canonical_log(alloc: Global, config: &Config, log: &[u8]) -> Result<CountedText, Fault>
    ensures answer { MatchResult result
        (λ counted. IsCanonicalLogWith MESSAGE_LIMIT config.now log.now counted.text.items counted.summary)
        (IsRefused NeedsMemoryForCanonicalLog MESSAGE_LIMIT config.now log.now) }
{
    let mut target = Writing::new(Vec::new(alloc));
    let answer = normalise(alloc, config, &mut Bytes::new(log), &mut target);
    counted_text(answer, target.into_inner())
}

/// The list of a log's items, as [`list`](crate::list) writes it.
pub fn item_list(
    alloc: Global,
    config: &Config,
    style: ItemStyle,
    log: &[u8],
) -> Result<CountedText, Fault>
    ensures answer { MatchResult result
        (λ counted. IsListWith style MESSAGE_LIMIT config.now log.now counted.text.items counted.summary)
        (IsRefused (NeedsMemoryForList style) MESSAGE_LIMIT config.now log.now) }
{
    let mut target = Writing::new(Vec::new(alloc));
    let answer = list(alloc, config, style, &mut Bytes::new(log), &mut target);
    counted_text(answer, target.into_inner())
}

/// The lines of the messages of a log, as [`messages`](crate::messages) writes them.
pub fn message_lines(
    alloc: Global,
    config: &Config,
    notation: Notation,
    log: &[u8],
) -> Result<CountedText, Fault>
    ensures answer { MatchResult result
        (λ counted. AreMessageLinesWith notation MESSAGE_LIMIT config.now log.now counted.text.items counted.summary)
        (IsUnread (NeedsMemoryForMessageLines notation) MESSAGE_LIMIT config.now log.now) }
{
    let mut target = Writing::new(Vec::new(alloc));
    let answer = messages(alloc, config, notation, &mut Bytes::new(log), &mut target);
    counted_text(answer, target.into_inner())
}

/// What each frame of a log did, as [`explain`](crate::explain) writes it.
pub fn explanation(
    alloc: Global,
    config: &Config,
    notation: Notation,
    log: &[u8],
) -> Result<CountedText, Fault>
    ensures answer { MatchResult result
        (λ counted. IsExplanationWith notation MESSAGE_LIMIT config.now log.now counted.text.items counted.summary)
        (IsUnread NeedsMemoryForExplanation MESSAGE_LIMIT config.now log.now) }
{
    let mut target = Writing::new(Vec::new(alloc));
    let answer = explain(alloc, config, notation, &mut Bytes::new(log), &mut target);
    counted_text(answer, target.into_inner())
}

/// The credit lines of a log, as [`find`](crate::find) writes them.
pub fn credit_lines(
    alloc: Global,
    config: &Config,
    notation: Notation,
    log: &[u8],
) -> Result<CountedText, Fault>
    ensures answer { MatchResult result
        (λ counted. AreCreditLinesWith notation config.now log.now counted.text.items counted.summary)
        (IsUnread (NeedsMemoryForCreditLines notation) MESSAGE_LIMIT config.now log.now) }
{
    let mut target = Writing::new(Vec::new(alloc));
    let style = CreditStyle::Lines(notation);
    let answer = find(alloc, config, style, &mut Bytes::new(log), &mut target);
    counted_text(answer, target.into_inner())
}

/// How two logs compare, as [`compare`](crate::compare) answers it.
pub fn comparison(
    alloc: Global,
    config: &Config,
    left: &[u8],
    right: &[u8],
) -> Result<CountedComparison, CompareFault>
    ensures answer { ComparesWithCounts MESSAGE_LIMIT config.now left.now right.now result }
{
    let compared = compare(alloc, config, &mut Bytes::new(left), &mut Bytes::new(right))?;
    Ok(counted_comparison(&compared))
}

/// How two logs compare, and the counts of each: what they mean is left out.
pub fn counted_comparison(compared: &Compared) -> CountedComparison
    ensures { result ≡ Spec.counted_comparison compared.now }
{
    CountedComparison {
        comparison: compared.comparison,
        left: compared.left.summary,
        right: compared.right.summary,
    }
}

/// The text that was gathered with its counts, where all is well: where a write failed, memory was refused.
pub fn counted_text(answer: Result<Summary, Fault>, text: Vec<u8>) -> Result<CountedText, Fault>
    ensures answer { MatchResult answer
        (λ summary. result ≡ Ok (record { text = text; summary = summary }))
        (λ fault. result ≡ Err (fault_in_memory fault)) }
{
    match answer {
        Ok(summary) => Ok(CountedText { text, summary }),
        Err(Fault::Write) => Err(Fault::Memory),
        Err(fault) => Err(fault),
    }
}
