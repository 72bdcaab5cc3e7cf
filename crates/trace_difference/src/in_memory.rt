//! Where two logs differ that lie in memory: the text of that, gathered there. No device is asked.
ghost use Rattle.std.specs.Prelude.{◌≡◌, ◌<◌, IfErr, IfOk, MatchResult, length};
ghost use Rattle.isotp_receive.specs.declared.TheConstants.{MESSAGE_LIMIT};
ghost use Rattle.trace_difference.specs.InMemory.{ComparesInMemory, HasNoDifferenceText, IsDifferenceWith, NeedsMemoryForText};
ghost use Rattle.trace_difference.specs.Written.{difference_text, written_rows};

use crate::written::{NamedSession, write_difference};
use std::alloc::{AllocError, Global};
use trace_canon::in_memory::{CountedComparison, counted_comparison};
use trace_canon::{Compared, compare};
use trace_io::{Bytes, Writing};
use trace_log::{CompareFault, Config, Fault};
use trace_text::Notation;
use uds_difference::Difference;
use uds_rules::Rules;

/// The text of where two logs differ, how they compare, and the counts of each.
#[derive(Debug, Drop)]
pub struct CountedDifference {
    pub text: Vec<u8>,
    pub counted: CountedComparison,
}

/// Where two logs differ, which have these names, in this notation, as [`write_difference`](crate::write_difference) writes
/// it; how they compare, and the counts of each. Memory that is refused to the text is told of the right one.
pub fn pair_difference(
    alloc: Global,
    config: &Config,
    notation: Notation,
    left_name: &[u8],
    right_name: &[u8],
    left: &[u8],
    right: &[u8],
) -> Result<CountedDifference, CompareFault>
    ensures { MatchResult result (λ told. IsDifferenceWith notation left_name.now right_name.now MESSAGE_LIMIT config.now left.now right.now told.text.items told.counted) (HasNoDifferenceText notation MESSAGE_LIMIT config.now left.now right.now) }
{
    let answer = compare_both(alloc, config, left, right);
    match &answer {
        Ok(compared) => match text_of(
            alloc,
            notation,
            left_name,
            right_name,
            config.rules(),
            compared,
        ) {
            Ok(text) => Ok(CountedDifference {
                text,
                counted: counted_comparison(compared),
            }),
            Err(_refused) => Err(CompareFault::Right(Fault::Memory)),
        },
        Err(fault) => Err(*fault),
    }
}

/// What two logs are to each other, as [`compare`](trace_canon::compare) answers it.
fn compare_both(
    alloc: Global,
    config: &Config,
    left: &[u8],
    right: &[u8],
) -> Result<Compared, CompareFault>
    ensures { ComparesInMemory MESSAGE_LIMIT config.now left.now right.now result }
{
    compare(alloc, config, &mut Bytes::new(left), &mut Bytes::new(right))
}

/// The text of where two accepted logs differ, unless memory was refused.
fn text_of(
    alloc: Global,
    notation: Notation,
    left_name: &[u8],
    right_name: &[u8],
    rules: &Rules,
    compared: &Compared,
) -> Result<Vec<u8>, AllocError>
    ensures text { IfOk result (λ text. text.items ≡ difference_text rules.now notation left_name.now right_name.now
        compared.now.left compared.now.right) }
    ensures refused { IfErr result (λ refused. NeedsMemoryForText notation compared.now) }
{
    let left = NamedSession {
        name: left_name,
        session: &compared.left,
    };
    let right = NamedSession {
        name: right_name,
        session: &compared.right,
    };
    let difference = Difference::between(alloc, &compared.left.meaning, &compared.right.meaning)?;
    gathered(alloc, &difference, left, right, notation, rules)
}

/// The text of a difference of two sessions, unless memory for it was refused.
fn gathered(
    alloc: Global,
    difference: &Difference,
    left: NamedSession<'_>,
    right: NamedSession<'_>,
    notation: Notation,
    rules: &Rules,
) -> Result<Vec<u8>, AllocError>
    ensures text { IfOk result (λ text. text.items
        ≡ written_rows rules.now notation left.entry.name.now right.entry.name.now difference.now.shortest
        difference.now.rows.items left.entry.session.now right.entry.session.now) }
    ensures refused { IfErr result (λ refused. 0 < length
        (written_rows rules.now notation left.entry.name.now right.entry.name.now difference.now.shortest
        difference.now.rows.items left.entry.session.now right.entry.session.now)) }
{
    let mut writer = Writing::new(Vec::new(alloc));
    match write_difference(difference, left, right, notation, rules, &mut writer) {
        Ok(()) => Ok(writer.into_inner()),
        Err(_fault) => Err(AllocError),
    }
}
