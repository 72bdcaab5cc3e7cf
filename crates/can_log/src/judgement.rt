//! What the bytes of a line of any form are, whole or so far, also where the line is cut.

ghost use Rattle.std.specs.Prelude.{◌≡◌, ◌≤◌, ◌++◌, IfOk, IfErr, IfNone, IfSome, codes, length, take};
ghost use Rattle.can_log.specs.Line.{LineMeans};
ghost use Rattle.can_log.specs.Refused.{NoLineFeed, HasCompletion, IsRefusedPlace};
ghost use Rattle.can_log.specs.proving.Judging.{Judged};

use crate::field::Stop;
use crate::frame::Stamped;
use crate::line::judge;
use crate::meaning::stamped_of;
use arrayvec::ArrayVec;

/// What the bytes of a line are, whole or so far.
#[derive(Drop)]
pub(crate) enum Judgement {
    Means(Option<Stamped>),
    /// They end too early, and can be completed.
    Short,
    /// The byte at this column, counted from 1, is refused.
    Refused(u32),
}

/// What a line that ends after `bytes` means, or the column that is refused.
pub(crate) fn ended(line: &[u8], bytes: &[u8]) -> Result<Option<Stamped>, u32>
    requires short { length line.now ≤ 223 }
    requires clean { NoLineFeed (line.now ++ bytes.now) }
    ensures ok { IfOk result (λ what. LineMeans (line.now ++ bytes.now) what) }
    ensures err { IfErr result (λ column. IsRefusedPlace ((line.now ++ bytes.now) ++ codes "\n") column) }
{
    match line_judgement(line, bytes) {
        Judgement::Means(what) => Ok(what),
        Judgement::Short => Err((line.len() + bytes.len() + 1) as u32),
        Judgement::Refused(column) => Err(column),
    }
}

/// The column that is refused, if one is.
pub(crate) fn refused_column(line: &[u8], bytes: &[u8]) -> Option<u32>
    requires short { length line.now ≤ 223 }
    requires clean { NoLineFeed (line.now ++ bytes.now) }
    ensures none { IfNone result (HasCompletion (line.now ++ bytes.now)) }
    ensures some { IfSome result (λ column. IsRefusedPlace (line.now ++ bytes.now) column) }
{
    match joined_judgement(line, bytes) {
        Judgement::Means(_) => None,
        Judgement::Short => None,
        Judgement::Refused(column) => Some(column),
    }
}

/// The judgement on `line` and then `bytes`, with no copy where nothing comes before `bytes`.
fn line_judgement(line: &[u8], bytes: &[u8]) -> Judgement
    requires { length line.now ≤ 223 }
    ensures { Judged (line.now ++ bytes.now) result }
{
    if line.is_empty() {
        judgement_on(bytes)
    } else {
        joined_judgement(line, bytes)
    }
}

/// The judgement on a line that is cut. Of 224 bytes one is refused, so no more are looked at.
fn joined_judgement(line: &[u8], bytes: &[u8]) -> Judgement
    requires { length line.now ≤ 223 }
    ensures { Judged (line.now ++ bytes.now) result }
{
    let mut joined: ArrayVec<u8, 224> = ArrayVec::new();
    // There is room: of the two no more than 224 bytes are joined.
    let _ = joined.try_extend_from_slice(line);
    let _ = joined.try_extend_from_slice(front_of(bytes, 224 - line.len()));
    judgement_on(joined.as_slice())
}

/// The judgement on bytes that lie in one piece.
#[inline(always)]
pub(crate) fn judgement_on(bytes: &[u8]) -> Judgement
    ensures { Judged bytes.now result }
{
    match judge(bytes) {
        Ok(None) => Judgement::Means(None),
        Ok(Some(parts)) => Judgement::Means(Some(stamped_of(parts))),
        Err(Stop::Short) => Judgement::Short,
        Err(Stop::Refused(rest)) => Judgement::Refused((bytes.len() - rest.len() + 1) as u32),
    }
}

/// The first `n` bytes, or all where there are fewer.
fn front_of(bytes: &[u8], n: usize) -> &[u8]
    ensures { result.now ≡ take n bytes.now }
{
    if n < bytes.len() { &bytes[..n] } else { bytes }
}
