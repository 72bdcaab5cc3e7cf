//! The echo of a request in its positive answer.

ghost use Rattle.std.specs.Prelude.{◌≡◌, ◌+◌, ◌*◌, ◌^◌, ◌<◌};
ghost use Rattle.uds_echo.specs.Echo as Spec;

use crate::left::{Found, compared_at, differ, seen_at};
use crate::repeated::repeated_count;
use uds_message::{has_sub_function, service_answered, sid};
use uds_rules::Rules;

/// The service identifier of ReadDataByIdentifier.
const READ_DATA_BY_IDENTIFIER: u8 = 0x22;

/// Whether a positive answer is other than was asked: both messages, which these rules have left, have all the bytes that a
/// response to the service repeats, and these differ. No other answer is, and a byte that a rule masks differs from none.
#[tactic(auto, unfolding(crate::specs::Echo::answers_other))]
pub fn answers_other(rules: &Rules, request: &[u8], answer: &[u8]) -> bool
    ensures { result ≡ Spec.answers_other rules.now request.now answer.now }
{
    if service_answered(sid(answer)) != sid(request) {
        return false;
    }
    let count = repeated_count(request, answer);
    if request.len() <= count || answer.len() <= count {
        return false;
    }
    let asked = rules.mask_of(request);
    let told = rules.mask_of(answer);
    if sid(request) == READ_DATA_BY_IDENTIFIER {
        is_none_of(request, &asked, answer, &told)
    } else {
        differ_within(
            has_sub_function(sid(request)),
            request,
            &asked,
            answer,
            &told,
            count,
        )
    }
}

/// Whether the bytes differ at one of the first so many places behind the service identifier.
#[tactic(auto, unfolding(crate::specs::Echo::differ_within))]
fn differ_within(
    has_sub_function: bool,
    request: &[u8],
    asked: &Found,
    answer: &[u8],
    told: &Found,
    count: usize,
) -> bool
    ensures { result ≡ Spec.differ_within has_sub_function request.now asked.now answer.now told.now count }
{
    let mut are_other = false;
    'places: for before in 0..count {
        let place = before + 1;
        let one = compared_at(has_sub_function, request, asked, place);
        let other = compared_at(has_sub_function, answer, told, place);
        let is_other = differ(one, other);
        are_other = are_other || is_other;
    }
    are_other
}

/// Whether the data identifier that is answered is none of those asked for.
#[tactic(auto, unfolding(crate::specs::Echo::is_none_of))]
fn is_none_of(request: &[u8], asked: &Found, answer: &[u8], told: &Found) -> bool
    ensures { result ≡ Spec.is_none_of request.now asked.now answer.now told.now (Spec.asked_count request.now) }
{
    let mut is_other = true;
    'identifiers: for before in 0..request.len().saturating_sub(1) / 2 {
        let is_another = is_other_than(request, asked, answer, told, before);
        is_other = is_other && is_another;
    }
    is_other
}

/// Whether the data identifier that is answered is another than the one behind so many others of the request.
fn is_other_than(request: &[u8], asked: &Found, answer: &[u8], told: &Found, before: usize) -> bool
    requires { 2 * before + 2 < 2 ^ 64 }
    ensures { result ≡ Spec.is_other_than request.now asked.now answer.now told.now before }
{
    let high = seen_at(request, asked, 2 * before + 1);
    let low = seen_at(request, asked, 2 * before + 2);
    let is_other_high = differ(high, seen_at(answer, told, 1));
    is_other_high || differ(low, seen_at(answer, told, 2))
}
