//! Of how many messages of a log each rule spoke: what a machine counts that tells it.

ghost use Rattle.std.specs.Prelude.{◌≡◌, ◌≤◌, ◌<◌, ◌^◌, List, [], ◌++◌, length, replicate};
ghost use Rattle.direction.specs.Dir.{Message};
ghost use Rattle.isotp_receive.specs.EventSeen.{seen_verdict};
ghost use Rattle.isotp_receive.specs.Verdict.{told_message};
ghost use Rattle.direction.specs.declared.Dir.{Dir as DirValue};
ghost use Rattle.trace_run.specs.Spoken.{spoken_counts};
ghost use Rattle.trace_run.specs.proving.Speaking.{counts_more};
ghost use Rattle.uds_rules.specs.declared.rule_table.TheConstants.{MOST_RULES};

use arrayvec::ArrayVec;
use isotp_receive::Verdict;
use uds_rules::{MOST_RULES, Rules};

/// Of how many messages each rule of a profile spoke, in the order of the rules.
pub type RuleCounts = ArrayVec<u64, MOST_RULES>;

/// Before the first message.
pub fn no_counts(rules: &Rules) -> RuleCounts
    ensures { result.items ≡ spoken_counts rules.now [] }
{
    zeros(rules.as_slice().len())
}

/// So many counts of nothing.
fn zeros(count: usize) -> RuleCounts
    requires { count ≤ MOST_RULES }
    ensures { result.items ≡ replicate count 0 }
{
    let mut counts = ArrayVec::new();
    'rules: for _done in 0..count {
        counts.push(0);
    }
    counts
}

/// Counts the message that a frame completed, as it was before any rule, if it completed one. Without rules this is one
/// test of each message.
#[inline(always)]
pub fn count_message(rules: &Rules, verdict: Verdict<'_>, counts: &mut RuleCounts)
    ensures { (M : List Message) (d : DirValue) → length M < 2 ^ 62 → counts.old.items ≡ spoken_counts rules.now M
        → counts.new.items ≡ spoken_counts rules.now (M ++ told_message d (seen_verdict verdict.entry)) }
{
    match verdict {
        Verdict::Message(message) => {
            if rules.may_speak_of(message) {
                count_spoken(rules, message, counts.as_mut_slice());
            }
        }
        Verdict::Began | Verdict::Stored | Verdict::Flow | Verdict::Dropped(_) => {}
    }
}

/// Counts a message for the rule that speaks of it, if one does: no other does. It is a call of its own, so that what
/// most logs do without is not inlined. No log has as many frames as 64 bits count, so a count never stays at the
/// largest number; but a sum that could wrap is refused.
#[inline(never)]
fn count_spoken(rules: &Rules, message: &[u8], counts: &mut [u64])
    ensures { counts.new ≡ counts_more rules.now message.now counts.old }
{
    if let Some(place) = rules.rule_of(message) {
        if place < counts.len() {
            counts[place] = counts[place].saturating_add(1);
        }
    }
}
