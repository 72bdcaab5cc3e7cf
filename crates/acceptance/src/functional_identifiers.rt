//! Which functional identifier stands beside a unit and its tester. No expected value comes from the program.

use crate::credited_answers::assert_credited;
use std::test::Fail;

/// Frames in turn, and the units that have a credit then, as those of [`credited_answers`](crate::credited_answers).
const LOGS: &str = "\
a functional identifier beside each pair of as many digits, whatever its single frame says
frame 7E0#0322F190
frame 7E8#0462F19041
frame 7DF#023E80
frame 18DA10F1#0322F190
frame 18DAF110#0462F19041
frame 18DB33F1#023E80
pair 1 1 18DA10F1 18DAF110 18DB33F1
pair 1 1 7E0 7E8 7DF

of more functional identifiers the first by its text that is neither
frame 18DBFFF1#023E80
frame 18DB33F1#023E00
frame 18DA10F1#0322F190
frame 18DB33F1#0462F19041
frame 18DAF128#027E00
frame 18DB33F1#0322F18C
frame 18DA3333#0462F18C41
pair 1 1 18DA10F1 18DB33F1 18DBFFF1
pair 1 2 18DB33F1 18DA3333 18DBFFF1
pair 1 2 18DB33F1 18DAF128 18DBFFF1

one that sends no single frame isn't functional, and its credits count as those of others
frame 7DF#100A2EF190414243
frame 123#036EF190
frame 7DF#100A2EF190414243
frame 123#036EF190
frame 6F0#0322F190
frame 123#0462F19041
frame 7DF#00
pair 2 2 7DF 123

an identifier of 29 bits with 7DF in it isn't functional, nor one of 18DA
frame 000007DF#0322F190
frame 18DA33F1#0322F190
frame 00000123#0462F19041
pair 1 1 18DA33F1 00000123
";

#[test]
fn functional_identifiers_are_told(rt: HostRuntime) -> Result<(), Fail> {
    assert_credited(&rt, rt.alloc(), LOGS)
}
