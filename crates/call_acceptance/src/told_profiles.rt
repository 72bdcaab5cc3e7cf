//! What is told of wrong profiles, by their texts, and which unit a run is about. No value here comes from the program.

use asked_profile::{AskedFault, ChoiceFault, WrongProfile, chosen, profile_in};
use can_log::Id;
use std::alloc::Global;
use std::test::Fail;

/// What is told of a profile, and behind it its text.
const WRONG: &str = "\
line 1 column 9: not TOML
drop = [

line 3 column 6: not TOML
# a bench
drop = [\"3E\"]
mask [\"27\"]

drops: unknown key
drops = [\"3E\"]

$'a\\x1Bb c': unknown key
\"a\\u001Bb c\" = 1

drop: not an array of strings
drop = \"3E\"

unit: not written as [[unit]]
[unit]

drop \"3\": not a pattern
drop = [\"3\"]

mask $'22\"*': not a pattern
mask = [\"22\\\"*\"]

mask \"67\": nothing is masked
mask = [\"67\"]

mask \"3e??*\": 3E and 7F can't be masked
mask = [\"3e??*\"]

mask \"27*\": a sub-function can't be masked
mask = [\"27*\"]

\"67\" and \"6701*\" are rules for one message
mask = [\"6701*\"]
drop = [\"67\"]

unit 1: limit: unknown key
[[unit]]
limit = 1

unit 1: name: missing
[[unit]]
tester = \"7E0\"
unit = \"7E8\"

unit 1: tester: not three or eight hexadecimal digits
[[unit]]
tester = 0x7E0

unit 1: unit: identifier out of range
[[unit]]
unit = \"20000000\"

unit 2: tester and unit: those of unit 1
[[unit]]
name = \"engine\"
tester = \"7E0\"
unit = \"7E8\"
[[unit]]
name = \"gearbox\"
tester = \"7e0\"
unit = \"7e8\"";

/// Two units.
const BENCH: &str = "\
[[unit]]
name = \"engine\"
tester = \"7E0\"
unit = \"7E8\"
[[unit]]
name = \"gearbox\"
tester = \"7E1\"
unit = \"18DAF110\"";

/// What is told of a wrong profile, if it is wrong.
fn told_of(alloc: Global, text: &[u8]) -> Option<WrongProfile> {
    match profile_in(alloc, text) {
        Err(AskedFault::Wrong(wrong)) => Some(wrong),
        Err(AskedFault::Memory) => None,
        Ok(_) => None,
    }
}

#[test]
fn what_is_wrong_is_told(rt: HostRuntime) -> Result<(), Fail> {
    let alloc: Global = rt.alloc();
    for row in WRONG.split("\n\n") {
        let (expected, text) = row.split_once('\n').ok_or("no text")?;
        let wrong = told_of(alloc, text.as_bytes()).ok_or("nothing is told")?;
        assert!(rt; wrong.text.as_slice() == expected.as_bytes(), "{expected}");
    }
    Ok(())
}

#[test]
fn bytes_that_are_no_text_are_not_toml(rt: HostRuntime) -> Result<(), Fail> {
    let wrong = told_of(rt.alloc(), b"\n# \xFF".as_slice()).ok_or("nothing is told")?;
    assert_eq!(rt; wrong.line, 2);
    assert!(rt; wrong.text.as_slice() == "line 2 column 3: not TOML".as_bytes());
    Ok(())
}

#[test]
fn a_run_is_about_one_unit(rt: HostRuntime) -> Result<(), Fail> {
    let alloc: Global = rt.alloc();
    let profile = profile_in(alloc, BENCH.as_bytes())
        .ok()
        .ok_or("no profile")?;
    let units = profile.units.as_slice();
    let named = chosen(units, Some("gearbox".as_bytes()))
        .ok()
        .ok_or("no unit")?;
    let sides = named.ok_or("no identifiers")?;
    assert!(rt; sides.tester == Id::Std(0x7E1) && sides.unit == Id::Ext(0x18DA_F110));
    assert!(rt; chosen(units, None) == Err(ChoiceFault::SeveralUnits));
    assert!(rt; chosen(units, Some("brake".as_bytes())) == Err(ChoiceFault::NoSuchUnit));
    assert!(rt; chosen(&[], Some("brake".as_bytes())) == Err(ChoiceFault::NoUnits));
    assert!(rt; chosen(&[], None) == Ok(None));
    Ok(())
}
