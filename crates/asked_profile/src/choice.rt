//! Which unit of a profile a run is about.

ghost use Rattle.std.specs.Prelude.{◌≡◌, map, option_map};
ghost use Rattle.profile.specs.Answers.{unit_value};
ghost use Rattle.asked_profile.specs.Choice.{alone, chosen_of, unit_named, identifiers_of};

use can_log::Id;
use profile::ControlUnit;

/// The identifiers of a run.
#[derive(Clone, Copy, Debug, PartialEq, Eq)]
pub struct RunIdentifiers {
    /// That of the tester.
    pub tester: Id,
    /// That of the unit.
    pub unit: Id,
    /// That on which the tester asks all units, if it does.
    pub functional: Option<Id>,
}

/// Why no unit is chosen.
#[derive(Clone, Copy, Debug, PartialEq, Eq)]
pub enum ChoiceFault {
    /// One is named, and the profile has none.
    NoUnits,
    /// One is named, and none has this name.
    NoSuchUnit,
    /// None is named, and there are several.
    SeveralUnits,
}

/// The identifiers of the unit that is named, or of the only one. None where the profile has no unit.
pub fn chosen(
    units: &[ControlUnit],
    only: Option<&[u8]>,
) -> Result<Option<RunIdentifiers>, ChoiceFault>
    ensures { result ≡ chosen_of (map unit_value units.now) (option_map (λ t. t.now) only.entry) }
{
    match only {
        None => alone(units),
        Some(name) => if units.is_empty() {
            Err(ChoiceFault::NoUnits)
        } else {
            unit_named(units, name)
        },
    }
}

/// The identifiers of the only unit, where there is one.
fn alone(units: &[ControlUnit]) -> Result<Option<RunIdentifiers>, ChoiceFault>
    ensures { result ≡ alone (map unit_value units.now) }
{
    match units {
        [] => Ok(None),
        [one] => Ok(Some(identifiers_of(one))),
        _ => Err(ChoiceFault::SeveralUnits),
    }
}

/// The identifiers of the unit of this name.
fn unit_named(units: &[ControlUnit], name: &[u8]) -> Result<Option<RunIdentifiers>, ChoiceFault>
    ensures { result ≡ unit_named (map unit_value units.now) name.now }
{
    'units: for one in units {
        if one.name.as_bytes() == name {
            return Ok(Some(identifiers_of(one)));
        }
    }
    Err(ChoiceFault::NoSuchUnit)
}

/// The identifiers of a unit.
fn identifiers_of(one: &ControlUnit) -> RunIdentifiers
    ensures { result ≡ identifiers_of (unit_value one.now) }
{
    RunIdentifiers {
        tester: one.tester,
        unit: one.unit,
        functional: one.functional,
    }
}
