//! The names of units.

use profile::ControlUnit;
use text_parts::{Part, say};
use trace_io::TextSink;

/// The names of units, a comma between them: `engine, gearbox, brake`.
#[derive(Clone, Copy)]
pub struct UnitNames<'a>(pub &'a [ControlUnit]);

impl<'a> Part for UnitNames<'a> {
    ghost use Rattle.std.specs.Prelude.{map};
    ghost use Rattle.profile.specs.Answers.{unit_value};
    ghost use Rattle.asked_profile.specs.Choice.{unit_names};

    ghost text = { λ units. unit_names (map unit_value units.0.now) };

    fn say<S: TextSink>(self, out: &mut S) {
        if let Some((one, rest)) = self.0.split_first() {
            say(out, (one.name.as_str(), OtherNames(rest)));
        }
    }
}

/// The names of units behind another one.
#[derive(Clone, Copy)]
struct OtherNames<'a>(&'a [ControlUnit]);

impl<'a> Part for OtherNames<'a> {
    ghost use Rattle.std.specs.List.{flat_map};
    ghost use Rattle.profile.specs.Answers.{unit_value};
    ghost use Rattle.asked_profile.specs.Choice.{name_behind};

    ghost text = { λ units. flat_map (λ one. name_behind (unit_value one)) units.0.now };

    fn say<S: TextSink>(self, out: &mut S) {
        'units: for one in self.0 {
            say(out, (", ", one.name.as_str()));
        }
    }
}
