//! What is told as a profile is read as it is meant.
ghost use Rattle.profile_reading.specs.Laws.{IdentifiersAreReadBack, LinesAreReadBack, NamesAreLegal, ProfilesAreReadAsMeant, UnitsAreReadAsMeant};

/// A unit that is found has a legal name, its identifiers are read as they are, its table is read as this unit, and the
/// document of up to 64 of them as a profile of these. So the first 64 lines of a log are read back.
pub fn found_units_are_read()
    ensures names { NamesAreLegal }
    ensures identifiers { IdentifiersAreReadBack }
    ensures units { UnitsAreReadAsMeant }
    ensures profiles { ProfilesAreReadAsMeant }
    ensures lines { LinesAreReadBack }
{}
