//! What holds of the unit that a run is about. Each law is its contract; a call does nothing.

ghost use Rattle.asked_profile.specs.Laws.{ChosenIsNamed, NamedIsChosen, NoneIsWithoutUnits};

/// The unit that is taken has the name that was asked for, or is the only one; and the one that has this name is taken.
/// None is taken only where there is none, and no name was asked for.
pub fn chosen_is_named()
    ensures chosen { ChosenIsNamed }
    ensures named { NamedIsChosen }
    ensures none { NoneIsWithoutUnits }
{}
