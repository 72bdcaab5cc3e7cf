//! What holds of any rows. Each law is its contract; a call does nothing.
ghost use Rattle.shown_rows.specs.Laws.{ChangesHaveEachRow, ChangesStandAtTheirPlaces, CountsAddUp, FoldedRowsStandFar, HunksStandAtTheirPlaces, ShownRowsStandInHunks, ShownRowsStandNearChanges};

/// What a page shows unfolded is what the hunks of a text have, each row where it stands there.
pub fn shown_rows_stand_in_hunks()
    ensures { ShownRowsStandInHunks }
{}

/// A row is shown, behind those in front of it, exactly where it stands near a change: it is one, or one is among the three
/// rows before it and the three behind it.
pub fn shown_rows_stand_near_changes()
    ensures { ShownRowsStandNearChanges }
{}

/// As many rows are folded together as there are up to the next that stands near a change.
pub fn folded_rows_stand_far()
    ensures { FoldedRowsStandFar }
{}

/// The hunks are the pieces of the rows of which each row stands near a change.
pub fn hunks_stand_at_their_places()
    ensures { HunksStandAtTheirPlaces }
{}

/// The changes have each row that is one, once, in order.
pub fn changes_have_each_row()
    ensures { ChangesHaveEachRow }
{}

/// The changes stand at their places, each is whole, and no row that is one stands beside them.
pub fn changes_stand_at_their_places()
    ensures { ChangesStandAtTheirPlaces }
{}

/// The counts of the rows add up to those of both sessions.
pub fn counts_add_up()
    ensures { CountsAddUp }
{}
