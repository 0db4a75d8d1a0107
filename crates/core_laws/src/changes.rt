// Changes of rows, as a core asks its chip for them.
ghost use Rattle.chip_core.specs.declared.changes.RowChanges.{RowChanges};
ghost use Rattle.core_laws.specs.Changes.{AreChanges};
ghost use Rattle.row_change_laws.specs.Between.{AreRowChangesBetween};
ghost use Rattle.switch_model.specs.PlainState.{ArePartsInOrder, PlainState};
ghost use Rattle.switch_model.specs.Rows.{rows};

/// The changes between the rows of two states whose parts are in order, as those of sound states are,
/// lead from the first rows to the second, list only what differs, and leave nothing that leads nowhere.
pub fn changes_between_states_are_changes()
    ensures { (changes : RowChanges) (m n : PlainState) → ArePartsInOrder m → ArePartsInOrder n → AreRowChangesBetween changes (rows m) (rows n) → AreChanges (rows m) (rows n) changes }
{}
