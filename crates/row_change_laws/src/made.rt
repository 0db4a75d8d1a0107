// How changes are made of keys.
ghost use Rattle.std.specs.Prelude.{◌≡◌};
ghost use Rattle.keyed.specs.Keyed.{Ascends};
ghost use Rattle.net_types.specs.Differ.{AscendRows};
ghost use Rattle.net_types.specs.Rows.{Rows};
ghost use Rattle.row_change_laws.specs.Between.{AreRowChangesBetween, no_rows};
ghost use Rattle.row_change_laws.specs.Made.{added_rows, plain_row_changes, touched_row_changes};
ghost use Rattle.row_laws.specs.Touching.{AreDifferences, Differences};
ghost use Rattle.switch_model.specs.PlainState.{PlainState};
ghost use Rattle.switch_model.specs.Rows.{rows};
ghost use Rattle.switch_model.specs.StateKeys.{neighbor_cmp};

/// The changes at all keys of two lists of rows are the changes from the first to the second.
pub fn plain_changes_are_changes()
    ensures { (a b : Rows) → AreRowChangesBetween (plain_row_changes a b) a b }
{}

/// The changes at the keys that listed differences can touch are the changes between the rows of the
/// two states: they are those at all keys.
pub fn touched_changes_are_changes()
    ensures between { (d : Differences) (m n : PlainState) → Ascends neighbor_cmp m.neighbors → Ascends neighbor_cmp n.neighbors → AreDifferences d m n → AreRowChangesBetween (touched_row_changes m n d) (rows m) (rows n) }
    ensures plain { (d : Differences) (m n : PlainState) → Ascends neighbor_cmp m.neighbors → Ascends neighbor_cmp n.neighbors → AreDifferences d m n → touched_row_changes m n d ≡ plain_row_changes (rows m) (rows n) }
{}

/// The changes from no rows to some are these, each as an added one.
pub fn added_rows_are_changes()
    ensures { (a : Rows) → AscendRows a → AreRowChangesBetween (added_rows a) no_rows a }
{}
