// What the changes from one list of rows to another are.
ghost use Rattle.std.specs.Prelude.{◌≡◌, ◌≤◌, ◌+◌, ◌*◌, ℕ, length};
ghost use Rattle.chip_core.specs.ChangeLists.{AreGroupChanges};
ghost use Rattle.chip_core.specs.Changes.{AreOldRows, changed_rows, writes_of};
ghost use Rattle.chip_core.specs.declared.changes.RowChanges.{RowChanges};
ghost use Rattle.hw_undo.specs.Phases.{AreAscending};
ghost use Rattle.net_types.specs.Closed.{IsClosed};
ghost use Rattle.net_types.specs.Differ.{AscendRows, differ};
ghost use Rattle.net_types.specs.Rows.{Rows};
ghost use Rattle.row_change_laws.specs.Between.{AreRealChanges, AreRowChangesBetween};
ghost use Rattle.switch_model.specs.PlainState.{ArePartsInOrder, PlainState};
ghost use Rattle.switch_model.specs.Rows.{rows};

/// The changes from one list of rows to another are such as a commit asks for: their keys ascend, each
/// old row is the one that is there, and each new row is another one. They make the second list of the
/// first.
pub fn changes_lead_to_the_new_rows()
    ensures ascending { (changes : RowChanges) (a b : Rows) → AreRowChangesBetween changes a b → AreAscending changes }
    ensures old { (changes : RowChanges) (a b : Rows) → AreRowChangesBetween changes a b → AreOldRows changes a }
    ensures real { (changes : RowChanges) (a b : Rows) → AreRowChangesBetween changes a b → AreRealChanges changes }
    ensures makes { (changes : RowChanges) (a b : Rows) → AscendRows a → AscendRows b → AreRowChangesBetween changes a b → changed_rows changes a ≡ b }
{}

/// Exactly one list has the changes from one list of rows to another: any two such are the same.
pub fn one_list_has_the_changes()
    ensures { (changes others : RowChanges) (a b : Rows) → AreRowChangesBetween changes a b → AreRowChangesBetween others a b → changes ≡ others }
{}

/// There are as many changes as rows differ, and they take at most two writes for each.
pub fn changes_are_counted()
    ensures count { (changes : RowChanges) (a b : Rows) → AreRowChangesBetween changes a b → length changes.l2 + length changes.host + length changes.group + length changes.route ≡ differ a b }
    ensures writes { (changes : RowChanges) (a b : Rows) → AreRowChangesBetween changes a b → writes_of changes ≤ 2 * differ a b }
{}

/// Between the rows of two states whose parts are in order, as those of sound states are, the changed
/// rows lead only to rows that are there; and each change of a group is such as a list of changes holds.
pub fn changes_of_states_are_closed()
    ensures closed { (changes : RowChanges) (m n : PlainState) → ArePartsInOrder m → ArePartsInOrder n → AreRowChangesBetween changes (rows m) (rows n) → IsClosed (changed_rows changes (rows m)) }
    ensures groups { (changes : RowChanges) (m n : PlainState) → AreRowChangesBetween changes (rows m) (rows n) → AreGroupChanges changes.group }
{}
