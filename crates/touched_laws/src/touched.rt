// What updates touch.
ghost use Rattle.std.specs.Prelude.{◌≡◌, List};
ghost use Rattle.net_types.specs.declared.table.RouteKey.{RouteKey};
ghost use Rattle.row_laws.specs.RowAt.{fib_at};
ghost use Rattle.row_laws.specs.Touching.{AreDifferences, DifferOnlyAt};
ghost use Rattle.switch_model.specs.declared.journal.Entry.{Entry};
ghost use Rattle.switch_model.specs.Journal.{after_entries};
ghost use Rattle.switch_model.specs.PlainState.{ArePartsInOrder, PlainState};
ghost use Rattle.switch_model.specs.Touched.{Touched, touched_both, touched_entries};
ghost use Rattle.switch_model.specs.Untouched.{SameUntouched};
ghost use Rattle.touched_laws.specs.Differences.{differences_of, AreTouchedFibs, HasTouchedFibs};

/// The entries of a round change nothing but under the keys that its accepted updates touch, each
/// after those before it; and what two changes leave in turn is what neither touches. The parts stay in
/// order.
pub fn entries_leave_what_they_do_not_touch()
    ensures same { (m : PlainState) (es : List Entry) → ArePartsInOrder m → SameUntouched (touched_entries m es) m (after_entries m es) }
    ensures order { (m : PlainState) (es : List Entry) → ArePartsInOrder m → ArePartsInOrder (after_entries m es) }
    ensures both { (s t : Touched) (m n o : PlainState) → SameUntouched s m n → SameUntouched t n o → SameUntouched (touched_both s t) m o }
{}

/// The keys of the FIB that a change touches are those of exactly one ascending list, and the entries of
/// the two states differ only at them.
pub fn touched_fibs_are_one_list()
    ensures some { (m n : PlainState) → HasTouchedFibs m n }
    ensures one { (m n : PlainState) (keys others : List RouteKey) → AreTouchedFibs m n keys → AreTouchedFibs m n others → keys ≡ others }
    ensures only { (m n : PlainState) (keys : List RouteKey) → AreTouchedFibs m n keys → DifferOnlyAt keys (fib_at m) (fib_at n) }
{}

/// The touched keys, with the keys of FIB entries that differ, list all that differs for the rows of two
/// states: so also those that a round touches.
pub fn touched_keys_are_differences()
    ensures states { (t : Touched) (fibs : List RouteKey) (m n : PlainState) → SameUntouched t m n → DifferOnlyAt fibs (fib_at m) (fib_at n) → AreDifferences (differences_of t fibs) m n }
    ensures round { (m : PlainState) (es : List Entry) (fibs : List RouteKey) → ArePartsInOrder m → DifferOnlyAt fibs (fib_at m) (fib_at (after_entries m es)) → AreDifferences (differences_of (touched_entries m es) fibs) m (after_entries m es) }
{}
