// How a run is settled.
ghost use Rattle.std.specs.Prelude.{◌≡◌, ◌≢◌, ◌≤◌, ◌+◌, ◌↔◌, ◌∷◌, [], ℕ, List, map, Option, None, Some};
ghost use Rattle.journal_laws.specs.Settling.{AcceptsNone, Settles, after_run, kind_alone};
ghost use Rattle.net_types.specs.Capacity.{over, Fits};
ghost use Rattle.net_types.specs.declared.table.Caps.{Caps};
ghost use Rattle.net_types.specs.declared.table.Table.{Table};
ghost use Rattle.switch_model.specs.declared.act.Submission.{Submission};
ghost use Rattle.switch_model.specs.declared.journal.Entry.{Entry};
ghost use Rattle.switch_model.specs.declared.journal.RoundKind.TheVariants.{Whole, One};
ghost use Rattle.switch_model.specs.declared.verdict.Reason.{Reason};
ghost use Rattle.switch_model.specs.declared.verdict.Verdict.{Verdict};
ghost use Rattle.switch_model.specs.declared.verdict.Verdict.TheVariants.{Accepted, Invalid, Full};
ghost use Rattle.switch_model.specs.Journal.{after_entries, submission_of};
ghost use Rattle.switch_model.specs.Legal.{IsRightAs, IsRun};
ghost use Rattle.switch_model.specs.PlainState.{PlainState};
ghost use Rattle.switch_model.specs.Round.{with_verdict_alone, next_version, one_round, round_of, settled, verdict_alone, whole_round};
ghost use Rattle.switch_model.specs.Rows.{rows};

/// After a state whose rows fit, the round that settles a run is right, its rows fit, it has the
/// run or its first, and its verdicts give the version after it. It is whole exactly where the
/// valid updates of the run, in turn, give rows that fit.
pub fn runs_are_settled_right()
    ensures settles { (m : PlainState) (v : ℕ) (caps : Caps) (q : List Submission) → Fits (rows m) caps → IsRun q → Settles m v caps q (settled m v caps q) }
    ensures whole { (m : PlainState) (v : ℕ) (caps : Caps) (q : List Submission) → Fits (rows (after_run m q)) caps → settled m v caps q ≡ whole_round m v q }
    ensures one { (m : PlainState) (v : ℕ) (caps : Caps) (q : List Submission) → over (rows (after_run m q)) caps ≢ None → settled m v caps q ≡ one_round m v caps q }
    ensures state { (m : PlainState) (v : ℕ) (q : List Submission) → after_entries m (whole_round m v q).entries ≡ after_run m q }
{}

/// A right round is the one that its own submissions give, in its kind.
pub fn right_rounds_are_given()
    ensures whole { (m : PlainState) (v : ℕ) (caps : Caps) (es : List Entry) → IsRightAs Whole caps m v es → es ≡ (whole_round m v (map submission_of es)).entries }
    ensures one { (m : PlainState) (v : ℕ) (caps : Caps) (es : List Entry) → IsRightAs One caps m v es → es ≡ (one_round m v caps (map submission_of es)).entries }
{}

/// One update by itself is invalid exactly where that reason holds; else full exactly where its
/// rows are over that table's capacity; else accepted. Only where it is full is it in a round of
/// one by itself.
pub fn rounds_of_one_tell_each_case()
    ensures alone { (m : PlainState) (v : ℕ) (caps : Caps) (s : Submission) → Fits (rows m) caps → settled m v caps (s ∷ []) ≡ round_of (kind_alone (with_verdict_alone m caps s).1) v (with_verdict_alone m caps s ∷ []) }
    ensures invalid { (o : Option Reason) (t : Option Table) (r : Reason) → (verdict_alone o t ≡ Invalid r) ↔ (o ≡ Some r) }
    ensures full { (o : Option Reason) (t : Option Table) (table : Table) → (verdict_alone o t ≡ Full table) ↔ ((o ≡ None) × (t ≡ Some table)) }
    ensures accepted { (o : Option Reason) (t : Option Table) → (verdict_alone o t ≡ Accepted) ↔ ((o ≡ None) × (t ≡ None)) }
{}

/// Entries of which none is accepted change neither the state nor the version, only such leave the
/// version, and a round raises it by one at most.
pub fn what_is_not_accepted_changes_nothing()
    ensures state { (m : PlainState) (es : List Entry) → AcceptsNone es → after_entries m es ≡ m }
    ensures version { (v : ℕ) (es : List Entry) → AcceptsNone es → next_version v (map (λ e. e.verdict) es) ≡ v }
    ensures only { (v : ℕ) (es : List Entry) → next_version v (map (λ e. e.verdict) es) ≡ v → AcceptsNone es }
    ensures step { (v : ℕ) (verdicts : List Verdict) → (v ≤ next_version v verdicts) × (next_version v verdicts ≤ v + 1) }
{}
