// Journals that may come of submissions.
ghost use Rattle.std.specs.Prelude.{◌≡◌, ◌≤◌, ◌<◌, ◌+◌, ◌++◌, [], ℕ, List, Some, length, map, slice_get, take};
ghost use Rattle.std.specs.List.{AllByRecursion};
ghost use Rattle.journal_laws.specs.SettledAt.{IsSettledAfter, settled_at};
ghost use Rattle.journal_laws.specs.Trying.{StandsAlone};
ghost use Rattle.net_types.specs.Capacity.{Fits};
ghost use Rattle.switch_model.specs.declared.act.Submission.{Submission};
ghost use Rattle.switch_model.specs.declared.journal.Entry.{Entry};
ghost use Rattle.switch_model.specs.declared.journal.Round.{Round};
ghost use Rattle.keyed.specs.Prefix.{IsPrefix};
ghost use Rattle.switch_model.specs.Journal.{Journal, Opening, IsJournalPrefix, entries, len, own, pending, strip, submission_of, with_round};
ghost use Rattle.switch_model.specs.MayComeOf.{MayComeOf, SettlesNext};
ghost use Rattle.switch_model.specs.Round.{next_round, run};
ghost use Rattle.switch_model.specs.Rows.{rows};

/// A journal with no rounds may come of anything; more may be submitted; and the run of any first
/// ones of the submissions that are pending may be settled.
pub fn journals_come_step_by_step()
    ensures start { (o : Opening) (sent : List Submission) → Fits (rows o.state) o.caps → MayComeOf sent (record { opening = o; rounds = [] }) }
    ensures more { (sent all : List Submission) (j : Journal) → IsPrefix sent all → MayComeOf sent j → MayComeOf all j }
    ensures next { (sent : List Submission) (j : Journal) (p : List Submission) → IsPrefix p (pending sent j) → 1 ≤ length p → SettlesNext sent j (next_round j (run p)) }
    ensures loaded { (sent : List Submission) (j : Journal) (p : List Submission) → IsPrefix (strip j ++ p) sent → 1 ≤ length p → SettlesNext sent j (next_round j (run p)) }
    ensures settled { (sent : List Submission) (j : Journal) (r : Round) → MayComeOf sent j → SettlesNext sent j r → MayComeOf sent (with_round j r) }
    ensures left { (sent : List Submission) (j : Journal) (r : Round) → MayComeOf sent j → SettlesNext sent j r → pending sent j ≡ map submission_of r.entries ++ pending sent (with_round j r) }
    ensures progress { (sent : List Submission) (j : Journal) (r : Round) → MayComeOf sent j → SettlesNext sent j r → (len j < len (with_round j r)) × (len (with_round j r) ≤ length sent) }
    ensures beginning { (sent : List Submission) (j k : Journal) → IsJournalPrefix j k → MayComeOf sent k → MayComeOf sent j }
    ensures last { (sent : List Submission) (j : Journal) (r : Round) → MayComeOf sent (with_round j r) → SettlesNext sent j r }
{}

/// Rounds of what is pending settle each submission, and as many as there are submissions are enough.
pub fn each_submission_is_settled()
    ensures { (n : ℕ) (sent : List Submission) (position : ℕ) (j : Journal) → MayComeOf sent j → position < length sent → length sent ≤ n + len j → IsSettledAfter sent position j (settled_at n sent position j) }
{}

/// Each entry of a journal that may come of submissions is of the one at its position, and what is
/// settled of one caller begins what it submitted.
pub fn what_journals_hold()
    ensures split { (sent : List Submission) (j : Journal) → IsPrefix (strip j) sent → sent ≡ strip j ++ pending sent j }
    ensures entry { (sent : List Submission) (j : Journal) (n : ℕ) (e : Entry) → MayComeOf sent j → slice_get (entries j) n ≡ Some e → slice_get sent n ≡ Some (submission_of e) }
    ensures own { (sent : List Submission) (j : Journal) (i : ℕ) → MayComeOf sent j → IsPrefix (own i (strip j)) (own i sent) }
{}

/// A journal rests on the submissions that it settles and no more than 63 behind them: those of a
/// run that was tried and didn't fit. Where nothing is pending, or each round is whole or found a
/// table full, it rests on those that it settles; and where the last round is neither, it doesn't.
pub fn what_journals_rest_on()
    ensures few { (sent : List Submission) (j : Journal) → MayComeOf sent j → MayComeOf (take (len j + 63) sent) j }
    ensures settled { (sent : List Submission) (j : Journal) → MayComeOf sent j → length sent ≤ len j → MayComeOf (strip j) j }
    ensures alone { (sent : List Submission) (j : Journal) → MayComeOf sent j → AllByRecursion StandsAlone j.rounds → MayComeOf (strip j) j }
    ensures last { (j : Journal) (r : Round) → MayComeOf (strip (with_round j r)) (with_round j r) → StandsAlone r }
{}
