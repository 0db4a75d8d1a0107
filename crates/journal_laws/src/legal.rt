// Journals, round by round.
ghost use Rattle.std.specs.Prelude.{◌≡◌, ◌≤◌, ◌+◌, ◌++◌, ◌∷◌, [], ℕ, List, length, map};
ghost use Rattle.std.specs.List.{AllByRecursion, flat_map};
ghost use Rattle.journal_laws.specs.Settling.{Settles, after_runs};
ghost use Rattle.net_types.specs.Capacity.{Fits};
ghost use Rattle.switch_model.specs.declared.act.Submission.{Submission};
ghost use Rattle.switch_model.specs.declared.journal.Round.{Round};
ghost use Rattle.switch_model.specs.Journal.{Journal, IsJournalPrefix, after_entries, entries, entries_of, fold, len, strip, submission_of, upto, version_after, version_of, with_round};
ghost use Rattle.switch_model.specs.Legal.{IsLegal, IsRightAs, IsRun};
ghost use Rattle.switch_model.specs.Round.{next_round};
ghost use Rattle.switch_model.specs.Rows.{rows};
ghost use Rattle.switch_model.specs.Sound.{IsSound};

/// What a journal is with one round more.
pub fn one_round_more()
    ensures entries { (j : Journal) (r : Round) → entries (with_round j r) ≡ entries j ++ r.entries }
    ensures state { (j : Journal) (r : Round) → fold (with_round j r) ≡ after_entries (fold j) r.entries }
    ensures version { (j : Journal) (r : Round) → version_of (with_round j r) ≡ version_after (version_of j) r.entries }
    ensures settled { (j : Journal) (r : Round) → strip (with_round j r) ≡ strip j ++ map submission_of r.entries }
    ensures count { (j : Journal) (r : Round) → len (with_round j r) ≡ len j + length r.entries }
    ensures by_round { (rounds : List Round) → map submission_of (entries_of rounds) ≡ flat_map (λ r. map submission_of r.entries) rounds }
{}

/// A legal journal is still legal with one round more that is right after it, and each beginning of
/// it is legal. Its rows fit, no round is empty, and its version has risen by one a round at most,
/// never falls, and names one state.
pub fn right_rounds_keep_legal()
    ensures more { (j : Journal) (r : Round) → IsLegal j → IsRightAs r.kind j.opening.caps (fold j) (version_of j) r.entries → IsLegal (with_round j r) }
    ensures beginning { (j k : Journal) → IsJournalPrefix j k → IsLegal k → IsLegal j }
    ensures fits { (j : Journal) → IsLegal j → Fits (rows (fold j)) j.opening.caps }
    ensures some { (j : Journal) → IsLegal j → AllByRecursion (λ (r : Round). 1 ≤ length r.entries) j.rounds }
    ensures version { (j : Journal) → IsLegal j → (j.opening.version ≤ version_of j) × (version_of j ≤ j.opening.version + length j.rounds) }
    ensures rises { (j k : Journal) → IsJournalPrefix j k → IsLegal k → version_of j ≤ version_of k }
    ensures names { (j k : Journal) → IsJournalPrefix j k → IsLegal k → version_of k ≡ version_of j → fold k ≡ fold j }
    ensures rounds { (j : Journal) → IsLegal j → length j.rounds ≤ len j }
{}

/// Any run may be settled after a legal journal, and any list of runs in turn.
pub fn runs_are_settled_legally()
    ensures next { (j : Journal) (q : List Submission) → IsLegal j → IsRun q → Settles (fold j) (version_of j) j.opening.caps q (next_round j q) }
    ensures more { (j : Journal) (q : List Submission) → IsLegal j → IsRun q → IsLegal (with_round j (next_round j q)) }
    ensures all { (j : Journal) (qs : List (List Submission)) → IsLegal j → AllByRecursion IsRun qs → IsLegal (after_runs j qs) }
{}

/// Where a legal journal begins with a sound state, the states at all ends of its rounds are sound.
pub fn legal_journals_are_sound_throughout()
    ensures { (j : Journal) (n : ℕ) → IsLegal j → IsSound j.opening.state → IsSound (fold (upto j n)) }
{}
