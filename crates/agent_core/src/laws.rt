// Rounds of a core in turn.
ghost use Rattle.std.specs.Prelude.{◌≤◌, ◌++◌, List};
ghost use Rattle.std.specs.List.{AllByRecursion};
ghost use Rattle.core_laws.specs.Published.{CoreView, journal_of};
ghost use Rattle.core_laws.specs.Rounds.{AreSettled};
ghost use Rattle.switch_model.specs.declared.act.Submission.{Submission};
ghost use Rattle.switch_model.specs.Journal.{IsJournalPrefix};
ghost use Rattle.switch_model.specs.Legal.{IsLegal, IsRun};
ghost use Rattle.switch_state.specs.Follows.{Follows};

/// Rounds of runs in turn keep the journal legal, and only add to it: the journal of an earlier core begins
/// that of a later one. The version never falls. Rounds after rounds are rounds in turn.
pub fn rounds_in_turn_add_to_a_legal_journal()
    ensures legal { (qs : List (List Submission)) (old new : CoreView) → IsLegal (journal_of old.published) → AllByRecursion IsRun qs → AreSettled qs old new → IsLegal (journal_of new.published) }
    ensures added { (qs : List (List Submission)) (old new : CoreView) → AreSettled qs old new → IsJournalPrefix (journal_of old.published) (journal_of new.published) }
    ensures version { (qs : List (List Submission)) (old new : CoreView) → AreSettled qs old new → Follows old.published.state old.published.state → old.published.state.version ≤ new.published.state.version }
    ensures joined { (ps qs : List (List Submission)) (first second third : CoreView) → AreSettled ps first second → AreSettled qs second third → AreSettled (ps ++ qs) first third }
{}
