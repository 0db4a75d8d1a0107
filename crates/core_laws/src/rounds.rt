// Rounds of a core.
ghost use Rattle.std.specs.Prelude.{◌≡◌, List, take};
ghost use Rattle.core_laws.specs.Published.{CoreView, IsCore, IsPublished, journal_of};
ghost use Rattle.core_laws.specs.Rounds.{AreSettled, IsOne, IsSettled, IsTooMuch, IsWhole};
ghost use Rattle.journal_laws.specs.Settling.{after_runs};
ghost use Rattle.switch_model.specs.declared.act.Submission.{Submission};
ghost use Rattle.switch_model.specs.Legal.{IsRun};
ghost use Rattle.switch_state.specs.Follows.{Follows};

/// A core that settled the whole run, or its first submission after the whole run was tried and undone,
/// has the round that settles the run: the one that comes next in its journal.
pub fn rounds_settle_runs()
    ensures whole { (q : List Submission) (old new : CoreView) → IsCore old → IsPublished old.published → IsWhole q old new → IsSettled q old new }
    ensures one { (q first : List Submission) (old mid new : CoreView) → IsRun q → first ≡ take 1 q → IsCore old → IsPublished old.published → IsTooMuch q old mid → IsOne first mid new → IsSettled q old new }
{}

/// After rounds of any runs in turn the core's journal is the one that they lead to, from the same
/// opening; its state follows the first one, and the capacities are as before.
pub fn rounds_in_turn_are_one_journal()
    ensures journal { (qs : List (List Submission)) (old new : CoreView) → AreSettled qs old new → journal_of new.published ≡ after_runs (journal_of old.published) qs }
    ensures follows { (qs : List (List Submission)) (old new : CoreView) → Follows old.published.state old.published.state → AreSettled qs old new → Follows old.published.state new.published.state }
    ensures base { (qs : List (List Submission)) (old new : CoreView) → AreSettled qs old new → new.published.base ≡ old.published.base }
    ensures caps { (qs : List (List Submission)) (old new : CoreView) → AreSettled qs old new → new.caps ≡ old.caps }
{}
