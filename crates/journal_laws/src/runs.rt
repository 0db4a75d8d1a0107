// Runs of submissions.
ghost use Rattle.std.specs.Prelude.{◌≡◌, ◌≢◌, ◌≤◌, ◌∷◌, [], ℕ, List, length, take};
ghost use Rattle.journal_laws.specs.Runs.{IsRunOf};
ghost use Rattle.switch_model.specs.declared.act.Submission.{Submission};
ghost use Rattle.switch_model.specs.Legal.{IsRun};
ghost use Rattle.switch_model.specs.Round.{run};

/// What is pending has exactly one run, which is its own run, as its first submissions are, however
/// many of them; and what is past the first 64 plays no part.
pub fn runs_are_runs()
    ensures of { (p : List Submission) → p ≢ [] → IsRunOf p (run p) }
    ensures only { (p q : List Submission) → IsRunOf p q → q ≡ run p }
    ensures own { (p : List Submission) → p ≢ [] → IsRun (run p) }
    ensures cut { (q : List Submission) (n : ℕ) → IsRun q → 1 ≤ n → IsRun (take n q) }
    ensures first { (p : List Submission) (n : ℕ) → 1 ≤ n → run (take n p) ≡ take n (run p) }
    ensures first_64 { (p : List Submission) → run (take 64 p) ≡ run p }
    ensures single { (s : Submission) → run (s ∷ []) ≡ s ∷ [] }
{}
