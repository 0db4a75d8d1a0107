// What holds of all saved texts, whatever a program calls.
ghost use Rattle.std.specs.Prelude.{◌≡◌, ◌≢◌, ℕ, List, Result, Err};
ghost use Rattle.saved_state.specs.declared.fault.SavedFault.{SavedFault};
ghost use Rattle.saved_state.specs.declared.fault.SavedFault.TheVariants.{NoMemory};
ghost use Rattle.saved_state.specs.declared.saved.Saved.{Saved};
ghost use Rattle.saved_state.specs.Reading.{Reads, SameAnswer};

/// Each text has one answer, but for want of memory: a refusal comes exactly where its test is the
/// first that fails.
pub fn each_text_has_one_answer()
    ensures { (bytes : List ℕ) (a b : Result Saved SavedFault) → Reads bytes a → Reads bytes b → a ≢ Err NoMemory → b ≢ Err NoMemory → SameAnswer a b }
{}
