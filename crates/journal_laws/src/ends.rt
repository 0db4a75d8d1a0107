// The ends of a journal's rounds.
ghost use Rattle.std.specs.Prelude.{◌≡◌, ◌≤◌, ◌⊎◌, ◌↔◌, ℕ, take};
ghost use Rattle.journal_laws.specs.Beginnings.{HasBeginning};
ghost use Rattle.switch_model.specs.declared.journal.Round.{Round};
ghost use Rattle.switch_model.specs.Journal.{Journal, IsJournalPrefix, IsRoundEnd, entries, fold, len, upto, version_of, with_round};
ghost use Rattle.switch_model.specs.Legal.{IsLegal};

/// A count is the end of a round exactly where the journal up to it has so many entries, and
/// exactly where some beginning of the journal has. The least is 0 and the greatest all entries.
pub fn round_ends_are_beginnings()
    ensures upto { (j : Journal) (n : ℕ) → IsRoundEnd j n ↔ (len (upto j n) ≡ n) }
    ensures beginning { (j : Journal) (n : ℕ) → IsRoundEnd j n ↔ HasBeginning j n }
    ensures same { (j k : Journal) → IsLegal k → IsJournalPrefix j k → upto k (len j) ≡ j }
    ensures first { (j : Journal) → IsRoundEnd j 0 }
    ensures last { (j : Journal) → IsRoundEnd j (len j) }
    ensures order { (j : Journal) (n m : ℕ) → n ≤ m → IsJournalPrefix (upto j n) (upto j m) }
    ensures within { (j : Journal) (n : ℕ) → IsRoundEnd j n → n ≤ len j }
    ensures more { (j : Journal) (r : Round) (n : ℕ) → IsRoundEnd (with_round j r) n ↔ (IsRoundEnd j n ⊎ (n ≡ len (with_round j r))) }
{}

/// The end of a round stays one as the journal grows, and what the journal was up to it stays: its
/// entries, the state and the version that they give.
pub fn what_stood_at_an_end_stays()
    ensures end { (j k : Journal) (n : ℕ) → IsJournalPrefix j k → IsRoundEnd j n → IsRoundEnd k n }
    ensures first { (j : Journal) (n : ℕ) → IsRoundEnd j n → entries (upto j n) ≡ take n (entries j) }
    ensures entries { (j k : Journal) (n : ℕ) → IsJournalPrefix j k → IsRoundEnd j n → entries (upto k n) ≡ entries (upto j n) }
    ensures state { (j k : Journal) (n : ℕ) → IsJournalPrefix j k → IsRoundEnd j n → fold (upto k n) ≡ fold (upto j n) }
    ensures version { (j k : Journal) (n : ℕ) → IsJournalPrefix j k → IsRoundEnd j n → version_of (upto k n) ≡ version_of (upto j n) }
{}
