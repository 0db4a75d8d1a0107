//! The journal of settled rounds, shared and never changed: a journal with one more round shares with the
//! one before all but the nodes on the paths to its new entries.
#![tactic(auto)]

ghost use Rattle.std.specs.Prelude.{◌≡◌, ◌<◌, ◌≤◌, ◌+◌, ◌^◌, ◌++◌, ◌∷◌, [], IfOk, length, slice_get};
ghost use Rattle.std.specs.Option.{option_copied};
ghost use Rattle.switch_model.specs.Journal.{entries_of};
ghost use Rattle.shared_journal.specs.Ends.{end_of, is_whole};

use net_types::NoMemory;
use shared_list::SharedList;
use std::alloc::Global;
use std::marker::Model;
use switch_model::{Entry, Round, RoundKind};

/// Where a round ends: the first position after its entries, and its kind.
#[derive(Clone, Copy, Debug, PartialEq, Eq)]
pub struct RoundEnd {
    pub end: u64,
    pub kind: RoundKind,
}

/// Rounds in the order in which they were settled, each with one or more entries. It keeps the entries
/// of all rounds in one list, by position, and where each round ends.
#[derive(Drop)]
pub struct SharedJournal {
    entries: SharedList<Entry>,
    ends: SharedList<RoundEnd>,
}

impl Model for SharedJournal {
    ghost use Rattle.std.specs.Prelude.{List, length};
    ghost use Rattle.switch_model.specs.declared.journal.Round.{Round};
    ghost use Rattle.shared_journal.specs.Ends.{AreEnds, cut};

    ghost Value = { List Round };

    ghost view = { λ j. cut 0 j.ends j.entries };

    ghost invariant = { λ j. AreEnds 0 j.ends (length j.entries) };
}

impl SharedJournal {
    /// The journal of no rounds.
    pub fn new() -> SharedJournal
        ensures rounds { result ≡ [] }
    {
        SharedJournal {
            entries: SharedList::new(),
            ends: SharedList::new(),
        }
    }

    /// How many entries there are.
    pub fn front(&self) -> u64
        ensures entries { result ≡ length (entries_of self.now) }
    {
        self.entries.len()
    }

    /// How many rounds there are.
    pub fn rounds(&self) -> u64
        ensures rounds { result ≡ length self.now }
    {
        self.ends.len()
    }

    /// The entry at a position, counted from 0 over all rounds: none exactly past the last.
    pub fn entry(&self, position: u64) -> Option<&Entry>
        ensures entry { option_copied result ≡ slice_get (entries_of self.now) position }
    {
        self.entries.get(position)
    }

    /// The first position after the entries of the k-th round, counted from 0, and whether the round is
    /// whole: none exactly where there is no k-th round.
    pub fn round_end(&self, k: u64) -> Option<(u64, bool)>
        ensures end { result ≡ end_of self.now k }
    {
        match self.ends.get(k) {
            None => None,
            Some(round) => Some((round.end, is_whole(round.kind))),
        }
    }

    /// One more owner of the same journal. It costs two links.
    pub fn share(&self) -> Result<SharedJournal, NoMemory>
        ensures same { IfOk result (λ j. j ≡ self.now) }
    {
        let entries = self.entries.share()?;
        let ends = self.ends.share()?;
        Ok(SharedJournal { entries, ends })
    }

    /// The journal with one more round, which has an entry. The journal itself stays as it is.
    pub fn extended(&self, alloc: Global, round: Round) -> Result<SharedJournal, NoMemory>
        requires some { 1 ≤ length round.entries }
        requires room { length (entries_of self.now) + length round.entries < 2 ^ 64 }
        ensures rounds { IfOk result (λ j. j ≡ self.now ++ round ∷ []) }
    {
        let Round { kind, entries } = round;
        let entries = self.entries.append(alloc, entries.into_vec())?;
        let end = entries.len();
        let ends = self.ends.push(alloc, RoundEnd { end, kind })?;
        Ok(SharedJournal { entries, ends })
    }
}

fn is_whole(kind: RoundKind) -> bool
    ensures { result ≡ is_whole kind }
{
    match kind {
        RoundKind::Whole => true,
        RoundKind::One => false,
    }
}
