// The journal's entries and rounds.
ghost use Rattle.std.specs.Prelude.{◌≡◌, IfOk};

use crate::act::Update;
use crate::verdict::Verdict;
use net_types::{ItemList, NoMemory, Shared};
use std::alloc::Global;

/// A submission as it was settled. The version is that of the state after its round.
#[derive(Debug, Drop)]
pub struct Entry {
    pub caller: u32,
    pub seq: u64,
    pub update: Shared<Update>,
    pub verdict: Verdict,
    pub version: u64,
}

impl Entry {
    /// The same entry, by one more link to its update.
    pub fn copy(&self) -> Result<Entry, NoMemory>
        ensures same { IfOk result (λ copy. copy ≡ self.now) }
    {
        Ok(Entry {
            caller: self.caller,
            seq: self.seq,
            update: self.update.share()?,
            verdict: self.verdict,
            version: self.version,
        })
    }
}

/// Whether a round settled a whole run of submissions, or the first of a run that didn't fit.
#[derive(Clone, Copy, Debug, PartialEq, Eq)]
pub enum RoundKind {
    Whole,
    One,
}

pub type EntryList = ItemList<Entry>;

/// Submissions that were settled together.
#[derive(Debug, Drop)]
pub struct Round {
    pub kind: RoundKind,
    pub entries: EntryList,
}

impl Round {
    /// The same round: its list is copied, and each entry by one more link to its update.
    pub fn copy(&self, alloc: Global) -> Result<Round, NoMemory>
        ensures same { IfOk result (λ copy. copy ≡ self.now) }
    {
        let entries = copy_entries(alloc, self.entries.as_slice())?;
        Ok(Round {
            kind: self.kind,
            entries,
        })
    }
}

fn copy_entries(alloc: Global, entries: &[Entry]) -> Result<EntryList, NoMemory>
    ensures { IfOk result (λ copy. copy ≡ entries.now) }
{
    let mut copy = EntryList::new(alloc);
    for entry in entries {
        copy.push(entry.copy()?)?;
    }
    Ok(copy)
}

pub type RoundList = ItemList<Round>;
