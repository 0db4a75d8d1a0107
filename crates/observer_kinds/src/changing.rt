// The observer that keeps what changed.
ghost use Rattle.std.specs.Prelude.{◌≡◌, [], OnErr, OnOk};
ghost use Rattle.observers.specs.Watch.{IsBegun, IsTold, StandsAt, counts_of};
ghost use Rattle.switch_state.specs.Follows.{Follows};
ghost use Rattle.switch_state.specs.StateView.{nothing};
ghost use Rattle.observer_kinds.specs.Changes.{changes_between};
ghost use Rattle.observer_kinds.specs.Kinds.{changes_watch};

use crate::counting::no_entries;
use crate::listing::{ChangeList, list_changes};
use net_types::NoMemory;
use observers::StateObserver;
use state_counts::{count_state, counts_after};
use std::alloc::{AllocError, Global};
use switch_model::Totals;
use switch_state::SwitchState;

/// Stands at the last state of which it was told, and keeps which keys differ between that state and
/// the one before. It may be refused the memory for them, and then it keeps all as it was.
#[derive(Drop)]
pub struct ChangesObserver {
    alloc: Global,
    version: u64,
    totals: Totals,
    refusals: u64,
    changes: ChangeList,
}

impl ChangesObserver {
    /// One that stands at the state of nothing, with no changes.
    pub fn new(alloc: Global) -> ChangesObserver
        ensures version { result.version ≡ 0 }
        ensures totals { result.totals ≡ counts_of nothing }
        ensures refusals { result.refusals ≡ 0 }
        ensures changes { result.changes ≡ [] }
    {
        ChangesObserver {
            alloc,
            version: 0,
            totals: no_entries(),
            refusals: 0,
            changes: ChangeList::new(alloc),
        }
    }

    /// The keys under which the last state differs from the one before, by part and then key: none
    /// after it was begun.
    pub fn changes(&self) -> &ChangeList
        ensures { result.now ≡ self.now.changes }
    {
        &self.changes
    }
}

impl StateObserver for ChangesObserver {
    ghost watch = { changes_watch };

    fn state_begun(&mut self, state: &SwitchState) -> Result<(), NoMemory>
        ensures begun { IsBegun result state.now (changes_watch self.old) (changes_watch self.new) }
        ensures changes { OnOk result (self.new.changes ≡ []) }
    {
        self.version = state.version();
        self.totals = count_state(state);
        self.refusals = 0;
        self.changes = ChangeList::new(self.alloc);
        Ok(())
    }

    fn state_updated(&mut self, old: &SwitchState, new: &SwitchState) -> Result<(), NoMemory>
        requires stands { StandsAt old.now (changes_watch self.old) }
        requires follows { Follows old.now new.now }
        ensures told { IsTold result new.now (changes_watch self.old) (changes_watch self.new) }
        ensures changes { OnOk result (self.new.changes ≡ changes_between old.now new.now) }
        ensures kept { OnErr result (self.new.changes ≡ self.old.changes) }
    {
        match list_changes(self.alloc, old, new) {
            Ok(changes) => {
                self.totals = counts_after(&self.totals, old, new);
                self.version = new.version();
                self.changes = changes;
                Ok(())
            }
            Err(AllocError) => {
                self.refusals = self.refusals.saturating_add(1);
                Err(AllocError)
            }
        }
    }

    fn version(&self) -> u64 {
        self.version
    }

    fn totals(&self) -> Totals {
        self.totals
    }
}
