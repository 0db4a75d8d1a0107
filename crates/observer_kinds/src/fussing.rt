// An observer that refuses, for tests.
ghost use Rattle.std.specs.Prelude.{◌≡◌, ◌==◌, ◌+◌, ◌-◌, ◌^◌, min};
ghost use Rattle.std.specs.List.{list_any};
ghost use Rattle.std.specs.Result.{is_err};
ghost use Rattle.observers.specs.Watch.{IsTold, StandsAt, counts_of};
ghost use Rattle.switch_state.specs.Follows.{Follows};
ghost use Rattle.switch_state.specs.StateView.{nothing};
ghost use Rattle.observer_kinds.specs.Kinds.{fussy_watch};

use crate::counting::no_entries;
use net_types::{NoMemory, NumList};
use observers::StateObserver;
use state_counts::{count_state, counts_after};
use std::alloc::AllocError;
use switch_model::Totals;
use switch_state::SwitchState;

/// Stands at the last state of which it was told, and says that it was refused memory when it is told
/// of a state for the n-th time, for each n of a list. It is for tests of being told again.
#[derive(Drop)]
pub struct FussyObserver {
    version: u64,
    totals: Totals,
    refusals: u64,
    refused: NumList,
    calls: u64,
}

impl FussyObserver {
    /// One that stands at the state of nothing, and refuses to be told for these times, counted from
    /// 0. It takes no memory.
    pub fn new(refused: NumList) -> FussyObserver
        ensures version { result.version ≡ 0 }
        ensures totals { result.totals ≡ counts_of nothing }
        ensures refusals { result.refusals ≡ 0 }
        ensures refused { result.refused ≡ refused }
        ensures calls { result.calls ≡ 0 }
    {
        FussyObserver {
            version: 0,
            totals: no_entries(),
            refusals: 0,
            refused,
            calls: 0,
        }
    }

    /// Whether this is one of the times at which it refuses; counts the time.
    fn refuses(&mut self) -> bool
        ensures listed { result ≡ list_any (λ n. n == self.old.calls) self.old.refused }
        ensures counted { self.new ≡ record self.old { calls = min (self.old.calls + 1) (2 ^ 64 - 1) } }
    {
        let call = self.calls;
        self.calls = call.saturating_add(1);
        self.refused.as_slice().contains(&call)
    }
}

impl StateObserver for FussyObserver {
    ghost watch = { fussy_watch };

    fn state_begun(&mut self, state: &SwitchState) -> Result<(), NoMemory> {
        self.version = state.version();
        self.totals = count_state(state);
        self.refusals = 0;
        Ok(())
    }

    fn state_updated(&mut self, old: &SwitchState, new: &SwitchState) -> Result<(), NoMemory>
        requires stands { StandsAt old.now (fussy_watch self.old) }
        requires follows { Follows old.now new.now }
        ensures told { IsTold result new.now (fussy_watch self.old) (fussy_watch self.new) }
        ensures refuses { is_err result ≡ list_any (λ n. n == self.old.calls) self.old.refused }
        ensures refused { self.new.refused ≡ self.old.refused }
        ensures calls { self.new.calls ≡ min (self.old.calls + 1) (2 ^ 64 - 1) }
    {
        if self.refuses() {
            self.refusals = self.refusals.saturating_add(1);
            return Err(AllocError);
        }
        self.totals = counts_after(&self.totals, old, new);
        self.version = new.version();
        Ok(())
    }

    fn version(&self) -> u64 {
        self.version
    }

    fn totals(&self) -> Totals {
        self.totals
    }
}
