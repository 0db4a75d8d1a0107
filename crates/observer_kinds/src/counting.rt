// The observer that counts.
ghost use Rattle.std.specs.Prelude.{◌≡◌};
ghost use Rattle.observers.specs.Watch.{counts_of};
ghost use Rattle.switch_state.specs.StateView.{nothing};
ghost use Rattle.observer_kinds.specs.Kinds.{totals_watch};

use net_types::NoMemory;
use observers::StateObserver;
use state_counts::{count_state, counts_after};
use switch_model::Totals;
use switch_state::SwitchState;

/// Stands at the last state of which it was told. It takes no memory and never refuses. Its counts are
/// kept up from what differs between the two states: only its first state is counted.
#[derive(Drop)]
pub struct TotalsObserver {
    version: u64,
    totals: Totals,
}

impl TotalsObserver {
    /// One that stands at the state of nothing.
    pub fn new() -> TotalsObserver
        ensures stands { result ≡ record { version = 0; totals = counts_of nothing } }
    {
        TotalsObserver {
            version: 0,
            totals: no_entries(),
        }
    }
}

/// The counts of a state of nothing.
pub(crate) fn no_entries() -> Totals
    ensures { result ≡ counts_of nothing }
{
    Totals {
        ports: 0,
        up: 0,
        vlans: 0,
        intfs: 0,
        macs: 0,
        neighbors: 0,
        routes: 0,
        fib: 0,
    }
}

impl StateObserver for TotalsObserver {
    ghost watch = { totals_watch };

    fn state_begun(&mut self, state: &SwitchState) -> Result<(), NoMemory> {
        self.version = state.version();
        self.totals = count_state(state);
        Ok(())
    }

    fn state_updated(&mut self, old: &SwitchState, new: &SwitchState) -> Result<(), NoMemory> {
        self.totals = counts_after(&self.totals, old, new);
        self.version = new.version();
        Ok(())
    }

    fn version(&self) -> u64 {
        self.version
    }

    fn totals(&self) -> Totals {
        self.totals
    }
}
