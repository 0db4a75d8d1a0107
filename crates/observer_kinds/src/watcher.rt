// An observer of any of the kinds.
ghost use Rattle.observer_kinds.specs.Kinds.{watch_of};

use crate::changing::ChangesObserver;
use crate::counting::TotalsObserver;
use crate::fussing::FussyObserver;
use net_types::NoMemory;
use observers::StateObserver;
use switch_model::Totals;
use switch_state::SwitchState;

/// An observer of one of the kinds, so that a list may hold several kinds.
#[derive(Drop)]
pub enum Watcher {
    Totals(TotalsObserver),
    Changes(ChangesObserver),
    Fussy(FussyObserver),
}

impl StateObserver for Watcher {
    ghost watch = { watch_of };

    fn state_begun(&mut self, state: &SwitchState) -> Result<(), NoMemory> {
        match self {
            Watcher::Totals(observer) => observer.state_begun(state),
            Watcher::Changes(observer) => observer.state_begun(state),
            Watcher::Fussy(observer) => observer.state_begun(state),
        }
    }

    fn state_updated(&mut self, old: &SwitchState, new: &SwitchState) -> Result<(), NoMemory> {
        match self {
            Watcher::Totals(observer) => observer.state_updated(old, new),
            Watcher::Changes(observer) => observer.state_updated(old, new),
            Watcher::Fussy(observer) => observer.state_updated(old, new),
        }
    }

    fn version(&self) -> u64 {
        match self {
            Watcher::Totals(observer) => observer.version(),
            Watcher::Changes(observer) => observer.version(),
            Watcher::Fussy(observer) => observer.version(),
        }
    }

    fn totals(&self) -> Totals {
        match self {
            Watcher::Totals(observer) => observer.totals(),
            Watcher::Changes(observer) => observer.totals(),
            Watcher::Fussy(observer) => observer.totals(),
        }
    }
}
