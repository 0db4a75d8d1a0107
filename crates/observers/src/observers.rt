// Observers in their order.
ghost use Rattle.std.specs.Prelude.{◌≡◌, ◌<◌, IsSomeAnd, length, map, slice_get};
ghost use Rattle.std.specs.Option.{option_map};
ghost use Rattle.switch_state.specs.Follows.{Follows};
ghost use Rattle.observers.specs.Watch.{IsBegun, IsTold, StandsAt};
ghost use Rattle.observers.specs.Turns.{ChangesAt};

use crate::observer::StateObserver;
use net_types::NoMemory;
use switch_model::Totals;
use switch_state::SwitchState;

/// The observers of a switch, in their order.
#[derive(Drop)]
pub struct Observers<O = Box<dyn StateObserver + Send>> {
    list: Vec<O>,
}

impl<O: StateObserver> Observers<O> {
    /// The observers of the list, without taking memory.
    pub fn new(list: Vec<O>) -> Observers<O>
        ensures list { result.list ≡ list }
    {
        Observers { list }
    }

    /// How many there are.
    pub fn len(&self) -> usize
        ensures length { result ≡ length self.now.list.items }
    {
        self.list.len()
    }

    /// The version and the counts at which the n-th stands, counted from 0: none exactly where there
    /// is no n-th.
    pub fn standing(&self, n: usize) -> Option<(u64, Totals)>
        ensures standing { result ≡ option_map (λ o. ((O.watch o).version, (O.watch o).totals)) (slice_get self.now.list.items n) }
    {
        if n < self.list.len() {
            let one = &self.list[n];
            Some((one.version(), one.totals()))
        } else {
            None
        }
    }

    /// Tells the n-th of the state from which later ones come. The others stay as they are.
    pub fn begin(&mut self, n: usize, state: &SwitchState) -> Result<(), NoMemory>
        requires there { n < length self.old.list.items }
        ensures begun { ChangesAt (IsBegun result state.now) n (map O.watch self.old.list.items) (map O.watch self.new.list.items) }
    {
        let one = &mut self.list[n];
        one.state_begun(state)
    }

    /// Tells the n-th of a state that follows the one at which it stands. The others stay as they are.
    pub fn update(&mut self, n: usize, old: &SwitchState, new: &SwitchState) -> Result<(), NoMemory>
        requires stands { IsSomeAnd (slice_get (map O.watch self.old.list.items) n) (StandsAt old.now) }
        requires follows { Follows old.now new.now }
        ensures told { ChangesAt (IsTold result new.now) n (map O.watch self.old.list.items) (map O.watch self.new.list.items) }
    {
        let one = &mut self.list[n];
        one.state_updated(old, new)
    }
}
