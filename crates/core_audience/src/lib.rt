//! The observers of a core, each with the state at which it stands.
#![tactic(auto)]

ghost use Rattle.std.specs.Prelude.{◌≡◌, ◌⊎◌, ◌<◌, ◌≤◌, ℕ, [], IfOk, IfSome, OnOk, length, map, slice_get};
ghost use Rattle.std.specs.List.{AllByRecursion, AllZip};
ghost use Rattle.core_laws.specs.Audience.{WereBegun, WereTold, AudienceView};
ghost use Rattle.observers.specs.Turns.{ChangesAt, WasTold};
ghost use Rattle.observers.specs.Watch.{StandsAt};
ghost use Rattle.switch_state.specs.Follows.{Follows};

use net_types::NoMemory;
use observers::{Observers, StateObserver};
use std::alloc::Global;
use std::marker::Model;
use std::mem;
use switch_state::SwitchState;

/// Observers in their order, and for each one a share of the state at which it stands.
#[derive(Drop)]
pub struct Audience<O: StateObserver> {
    observers: Observers<O>,
    kept: Vec<SwitchState>,
}

impl<O: StateObserver> Model for Audience<O> {
    ghost use Rattle.std.specs.Prelude.{map};
    ghost use Rattle.std.specs.List.{AllZip};
    ghost use Rattle.core_laws.specs.Audience.{AudienceView};
    ghost use Rattle.observers.specs.Watch.{StandsAt};

    ghost Value = { AudienceView };

    ghost view = { λ a. record { watches = map O.watch a.observers.list.items; kept = a.kept.items } };

    ghost invariant = { λ a. AllZip StandsAt a.kept.items (map O.watch a.observers.list.items) };
}

impl<O: StateObserver> Audience<O> {
    /// Tells each observer of the state from which later ones come. After a refusal of memory the
    /// observers are dropped.
    pub fn begin(
        alloc: Global,
        observers: Observers<O>,
        state: &SwitchState,
    ) -> Result<Audience<O>, NoMemory>
        ensures begun { IfOk result (λ a. WereBegun state.now (record { watches = map O.watch observers.list.items; kept = [] }) a) }
    {
        let mut observers = observers;
        let kept = begin_all(alloc, &mut observers, state)?;
        Ok(Audience { observers, kept })
    }

    /// How many observers there are.
    pub fn len(&self) -> usize
        ensures length { result ≡ length self.now.watches }
    {
        self.observers.len()
    }

    /// Shares of a state, one for each observer.
    pub fn shares(&self, alloc: Global, state: &SwitchState) -> Result<Vec<SwitchState>, NoMemory>
        ensures shares { IfOk result (λ list. AllByRecursion (λ s. s ≡ state.now) list.items) }
        ensures enough { IfOk result (λ list. length list.items ≡ length self.now.watches) }
    {
        let mut list = Vec::new(alloc);
        for _ in 0..self.len() {
            list.push(state.share()?)?;
        }
        Ok(list)
    }

    /// Tells each observer of a state, from the state at which it stands, and keeps one of the shares for
    /// each that stands at the new state then. It takes no memory: what an observer takes is its own.
    pub fn tell(&mut self, state: &SwitchState, shares: Vec<SwitchState>)
        requires shares { AllByRecursion (λ s. s ≡ state.now) shares.items }
        requires enough { length shares.items ≡ length self.old.watches }
        requires follows { AllByRecursion (λ k. Follows k state.now) self.old.kept }
        ensures told { WereTold state.now self.old self.new }
    {
        let mut shares = shares;
        self.tell_all(state, &mut shares);
        drop(shares);
    }

    /// The observers.
    pub fn into_observers(self) -> Observers<O>
        ensures watches { map O.watch result.list.items ≡ self.watches }
    {
        let Audience { observers, kept } = self;
        drop(kept);
        observers
    }

    fn tell_all(&mut self, state: &SwitchState, shares: &mut Vec<SwitchState>)
        requires shares { AllByRecursion (λ s. s ≡ state.now) shares.old.items }
        requires enough { length shares.old.items ≡ length self.old.watches }
        requires follows { AllByRecursion (λ k. Follows k state.now) self.old.kept }
        ensures told { WereTold state.now self.old self.new }
    {
        self.shape();
        for n in 0..self.len() {
            self.tell_one(n, state, &mut shares[n]);
        }
        self.shape();
    }

    // One observer. The share takes the place of the state that is kept for it.
    fn tell_one(&mut self, n: usize, state: &SwitchState, share: &mut SwitchState)
        requires there { n < length self.old.kept }
        requires follows { IfSome (slice_get self.old.kept n) (λ k. Follows k state.now) }
        requires share { share.old ≡ state.now }
        ensures watches { ChangesAt (WasTold state.now) n self.old.watches self.new.watches }
        ensures kept { ChangesAt (λ before after. (after ≡ before) ⊎ (after ≡ state.now)) n self.old.kept self.new.kept }
    {
        let old = &self.kept[n];
        match self.observers.update(n, old, state) {
            Ok(()) => {
                mem::swap(&mut self.kept[n], share);
                return;
            }
            Err(NoMemory) => return,
        }
    }

    // There is a state for each observer, at which it stands. It does nothing when it runs.
    fn shape(&self)
        ensures even { length self.now.kept ≡ length self.now.watches }
        ensures stands { AllZip StandsAt self.now.kept self.now.watches }
    {
        let _ = &self.kept;
    }
}

// Begins each observer, and takes a share of the state for each.
fn begin_all<O: StateObserver>(
    alloc: Global,
    observers: &mut Observers<O>,
    state: &SwitchState,
) -> Result<Vec<SwitchState>, NoMemory>
    ensures begun { IfOk result (λ kept. WereBegun state.now (record { watches = map O.watch observers.old.list.items; kept = [] }) (record { watches = map O.watch observers.new.list.items; kept = kept.items })) }
{
    let mut kept = Vec::new(alloc);
    for n in 0..observers.len() {
        observers.begin(n, state)?;
        kept.push(state.share()?)?;
    }
    Ok(kept)
}
