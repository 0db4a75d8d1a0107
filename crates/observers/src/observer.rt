// One observer of states.
ghost use Rattle.std.specs.Prelude.{◌≡◌};
ghost use Rattle.switch_state.specs.Follows.{Follows};
ghost use Rattle.observers.specs.Watch.{Watch, IsBegun, IsTold, StandsAt};

use net_types::NoMemory;
use switch_model::Totals;
use switch_state::SwitchState;

/// Who is told of states that follow one another, and stands at the last one of which it was told: at
/// its version, and at the counts of its maps.
///
/// An observer that is sure never refuses; whether it is sure never changes. One that isn't may be
/// refused memory, and counts its refusals, up to the last number of 64 bits.
pub trait StateObserver: Drop {
    ghost watch: { Self → Watch };

    /// It is told of the state from which the later ones come, and stands there with no refusals
    /// counted. After a refusal of memory nothing is known of where it stands.
    fn state_begun(&mut self, state: &SwitchState) -> Result<(), NoMemory>
        ensures begun { IsBegun result state.now (watch self.old) (watch self.new) };

    /// It is told of a state that follows the one at which it stands, and stands there then. After a
    /// refusal of memory it stands where it stood, and its count of refusals rose.
    fn state_updated(&mut self, old: &SwitchState, new: &SwitchState) -> Result<(), NoMemory>
        requires stands { StandsAt old.now (watch self.old) }
        requires follows { Follows old.now new.now }
        ensures told { IsTold result new.now (watch self.old) (watch self.new) };

    /// The version of the state at which it stands.
    fn version(&self) -> u64
        ensures version { result ≡ (watch self.now).version };

    /// The counts of the state at which it stands.
    fn totals(&self) -> Totals
        ensures totals { result ≡ (watch self.now).totals };
}

impl StateObserver for Box<dyn StateObserver + Send> {
    ghost watch = { λ b. (StateObserver-box b).watch b.value };

    fn state_begun(&mut self, state: &SwitchState) -> Result<(), NoMemory> {
        (**self).state_begun(state)
    }

    fn state_updated(&mut self, old: &SwitchState, new: &SwitchState) -> Result<(), NoMemory> {
        (**self).state_updated(old, new)
    }

    fn version(&self) -> u64 {
        (**self).version()
    }

    fn totals(&self) -> Totals {
        (**self).totals()
    }
}
