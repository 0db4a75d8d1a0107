//! The state of the switch as eight persistent maps, shared and never changed, and edits of it.
#![tactic(auto)]

mod delta;
mod edit;
mod look;
mod state;

pub use delta::StateDelta;
pub use edit::StateEdit;
pub use state::SwitchState;
