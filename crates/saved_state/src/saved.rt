// What was saved.
use net_types::{Caps, Tables};
use switch_state::SwitchState;

/// What was saved: a state, and a chip's tables with its capacities.
#[derive(Drop)]
pub struct Saved {
    /// The chip's capacities.
    pub caps: Caps,
    /// The state at its saved version, with no FIB.
    pub state: SwitchState,
    /// The chip's tables, slots included. No rule of a chip was tried on them but ranges and order.
    pub tables: Tables,
}
