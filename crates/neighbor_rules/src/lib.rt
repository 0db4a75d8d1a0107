//! Why updates of neighbours and stations are refused, over any state.
#![tactic(auto)]

mod places;
mod reason;

pub use reason::neighbor_reason;
