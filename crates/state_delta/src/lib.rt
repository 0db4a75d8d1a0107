//! What differs between two maps, the second of which follows the first.
#![tactic(auto)]

mod change;
mod cut;
mod delta;
mod search;

pub use change::{Change, Kind};
pub use delta::{MapDelta, map_delta};
