//! How many entries the parts of a state have: counted by walks, or kept up from what differs between
//! two states that follow one another.
#![tactic(auto)]

mod counting;
mod following;
mod state;

pub use state::{count_state, counts_after};
