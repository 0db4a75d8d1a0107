//! The chip rows that a state gives to a station and to a host, over any state.
#![tactic(auto)]

mod host;
mod station;

pub use host::{host_row, live};
pub use station::l2_row;
