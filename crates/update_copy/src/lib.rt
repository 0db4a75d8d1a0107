//! Copies of updates.
#![tactic(auto)]

mod small;
mod whole;

pub use whole::copy_update;
