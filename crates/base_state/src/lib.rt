//! The state that a cold start begins with: the acts of a script's base in turn, from the empty state.
#![tactic(auto)]

mod base;

pub use base::{Base, lay};
