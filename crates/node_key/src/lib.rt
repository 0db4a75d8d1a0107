//! Keys of 192 bits, and the places of keys that begin with the same bits.
#![tactic(auto)]

mod fork;
mod key;
mod order;
#[cfg(test)]
mod tests;

pub use fork::Fork;
pub use key::NodeKey;
