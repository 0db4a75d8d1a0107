//! Persistent sets of 192-bit keys, seen as the list of their numbers by ascending key. They serve as
//! indexes: nothing is said of the nodes that they are made of.
#![tactic(auto)]

mod set;
mod walk;

pub use node_key::NodeKey;
pub use set::KeySet;
pub use walk::KeyWalk;
