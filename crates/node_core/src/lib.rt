//! Nodes of persistent maps: a value, the version that made the node, and the version at which its
//! key was born. Nodes are shared and never changed, and only a `Forge` makes them. What stands around
//! nodes carries a `Stamp` of the forge that made it.
#![tactic(auto)]

mod forge;
mod node;
mod stamp;
#[cfg(test)]
mod tests;

pub use forge::{Forge, NodeFault};
pub use node::Node;
pub use stamp::Stamp;
