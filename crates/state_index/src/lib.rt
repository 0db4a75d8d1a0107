//! What a state keeps beside its interfaces: their subnets by prefix, and they themselves by VLAN.
#![tactic(auto)]

mod index;
mod members;

pub use index::IntfIndex;
pub use members::{Member, Members, member_key};
