//! What stands in the maps of a state's parts: look-ups by key, and walks that answer the facts that
//! rules ask. No call takes memory.
#![tactic(auto)]

mod scan;

pub use scan::{
    has_neighbor_on, has_orphan, is_port_used, is_vlan_used, neighbor_under, record_under,
};
