//! Why updates of VLANs, ports, interfaces and their addresses are refused, over any state.
#![tactic(auto)]

mod interfaces;
mod reason;
mod vlans;

pub use reason::port_reason;
