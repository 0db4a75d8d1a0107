//! The subnets of interfaces by VRF and prefix, kept beside the interfaces.
#![tactic(auto)]

mod key;
mod overlap;
mod record;
mod subnets;

pub use key::{Subnet, subnet_at, subnet_key};
pub use subnets::Subnets;
