//! Updates of an edit, and states built from acts.
#![tactic(auto)]

mod acts;
mod hops;
mod kind;
mod neighbors;
mod ports;
mod prefixes;
mod reason;
mod routes;
mod sync;
mod update;

pub use acts::{BuildFault, build};
pub use update::{Applied, apply};
