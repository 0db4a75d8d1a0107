//! The rows that differ between two lists of rows, table by table: both lists are gone through once,
//! side by side.
#![tactic(auto)]

mod compare;
mod front;
mod tables;

pub use compare::changes_between;
pub use tables::{group_changes, host_changes, l2_changes, route_changes};
