//! The rows that differ between two states, as a commit takes them, and all rows of a state.
#![tactic(auto)]

mod changes;
mod tables;

pub use changes::{changes_between, row_changes, rows_of};
