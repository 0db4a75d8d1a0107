//! The rows of a chip's tables by ascending key, with keys in the place of slots; and the first table
//! whose rows differ between two such lists.
#![tactic(auto)]

mod compare;
mod groups;
mod hosts;
mod lists;
mod read;
mod routes;
mod sorted;

pub use chip_core::MarkList;
pub use compare::first_difference;
pub use lists::RowLists;
pub use read::rows_of;
