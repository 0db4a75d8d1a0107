//! Laws of states: when one follows another, and how few nodes the changes between them make.
#![tactic(auto)]

mod following;
mod touching;

pub use following::{follows_itself, follows_on};
pub use touching::touched_paths_are_few;
