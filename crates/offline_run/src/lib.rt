//! The commands of the program that wait for nobody: the check of a saved text.
#![tactic(auto)]

mod check;
mod offline;
mod text;

pub use offline::{LONGEST_SAVED, offline_main};
