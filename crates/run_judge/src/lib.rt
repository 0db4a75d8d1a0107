//! The updates of a run judged in turn, each after the accepted ones before it, and the round that they
//! make.
#![tactic(auto)]

mod entries;
mod judge;

pub use entries::round_with;
pub use judge::{any_accepted, judge_all};
