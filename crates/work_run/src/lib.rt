//! Generated work as one call: the script of a seed is run on a switch in memory, a block of its lines at a
//! time, and what that comes to is summed up. The journal's lines are digested a round at a time, so that
//! no text of the whole journal is kept.
#![tactic(auto)]

mod blocks;
mod counts;
mod summing;
mod work;

pub use work::run_work;
