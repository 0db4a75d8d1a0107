//! The program as one call: a script is read, run on a switch of its capacities, and reported.
#![tactic(auto)]

mod report;
mod run;
mod standing;
mod top;

pub use run_outcome::Status;
pub use top::{LONGEST_SCRIPT, agent_main};
