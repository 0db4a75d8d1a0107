//! Commits to the chip in memory, at the edge of its capacities: trials for tests.
#![tactic(auto)]

mod cases;
mod lists;
mod rows;
mod runs;

pub use cases::{
    Case, first_host_case, group_case, host_case, l2_case, moved_route_case, one_more_route_case,
    route_case, two_more_routes_case,
};
pub use runs::{Outcome, six_writes, trial, written};

#[cfg(test)]
mod tests;
