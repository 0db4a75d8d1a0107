//! Tests of the whole program: scripts, statuses, and what is written.
#![tactic(auto)]

#[cfg(test)]
mod run_tests;
#[cfg(test)]
mod runs;
