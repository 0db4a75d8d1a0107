//! Tests of `io_edge`: sources, sinks and stores in memory and over std, read and written to their
//! ends, and the texts of their faults.
#![tactic(auto)]

#[cfg(test)]
mod memory_tests;
#[cfg(test)]
mod standard_tests;
