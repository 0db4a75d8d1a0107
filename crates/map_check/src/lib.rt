//! Tests of the persistent map, of sets of keys and of deltas.
#![tactic(auto)]

#[cfg(test)]
mod delta_tests;
#[cfg(test)]
mod map_tests;
#[cfg(test)]
mod set_tests;
