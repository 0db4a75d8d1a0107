//! Tests of the model's values and of the yardsticks.
#![tactic(auto)]

#[cfg(test)]
mod looker_tests;
#[cfg(test)]
mod resolver_tests;
#[cfg(test)]
mod value_tests;
