//! Tests of saved texts: which test each text fails first, and that a text that was written is written again from
//! what it was read as.
#![tactic(auto)]

#[cfg(test)]
mod kept_tests;
#[cfg(test)]
mod read_tests;
