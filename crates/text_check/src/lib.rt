//! Tests of texts: addresses, words, and whole scripts.
#![tactic(auto)]

#[cfg(test)]
mod address_tests;
#[cfg(test)]
mod print_tests;
#[cfg(test)]
mod script_tests;
#[cfg(test)]
mod word_tests;
