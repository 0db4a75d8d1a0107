//! Tests of `net_types`: the edges of each range, the orders, and each call once. They stand by
//! themselves, so that a change of a test proves nothing above `net_types` again.
#![tactic(auto)]

#[cfg(test)]
mod address_tests;
#[cfg(test)]
mod number_tests;
