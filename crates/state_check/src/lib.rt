//! Tests of states and edits: what differs after each kind of change, each question of rules against
//! a state of lists that are scanned, and worked examples of updates.
#![tactic(auto)]

#[cfg(test)]
mod ask;
#[cfg(test)]
mod change;
#[cfg(test)]
mod compare;
#[cfg(test)]
mod draws;
#[cfg(test)]
mod hop_tests;
#[cfg(test)]
mod parts;
#[cfg(test)]
mod update_tests;
