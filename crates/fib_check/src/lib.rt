//! Tests of the FIB that is made over the maps of an edit: scripts of updates with the entries that they
//! give, and random updates beside a resolver over plain lists.
#![tactic(auto)]

#[cfg(test)]
mod draws;
#[cfg(test)]
mod print;
#[cfg(test)]
mod random_tests;
#[cfg(test)]
mod script_tests;
#[cfg(test)]
mod scripts;
