//! Next hops followed to their ends through chains of routes of any length. Each route on the way is
//! visited once: the time goes by the number of distinct routes, not of paths.
#![tactic(auto)]

mod gather;
mod lead;
mod resolver;

pub use resolver::HopResolver;
