//! A state of the switch as lists that are scanned: slow and simple, a yardstick for faster states.
#![tactic(auto)]

mod looker;
mod part;
mod scan;

pub use looker::PlainLooker;
