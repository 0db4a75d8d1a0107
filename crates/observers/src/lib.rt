//! Who is told of the states that a switch publishes, one after another.
#![tactic(auto)]

mod observer;
mod observers;

pub use observer::StateObserver;
pub use observers::Observers;
