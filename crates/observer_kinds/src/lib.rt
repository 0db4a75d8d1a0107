//! Observers of states: one that counts and never refuses, one that keeps what changed, and, for
//! tests, one that refuses memory at chosen calls.
#![tactic(auto)]

mod changing;
mod counting;
mod fussing;
mod listing;
mod watcher;

pub use changing::ChangesObserver;
pub use counting::TotalsObserver;
pub use fussing::FussyObserver;
pub use listing::{ChangeList, Part, PartChange};
pub use watcher::Watcher;
