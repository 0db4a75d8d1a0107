//! The journal of what is published as it is printed: a line for each round, and below it one for each of
//! its entries. It is printed from where it is kept, whole or a round at a time.
#![tactic(auto)]

mod journal;

pub use journal::{Written, write_journal, write_next};
