//! The smallest callers of a book of turns: a desk and a chip side of plain lists, and threads that submit to them and
//! settle them.
#![tactic(auto)]

mod callers;
mod threads;
mod values;

pub use callers::{settle, submit};
pub use threads::{settle_all, settle_from_two, submit_all, submit_from_two};
pub use values::{Chip, Desk, Pair, Submission};

#[cfg(test)]
mod tests;
