//! What the callers of a script are told, and why it is true: the run of a script of one caller, line
//! by line; what it means that replies are true of a journal, for any number of callers; and laws of
//! both.
//!
//! Each law is the contract of a function without a body: a caller has it by the call.
#![tactic(auto)]

mod callers;
mod solo;

pub use callers::{all_is_settled_in_the_end, lines_keep_what_is_told, what_was_told_stays_true};
pub use solo::{solo_is_reached, solo_is_told};
