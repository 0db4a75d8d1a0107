//! A book of turns: who holds which of two values when, for every schedule.
//!
//! The *desk* stands for the list of all submissions and for the journal of the rounds that settled them; the *chip
//! side* stands for the journal. Callers, on threads of their own, take the two values out of a [`TurnBook`] and put
//! them back. Each has a [`CallerPass`]: it knows its caller's number and how many submissions that caller has counted,
//! and tells, in proofs alone, what it has seen and done.
#![tactic(auto)]

mod book;
mod plays;
mod rule;
mod steps;
mod value;
mod view;

pub use book::{CallerPass, NoMemory, TurnBook};
pub use value::{Settles, Stands};
