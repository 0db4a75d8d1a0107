//! Lines and their words, read from left to right, with the place of the first bad word.
//!
//! `specs/Grammar.antt` says what a word may be, and `specs/Faults.antt` which word is the first
//! bad one. What a line says is told by a list of tokens, so that a grammar reads like its
//! productions.
#![tactic(auto)]

mod cursor;
mod fault;
mod lines;
mod number;
mod words;

pub use cursor::Cursor;
pub use fault::{BadWord, ReadFault};
pub use lines::{all_allowed, is_skipped, next_line};
pub use words::{count, is};
