//! The words that the program is called with: `run`, `run NAME`, `check NAME` and
//! `gen SEED COUNT`.
//!
//! `specs/Words.antt` says which words a command has. A `clap` command divides them into their
//! form and their values, and names and numbers are read by this project's own rules.
#![tactic(auto)]

mod command;
mod parser;
mod values;

pub use command::{Command, WordsFault, read_words};
