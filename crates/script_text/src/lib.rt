//! The script of a run: what it starts on, its limit and callers, its base, and its phases.
//!
//! `specs/Grammar.antt` says what each line may say, and `specs/Script.antt` which lines make a
//! script and which line is the first bad one. A script is read from left to right in one pass.
#![tactic(auto)]

mod acts;
mod entries;
mod fault;
mod jobs;
mod laws;
mod page;
mod print;
mod routes;
mod script;
mod whole;

pub use fault::ScriptFault;
pub use laws::printed_is_read_back;
pub use page::Page;
pub use print::{print_update, write_update};
pub use script::{BaseList, Job, Line, LineList, PhaseList, Script, Start};
pub use whole::read_script;
