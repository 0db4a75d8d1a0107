//! The report of what is published: how the run was opened, what each line of the script was told, the
//! journal in rounds, the rows of the chip's tables, and where the observers stand. The journal is printed
//! from where it is kept, an entry at a time.
#![tactic(auto)]

mod report;

pub use report::report_bytes;
