//! Rows by ascending key in chunks of bounded length: a row that comes or goes moves only rows of
//! its own chunk.
#![tactic(auto)]

mod chunk;
mod chunks;
mod edits;
mod joins;
mod table;

pub use table::SortedTable;

#[cfg(test)]
mod tests;
