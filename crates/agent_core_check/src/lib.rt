//! Tests of a core over a chip in memory: scripts of updates, with the rounds that settle them, the chip's
//! tables after them, and where the observers stand.
#![tactic(auto)]

#[cfg(test)]
mod cases;
#[cfg(test)]
mod opening;
#[cfg(test)]
mod print;
#[cfg(test)]
mod row_tests;
#[cfg(test)]
mod settling;
