//! Writes all rows that changed to a chip, or none of them.
#![tactic(auto)]

mod groups;
mod hosts;
mod l2;
mod log;
mod members;
mod routes;
mod transaction;
mod undo;
mod write;

pub use log::UndoLog;
pub use transaction::commit;
