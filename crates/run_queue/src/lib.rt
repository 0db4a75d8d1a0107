//! Submissions that wait to be settled, and the run of them that is settled next.
#![tactic(auto)]

mod pending;
mod run;

pub use pending::{Pending, PushFault};
pub use run::Run;
