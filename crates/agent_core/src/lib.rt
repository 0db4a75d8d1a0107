//! The core of a switch: a chip, what was published of it, and who is told. Runs of updates are settled in
//! rounds.
#![tactic(auto)]

mod fault;
mod laws;
mod opening;
mod rounds;
mod switch_core;
mod write;

pub use core_published::{Published, Snapshot};
pub use fault::OpenFault;
pub use laws::rounds_in_turn_add_to_a_legal_journal;
pub use rounds::RoundDone;
pub use run_queue::{Pending, PushFault, Run};
pub use switch_core::Core;
