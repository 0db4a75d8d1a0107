//! What is published after each round: the state, and the journal that led to it; and what a run would make
//! of it, worked out before anything is written to a chip.
#![tactic(auto)]

mod attempt;
mod caps;
mod parts;
mod published;
mod refusal;
mod snapshot;

pub use attempt::Attempt;
pub use caps::ChipCaps;
pub use parts::{first_rows, with_fib};
pub use published::Published;
pub use refusal::{Refusal, Refusals};
pub use snapshot::Snapshot;
