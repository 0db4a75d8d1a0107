//! An agent that callers on threads of their own share. Each submits updates, settles them, and reads what is
//! published; and whoever needs a round runs it.
//!
//! The *desk* has the updates that wait, and a share of what was published last. The *chip side* has the core with its
//! chip, and room for a run. Each of the two is with one caller at a time. A round takes the chip side, holds the desk
//! briefly to load the run of what waits, settles the run in the core while others submit and read, and holds the desk
//! briefly again to publish.
#![tactic(auto)]

mod agent;
mod desk;
mod ground;
mod passes;
mod rounds;
mod seats;
mod side;

pub use agent::{Agent, Closed, Settled, Ticket};
pub use agent_core::Snapshot;
pub use desk::{Desk, SubmitFault};
pub use ground::{Ground, SureMarks};
pub use passes::Pass;
pub use side::Side;
