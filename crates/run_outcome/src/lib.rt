//! What a run of the program comes to: how it may end, why a script isn't run, and what its report says
//! where it is.
#![tactic(auto)]

mod order;
mod refusal;
mod status;

pub use order::in_line_order;
pub use refusal::{Refusal, RunFault, SavedRefusal, refusal_line, status_of, unread};
pub use status::Status;
