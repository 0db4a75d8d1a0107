//! Laws of a line that is served on a pass of a shared agent: what it does to what its caller has seen, to the tickets
//! that wait, and to the replies.
//!
//! Each law is the contract of a function without a body: a caller has it by the call.
#![tactic(auto)]

mod served;

pub use served::lines_that_are_served_are_told;
