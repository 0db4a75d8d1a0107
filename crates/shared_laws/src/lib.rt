//! Laws of an agent that callers share, over plain lists: what its desk stands for, which rounds a call counts, and what
//! the rounds of a caller that is alone are. The definitions of what its calls promise stand here too.
//!
//! Each law is the contract of a function without a body: a caller has it by the call.
#![tactic(auto)]

mod alone;
mod counts;
mod desks;

pub use alone::callers_alone_settle_in_turn;
pub use counts::{counted_rounds_add_up, tries_without_bound_are_pumps};
pub use desks::{desks_grow, rounds_leave_the_rest, what_is_loaded_settles_next};
