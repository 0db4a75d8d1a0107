//! Laws of what updates touch: a round leaves all but the touched keys as it was, and the touched keys
//! are all that the chip rows need to know of what differs.
//!
//! Each law is the contract of a function without a body: a caller has it by the call.
#![tactic(auto)]

mod touched;

pub use touched::{
    entries_leave_what_they_do_not_touch, touched_fibs_are_one_list, touched_keys_are_differences,
};
