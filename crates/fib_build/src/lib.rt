//! The forwarding information base of an edit's routes, made by look-ups of the next key, with no
//! entry written that doesn't differ.
#![tactic(auto)]

mod build;
mod entry;
mod next;

pub use build::build_fib;
pub use entry::refresh_entry;
