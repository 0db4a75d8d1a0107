//! The forwarding information base of an edit, looked up in shares of the edit's own maps: made from
//! nothing, or made anew from the keys that the edit moved.
#![tactic(auto)]

mod make;
mod renew;

pub use make::make_fib;
pub use renew::renew_fib;
