//! The forwarding information base after a change of the routes: only entries are made anew that the
//! change may touch, with one scan of the routes for each level of routes that go by one another, and
//! no scan where no key moved.
#![tactic(auto)]

mod affected;
mod keys;
mod refresh;

pub use refresh::refresh_fib;
