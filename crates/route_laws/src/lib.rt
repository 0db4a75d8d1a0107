//! Laws of routes: which prefixes have a best route, which of them an ip matches and how the longest
//! one is found, what an entry of the FIB depends on, and which entries a change leaves as they were.
//!
//! Each law is the contract of a function without a body: a caller has it by the call.
#![tactic(auto)]

mod descent;
mod fib;
mod moved;
mod routes;

pub use descent::{last_key_is_last, steps_keep_what_matches};
pub use fib::{
    entries_are_local, entries_are_of_ends, fibs_have_each_entry, hosts_go_before_cpu_and_drop,
};
pub use moved::{moved_keys_are_one_list, unaffected_entries_stay};
pub use routes::{
    best_keys_have_best_routes, best_routes_are_nearest, best_routes_rest_on_their_entries,
    longest_match_is_longest,
};
