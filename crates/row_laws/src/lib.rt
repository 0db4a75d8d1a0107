//! Laws of chip rows: the row under one key by what it names, and which rows a change of the state can
//! touch.
//!
//! Each law is the contract of a function without a body: a caller has it by the call.
#![tactic(auto)]

mod hops;
mod row_at;
mod touching;

pub use hops::hop_keys_tell_hosts_and_groups;
pub use row_at::rows_by_key;
pub use touching::rows_differ_only_where_touched;
