//! All rows of a state, table by table: each in one walk over the state's maps, a sort at most, and a
//! look-up or two for each row.
#![tactic(auto)]

mod distinct;
mod entry;
mod group;
mod host;
mod l2;
mod route;

pub use group::group_rows;
pub use host::host_rows;
pub use l2::l2_rows;
pub use route::route_rows;
