//! The plain model of the switch: its updates, what makes one invalid, what a valid one does, the
//! best route to a prefix and where its hops lead, the chip rows that a state gives, and the
//! journal in which each submission is settled.
//!
//! The definitions stand in `specs/`; everything above is proved against them.
#![tactic(auto)]

mod act;
mod addrs;
mod journal;
mod key;
mod laws;
mod look;
mod query;
mod record;
mod reply;
mod verdict;
mod via;

pub use act::{Act, ActList, Submission, Update};
pub use addrs::AddrList;
pub use journal::{Entry, EntryList, Round, RoundKind, RoundList};
pub use key::{NeighborKey, RibKey, compare_neighbor_keys, compare_rib_keys};
pub use laws::{
    effects_are_on_touched_keys, entries_touch_as_their_updates, short_chains_reach_all,
    touched_keys_add_up,
};
pub use look::{Best, BestRoutes, Lookup, Resolved, Resolver};
pub use query::Query;
pub use record::{FibEntry, IntfRec, MacRec, NeighborRec, PortRec, RouteRec, Totals, VlanRec};
pub use reply::{Reply, ReplyList};
pub use verdict::{Reason, Verdict};
pub use via::{RouteList, Via};
