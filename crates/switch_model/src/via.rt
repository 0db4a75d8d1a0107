// What a route does with packets, as callers give it.
use net_types::{HopList, ItemList, Prefix};

/// What a route does with packets.
#[derive(Debug, Drop)]
pub enum Via {
    /// Send them to one of these next hops.
    Hops(HopList),
    /// Hand them to the CPU.
    ToCpu,
    Discard,
}

/// Prefixes, each with what its route does, in the order given.
pub type RouteList = ItemList<(Prefix, Via)>;
