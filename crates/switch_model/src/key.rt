// The keys of neighbours and routes.
ghost use Rattle.std.specs.Prelude.{◌≡◌};
ghost use Rattle.switch_model.specs.StateKeys.{neighbor_cmp, rib_cmp};

use net_types::{Client, Intf, Ip, Prefix, Vrf};
use std::cmp::Ordering;

/// The key of a neighbour: an ip on an interface.
#[derive(Clone, Copy, Debug, PartialEq, Eq, PartialOrd, Ord, Hash)]
pub struct NeighborKey {
    pub intf: Intf,
    pub ip: Ip,
}

/// The key of a route in the routing information base: each client has one route to a prefix.
#[derive(Clone, Copy, Debug, PartialEq, Eq, PartialOrd, Ord, Hash)]
pub struct RibKey {
    pub vrf: Vrf,
    pub prefix: Prefix,
    pub client: Client,
}

/// The order of two keys: by interface, and then by ip.
pub fn compare_neighbor_keys(a: &NeighborKey, b: &NeighborKey) -> Ordering
    ensures { result ≡ neighbor_cmp a.now b.now }
{
    a.cmp(b)
}

/// The order of two keys: by VRF, then by prefix, and then by client.
pub fn compare_rib_keys(a: &RibKey, b: &RibKey) -> Ordering
    ensures { result ≡ rib_cmp a.now b.now }
{
    a.cmp(b)
}
