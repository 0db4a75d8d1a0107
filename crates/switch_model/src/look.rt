// How rules, routes and resolvers look at a state.
ghost use Rattle.std.specs.Prelude.{◌≡◌, IfOk, is_some, option_copied, option_map};
ghost use Rattle.std.specs.Ordering.{nat_cmp};
ghost use Rattle.keyed.specs.Keyed.{at};
ghost use Rattle.switch_model.specs.BestRoute.{best};
ghost use Rattle.switch_model.specs.Facts.{intf_of_vlan, vlan_used, port_used, has_neighbor, overlaps_other, orphans};
ghost use Rattle.switch_model.specs.Fib.{fib};
ghost use Rattle.switch_model.specs.Looking.{best_route, resolved_entry, key_after};
ghost use Rattle.switch_model.specs.LongestMatch.{best_keys, longest_match};
ghost use Rattle.switch_model.specs.PlainState.{PlainState, Rib, vlan_at, port_at, intf_at, mac_at, neighbor_at};

use crate::record::{IntfRec, MacRec, NeighborRec, PortRec, RouteRec};
use net_types::{Addr, Client, HopSet, Intf, Ip, Mac, NoMemory, Port, Prefix, RouteKey, Vlan, Vrf};
use std::alloc::Global;

/// A state as the rules of updates ask it. Contracts see it as a plain state. No call takes memory.
pub trait Lookup {
    ghost plain: { Self → PlainState };

    /// Whether the VLAN is there.
    fn vlan(&self, vlan: Vlan) -> bool
        ensures { result ≡ is_some (vlan_at (plain self.now) vlan) };

    fn port(&self, port: Port) -> Option<PortRec>
        ensures { result ≡ port_at (plain self.now) port };

    fn intf(&self, intf: Intf) -> Option<&IntfRec>
        ensures { option_copied result ≡ intf_at (plain self.now) intf };

    /// The first interface of the VLAN.
    fn intf_of_vlan(&self, vlan: Vlan) -> Option<Intf>
        ensures { result ≡ intf_of_vlan (plain self.now) vlan };

    fn neighbor(&self, intf: Intf, ip: Ip) -> Option<NeighborRec>
        ensures { result ≡ neighbor_at (plain self.now) (record { intf = intf; ip = ip }) };

    /// The station in the VLAN.
    fn mac(&self, vlan: Vlan, mac: Mac) -> Option<MacRec>
        ensures { result ≡ mac_at (plain self.now) (record { vlan = vlan; mac = mac }) };

    /// Whether a port, an interface or a station is in the VLAN.
    fn vlan_used(&self, vlan: Vlan) -> bool
        ensures { result ≡ vlan_used (plain self.now) vlan };

    /// Whether a station or a reachable neighbour is behind the port.
    fn port_used(&self, port: Port) -> bool
        ensures { result ≡ port_used (plain self.now) port };

    /// Whether the interface has a neighbour.
    fn has_neighbor(&self, intf: Intf) -> bool
        ensures { result ≡ has_neighbor (plain self.now) intf };

    /// Whether the prefix overlaps a subnet of another interface of the interface's VRF.
    fn overlaps_other(&self, intf: Intf, prefix: &Prefix) -> bool
        ensures { result ≡ overlaps_other (plain self.now) intf prefix.now };

    /// Whether some neighbour of the interface isn't on it without that address.
    fn orphans(&self, intf: Intf, addr: &Addr) -> bool
        ensures { result ≡ orphans (plain self.now) intf addr.now };
}

/// The best route to a prefix.
#[derive(Clone, Copy, Debug)]
pub enum Best<'a> {
    /// The prefix is a subnet of that interface.
    Connected(Intf),
    /// The route of that client.
    Route(Client, &'a RouteRec),
}

/// Routes as the FIB asks for them. Contracts see the interfaces and routes that they are found in.
/// No call takes memory.
pub trait BestRoutes {
    ghost rib: { Self → Rib };

    /// The best route to the prefix.
    fn best(&self, vrf: Vrf, prefix: &Prefix) -> Option<Best<'_>>
        ensures { option_map best_route result ≡ best (rib self.now) vrf prefix.now };

    /// The longest prefix with a best route that contains the ip, and that route.
    fn longest(&self, vrf: Vrf, ip: Ip) -> Option<(Prefix, Best<'_>)>
        ensures { option_map (λ x. (x.0, best_route x.1)) result ≡ longest_match (rib self.now) vrf ip };

    /// The VRF of an interface.
    fn intf_vrf(&self, intf: Intf) -> Option<Vrf>
        ensures { result ≡ option_map (λ r. r.vrf) (at nat_cmp intf (rib self.now).intfs) };

    /// The first key with a best route, or the first past a key.
    fn after(&self, key: Option<RouteKey>) -> Option<RouteKey>
        ensures { result ≡ key_after key (best_keys (rib self.now)) };
}

/// What becomes of packets to a prefix.
#[derive(Debug, Drop)]
pub enum Resolved {
    /// The prefix is a subnet of that interface.
    Connected(Intf),
    /// Packets go to one of these direct hops, each an ip on an interface.
    Forward(HopSet),
    ToCpu,
    Discard,
    /// The prefix has no entry.
    Nothing,
}

/// Routes with their next hops followed to their ends.
pub trait Resolver {
    ghost rib: { Self → Rib };

    /// What becomes of packets to the prefix.
    fn resolve(&self, alloc: Global, vrf: Vrf, prefix: &Prefix) -> Result<Resolved, NoMemory>
        ensures { IfOk result (λ found. resolved_entry found ≡ fib (rib self.now) vrf prefix.now) };
}
