// Walks over the maps of a state's parts.
ghost use Rattle.std.specs.Prelude.{◌≡◌, ◌==◌, ◌&&◌, ◌||◌, not, true, All, option_copied, option_map};
ghost use Rattle.std.specs.List.{list_any, take_while};
ghost use Rattle.std.specs.Ordering.{nat_cmp};
ghost use Rattle.keyed.specs.Keyed.{at};
ghost use Rattle.keyed.specs.Ranges.{onward};
ghost use Rattle.keyed.specs.Sets.{delete};
ghost use Rattle.switch_model.specs.Addresses.{addr_cmp, is_on};
ghost use Rattle.switch_model.specs.Facts.{addrs_of, is_behind};
ghost use Rattle.switch_model.specs.StateKeys.{neighbor_cmp};
ghost use Rattle.state_keys.specs.PartKeys.{port_of, intf_of, station_of, arp_of, ndp_of, IsStationNumber};
ghost use Rattle.state_scan.specs.Listed.{listed};
ghost use Rattle.state_scan.specs.Neighbors.{neighbors};
ghost use Rattle.state_scan.specs.Neighbors.{AreNeighbors};

use net_types::{Addr, Intf, Ip, Port, Vlan};
use node_map::{NodeKey, NodeMap};
use state_keys::{arp_ip, intf_key, is_in_vlan, is_on_intf, ndp_ip, neighbor_key, vlan_key};
use switch_model::{IntfRec, MacRec, NeighborKey, NeighborRec, PortRec};

/// The record under a key.
pub fn record_under<'a, T>(map: &'a NodeMap<T>, key: &NodeKey) -> Option<&'a T>
    ensures { option_copied result ≡ option_map (λ n. n.value) (at nat_cmp key.now map.now.entries) }
{
    match map.get(key) {
        Some(node) => Some(node.value()),
        None => None,
    }
}

/// The neighbour under a key.
pub fn neighbor_under<'a>(
    arps: &'a NodeMap<NeighborRec>,
    ndps: &'a NodeMap<NeighborRec>,
    key: &NeighborKey,
) -> Option<&'a NeighborRec>
    requires { AreNeighbors arps.now ndps.now }
    ensures { option_copied result ≡ at neighbor_cmp key.now (neighbors arps.now ndps.now) }
{
    match key.ip {
        Ip::V4(_) => record_under(arps, &neighbor_key(key)),
        Ip::V6(_) => record_under(ndps, &neighbor_key(key)),
    }
}

/// Whether a port or a station is in the VLAN. Of the stations it looks at the VLAN's own alone.
pub fn is_vlan_used(ports: &NodeMap<PortRec>, macs: &NodeMap<MacRec>, vlan: Vlan) -> bool
    requires { All (λ e. IsStationNumber e.0) macs.now.entries }
    ensures { result ≡ (list_any (λ e. e.1.vlan == vlan) (listed port_of ports.now.entries) || list_any (λ e. e.0.vlan == vlan) (listed station_of macs.now.entries)) }
{
    has_station_in(macs, vlan) || has_port_in(ports, vlan)
}

fn has_port_in(ports: &NodeMap<PortRec>, vlan: Vlan) -> bool
    ensures { result ≡ list_any (λ e. e.1.vlan == vlan) (listed port_of ports.now.entries) }
{
    some_port_in(ports, vlan)
}

fn some_port_in(ports: &NodeMap<PortRec>, vlan: Vlan) -> bool
    ensures { result ≡ list_any (λ e. e.1.value.vlan == vlan) ports.now.entries }
{
    ports.walk().any(|(_, node)| node.value().vlan == vlan)
}

fn has_station_in(macs: &NodeMap<MacRec>, vlan: Vlan) -> bool
    requires { All (λ e. IsStationNumber e.0) macs.now.entries }
    ensures { result ≡ list_any (λ e. e.0.vlan == vlan) (listed station_of macs.now.entries) }
{
    macs.shape();
    let first = vlan_key(vlan);
    some_station_from(macs, &first, vlan)
}

// Whether the stations from the key on begin with one in the VLAN.
fn some_station_from(macs: &NodeMap<MacRec>, first: &NodeKey, vlan: Vlan) -> bool
    ensures { result ≡ list_any (λ e. true) (take_while (λ e. (station_of e.0).vlan == vlan) (onward nat_cmp first.now macs.now.entries)) }
{
    macs.walk_from(first)
        .take_while(|entry| is_in_vlan(entry.0, vlan))
        .any(|_| true)
}

/// Whether a station or a reachable neighbour is behind the port.
pub fn is_port_used(
    macs: &NodeMap<MacRec>,
    arps: &NodeMap<NeighborRec>,
    ndps: &NodeMap<NeighborRec>,
    port: Port,
) -> bool
    requires { AreNeighbors arps.now ndps.now }
    ensures { result ≡ (list_any (λ e. e.1.port == port) (listed station_of macs.now.entries) || list_any (λ e. is_behind port e.1) (neighbors arps.now ndps.now)) }
{
    has_station_behind(macs, port) || has_neighbor_behind(arps, ndps, port)
}

fn has_station_behind(macs: &NodeMap<MacRec>, port: Port) -> bool
    ensures { result ≡ list_any (λ e. e.1.value.port == port) macs.now.entries }
{
    macs.walk().any(|(_, node)| node.value().port == port)
}

fn has_neighbor_behind(arps: &NodeMap<NeighborRec>, ndps: &NodeMap<NeighborRec>, port: Port) -> bool
    requires { AreNeighbors arps.now ndps.now }
    ensures { result ≡ list_any (λ e. is_behind port e.1) (neighbors arps.now ndps.now) }
{
    some_behind(arps, port) || some_behind(ndps, port)
}

fn some_behind(map: &NodeMap<NeighborRec>, port: Port) -> bool
    ensures { result ≡ list_any (λ e. is_behind port e.1.value) map.now.entries }
{
    map.walk().any(|(_, node)| is_behind(port, node.value()))
}

/// Whether a neighbour is on the interface. It looks at the interface's own neighbours alone.
pub fn has_neighbor_on(arps: &NodeMap<NeighborRec>, ndps: &NodeMap<NeighborRec>, intf: Intf) -> bool
    requires { AreNeighbors arps.now ndps.now }
    ensures { result ≡ list_any (λ e. e.0.intf == intf) (neighbors arps.now ndps.now) }
{
    arps.shape();
    ndps.shape();
    let first = intf_key(intf);
    some_on(arps, &first, intf) || some_on(ndps, &first, intf)
}

// Whether the neighbours from the key on begin with one on the interface.
fn some_on(map: &NodeMap<NeighborRec>, first: &NodeKey, intf: Intf) -> bool
    ensures { result ≡ list_any (λ e. true) (take_while (λ e. intf_of e.0 == intf) (onward nat_cmp first.now map.now.entries)) }
{
    map.walk_from(first)
        .take_while(|entry| is_on_intf(entry.0, intf))
        .any(|_| true)
}

/// Whether some neighbour of the interface isn't on it without that address. It looks at the
/// interface's own neighbours alone.
pub fn has_orphan(
    arps: &NodeMap<NeighborRec>,
    ndps: &NodeMap<NeighborRec>,
    own: Option<&IntfRec>,
    intf: Intf,
    addr: &Addr,
) -> bool
    requires { AreNeighbors arps.now ndps.now }
    ensures { result ≡ list_any (λ e. (e.0.intf == intf) && not (is_on (delete addr_cmp addr.now (addrs_of (option_copied own.entry))) e.0.ip)) (neighbors arps.now ndps.now) }
{
    arps.shape();
    ndps.shape();
    let first = intf_key(intf);
    some_arp_strays(arps, &first, own, intf, addr) || some_ndp_strays(ndps, &first, own, intf, addr)
}

fn some_arp_strays(
    arps: &NodeMap<NeighborRec>,
    first: &NodeKey,
    own: Option<&IntfRec>,
    intf: Intf,
    addr: &Addr,
) -> bool
    ensures { result ≡ list_any (λ e. not (is_on (delete addr_cmp addr.now (addrs_of (option_copied own.entry))) (arp_of e.0).ip)) (take_while (λ e. intf_of e.0 == intf) (onward nat_cmp first.now arps.now.entries)) }
{
    arps.walk_from(first)
        .take_while(|entry| is_on_intf(entry.0, intf))
        .any(|(key, _)| !stays_on(own, addr, arp_ip(key)))
}

fn some_ndp_strays(
    ndps: &NodeMap<NeighborRec>,
    first: &NodeKey,
    own: Option<&IntfRec>,
    intf: Intf,
    addr: &Addr,
) -> bool
    ensures { result ≡ list_any (λ e. not (is_on (delete addr_cmp addr.now (addrs_of (option_copied own.entry))) (ndp_of e.0).ip)) (take_while (λ e. intf_of e.0 == intf) (onward nat_cmp first.now ndps.now.entries)) }
{
    ndps.walk_from(first)
        .take_while(|entry| is_on_intf(entry.0, intf))
        .any(|(key, _)| !stays_on(own, addr, ndp_ip(key)))
}

/// A reachable neighbour that is behind the port.
fn is_behind(port: Port, rec: &NeighborRec) -> bool
    ensures { result ≡ is_behind port rec.now }
{
    match rec {
        NeighborRec::Pending => false,
        NeighborRec::Reachable { port: its_port, .. } => *its_port == port,
    }
}

/// Whether the ip is on the interface without that address. One that isn't there has none.
fn stays_on(intf: Option<&IntfRec>, addr: &Addr, ip: Ip) -> bool
    ensures { result ≡ is_on (delete addr_cmp addr.now (addrs_of (option_copied intf.entry))) ip }
{
    match intf {
        Some(rec) => rec.addrs.is_on_without(addr, ip),
        None => ip.is_link_local(),
    }
}
