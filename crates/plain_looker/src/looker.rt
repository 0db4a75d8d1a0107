// A plain state as a value.
ghost use Rattle.std.specs.Prelude.{◌≡◌, ◌==◌, ◌&&◌, if◌then◌else◌, filter, OnErr, OnOk, option_copied, option_map};
ghost use Rattle.std.specs.List.{list_any, reduce};
ghost use Rattle.std.specs.Ordering.{nat_cmp};
ghost use Rattle.keyed.specs.Keyed.{put, without};
ghost use Rattle.keyed.specs.Sets.{delete};
ghost use Rattle.net_types.specs.KeyOrder.{l2_cmp};
ghost use Rattle.net_types.specs.Prefix.{overlaps};
ghost use Rattle.switch_model.specs.Addresses.{addr_cmp, is_on, same_addr, subnets};
ghost use Rattle.switch_model.specs.BestRoute.{connected_to, nearer, routes_to};
ghost use Rattle.switch_model.specs.Facts.{addrs_of, is_behind, is_other};
ghost use Rattle.switch_model.specs.Looking.{best_route};
ghost use Rattle.switch_model.specs.LongestMatch.{with_best};
ghost use Rattle.switch_model.specs.PlainState.{empty, rib, route_at};
ghost use Rattle.plain_looker.specs.Scan.{nearer_or};
ghost use Rattle.switch_model.specs.StateKeys.{neighbor_cmp, rib_cmp};

use crate::part::Part;
use crate::scan::{Containing, Past, least_key};
use net_types::{
    Addr, Intf, Ip, L2Key, Mac, NoMemory, Port, Prefix, RouteKey, Vlan, Vrf, compare_prefixes,
};
use std::alloc::Global;
use std::marker::Model;
use switch_model::{
    Best, BestRoutes, IntfRec, Lookup, MacRec, NeighborKey, NeighborRec, PortRec, RibKey, RouteRec,
    VlanRec,
};

/// A state of the switch as lists that are scanned. It is slow and simple, a yardstick for faster
/// states: it holds whatever is put into it, and tests no update.
#[derive(Debug, Drop)]
pub struct PlainLooker {
    vlans: Part<Vlan, VlanRec>,
    ports: Part<Port, PortRec>,
    intfs: Part<Intf, IntfRec>,
    macs: Part<L2Key, MacRec>,
    neighbors: Part<NeighborKey, NeighborRec>,
    routes: Part<RibKey, RouteRec>,
}

impl Model for PlainLooker {
    ghost use Rattle.switch_model.specs.PlainState.{PlainState};

    ghost Value = { PlainState };

    ghost view = { λ s. record { vlans = s.vlans; ports = s.ports; intfs = s.intfs; macs = s.macs; neighbors = s.neighbors; routes = s.routes } };
}

impl PlainLooker {
    pub fn new(alloc: Global) -> PlainLooker
        ensures { result ≡ empty }
    {
        PlainLooker {
            vlans: Part::new(alloc),
            ports: Part::new(alloc),
            intfs: Part::new(alloc),
            macs: Part::new(alloc),
            neighbors: Part::new(alloc),
            routes: Part::new(alloc),
        }
    }

    /// Puts a VLAN, in the place of the one that is there, as the other calls named `put_` do of
    /// their parts. After a refusal of memory all is as before.
    pub fn put_vlan(&mut self, vlan: Vlan, rec: VlanRec) -> Result<(), NoMemory>
        ensures ok { OnOk result (self.new ≡ record self.old { vlans = put nat_cmp vlan rec self.old.vlans }) }
        ensures err { OnErr result (self.new ≡ self.old) }
    {
        self.vlans.put(vlan, rec)
    }

    /// Takes a VLAN away, where it is there, as the other calls named `cut_` do of their parts.
    pub fn cut_vlan(&mut self, vlan: Vlan)
        ensures { self.new ≡ record self.old { vlans = without nat_cmp vlan self.old.vlans } }
    {
        self.vlans.cut(&vlan);
    }

    pub fn put_port(&mut self, port: Port, rec: PortRec) -> Result<(), NoMemory>
        ensures ok { OnOk result (self.new ≡ record self.old { ports = put nat_cmp port rec self.old.ports }) }
        ensures err { OnErr result (self.new ≡ self.old) }
    {
        self.ports.put(port, rec)
    }

    pub fn cut_port(&mut self, port: Port)
        ensures { self.new ≡ record self.old { ports = without nat_cmp port self.old.ports } }
    {
        self.ports.cut(&port);
    }

    pub fn put_intf(&mut self, intf: Intf, rec: IntfRec) -> Result<(), NoMemory>
        ensures ok { OnOk result (self.new ≡ record self.old { intfs = put nat_cmp intf rec self.old.intfs }) }
        ensures err { OnErr result (self.new ≡ self.old) }
    {
        self.intfs.put(intf, rec)
    }

    pub fn cut_intf(&mut self, intf: Intf)
        ensures { self.new ≡ record self.old { intfs = without nat_cmp intf self.old.intfs } }
    {
        self.intfs.cut(&intf);
    }

    pub fn put_mac(&mut self, key: L2Key, rec: MacRec) -> Result<(), NoMemory>
        ensures ok { OnOk result (self.new ≡ record self.old { macs = put l2_cmp key rec self.old.macs }) }
        ensures err { OnErr result (self.new ≡ self.old) }
    {
        self.macs.put(key, rec)
    }

    pub fn cut_mac(&mut self, key: &L2Key)
        ensures { self.new ≡ record self.old { macs = without l2_cmp key.now self.old.macs } }
    {
        self.macs.cut(key);
    }

    pub fn put_neighbor(&mut self, key: NeighborKey, rec: NeighborRec) -> Result<(), NoMemory>
        ensures ok { OnOk result (self.new ≡ record self.old { neighbors = put neighbor_cmp key rec self.old.neighbors }) }
        ensures err { OnErr result (self.new ≡ self.old) }
    {
        self.neighbors.put(key, rec)
    }

    pub fn cut_neighbor(&mut self, key: &NeighborKey)
        ensures { self.new ≡ record self.old { neighbors = without neighbor_cmp key.now self.old.neighbors } }
    {
        self.neighbors.cut(key);
    }

    pub fn put_route(&mut self, key: RibKey, rec: RouteRec) -> Result<(), NoMemory>
        ensures ok { OnOk result (self.new ≡ record self.old { routes = put rib_cmp key rec self.old.routes }) }
        ensures err { OnErr result (self.new ≡ self.old) }
    {
        self.routes.put(key, rec)?;
        Ok(())
    }

    pub fn cut_route(&mut self, key: &RibKey)
        ensures { self.new ≡ record self.old { routes = without rib_cmp key.now self.old.routes } }
    {
        self.routes.cut(key);
    }

    /// The route of a client to a prefix.
    pub fn route(&self, key: &RibKey) -> Option<&RouteRec>
        ensures { option_copied result ≡ route_at self.now key.now }
    {
        self.routes.get(key)
    }

    fn has_port_in(&self, vlan: Vlan) -> bool
        ensures { result ≡ list_any (λ e. e.1.vlan == vlan) self.now.ports }
    {
        self.ports.entries().iter().any(|e| e.1.vlan == vlan)
    }

    fn has_intf_in(&self, vlan: Vlan) -> bool
        ensures { result ≡ list_any (λ e. e.1.vlan == vlan) self.now.intfs }
    {
        self.intfs.entries().iter().any(|e| e.1.vlan == vlan)
    }

    fn has_station_in(&self, vlan: Vlan) -> bool
        ensures { result ≡ list_any (λ e. e.0.vlan == vlan) self.now.macs }
    {
        self.macs.entries().iter().any(|e| e.0.vlan == vlan)
    }

    fn has_station_behind(&self, port: Port) -> bool
        ensures { result ≡ list_any (λ e. e.1.port == port) self.now.macs }
    {
        self.macs.entries().iter().any(|e| e.1.port == port)
    }

    fn has_neighbor_behind(&self, port: Port) -> bool
        ensures { result ≡ list_any (λ e. is_behind port e.1) self.now.neighbors }
    {
        self.neighbors
            .entries()
            .iter()
            .any(|e| is_behind(port, &e.1))
    }

    /// The least interface with that VRF and that subnet.
    fn connected_to(&self, vrf: Vrf, prefix: &Prefix) -> Option<Intf>
        ensures { result ≡ connected_to (rib self.now) vrf prefix.now }
    {
        self.intfs
            .entries()
            .iter()
            .find(|e| e.1.vrf == vrf && e.1.addrs.has_subnet(prefix))
            .map(|e| e.0)
    }

    /// A prefix with its best route.
    fn with_best(&self, vrf: Vrf, prefix: Prefix) -> Option<(Prefix, Best<'_>)>
        ensures { option_map (λ x. (x.0, best_route x.1)) result ≡ with_best (rib self.now) vrf prefix }
    {
        match self.best(vrf, &prefix) {
            Some(best) => Some((prefix, best)),
            None => None,
        }
    }

    /// The route of least distance.
    fn nearest(&self, vrf: Vrf, prefix: &Prefix) -> Option<&(RibKey, RouteRec)>
        ensures { option_copied result ≡ reduce nearer (routes_to (rib self.now) vrf prefix.now) }
    {
        let mut nearest = None;
        for entry in self.routes.entries() {
            nearest = nearer_of(nearest, entry, vrf, prefix);
        }
        nearest
    }
}

impl Lookup for PlainLooker {
    ghost plain = { λ s. s };

    fn vlan(&self, vlan: Vlan) -> bool {
        self.vlans.get(&vlan).is_some()
    }

    fn port(&self, port: Port) -> Option<PortRec> {
        self.ports.get(&port).copied()
    }

    fn intf(&self, intf: Intf) -> Option<&IntfRec> {
        self.intfs.get(&intf)
    }

    fn intf_of_vlan(&self, vlan: Vlan) -> Option<Intf> {
        self.intfs
            .entries()
            .iter()
            .find(|e| e.1.vlan == vlan)
            .map(|e| e.0)
    }

    fn neighbor(&self, intf: Intf, ip: Ip) -> Option<NeighborRec> {
        self.neighbors.get(&NeighborKey { intf, ip }).copied()
    }

    fn mac(&self, vlan: Vlan, mac: Mac) -> Option<MacRec> {
        self.macs.get(&L2Key { vlan, mac }).copied()
    }

    fn vlan_used(&self, vlan: Vlan) -> bool {
        self.has_port_in(vlan) || self.has_intf_in(vlan) || self.has_station_in(vlan)
    }

    fn port_used(&self, port: Port) -> bool {
        self.has_station_behind(port) || self.has_neighbor_behind(port)
    }

    fn has_neighbor(&self, intf: Intf) -> bool {
        self.neighbors.entries().iter().any(|e| e.0.intf == intf)
    }

    fn overlaps_other(&self, intf: Intf, prefix: &Prefix) -> bool {
        match self.intfs.get(&intf) {
            None => false,
            Some(own) => overlaps_in(self.intfs.entries(), intf, own.vrf, prefix),
        }
    }

    fn orphans(&self, intf: Intf, addr: &Addr) -> bool {
        let own = self.intfs.get(&intf);
        self.neighbors
            .entries()
            .iter()
            .any(|e| e.0.intf == intf && !stays_on(own, addr, e.0.ip))
    }
}

impl BestRoutes for PlainLooker {
    ghost rib = { λ s. rib s };

    fn best(&self, vrf: Vrf, prefix: &Prefix) -> Option<Best<'_>> {
        match self.connected_to(vrf, prefix) {
            Some(intf) => Some(Best::Connected(intf)),
            None => match self.nearest(vrf, prefix) {
                Some(entry) => Some(Best::Route(entry.0.client, &entry.1)),
                None => None,
            },
        }
    }

    fn longest(&self, vrf: Vrf, ip: Ip) -> Option<(Prefix, Best<'_>)> {
        let wanted = Containing { vrf, ip };
        match least_key(&wanted, self.intfs.entries(), self.routes.entries()) {
            Some(key) => self.with_best(vrf, key.prefix),
            None => None,
        }
    }

    fn intf_vrf(&self, intf: Intf) -> Option<Vrf> {
        self.intfs.get(&intf).map(|rec| rec.vrf)
    }

    fn after(&self, key: Option<RouteKey>) -> Option<RouteKey> {
        least_key(
            &Past { from: key },
            self.intfs.entries(),
            self.routes.entries(),
        )
    }
}

/// A reachable neighbour that is behind the port.
fn is_behind(port: Port, rec: &NeighborRec) -> bool
    ensures { result ≡ is_behind port rec.now }
{
    match rec {
        NeighborRec::Pending => false,
        NeighborRec::Reachable { port: its_port, .. } => *its_port == port,
    }
}

/// Whether the prefix overlaps a subnet of another one of the interfaces, in that VRF.
fn overlaps_in(intfs: &[(Intf, IntfRec)], intf: Intf, vrf: Vrf, prefix: &Prefix) -> bool
    ensures { result ≡ list_any (λ e. list_any (overlaps prefix.now) (subnets e.1.addrs)) (filter (is_other intf vrf) intfs.now) }
{
    intfs
        .iter()
        .filter(|e| e.0 != intf && e.1.vrf == vrf)
        .any(|e| e.1.addrs.overlaps(prefix))
}

/// Whether the ip is on the interface without that address. One that isn't there has none.
fn stays_on(intf: Option<&IntfRec>, addr: &Addr, ip: Ip) -> bool
    ensures { result ≡ is_on (delete addr_cmp addr.now (addrs_of (option_copied intf.entry))) ip }
{
    match intf {
        Some(rec) => rec.addrs.is_on_without(addr, ip),
        None => ip.is_link_local(),
    }
}

/// The nearer of the route that was found, if there is one, and the entry, where that is a route to
/// the prefix.
fn nearer_of<'a>(
    found: Option<&'a (RibKey, RouteRec)>,
    entry: &'a (RibKey, RouteRec),
    vrf: Vrf,
    prefix: &Prefix,
) -> Option<&'a (RibKey, RouteRec)>
    ensures { option_copied result ≡ (if (entry.entry.now.0.vrf == vrf) && same_addr prefix.now entry.entry.now.0.prefix then nearer_or (option_copied found.entry) entry.entry.now else option_copied found.entry) }
{
    if entry.0.vrf != vrf || !compare_prefixes(prefix, &entry.0.prefix).is_eq() {
        return found;
    }
    let Some(kept) = found else {
        return Some(entry);
    };
    if entry.0.client.distance() < kept.0.client.distance() {
        Some(entry)
    } else {
        Some(kept)
    }
}
