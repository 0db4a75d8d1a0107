// Edits of a state.
ghost use Rattle.std.specs.Prelude.{◌≡◌, ◌<◌, ◌≤◌, IfOk, OnErr, OnOk};
ghost use Rattle.std.specs.Ordering.{nat_cmp};
ghost use Rattle.keyed.specs.Keyed.{put, without};
ghost use Rattle.net_types.specs.KeyOrder.{l2_cmp, route_cmp};
ghost use Rattle.switch_model.specs.PlainState.{ArePartsInOrder};
ghost use Rattle.switch_model.specs.StateKeys.{neighbor_cmp, rib_cmp};
ghost use Rattle.state_keys.specs.PartKeys.{family, vlan_number, port_number, intf_number, station_number, neighbor_number, rib_number, fib_number, IsStation, IsArp, IsNdp, IsRib, IsFib, IsVlanNumber, IsPortNumber, IsIntfNumber, IsStationNumber, IsArpNumber, IsNdpNumber, IsRibNumber, IsFibNumber};
ghost use Rattle.subnet_index.specs.SubnetList.{subnets_in};
ghost use Rattle.switch_state.specs.Edit.{IsCut, IsEdit, IsPut};
ghost use Rattle.switch_state.specs.EditKeys.{station_key, neighbor_key, route_key, prefix_key};
ghost use Rattle.switch_state.specs.Follows.{Follows};
ghost use Rattle.switch_state.specs.Plain.{fib_entries, plain};
ghost use Rattle.switch_state.specs.Valid.{IsPart, IsState};

use crate::state::SwitchState;
use net_types::{Client, Intf, Ip, L2Key, Mac, NoMemory, Port, Prefix, RouteKey, Vlan, Vrf};
use node_core::Forge;
use node_map::{NodeKey, NodeMap};
use state_keys::{intf_key, port_key, vlan_key};
use state_scan::record_under;
use std::alloc::Global;
use std::marker::Model;
use subnet_index::Subnets;
use switch_model::{
    FibEntry, IntfRec, MacRec, NeighborKey, NeighborRec, PortRec, RibKey, RouteRec, VlanRec,
};

/// A state in the making. It begins as a share of the state that it is made of, its base, and each
/// change makes the nodes on the path to one key, at the edit's version, in one part. The base stays
/// as it is, so an edit that is dropped leaves nothing behind.
#[derive(Drop)]
pub struct StateEdit {
    base: SwitchState,
    state: SwitchState,
    forge: Forge,
}

impl Model for StateEdit {
    ghost use Rattle.switch_state.specs.Edit.{EditView, IsForged};

    ghost Value = { EditView };

    ghost view = { λ e. record { base = e.base; state = e.state } };

    ghost invariant = { λ e. IsForged e.forge.version (record { base = e.base; state = e.state }) };
}

impl StateEdit {
    /// An edit of a state, at a version that isn't before the state's. It takes the shares that
    /// `finish` needs.
    pub fn of(alloc: Global, state: &SwitchState, version: u64) -> Result<StateEdit, NoMemory>
        requires { state.now.version ≤ version }
        ensures base { IfOk result (λ e. e.base ≡ state.now) }
        ensures state { IfOk result (λ e. e.state ≡ record state.now { version = version }) }
    {
        state.shape();
        let base = state.share()?;
        let state = state.share_at(version)?;
        Ok(StateEdit {
            base,
            state,
            forge: Forge::at(alloc, version),
        })
    }

    /// The state that the edit was made of.
    pub fn base(&self) -> &SwitchState
        ensures { result.now ≡ self.now.base }
    {
        &self.base
    }

    /// The state that the edit has come to, for look-ups.
    pub(crate) fn state(&self) -> &SwitchState
        ensures { result.now ≡ self.now.state }
    {
        &self.state
    }

    /// The version at which the edit makes its nodes, and that of the state that it has come to.
    pub fn version(&self) -> u64
        ensures { result ≡ self.now.state.version }
    {
        self.state.version()
    }

    /// What holds of every edit: at a version past its base's it follows its base part by part. It
    /// does nothing when it runs.
    pub fn shape(&self)
        ensures edit { IsEdit self.now }
        ensures base { IsState self.now.base }
        ensures state { IsState self.now.state }
        ensures order { ArePartsInOrder (plain self.now.state) }
    {
        self.base.shape();
        self.state.shape();
    }

    /// The edited state, at the edit's version. Where that is past the base's version, the state
    /// follows the base.
    pub fn finish(self) -> SwitchState
        ensures state { result ≡ self.state }
        ensures follows { self.base.version < self.state.version → Follows self.base result }
    {
        let StateEdit { state, .. } = self;
        state
    }

    /// The VLANs as they are now.
    pub fn vlans(&self) -> &NodeMap<VlanRec>
        ensures map { result.now ≡ self.now.state.vlans }
        ensures part { IsPart IsVlanNumber self.now.state.version result.now }
    {
        self.state.vlans()
    }

    /// The ports.
    pub fn ports(&self) -> &NodeMap<PortRec>
        ensures map { result.now ≡ self.now.state.ports }
        ensures part { IsPart IsPortNumber self.now.state.version result.now }
    {
        self.state.ports()
    }

    /// The interfaces.
    pub fn intfs(&self) -> &NodeMap<IntfRec>
        ensures map { result.now ≡ self.now.state.intfs }
        ensures part { IsPart IsIntfNumber self.now.state.version result.now }
    {
        self.state.intfs()
    }

    /// The stations, by VLAN and MAC.
    pub fn macs(&self) -> &NodeMap<MacRec>
        ensures map { result.now ≡ self.now.state.macs }
        ensures part { IsPart IsStationNumber self.now.state.version result.now }
    {
        self.state.macs()
    }

    /// The neighbours of IPv4, by interface and ip.
    pub fn arps(&self) -> &NodeMap<NeighborRec>
        ensures map { result.now ≡ self.now.state.arps }
        ensures part { IsPart IsArpNumber self.now.state.version result.now }
    {
        self.state.arps()
    }

    /// The neighbours of IPv6, by interface and ip.
    pub fn ndps(&self) -> &NodeMap<NeighborRec>
        ensures map { result.now ≡ self.now.state.ndps }
        ensures part { IsPart IsNdpNumber self.now.state.version result.now }
    {
        self.state.ndps()
    }

    /// The routes, by VRF, prefix and client.
    pub fn routes(&self) -> &NodeMap<RouteRec>
        ensures map { result.now ≡ self.now.state.routes }
        ensures part { IsPart IsRibNumber self.now.state.version result.now }
    {
        self.state.routes()
    }

    /// The subnets of the interfaces, by VRF and prefix.
    pub fn subnets(&self) -> &Subnets
        ensures { result.now ≡ subnets_in (plain self.now.state).intfs }
    {
        self.state.subnets()
    }

    /// The entries of the FIB, by VRF and prefix.
    pub fn fibs(&self) -> &NodeMap<FibEntry>
        ensures map { result.now ≡ self.now.state.fibs }
        ensures part { IsPart IsFibNumber self.now.state.version result.now }
    {
        self.state.fibs()
    }

    /// Puts a VLAN, in the place of the one that is there. An equal record keeps its node. After a
    /// refusal of memory the edit is as before, as it is for each call named `put_` or `cut_`.
    /// All else stays as it was.
    pub fn put_vlan(&mut self, key: Vlan, rec: VlanRec) -> Result<(), NoMemory>
        ensures plain { OnOk result (plain self.new.state ≡ record (plain self.old.state) { vlans = put nat_cmp key rec (plain self.old.state).vlans }) }
        ensures map { OnOk result (IsPut self.old.state.version (vlan_number key) rec self.old.state.vlans self.new.state.vlans) }
        ensures others { self.new ≡ record self.old { state = record self.old.state { vlans = self.new.state.vlans } } }
        ensures err { OnErr result (self.new ≡ self.old) }
    {
        let vlans = self.state.vlans().put(&self.forge, vlan_key(key), rec)?;
        self.state.set_vlans(vlans);
        Ok(())
    }

    /// Takes a VLAN away, where it is there: cutting what isn't there changes nothing, as for each call
    /// named `cut_`.
    pub fn cut_vlan(&mut self, key: Vlan) -> Result<(), NoMemory>
        ensures plain { OnOk result (plain self.new.state ≡ record (plain self.old.state) { vlans = without nat_cmp key (plain self.old.state).vlans }) }
        ensures map { OnOk result (IsCut self.old.state.version (vlan_number key) self.old.state.vlans self.new.state.vlans) }
        ensures others { self.new ≡ record self.old { state = record self.old.state { vlans = self.new.state.vlans } } }
        ensures err { OnErr result (self.new ≡ self.old) }
    {
        let vlans = self.state.vlans().without(&self.forge, &vlan_key(key))?;
        self.state.set_vlans(vlans);
        Ok(())
    }

    /// Puts a port.
    pub fn put_port(&mut self, key: Port, rec: PortRec) -> Result<(), NoMemory>
        ensures plain { OnOk result (plain self.new.state ≡ record (plain self.old.state) { ports = put nat_cmp key rec (plain self.old.state).ports }) }
        ensures map { OnOk result (IsPut self.old.state.version (port_number key) rec self.old.state.ports self.new.state.ports) }
        ensures others { self.new ≡ record self.old { state = record self.old.state { ports = self.new.state.ports } } }
        ensures err { OnErr result (self.new ≡ self.old) }
    {
        let ports = self.state.ports().put(&self.forge, port_key(key), rec)?;
        self.state.set_ports(ports);
        Ok(())
    }

    /// Takes a port away, where it is there.
    pub fn cut_port(&mut self, key: Port) -> Result<(), NoMemory>
        ensures plain { OnOk result (plain self.new.state ≡ record (plain self.old.state) { ports = without nat_cmp key (plain self.old.state).ports }) }
        ensures map { OnOk result (IsCut self.old.state.version (port_number key) self.old.state.ports self.new.state.ports) }
        ensures others { self.new ≡ record self.old { state = record self.old.state { ports = self.new.state.ports } } }
        ensures err { OnErr result (self.new ≡ self.old) }
    {
        let ports = self.state.ports().without(&self.forge, &port_key(key))?;
        self.state.set_ports(ports);
        Ok(())
    }

    /// Puts an interface.
    pub fn put_intf(&mut self, key: Intf, rec: IntfRec) -> Result<(), NoMemory>
        ensures plain { OnOk result (plain self.new.state ≡ record (plain self.old.state) { intfs = put nat_cmp key rec (plain self.old.state).intfs }) }
        ensures map { OnOk result (IsPut self.old.state.version (intf_number key) rec self.old.state.intfs self.new.state.intfs) }
        ensures others { self.new ≡ record self.old { state = record self.old.state { intfs = self.new.state.intfs } } }
        ensures err { OnErr result (self.new ≡ self.old) }
    {
        let old = record_under(self.state.intfs(), &intf_key(key));
        let index = self
            .state
            .index()
            .change(&self.forge, key, old, Some(&rec))?;
        let intfs = self.state.intfs().put(&self.forge, intf_key(key), rec)?;
        self.state.set_intfs(intfs, index);
        Ok(())
    }

    /// Takes an interface away, where it is there.
    pub fn cut_intf(&mut self, key: Intf) -> Result<(), NoMemory>
        ensures plain { OnOk result (plain self.new.state ≡ record (plain self.old.state) { intfs = without nat_cmp key (plain self.old.state).intfs }) }
        ensures map { OnOk result (IsCut self.old.state.version (intf_number key) self.old.state.intfs self.new.state.intfs) }
        ensures others { self.new ≡ record self.old { state = record self.old.state { intfs = self.new.state.intfs } } }
        ensures err { OnErr result (self.new ≡ self.old) }
    {
        let old = record_under(self.state.intfs(), &intf_key(key));
        let index = self.state.index().change(&self.forge, key, old, None)?;
        let intfs = self.state.intfs().without(&self.forge, &intf_key(key))?;
        self.state.set_intfs(intfs, index);
        Ok(())
    }

    /// Puts a station.
    pub fn put_mac(&mut self, key: (Vlan, Mac), rec: MacRec) -> Result<(), NoMemory>
        ensures plain { OnOk result (plain self.new.state ≡ record (plain self.old.state) { macs = put l2_cmp (station_key key) rec (plain self.old.state).macs }) }
        ensures map { OnOk result (IsPut self.old.state.version (station_number (station_key key)) rec self.old.state.macs self.new.state.macs) }
        ensures others { self.new ≡ record self.old { state = record self.old.state { macs = self.new.state.macs } } }
        ensures err { OnErr result (self.new ≡ self.old) }
    {
        let macs = self.state.macs().put(&self.forge, station_key(key), rec)?;
        self.state.set_macs(macs);
        Ok(())
    }

    /// Takes a station away, where it is there.
    pub fn cut_mac(&mut self, key: (Vlan, Mac)) -> Result<(), NoMemory>
        ensures plain { OnOk result (plain self.new.state ≡ record (plain self.old.state) { macs = without l2_cmp (station_key key) (plain self.old.state).macs }) }
        ensures map { OnOk result (IsCut self.old.state.version (station_number (station_key key)) self.old.state.macs self.new.state.macs) }
        ensures others { self.new ≡ record self.old { state = record self.old.state { macs = self.new.state.macs } } }
        ensures err { OnErr result (self.new ≡ self.old) }
    {
        let macs = self.state.macs().without(&self.forge, &station_key(key))?;
        self.state.set_macs(macs);
        Ok(())
    }

    /// Puts a neighbour of IPv4.
    pub fn put_arp(&mut self, key: (Intf, Ip), rec: NeighborRec) -> Result<(), NoMemory>
        requires { family key.1 ≡ 0 }
        ensures plain { OnOk result (plain self.new.state ≡ record (plain self.old.state) { neighbors = put neighbor_cmp (neighbor_key key) rec (plain self.old.state).neighbors }) }
        ensures map { OnOk result (IsPut self.old.state.version (neighbor_number (neighbor_key key)) rec self.old.state.arps self.new.state.arps) }
        ensures others { self.new ≡ record self.old { state = record self.old.state { arps = self.new.state.arps } } }
        ensures err { OnErr result (self.new ≡ self.old) }
    {
        self.state.shape();
        let arps = self.state.arps().put(&self.forge, neighbor_key(key), rec)?;
        self.state.set_arps(arps);
        Ok(())
    }

    /// Takes a neighbour of IPv4 away, where it is there.
    pub fn cut_arp(&mut self, key: (Intf, Ip)) -> Result<(), NoMemory>
        requires { family key.1 ≡ 0 }
        ensures plain { OnOk result (plain self.new.state ≡ record (plain self.old.state) { neighbors = without neighbor_cmp (neighbor_key key) (plain self.old.state).neighbors }) }
        ensures map { OnOk result (IsCut self.old.state.version (neighbor_number (neighbor_key key)) self.old.state.arps self.new.state.arps) }
        ensures others { self.new ≡ record self.old { state = record self.old.state { arps = self.new.state.arps } } }
        ensures err { OnErr result (self.new ≡ self.old) }
    {
        self.state.shape();
        let arps = self.state.arps().without(&self.forge, &neighbor_key(key))?;
        self.state.set_arps(arps);
        Ok(())
    }

    /// Puts a neighbour of IPv6.
    pub fn put_ndp(&mut self, key: (Intf, Ip), rec: NeighborRec) -> Result<(), NoMemory>
        requires { family key.1 ≡ 1 }
        ensures plain { OnOk result (plain self.new.state ≡ record (plain self.old.state) { neighbors = put neighbor_cmp (neighbor_key key) rec (plain self.old.state).neighbors }) }
        ensures map { OnOk result (IsPut self.old.state.version (neighbor_number (neighbor_key key)) rec self.old.state.ndps self.new.state.ndps) }
        ensures others { self.new ≡ record self.old { state = record self.old.state { ndps = self.new.state.ndps } } }
        ensures err { OnErr result (self.new ≡ self.old) }
    {
        self.state.shape();
        let ndps = self.state.ndps().put(&self.forge, neighbor_key(key), rec)?;
        self.state.set_ndps(ndps);
        Ok(())
    }

    /// Takes a neighbour of IPv6 away, where it is there.
    pub fn cut_ndp(&mut self, key: (Intf, Ip)) -> Result<(), NoMemory>
        requires { family key.1 ≡ 1 }
        ensures plain { OnOk result (plain self.new.state ≡ record (plain self.old.state) { neighbors = without neighbor_cmp (neighbor_key key) (plain self.old.state).neighbors }) }
        ensures map { OnOk result (IsCut self.old.state.version (neighbor_number (neighbor_key key)) self.old.state.ndps self.new.state.ndps) }
        ensures others { self.new ≡ record self.old { state = record self.old.state { ndps = self.new.state.ndps } } }
        ensures err { OnErr result (self.new ≡ self.old) }
    {
        self.state.shape();
        let ndps = self.state.ndps().without(&self.forge, &neighbor_key(key))?;
        self.state.set_ndps(ndps);
        Ok(())
    }

    /// Puts a route.
    pub fn put_route(&mut self, key: (Vrf, Prefix, Client), rec: RouteRec) -> Result<(), NoMemory>
        ensures plain { OnOk result (plain self.new.state ≡ record (plain self.old.state) { routes = put rib_cmp (route_key key) rec (plain self.old.state).routes }) }
        ensures map { OnOk result (IsPut self.old.state.version (rib_number (route_key key)) rec self.old.state.routes self.new.state.routes) }
        ensures others { self.new ≡ record self.old { state = record self.old.state { routes = self.new.state.routes } } }
        ensures err { OnErr result (self.new ≡ self.old) }
    {
        let routes = self.state.routes().put(&self.forge, route_key(key), rec)?;
        self.state.set_routes(routes);
        Ok(())
    }

    /// Takes a route away, where it is there.
    pub fn cut_route(&mut self, key: (Vrf, Prefix, Client)) -> Result<(), NoMemory>
        ensures plain { OnOk result (plain self.new.state ≡ record (plain self.old.state) { routes = without rib_cmp (route_key key) (plain self.old.state).routes }) }
        ensures map { OnOk result (IsCut self.old.state.version (rib_number (route_key key)) self.old.state.routes self.new.state.routes) }
        ensures others { self.new ≡ record self.old { state = record self.old.state { routes = self.new.state.routes } } }
        ensures err { OnErr result (self.new ≡ self.old) }
    {
        let routes = self.state.routes().without(&self.forge, &route_key(key))?;
        self.state.set_routes(routes);
        Ok(())
    }

    /// Puts an entry of the FIB.
    pub fn put_fib(&mut self, key: (Vrf, Prefix), rec: FibEntry) -> Result<(), NoMemory>
        ensures plain { OnOk result (plain self.new.state ≡ plain self.old.state) }
        ensures fibs { OnOk result (fib_entries self.new.state ≡ put route_cmp (prefix_key key) rec (fib_entries self.old.state)) }
        ensures map { OnOk result (IsPut self.old.state.version (fib_number (prefix_key key)) rec self.old.state.fibs self.new.state.fibs) }
        ensures others { self.new ≡ record self.old { state = record self.old.state { fibs = self.new.state.fibs } } }
        ensures err { OnErr result (self.new ≡ self.old) }
    {
        let fibs = self.state.fibs().put(&self.forge, prefix_key(key), rec)?;
        self.state.set_fibs(fibs);
        Ok(())
    }

    /// Takes an entry of the FIB away, where it is there.
    pub fn cut_fib(&mut self, key: (Vrf, Prefix)) -> Result<(), NoMemory>
        ensures plain { OnOk result (plain self.new.state ≡ plain self.old.state) }
        ensures fibs { OnOk result (fib_entries self.new.state ≡ without route_cmp (prefix_key key) (fib_entries self.old.state)) }
        ensures map { OnOk result (IsCut self.old.state.version (fib_number (prefix_key key)) self.old.state.fibs self.new.state.fibs) }
        ensures others { self.new ≡ record self.old { state = record self.old.state { fibs = self.new.state.fibs } } }
        ensures err { OnErr result (self.new ≡ self.old) }
    {
        let fibs = self.state.fibs().without(&self.forge, &prefix_key(key))?;
        self.state.set_fibs(fibs);
        Ok(())
    }
}

// The keys of stations, neighbours, routes and entries of the FIB, from their parts.
fn station_key(key: (Vlan, Mac)) -> NodeKey
    ensures key { result ≡ station_number (station_key key) }
    ensures range { IsStation (station_key key) }
{
    state_keys::station_key(&L2Key {
        vlan: key.0,
        mac: key.1,
    })
}

fn neighbor_key(key: (Intf, Ip)) -> NodeKey
    ensures key { result ≡ neighbor_number (neighbor_key key) }
    ensures arp { family key.1 ≡ 0 → IsArp (neighbor_key key) }
    ensures ndp { family key.1 ≡ 1 → IsNdp (neighbor_key key) }
{
    state_keys::neighbor_key(&NeighborKey {
        intf: key.0,
        ip: key.1,
    })
}

fn route_key(key: (Vrf, Prefix, Client)) -> NodeKey
    ensures key { result ≡ rib_number (route_key key) }
    ensures range { IsRib (route_key key) }
{
    state_keys::rib_key(&RibKey {
        vrf: key.0,
        prefix: key.1,
        client: key.2,
    })
}

fn prefix_key(key: (Vrf, Prefix)) -> NodeKey
    ensures key { result ≡ fib_number (prefix_key key) }
    ensures range { IsFib (prefix_key key) }
{
    state_keys::fib_key(&RouteKey {
        vrf: key.0,
        prefix: key.1,
    })
}
