// The state of the switch, shared and never changed.
ghost use Rattle.std.specs.Prelude.{◌≡◌, ◌≤◌, IfOk};
ghost use Rattle.state_keys.specs.PartKeys.{IsVlanNumber, IsPortNumber, IsIntfNumber, IsStationNumber, IsArpNumber, IsNdpNumber, IsRibNumber, IsFibNumber, intf_of};
ghost use Rattle.state_index.specs.IntfIndex.{indexed};
ghost use Rattle.state_scan.specs.Listed.{listed};
ghost use Rattle.subnet_index.specs.SubnetList.{subnets_in};
ghost use Rattle.switch_model.specs.PlainState.{ArePartsInOrder};
ghost use Rattle.switch_model.specs.Sound.{IsSound};
ghost use Rattle.switch_state.specs.Plain.{plain};
ghost use Rattle.switch_state.specs.StateView.{nothing};
ghost use Rattle.switch_state.specs.Valid.{IsPart, IsState};

use net_types::NoMemory;
use node_map::NodeMap;
use state_index::IntfIndex;
use std::marker::Model;
use subnet_index::Subnets;
use switch_model::{FibEntry, IntfRec, MacRec, NeighborRec, PortRec, RouteRec, VlanRec};

/// A state of the switch: a version, and a persistent map for each part. It is shared and never
/// changed. A later state is made by an edit, and shares all that the edit left alone. Beside the
/// interfaces it keeps their subnets, and they themselves by VLAN.
#[derive(Drop)]
pub struct SwitchState {
    version: u64,
    vlans: NodeMap<VlanRec>,
    ports: NodeMap<PortRec>,
    intfs: NodeMap<IntfRec>,
    macs: NodeMap<MacRec>,
    arps: NodeMap<NeighborRec>,
    ndps: NodeMap<NeighborRec>,
    routes: NodeMap<RouteRec>,
    fibs: NodeMap<FibEntry>,
    index: IntfIndex,
}

impl Model for SwitchState {
    ghost use Rattle.switch_state.specs.StateView.{StateView};
    ghost use Rattle.switch_state.specs.Valid.{IsKept};

    ghost Value = { StateView };

    ghost view = { λ s. record { version = s.version; vlans = s.vlans; ports = s.ports; intfs = s.intfs; macs = s.macs; arps = s.arps; ndps = s.ndps; routes = s.routes; fibs = s.fibs } };

    ghost invariant = { λ s. IsKept (record { version = s.version; vlans = s.vlans; ports = s.ports; intfs = s.intfs; macs = s.macs; arps = s.arps; ndps = s.ndps; routes = s.routes; fibs = s.fibs }) s.index };
}

impl SwitchState {
    /// The state of nothing, at version 0.
    pub fn empty() -> SwitchState
        ensures state { result ≡ nothing }
        ensures version { result.version ≡ 0 }
        ensures sound { IsSound (plain result) }
    {
        SwitchState {
            version: 0,
            vlans: NodeMap::new(),
            ports: NodeMap::new(),
            intfs: NodeMap::new(),
            macs: NodeMap::new(),
            arps: NodeMap::new(),
            ndps: NodeMap::new(),
            routes: NodeMap::new(),
            fibs: NodeMap::new(),
            index: IntfIndex::new(),
        }
    }

    /// The version at which the state was made.
    pub fn version(&self) -> u64
        ensures { result ≡ self.now.version }
    {
        self.version
    }

    /// One more owner of the same state.
    pub fn share(&self) -> Result<SwitchState, NoMemory>
        ensures { IfOk result (λ s. s ≡ self.now) }
    {
        self.share_at(self.version)
    }

    /// What holds of every state. It does nothing when it runs.
    pub fn shape(&self)
        ensures state { IsState self.now }
        ensures order { ArePartsInOrder (plain self.now) }
    {
        let _ = &self.version;
    }

    /// The VLANs.
    pub fn vlans(&self) -> &NodeMap<VlanRec>
        ensures map { result.now ≡ self.now.vlans }
        ensures part { IsPart IsVlanNumber self.now.version result.now }
    {
        &self.vlans
    }

    /// The ports.
    pub fn ports(&self) -> &NodeMap<PortRec>
        ensures map { result.now ≡ self.now.ports }
        ensures part { IsPart IsPortNumber self.now.version result.now }
    {
        &self.ports
    }

    /// The interfaces.
    pub fn intfs(&self) -> &NodeMap<IntfRec>
        ensures map { result.now ≡ self.now.intfs }
        ensures part { IsPart IsIntfNumber self.now.version result.now }
    {
        &self.intfs
    }

    /// The stations, by VLAN and MAC.
    pub fn macs(&self) -> &NodeMap<MacRec>
        ensures map { result.now ≡ self.now.macs }
        ensures part { IsPart IsStationNumber self.now.version result.now }
    {
        &self.macs
    }

    /// The neighbours of IPv4, by interface and ip.
    pub fn arps(&self) -> &NodeMap<NeighborRec>
        ensures map { result.now ≡ self.now.arps }
        ensures part { IsPart IsArpNumber self.now.version result.now }
    {
        &self.arps
    }

    /// The neighbours of IPv6, by interface and ip.
    pub fn ndps(&self) -> &NodeMap<NeighborRec>
        ensures map { result.now ≡ self.now.ndps }
        ensures part { IsPart IsNdpNumber self.now.version result.now }
    {
        &self.ndps
    }

    /// The routes, by VRF, prefix and client.
    pub fn routes(&self) -> &NodeMap<RouteRec>
        ensures map { result.now ≡ self.now.routes }
        ensures part { IsPart IsRibNumber self.now.version result.now }
    {
        &self.routes
    }

    /// The entries of the FIB, by VRF and prefix.
    pub fn fibs(&self) -> &NodeMap<FibEntry>
        ensures map { result.now ≡ self.now.fibs }
        ensures part { IsPart IsFibNumber self.now.version result.now }
    {
        &self.fibs
    }

    /// The subnets of the interfaces, by VRF and prefix.
    pub fn subnets(&self) -> &Subnets
        ensures { result.now ≡ subnets_in (plain self.now).intfs }
    {
        self.index().subnets()
    }

    // What is kept beside the interfaces.
    pub(crate) fn index(&self) -> &IntfIndex
        ensures { result.now ≡ indexed (plain self.now).intfs }
    {
        &self.index
    }

    // The same parts at a version that isn't before the state's.
    pub(crate) fn share_at(&self, version: u64) -> Result<SwitchState, NoMemory>
        requires { self.now.version ≤ version }
        ensures { IfOk result (λ s. s ≡ record self.now { version = version }) }
    {
        Ok(SwitchState {
            version,
            vlans: self.vlans.share()?,
            ports: self.ports.share()?,
            intfs: self.intfs.share()?,
            macs: self.macs.share()?,
            arps: self.arps.share()?,
            ndps: self.ndps.share()?,
            routes: self.routes.share()?,
            fibs: self.fibs.share()?,
            index: self.index.share()?,
        })
    }

    pub(crate) fn set_vlans(&mut self, vlans: NodeMap<VlanRec>)
        requires { IsPart IsVlanNumber self.old.version vlans }
        ensures { self.new ≡ record self.old { vlans = vlans } }
    {
        self.vlans = vlans;
    }

    pub(crate) fn set_ports(&mut self, ports: NodeMap<PortRec>)
        requires { IsPart IsPortNumber self.old.version ports }
        ensures { self.new ≡ record self.old { ports = ports } }
    {
        self.ports = ports;
    }

    pub(crate) fn set_intfs(&mut self, intfs: NodeMap<IntfRec>, index: IntfIndex)
        requires part { IsPart IsIntfNumber self.old.version intfs }
        requires index { index ≡ indexed (listed intf_of intfs.entries) }
        ensures { self.new ≡ record self.old { intfs = intfs } }
    {
        self.intfs = intfs;
        self.index = index;
    }

    pub(crate) fn set_macs(&mut self, macs: NodeMap<MacRec>)
        requires { IsPart IsStationNumber self.old.version macs }
        ensures { self.new ≡ record self.old { macs = macs } }
    {
        self.macs = macs;
    }

    pub(crate) fn set_arps(&mut self, arps: NodeMap<NeighborRec>)
        requires { IsPart IsArpNumber self.old.version arps }
        ensures { self.new ≡ record self.old { arps = arps } }
    {
        self.arps = arps;
    }

    pub(crate) fn set_ndps(&mut self, ndps: NodeMap<NeighborRec>)
        requires { IsPart IsNdpNumber self.old.version ndps }
        ensures { self.new ≡ record self.old { ndps = ndps } }
    {
        self.ndps = ndps;
    }

    pub(crate) fn set_routes(&mut self, routes: NodeMap<RouteRec>)
        requires { IsPart IsRibNumber self.old.version routes }
        ensures { self.new ≡ record self.old { routes = routes } }
    {
        self.routes = routes;
    }

    pub(crate) fn set_fibs(&mut self, fibs: NodeMap<FibEntry>)
        requires { IsPart IsFibNumber self.old.version fibs }
        ensures { self.new ≡ record self.old { fibs = fibs } }
    {
        self.fibs = fibs;
    }
}
