// Updates of the switch.
ghost use Rattle.std.specs.Prelude.{◌≡◌, IfOk};

use crate::via::{RouteList, Via};
use net_types::{
    Addr, Client, Intf, Ip, ItemList, Mac, NoMemory, Port, Prefix, Shared, Vlan, VlanName, Vrf,
};

/// One change of the switch.
#[derive(Debug, Drop)]
pub enum Act {
    /// A new VLAN.
    VlanAdd {
        vlan: Vlan,
        name: VlanName,
    },
    VlanDel {
        vlan: Vlan,
    },
    /// A new port in a VLAN. It is down.
    PortAdd {
        port: Port,
        vlan: Vlan,
    },
    PortDel {
        port: Port,
    },
    /// Another VLAN for a port.
    PortVlan {
        port: Port,
        vlan: Vlan,
    },
    PortUp {
        port: Port,
    },
    PortDown {
        port: Port,
    },
    /// A new interface of a VLAN, in a VRF. It has no address.
    IntfAdd {
        intf: Intf,
        vlan: Vlan,
        vrf: Vrf,
        mac: Mac,
    },
    IntfDel {
        intf: Intf,
    },
    AddrAdd {
        intf: Intf,
        addr: Addr,
    },
    AddrDel {
        intf: Intf,
        addr: Addr,
    },
    /// A neighbour that is reachable, in the place of the one that is there.
    NeighborSet {
        intf: Intf,
        ip: Ip,
        mac: Mac,
        port: Port,
    },
    /// A neighbour that isn't reachable yet, in the place of the one that is there.
    NeighborPending {
        intf: Intf,
        ip: Ip,
    },
    NeighborDel {
        intf: Intf,
        ip: Ip,
    },
    /// A station's port in a VLAN, in the place of the port that is there.
    MacSet {
        vlan: Vlan,
        mac: Mac,
        port: Port,
    },
    MacDel {
        vlan: Vlan,
        mac: Mac,
    },
    /// A client's route to a prefix, in the place of its route that is there.
    RouteSet {
        vrf: Vrf,
        prefix: Prefix,
        client: Client,
        via: Via,
    },
    RouteDel {
        vrf: Vrf,
        prefix: Prefix,
        client: Client,
    },
    /// All routes of a client in a VRF: those that aren't listed are taken away.
    ClientSync {
        vrf: Vrf,
        client: Client,
        routes: RouteList,
    },
}

/// A change as a caller submits it. One that is `alone` is settled in a round of its own.
#[derive(Debug, Drop)]
pub struct Update {
    pub alone: bool,
    pub act: Act,
}

/// Changes, in the order in which they are made.
pub type ActList = ItemList<Act>;

/// An update with its caller and that caller's own number for it, counted from 0. The update is
/// shared with all copies of the submission and with its entry of the journal.
#[derive(Debug, Drop)]
pub struct Submission {
    pub caller: u32,
    pub seq: u64,
    pub update: Shared<Update>,
}

impl Submission {
    /// The same submission, by one more link to its update.
    pub fn copy(&self) -> Result<Submission, NoMemory>
        ensures same { IfOk result (λ copy. copy ≡ self.now) }
    {
        Ok(Submission {
            caller: self.caller,
            seq: self.seq,
            update: self.update.share()?,
        })
    }
}
