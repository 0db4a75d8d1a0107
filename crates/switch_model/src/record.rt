// What the state keeps under each key.
ghost use Rattle.std.specs.Prelude.{◌≡◌, IfOk};

use crate::addrs::AddrList;
use net_types::{HopSet, Intf, Mac, NoMemory, Port, Vlan, VlanName, Vrf};

#[derive(Debug, PartialEq, Eq, Drop)]
pub struct VlanRec {
    pub name: VlanName,
}

#[derive(Clone, Copy, Debug, PartialEq, Eq)]
pub struct PortRec {
    pub vlan: Vlan,
    pub up: bool,
}

/// An interface of the switch: its VLAN, its VRF, its own MAC and its addresses.
#[derive(Debug, PartialEq, Eq, Drop)]
pub struct IntfRec {
    pub vlan: Vlan,
    pub vrf: Vrf,
    pub mac: Mac,
    pub addrs: AddrList,
}

/// The port behind which a station was set.
#[derive(Clone, Copy, Debug, PartialEq, Eq)]
pub struct MacRec {
    pub port: Port,
}

/// A neighbour of an interface: by ARP for IPv4, by NDP for IPv6.
#[derive(Clone, Copy, Debug, PartialEq, Eq)]
pub enum NeighborRec {
    /// It was asked for, and hasn't answered.
    Pending,
    Reachable { mac: Mac, port: Port },
}

/// What a route in the state does with packets.
#[derive(Debug, PartialEq, Eq, Drop)]
pub enum RouteRec {
    /// Send them to one of 1 to 32 next hops.
    Hops(HopSet),
    ToCpu,
    Discard,
}

impl RouteRec {
    /// The same route, by one more link to its hops.
    pub fn copy(&self) -> Result<RouteRec, NoMemory>
        ensures same { IfOk result (λ copy. copy ≡ self.now) }
    {
        match self {
            RouteRec::Hops(hops) => {
                let hops = hops.copy()?;
                Ok(RouteRec::Hops(hops))
            }
            RouteRec::ToCpu => Ok(RouteRec::ToCpu),
            RouteRec::Discard => Ok(RouteRec::Discard),
        }
    }
}

/// An entry of the forwarding information base: what becomes of packets to a prefix once its best
/// route's next hops have been followed to their ends.
#[derive(Debug, PartialEq, Eq, Drop)]
pub enum FibEntry {
    /// The prefix is a subnet of that interface.
    Connected(Intf),
    /// Packets go to one of 1 to 64 direct hops, each an ip on an interface.
    Forward(HopSet),
    ToCpu,
    Discard,
}

impl FibEntry {
    /// The same entry, by one more link to its hops.
    pub fn copy(&self) -> Result<FibEntry, NoMemory>
        ensures same { IfOk result (λ copy. copy ≡ self.now) }
    {
        match self {
            FibEntry::Connected(intf) => Ok(FibEntry::Connected(*intf)),
            FibEntry::Forward(hops) => {
                let hops = hops.copy()?;
                Ok(FibEntry::Forward(hops))
            }
            FibEntry::ToCpu => Ok(FibEntry::ToCpu),
            FibEntry::Discard => Ok(FibEntry::Discard),
        }
    }
}

/// How many entries each part of the state has. A count past the last number of its type stands
/// there as that number.
#[derive(Clone, Copy, Debug, PartialEq, Eq)]
pub struct Totals {
    pub ports: u64,
    /// The ports that are up.
    pub up: u64,
    pub vlans: u64,
    pub intfs: u64,
    pub macs: u64,
    pub neighbors: u64,
    pub routes: u64,
    /// The entries of the FIB.
    pub fib: u64,
}
