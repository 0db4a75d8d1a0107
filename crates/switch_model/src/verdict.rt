// What becomes of an update.
use net_types::Table;

/// Why an update is invalid. Where several reasons hold, the first in the order of its act is
/// given.
#[derive(Clone, Copy, Debug, PartialEq, Eq, PartialOrd, Ord, Hash)]
pub enum Reason {
    /// The named VLAN isn't there.
    NoVlan,
    /// The named VLAN is there already.
    VlanExists,
    /// A port, an interface or a station is in the VLAN.
    VlanInUse,
    /// The named port isn't there.
    NoPort,
    /// The named port is there already.
    PortExists,
    /// A station or a reachable neighbour is behind the port.
    PortInUse,
    /// The named interface isn't there.
    NoIntf,
    /// The named interface is there already.
    IntfExists,
    /// Another interface has the VLAN.
    VlanHasIntf,
    /// The interface has an address or a neighbour.
    IntfInUse,
    /// The MAC names no one station: it is zero or a group address.
    BadMac,
    /// The interface has an address with this ip.
    AddrExists,
    /// The subnet of the address overlaps one of another interface of the same VRF.
    AddrOverlap,
    /// The interface doesn't have this ip with this length.
    NoAddr,
    /// Without the address some neighbour of the interface isn't on it.
    AddrInUse,
    /// The ip isn't on the interface.
    NotInSubnet,
    /// The port is in another VLAN.
    PortNotInVlan,
    /// There is no such neighbour.
    NoNeighbor,
    /// There is no such station.
    NoMac,
    /// The client is the switch's own interfaces, whose routes nobody sets.
    InterfaceClient,
    /// A hop is of another family than its prefix.
    FamilyMix,
    /// A route with hops has none.
    NoHops,
    /// A route has more than 32 hops.
    TooManyHops,
    /// One hop, its interface included, stands twice in a route.
    DoubleHop,
    /// One prefix stands twice in a list of routes.
    DoublePrefix,
    /// The client has no route to the prefix.
    NoRoute,
}

/// What became of an update.
#[derive(Clone, Copy, Debug, PartialEq, Eq)]
pub enum Verdict {
    Accepted,
    Invalid(Reason),
    /// The rows of the state with this update wouldn't fit that table.
    Full(Table),
}
