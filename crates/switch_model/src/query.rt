// What callers ask of a state.
use net_types::{Ip, Port, Vrf};

/// A question about a state.
#[derive(Clone, Copy, Debug, PartialEq, Eq)]
pub enum Query {
    /// Its version.
    Version,
    /// How many entries each part has.
    Counts,
    /// The VLAN of a port, and whether the port is up.
    Port(Port),
    /// The longest match of an ip in a VRF, and what becomes of packets to it.
    Route(Vrf, Ip),
}
