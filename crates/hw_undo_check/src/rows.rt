// Keys and rows of the samples.
ghost use Rattle.std.specs.Prelude.{◌≡◌, ◌<◌, ◌^◌};
ghost use Rattle.hw_undo_check.specs.Samples.{at_port, host, pair, route, station, trapped};

use chip_core::{HostAct, HostKey, HostRow, L2Key, L2Row, Member, RouteKey};
use net_types::{Intf, Ip, Mac, Port, Prefix, Vlan, Vrf};

/// The host of that number, at interface 1.
pub(crate) fn host_of(n: u32) -> HostKey
    ensures { result ≡ host n }
{
    match Intf::new(1) {
        Some(intf) => HostKey {
            ip: Ip::V4(n),
            intf,
        },
        None => unreachable!(),
    }
}

/// The row of a host that isn't known yet.
pub(crate) fn host_row() -> HostRow
    ensures { result ≡ trapped }
{
    match Vrf::new(0) {
        Some(vrf) => HostRow {
            vrf,
            act: HostAct::Trap,
        },
        None => unreachable!(),
    }
}

/// The default route of that VRF.
pub(crate) fn route_of(n: u16) -> RouteKey
    ensures { result ≡ route n }
{
    match (Vrf::new(n), Prefix::new(Ip::V4(0), 0)) {
        (Some(vrf), Ok(prefix)) => RouteKey { vrf, prefix },
        _ => unreachable!(),
    }
}

/// The station of that number, in VLAN 10.
pub(crate) fn station_of(n: u64) -> L2Key
    requires { n < 2 ^ 48 }
    ensures { result ≡ station n }
{
    match (Vlan::new(10), Mac::new(n)) {
        (Some(vlan), Some(mac)) => L2Key { vlan, mac },
        _ => unreachable!(),
    }
}

/// The row of a station at port 1.
pub(crate) fn l2_row() -> L2Row
    ensures { result ≡ at_port }
{
    match Port::new(1) {
        Some(port) => L2Row { port, up: true },
        None => unreachable!(),
    }
}

/// Live members in two slots.
pub(crate) fn members(first: u32, second: u32) -> [Member; 2]
    ensures { result ≡ pair first second }
{
    [
        Member {
            host: first,
            live: true,
        },
        Member {
            host: second,
            live: true,
        },
    ]
}
