// Where neighbours and stations may stand.
ghost use Rattle.std.specs.Prelude.{◌≡◌};
ghost use Rattle.switch_model.specs.Addresses.{is_on};
ghost use Rattle.switch_model.specs.Facts.{addrs_at, has_intf, is_in_vlan, is_in_vlan_of};
ghost use Rattle.switch_model.specs.PlainState.{intf_at, port_at};

use net_types::{Intf, Ip, Port, Vlan};
use switch_model::Lookup;

pub(crate) fn has_intf<L: Lookup>(state: &L, intf: Intf) -> bool
    ensures { result ≡ has_intf (L.plain state.now) intf }
{
    state.intf(intf).is_some()
}

pub(crate) fn is_on<L: Lookup>(state: &L, intf: Intf, ip: Ip) -> bool
    ensures { result ≡ is_on (addrs_at (L.plain state.now) intf) ip }
{
    match state.intf(intf) {
        Some(rec) => rec.addrs.is_on(ip),
        None => ip.is_link_local(),
    }
}

pub(crate) fn is_in_vlan<L: Lookup>(state: &L, port: Port, vlan: Vlan) -> bool
    ensures { result ≡ is_in_vlan vlan (port_at (L.plain state.now) port) }
{
    match state.port(port) {
        Some(rec) => rec.vlan == vlan,
        None => false,
    }
}

pub(crate) fn is_in_vlan_of<L: Lookup>(state: &L, port: Port, intf: Intf) -> bool
    ensures { result ≡ is_in_vlan_of (intf_at (L.plain state.now) intf) (port_at (L.plain state.now) port) }
{
    match state.intf(intf) {
        Some(rec) => is_in_vlan(state, port, rec.vlan),
        None => false,
    }
}
