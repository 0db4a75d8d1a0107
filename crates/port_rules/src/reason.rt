// Why an act on VLANs, ports, interfaces and addresses is refused.
ghost use Rattle.std.specs.Prelude.{◌≡◌};
ghost use Rattle.switch_model.specs.First.{first_that_holds};
ghost use Rattle.switch_model.specs.Reason.{port_reasons};

use crate::interfaces::{addr_add, addr_del, intf_add, intf_del};
use crate::vlans::{port_add, port_del, port_flip, port_vlan, vlan_add, vlan_del};
use switch_model::{Act, Lookup, Reason};

/// Why an act on VLANs, ports, interfaces or addresses is invalid, if it is: the first reason, in
/// the order of its act, that holds of the state. Other acts have none here. It takes no memory.
pub fn port_reason<L: Lookup>(state: &L, act: &Act) -> Option<Reason>
    ensures { result ≡ first_that_holds (port_reasons (L.plain state.now) act.now) }
{
    match act {
        Act::VlanAdd { vlan, .. } => vlan_add(state, *vlan),
        Act::VlanDel { vlan } => vlan_del(state, *vlan),
        Act::PortAdd { port, vlan } => port_add(state, *port, *vlan),
        Act::PortDel { port } => port_del(state, *port),
        Act::PortVlan { port, vlan } => port_vlan(state, *port, *vlan),
        Act::PortUp { port } => port_flip(state, *port),
        Act::PortDown { port } => port_flip(state, *port),
        Act::IntfAdd {
            intf,
            vlan,
            mac,
            ..
        } => intf_add(state, *intf, *vlan, *mac),
        Act::IntfDel { intf } => intf_del(state, *intf),
        Act::AddrAdd { intf, addr } => addr_add(state, *intf, addr),
        Act::AddrDel { intf, addr } => addr_del(state, *intf, addr),
        _ => None,
    }
}
