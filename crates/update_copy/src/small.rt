// Copies of acts that take no memory.
ghost use Rattle.std.specs.Prelude.{◌≡◌, IfSome};

use switch_model::Act;

// An act on a VLAN or a port.
pub(crate) fn copy_port_act(act: &Act) -> Option<Act>
    ensures { IfSome result (λ copy. copy ≡ act.now) }
{
    match act {
        Act::VlanDel { vlan } => Some(Act::VlanDel { vlan: *vlan }),
        Act::PortAdd { port, vlan } => Some(Act::PortAdd {
            port: *port,
            vlan: *vlan,
        }),
        Act::PortDel { port } => Some(Act::PortDel { port: *port }),
        Act::PortVlan { port, vlan } => Some(Act::PortVlan {
            port: *port,
            vlan: *vlan,
        }),
        Act::PortUp { port } => Some(Act::PortUp { port: *port }),
        Act::PortDown { port } => Some(Act::PortDown { port: *port }),
        _ => None,
    }
}

// An act on an interface or its addresses.
pub(crate) fn copy_intf_act(act: &Act) -> Option<Act>
    ensures { IfSome result (λ copy. copy ≡ act.now) }
{
    match act {
        Act::IntfAdd {
            intf,
            vlan,
            vrf,
            mac,
        } => Some(Act::IntfAdd {
            intf: *intf,
            vlan: *vlan,
            vrf: *vrf,
            mac: *mac,
        }),
        Act::IntfDel { intf } => Some(Act::IntfDel { intf: *intf }),
        Act::AddrAdd { intf, addr } => Some(Act::AddrAdd {
            intf: *intf,
            addr: *addr,
        }),
        Act::AddrDel { intf, addr } => Some(Act::AddrDel {
            intf: *intf,
            addr: *addr,
        }),
        _ => None,
    }
}

// An act on a neighbour.
pub(crate) fn copy_neighbor_act(act: &Act) -> Option<Act>
    ensures { IfSome result (λ copy. copy ≡ act.now) }
{
    match act {
        Act::NeighborSet {
            intf,
            ip,
            mac,
            port,
        } => Some(Act::NeighborSet {
            intf: *intf,
            ip: *ip,
            mac: *mac,
            port: *port,
        }),
        Act::NeighborPending { intf, ip } => Some(Act::NeighborPending {
            intf: *intf,
            ip: *ip,
        }),
        Act::NeighborDel { intf, ip } => Some(Act::NeighborDel {
            intf: *intf,
            ip: *ip,
        }),
        _ => None,
    }
}

// An act on a station, or one that takes a route away.
pub(crate) fn copy_station_act(act: &Act) -> Option<Act>
    ensures { IfSome result (λ copy. copy ≡ act.now) }
{
    match act {
        Act::MacSet { vlan, mac, port } => Some(Act::MacSet {
            vlan: *vlan,
            mac: *mac,
            port: *port,
        }),
        Act::MacDel { vlan, mac } => Some(Act::MacDel {
            vlan: *vlan,
            mac: *mac,
        }),
        Act::RouteDel {
            vrf,
            prefix,
            client,
        } => Some(Act::RouteDel {
            vrf: *vrf,
            prefix: *prefix,
            client: *client,
        }),
        _ => None,
    }
}
