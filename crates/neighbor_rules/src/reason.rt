// Why an act on neighbours and stations is refused.
ghost use Rattle.std.specs.Prelude.{◌≡◌, ◌∷◌, [], is_none, not};
ghost use Rattle.switch_model.specs.First.{first_that_holds};
ghost use Rattle.switch_model.specs.Reason.{neighbor_reasons};

use crate::places::{has_intf, is_in_vlan, is_in_vlan_of, is_on};
use net_types::{Intf, Ip, Mac, Port, Vlan};
use switch_model::{Act, Lookup, Reason};

/// Why an act on neighbours or stations is invalid, if it is: the first reason, in the order of its
/// act, that holds of the state. Other acts have none here. It takes no memory.
pub fn neighbor_reason<L: Lookup>(state: &L, act: &Act) -> Option<Reason>
    ensures { result ≡ first_that_holds (neighbor_reasons (L.plain state.now) act.now) }
{
    match act {
        Act::NeighborSet {
            intf,
            ip,
            mac,
            port,
        } => neighbor_set(state, *intf, *ip, *mac, *port),
        Act::NeighborPending { intf, ip } => neighbor_pending(state, *intf, *ip),
        Act::NeighborDel { intf, ip } => neighbor_del(state, *intf, *ip),
        Act::MacSet { vlan, mac, port } => mac_set(state, *vlan, *mac, *port),
        Act::MacDel { vlan, mac } => mac_del(state, *vlan, *mac),
        _ => None,
    }
}

fn neighbor_set<L: Lookup>(state: &L, intf: Intf, ip: Ip, mac: Mac, port: Port) -> Option<Reason>
    ensures { result ≡ first_that_holds (neighbor_reasons (L.plain state.now) (Act.NeighborSet intf ip mac port)) }
{
    if state.port(port).is_none() {
        return Some(Reason::NoPort);
    }
    if !has_intf(state, intf) {
        return Some(Reason::NoIntf);
    }
    if !mac.is_unicast() {
        return Some(Reason::BadMac);
    }
    if !is_on(state, intf, ip) {
        return Some(Reason::NotInSubnet);
    }
    if !is_in_vlan_of(state, port, intf) {
        return Some(Reason::PortNotInVlan);
    }
    None
}

fn neighbor_pending<L: Lookup>(state: &L, intf: Intf, ip: Ip) -> Option<Reason>
    ensures { result ≡ first_that_holds (neighbor_reasons (L.plain state.now) (Act.NeighborPending intf ip)) }
{
    if !has_intf(state, intf) {
        return Some(Reason::NoIntf);
    }
    if !is_on(state, intf, ip) {
        return Some(Reason::NotInSubnet);
    }
    None
}

fn neighbor_del<L: Lookup>(state: &L, intf: Intf, ip: Ip) -> Option<Reason>
    ensures { result ≡ first_that_holds (neighbor_reasons (L.plain state.now) (Act.NeighborDel intf ip)) }
{
    if !has_intf(state, intf) {
        return Some(Reason::NoIntf);
    }
    if state.neighbor(intf, ip).is_none() {
        return Some(Reason::NoNeighbor);
    }
    None
}

fn mac_set<L: Lookup>(state: &L, vlan: Vlan, mac: Mac, port: Port) -> Option<Reason>
    ensures { result ≡ first_that_holds (neighbor_reasons (L.plain state.now) (Act.MacSet vlan mac port)) }
{
    if !state.vlan(vlan) {
        return Some(Reason::NoVlan);
    }
    if state.port(port).is_none() {
        return Some(Reason::NoPort);
    }
    if !mac.is_unicast() {
        return Some(Reason::BadMac);
    }
    if !is_in_vlan(state, port, vlan) {
        return Some(Reason::PortNotInVlan);
    }
    None
}

fn mac_del<L: Lookup>(state: &L, vlan: Vlan, mac: Mac) -> Option<Reason>
    ensures { result ≡ first_that_holds (neighbor_reasons (L.plain state.now) (Act.MacDel vlan mac)) }
{
    if !state.vlan(vlan) {
        return Some(Reason::NoVlan);
    }
    if state.mac(vlan, mac).is_none() {
        return Some(Reason::NoMac);
    }
    None
}
