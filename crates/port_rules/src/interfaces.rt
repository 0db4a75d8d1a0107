// Acts on interfaces and their addresses.
ghost use Rattle.std.specs.Prelude.{◌≡◌, ◌&&◌, ◌==◌, ◌∷◌, [], length, not};
ghost use Rattle.net_types.specs.Prefix.{subnet_of};
ghost use Rattle.switch_model.specs.Addresses.{has_subnet};
ghost use Rattle.switch_model.specs.Facts.{addrs_at, has_addr, has_intf, has_ip, is_bad_mac, no_vlan, overlaps_other, vlan_has_intf};
ghost use Rattle.switch_model.specs.First.{first_that_holds};
ghost use Rattle.switch_model.specs.Reason.{port_reasons};

use net_types::{Addr, Intf, Mac, Vlan};
use switch_model::{Act, Lookup, Reason};

pub(crate) fn intf_add<L: Lookup>(state: &L, intf: Intf, vlan: Vlan, mac: Mac) -> Option<Reason>
    ensures { result ≡ first_that_holds ((Reason.NoVlan, no_vlan (L.plain state.now) vlan) ∷ (Reason.IntfExists, has_intf (L.plain state.now) intf) ∷ (Reason.VlanHasIntf, vlan_has_intf (L.plain state.now) vlan) ∷ (Reason.BadMac, is_bad_mac mac) ∷ []) }
{
    if !state.vlan(vlan) {
        return Some(Reason::NoVlan);
    }
    if has_intf(state, intf) {
        return Some(Reason::IntfExists);
    }
    if state.intf_of_vlan(vlan).is_some() {
        return Some(Reason::VlanHasIntf);
    }
    if !mac.is_unicast() {
        return Some(Reason::BadMac);
    }
    None
}

pub(crate) fn intf_del<L: Lookup>(state: &L, intf: Intf) -> Option<Reason>
    ensures { result ≡ first_that_holds (port_reasons (L.plain state.now) (Act.IntfDel intf)) }
{
    if !has_intf(state, intf) {
        return Some(Reason::NoIntf);
    }
    if has_addrs(state, intf) || state.has_neighbor(intf) {
        return Some(Reason::IntfInUse);
    }
    None
}

pub(crate) fn addr_add<L: Lookup>(state: &L, intf: Intf, addr: &Addr) -> Option<Reason>
    ensures { result ≡ first_that_holds (port_reasons (L.plain state.now) (Act.AddrAdd intf addr.now)) }
{
    if !has_intf(state, intf) {
        return Some(Reason::NoIntf);
    }
    if has_ip(state, intf, addr) {
        return Some(Reason::AddrExists);
    }
    if overlaps_other(state, intf, addr) {
        return Some(Reason::AddrOverlap);
    }
    None
}

pub(crate) fn addr_del<L: Lookup>(state: &L, intf: Intf, addr: &Addr) -> Option<Reason>
    ensures { result ≡ first_that_holds (port_reasons (L.plain state.now) (Act.AddrDel intf addr.now)) }
{
    if !has_intf(state, intf) {
        return Some(Reason::NoIntf);
    }
    if !has_addr(state, intf, addr) {
        return Some(Reason::NoAddr);
    }
    if state.orphans(intf, addr) {
        return Some(Reason::AddrInUse);
    }
    None
}

fn has_intf<L: Lookup>(state: &L, intf: Intf) -> bool
    ensures { result ≡ has_intf (L.plain state.now) intf }
{
    state.intf(intf).is_some()
}

fn has_addrs<L: Lookup>(state: &L, intf: Intf) -> bool
    ensures { result ≡ not (length (addrs_at (L.plain state.now) intf) == 0) }
{
    match state.intf(intf) {
        Some(rec) => !rec.addrs.is_empty(),
        None => false,
    }
}

fn has_ip<L: Lookup>(state: &L, intf: Intf, addr: &Addr) -> bool
    ensures { result ≡ has_ip (addrs_at (L.plain state.now) intf) addr.now }
{
    match state.intf(intf) {
        Some(rec) => rec.addrs.has_ip(addr.ip()),
        None => false,
    }
}

fn has_addr<L: Lookup>(state: &L, intf: Intf, addr: &Addr) -> bool
    ensures { result ≡ has_addr (addrs_at (L.plain state.now) intf) addr.now }
{
    match state.intf(intf) {
        Some(rec) => rec.addrs.has_addr(addr),
        None => false,
    }
}

fn overlaps_other<L: Lookup>(state: &L, intf: Intf, addr: &Addr) -> bool
    ensures { result ≡ has_subnet addr.now && overlaps_other (L.plain state.now) intf (subnet_of addr.now) }
{
    !addr.ip().is_link_local() && state.overlaps_other(intf, &addr.subnet())
}
