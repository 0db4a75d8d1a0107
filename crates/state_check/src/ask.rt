// The questions of rules, asked of two states.
use crate::draws::Draws;
use net_types::{Intf, Vlan};
use switch_model::Lookup;

/// How many questions were asked, how many of those that are to be answered with yes or no were
/// answered with yes, and how many were answered differently.
#[derive(Clone, Copy, Debug)]
pub struct Tally {
    pub asked: u64,
    pub yes: u64,
    pub differ: u64,
}

impl Tally {
    pub fn none() -> Tally {
        Tally {
            asked: 0,
            yes: 0,
            differ: 0,
        }
    }

    fn compare(&mut self, one: bool, other: bool) {
        self.record(one == other);
        self.yes = self.yes.saturating_add(u64::from(other));
    }

    fn record(&mut self, is_same: bool) {
        self.asked = self.asked.saturating_add(1);
        self.differ = self.differ.saturating_add(u64::from(!is_same));
    }
}

/// Asks both states each question of drawn keys.
pub fn ask<A: Lookup, B: Lookup>(one: &A, other: &B, draws: &mut Draws, tally: &mut Tally) {
    if let Some(vlan) = draws.vlan() {
        ask_of_vlan(one, other, vlan, draws, tally);
    }
    if let Some(intf) = draws.intf() {
        ask_of_intf(one, other, intf, draws, tally);
        ask_of_subnets(one, other, intf, draws, tally);
    }
    if let Some(port) = draws.port() {
        tally.record(one.port(port) == other.port(port));
        tally.compare(one.port_used(port), other.port_used(port));
    }
}

fn ask_of_vlan<A: Lookup, B: Lookup>(
    one: &A,
    other: &B,
    vlan: Vlan,
    draws: &mut Draws,
    tally: &mut Tally,
) {
    tally.compare(one.vlan(vlan), other.vlan(vlan));
    tally.compare(one.vlan_used(vlan), other.vlan_used(vlan));
    tally.record(one.intf_of_vlan(vlan) == other.intf_of_vlan(vlan));
    if let Some(mac) = draws.mac() {
        tally.record(one.mac(vlan, mac) == other.mac(vlan, mac));
    }
}

fn ask_of_intf<A: Lookup, B: Lookup>(
    one: &A,
    other: &B,
    intf: Intf,
    draws: &mut Draws,
    tally: &mut Tally,
) {
    let ip = draws.ip();
    tally.record(one.intf(intf) == other.intf(intf));
    tally.record(one.neighbor(intf, ip) == other.neighbor(intf, ip));
    tally.compare(one.has_neighbor(intf), other.has_neighbor(intf));
}

fn ask_of_subnets<A: Lookup, B: Lookup>(
    one: &A,
    other: &B,
    intf: Intf,
    draws: &mut Draws,
    tally: &mut Tally,
) {
    if let Some(prefix) = draws.prefix() {
        tally.compare(
            one.overlaps_other(intf, &prefix),
            other.overlaps_other(intf, &prefix),
        );
    }
    if let Some(addr) = draws.addr() {
        tally.compare(one.orphans(intf, &addr), other.orphans(intf, &addr));
    }
}
