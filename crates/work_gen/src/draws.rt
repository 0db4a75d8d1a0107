// Acts that are drawn.
ghost use Rattle.std.specs.Prelude.{◌≡◌, ◌<◌, IfOk};
ghost use Rattle.work_gen.specs.Draws.{draw, mac_set, mac_del, neighbor_set, neighbor_del, route_set, route_del, port_set, act_by, next_act};

use crate::hops::hops_from;
use crate::values::{client, far_prefix, intf, mac, only_vrf, port, quad, vlan};
use net_types::NoMemory;
use rand_core::utils::NextWord;
use rand_pcg::Lcg64Xsh32;
use std::alloc::Global;
use switch_model::{Act, Via};

/// The MAC before those of stations.
const STATION_MACS: u64 = 0x0200_0001_0000;

/// The MAC before those of neighbours.
const NEIGHBOR_MACS: u64 = 0x0200_0002_0000;

/// The next word modulo `n`.
fn draw(rng: &mut Lcg64Xsh32, n: u32) -> u32
    requires { 0 < n }
    ensures drawn { (result, rng.new) ≡ draw n rng.old }
    ensures below { result < n }
{
    rng.next_word() % n
}

#[tactic(auto, unfolding(crate::specs::Draws::mac_set))]
fn mac_set(rng: &mut Lcg64Xsh32) -> Act
    ensures { (result, rng.new) ≡ mac_set rng.old }
{
    let number = 1 + draw(rng, 8);
    let station = draw(rng, 4096);
    let row = draw(rng, 4);
    Act::MacSet {
        vlan: vlan(number),
        mac: mac(STATION_MACS + u64::from(station)),
        port: port(number + 8 * row),
    }
}

#[tactic(auto, unfolding(crate::specs::Draws::mac_del))]
fn mac_del(rng: &mut Lcg64Xsh32) -> Act
    ensures { (result, rng.new) ≡ mac_del rng.old }
{
    let number = 1 + draw(rng, 8);
    let station = draw(rng, 4096);
    Act::MacDel {
        vlan: vlan(number),
        mac: mac(STATION_MACS + u64::from(station)),
    }
}

#[tactic(auto, unfolding(crate::specs::Draws::neighbor_set))]
fn neighbor_set(rng: &mut Lcg64Xsh32) -> Act
    ensures { (result, rng.new) ≡ neighbor_set rng.old }
{
    let number = 1 + draw(rng, 8);
    let host = 2 + draw(rng, 200);
    let station = draw(rng, 4096);
    let row = draw(rng, 4);
    Act::NeighborSet {
        intf: intf(number),
        ip: quad(10, number as u8, 0, host as u8),
        mac: mac(NEIGHBOR_MACS + u64::from(station)),
        port: port(number + 8 * row),
    }
}

#[tactic(auto, unfolding(crate::specs::Draws::neighbor_del))]
fn neighbor_del(rng: &mut Lcg64Xsh32) -> Act
    ensures { (result, rng.new) ≡ neighbor_del rng.old }
{
    let number = 1 + draw(rng, 8);
    let host = 2 + draw(rng, 200);
    Act::NeighborDel {
        intf: intf(number),
        ip: quad(10, number as u8, 0, host as u8),
    }
}

#[tactic(auto, unfolding(crate::specs::Draws::route_set))]
fn route_set(alloc: Global, rng: &mut Lcg64Xsh32) -> Result<Act, NoMemory>
    ensures { IfOk result (λ act. (act, rng.new) ≡ route_set rng.old) }
{
    let block = draw(rng, 256);
    let number = 1 + draw(rng, 4);
    let link = 1 + draw(rng, 8);
    let count = 1 + draw(rng, 4);
    let host = 2 + draw(rng, 100);
    let hops = hops_from(alloc, count as u8, link as u8, host as u8)?;
    Ok(Act::RouteSet {
        vrf: only_vrf(),
        prefix: far_prefix(block as u8),
        client: client(number),
        via: Via::Hops(hops),
    })
}

#[tactic(auto, unfolding(crate::specs::Draws::route_del))]
fn route_del(rng: &mut Lcg64Xsh32) -> Act
    ensures { (result, rng.new) ≡ route_del rng.old }
{
    let block = draw(rng, 256);
    let number = 1 + draw(rng, 4);
    Act::RouteDel {
        vrf: only_vrf(),
        prefix: far_prefix(block as u8),
        client: client(number),
    }
}

#[tactic(auto, unfolding(crate::specs::Draws::port_set))]
fn port_set(rng: &mut Lcg64Xsh32) -> Act
    ensures { (result, rng.new) ≡ port_set rng.old }
{
    let port = port(1 + draw(rng, 32));
    if draw(rng, 2) == 1 {
        Act::PortUp { port }
    } else {
        Act::PortDown { port }
    }
}

/// The act of each `kind` below 10.
#[tactic(auto, unfolding(crate::specs::Draws::act_by))]
fn act_by(alloc: Global, kind: u32, rng: &mut Lcg64Xsh32) -> Result<Act, NoMemory>
    ensures { IfOk result (λ act. (act, rng.new) ≡ act_by kind rng.old) }
{
    match kind {
        0..=2 => Ok(mac_set(rng)),
        3 => Ok(mac_del(rng)),
        4..=5 => Ok(neighbor_set(rng)),
        6 => Ok(neighbor_del(rng)),
        7 => route_set(alloc, rng),
        8 => Ok(route_del(rng)),
        _ => Ok(port_set(rng)),
    }
}

/// The next act.
pub(crate) fn next_act(alloc: Global, rng: &mut Lcg64Xsh32) -> Result<Act, NoMemory>
    ensures { IfOk result (λ act. (act, rng.new) ≡ next_act rng.old) }
{
    let kind = draw(rng, 10);
    act_by(alloc, kind, rng)
}
