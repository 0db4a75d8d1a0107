// Copies of updates.
ghost use Rattle.std.specs.Prelude.{◌≡◌, IfOk};

use crate::small::{copy_intf_act, copy_neighbor_act, copy_port_act, copy_station_act};
use net_types::{HopList, NoMemory, Prefix};
use std::alloc::{AllocError, Global};
use switch_model::{Act, RouteList, Update, Via};

/// The same update again, with an act of its own.
pub fn copy_update(alloc: Global, update: &Update) -> Result<Update, NoMemory>
    ensures same { IfOk result (λ copy. copy ≡ update.now) }
{
    let act = copy_act(alloc, &update.act)?;
    Ok(Update {
        alone: update.alone,
        act,
    })
}

// The acts of which nothing owns memory come first.
fn copy_act(alloc: Global, act: &Act) -> Result<Act, NoMemory>
    ensures { IfOk result (λ copy. copy ≡ act.now) }
{
    if let Some(copy) = copy_port_act(act) {
        return Ok(copy);
    }
    if let Some(copy) = copy_intf_act(act) {
        return Ok(copy);
    }
    if let Some(copy) = copy_neighbor_act(act) {
        return Ok(copy);
    }
    if let Some(copy) = copy_station_act(act) {
        return Ok(copy);
    }
    copy_owning(alloc, act)
}

// An act that owns memory. There are no others left.
fn copy_owning(alloc: Global, act: &Act) -> Result<Act, NoMemory>
    ensures { IfOk result (λ copy. copy ≡ act.now) }
{
    match act {
        Act::VlanAdd { vlan, name } => {
            let name = name.copy(alloc)?;
            Ok(Act::VlanAdd { vlan: *vlan, name })
        }
        Act::RouteSet {
            vrf,
            prefix,
            client,
            via,
        } => {
            let via = copy_via(alloc, via)?;
            Ok(Act::RouteSet {
                vrf: *vrf,
                prefix: *prefix,
                client: *client,
                via,
            })
        }
        Act::ClientSync {
            vrf,
            client,
            routes,
        } => {
            let routes = copy_routes(alloc, routes.as_slice())?;
            Ok(Act::ClientSync {
                vrf: *vrf,
                client: *client,
                routes,
            })
        }
        _ => Err(AllocError),
    }
}

fn copy_via(alloc: Global, via: &Via) -> Result<Via, NoMemory>
    ensures { IfOk result (λ copy. copy ≡ via.now) }
{
    match via {
        Via::Hops(hops) => {
            let hops: HopList = hops.copy(alloc)?;
            Ok(Via::Hops(hops))
        }
        Via::ToCpu => Ok(Via::ToCpu),
        Via::Discard => Ok(Via::Discard),
    }
}

fn copy_routes(alloc: Global, routes: &[(Prefix, Via)]) -> Result<RouteList, NoMemory>
    ensures { IfOk result (λ copy. copy ≡ routes.now) }
{
    let mut copy = RouteList::new(alloc);
    for (prefix, via) in routes {
        let via = copy_via(alloc, via)?;
        copy.push((*prefix, via))?;
    }
    Ok(copy)
}
