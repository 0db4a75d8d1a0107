// The lists of a saved text, read.
ghost use Rattle.std.specs.Prelude.{◌≡◌, IfOk, option_map};
ghost use Rattle.serde_json.specs.View.{view, members_view};
ghost use Rattle.saved_state.specs.Contents.{caps_of, chip_of, last_in, state_of};

use json_form::{four, is_end, named_rows, number};
use net_types::{
    Caps, GroupRowList, HostRowList, L2Key, L2RowList, NoMemory, Port, RouteRowList, Tables, Vlan,
};
use saved_rows::{
    ChipRoutes, Groups, Hosts, IntfReader, MacReader, NeighborReader, PortReader, RouteReader,
    SavedIntf, SavedRoute, Stations, VlanReader,
};
use serde_json::Value;
use std::alloc::Global;
use std::collections::btree_map::Iter;
use std::marker::Model;
use switch_model::{MacRec, NeighborKey, NeighborRec, PortRec, VlanRec};

/// The lists of a state as they were read. Contracts see the plain state that they list.
#[derive(Drop)]
pub(crate) struct StateLists {
    pub intfs: Vec<SavedIntf>,
    pub macs: Vec<(L2Key, MacRec)>,
    pub neighbors: Vec<(NeighborKey, NeighborRec)>,
    pub ports: Vec<(Port, PortRec)>,
    pub routes: Vec<SavedRoute>,
    pub vlans: Vec<(Vlan, VlanRec)>,
}

impl Model for StateLists {
    ghost use Rattle.switch_model.specs.PlainState.{PlainState};

    ghost Value = { PlainState };

    ghost view = { λ l. record { vlans = l.vlans.items; ports = l.ports.items; intfs = l.intfs.items; macs = l.macs.items; neighbors = l.neighbors.items; routes = l.routes.items } };
}

pub(crate) fn read_caps(value: &Value) -> Option<Caps>
    ensures { result ≡ caps_of (view value.now) }
{
    let (l2, host, group, route) = four(value)?;
    let l2 = number(l2, 0, 65536)?;
    let host = number(host, 0, 65536)?;
    let group = number(group, 0, 4096)?;
    let route = number(route, 0, 65536)?;
    Some(Caps {
        l2: l2 as u32,
        host: host as u32,
        group: group as u32,
        route: route as u32,
    })
}

pub(crate) fn read_chip(alloc: Global, value: &Value) -> Result<Option<Tables>, NoMemory>
    ensures { IfOk result (λ tables. tables ≡ chip_of (view value.now)) }
{
    let Some(map) = value.as_object() else {
        return Ok(None);
    };
    let mut members = map.iter();
    let Some(group) = named_rows::<Groups>(alloc, &mut members, "group")? else {
        return Ok(None);
    };
    let Some(host) = named_rows::<Hosts>(alloc, &mut members, "host")? else {
        return Ok(None);
    };
    let Some(l2) = named_rows::<Stations>(alloc, &mut members, "l2")? else {
        return Ok(None);
    };
    let Some(route) = named_rows::<ChipRoutes>(alloc, &mut members, "route")? else {
        return Ok(None);
    };
    if !is_end(&mut members) {
        return Ok(None);
    }
    Ok(Some(Tables {
        l2: L2RowList::from_vec(l2),
        host: HostRowList::from_vec(host),
        group: GroupRowList::from_vec(group),
        route: RouteRowList::from_vec(route),
    }))
}

pub(crate) fn read_lists(alloc: Global, value: &Value) -> Result<Option<StateLists>, NoMemory>
    ensures { IfOk result (λ lists. lists ≡ state_of (view value.now)) }
{
    let Some(map) = value.as_object() else {
        return Ok(None);
    };
    let mut members = map.iter();
    let Some(intfs) = named_rows::<IntfReader>(alloc, &mut members, "intfs")? else {
        return Ok(None);
    };
    let Some(macs) = named_rows::<MacReader>(alloc, &mut members, "macs")? else {
        drop(intfs);
        return Ok(None);
    };
    let Some(neighbors) = named_rows::<NeighborReader>(alloc, &mut members, "neighbors")? else {
        drop(intfs);
        drop(macs);
        return Ok(None);
    };
    let Some(last) = read_last(alloc, &mut members)? else {
        drop(intfs);
        drop(macs);
        drop(neighbors);
        return Ok(None);
    };
    let (ports, routes, vlans) = last;
    Ok(Some(StateLists {
        intfs,
        macs,
        neighbors,
        ports,
        routes,
        vlans,
    }))
}

// The last three lists of a state.
type LastLists = (Vec<(Port, PortRec)>, Vec<SavedRoute>, Vec<(Vlan, VlanRec)>);

fn read_last(
    alloc: Global,
    members: &mut Iter<'_, String, Value>,
) -> Result<Option<LastLists>, NoMemory>
    ensures { IfOk result (λ lists. option_map (λ l. (l.0.items, (l.1.items, (l.2.items, tt)))) lists ≡ last_in (members_view members.old)) }
{
    let Some(ports) = named_rows::<PortReader>(alloc, members, "ports")? else {
        return Ok(None);
    };
    let Some(routes) = named_rows::<RouteReader>(alloc, members, "routes")? else {
        drop(ports);
        return Ok(None);
    };
    let Some(vlans) = named_rows::<VlanReader>(alloc, members, "vlans")? else {
        drop(ports);
        drop(routes);
        return Ok(None);
    };
    if !is_end(members) {
        drop(ports);
        drop(routes);
        drop(vlans);
        return Ok(None);
    }
    Ok(Some((ports, routes, vlans)))
}
