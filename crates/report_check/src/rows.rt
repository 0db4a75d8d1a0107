// Rows of the chip's tables.

use chip_rows::{MarkList, RowLists};
use net_types::{
    HopTarget, HostAct, HostKey, HostKeyList, HostRow, Intf, Ip, ItemList, L2Key, L2Row, L2RowList,
    Mac, NoMemory, Port, Prefix, RouteKey, Shared, Table, Vlan, Vrf,
};
use report_text::write_rows;
use script_text::Page;
use std::alloc::Global;
use std::test::Fail;

type HostRows = ItemList<(HostKey, HostRow)>;

type GroupRows = ItemList<(HostKeyList, MarkList)>;

type RouteRows = ItemList<(RouteKey, HopTarget)>;

// VLAN, MAC, port, and whether it is up.
const STATIONS: [(u16, u64, u16, bool); 2] = [
    (1, 0x0200_0000_0001, 1, true),
    (4094, 0xa0b1_c2d3_e4f5, 1024, false),
];

// Ip and interface.
const HOSTS: [(Ip, u32); 4] = [
    (Ip::V4(0x0a00_0002), 1),
    (Ip::V4(0x0a00_0003), 1),
    (Ip::V4(0x0a00_0003), 7),
    (Ip::V6(0x2001_0db8_0000_0000_0000_0000_0000_0009), 7),
];

// Places of hosts with their marks.
const FIRST_GROUP: [(usize, bool); 2] = [(0, true), (1, false)];

const SECOND_GROUP: [(usize, bool); 3] = [(0, true), (1, false), (2, false)];

const THIRD_GROUP: [(usize, bool); 2] = [(1, false), (3, true)];

// VRF, ip and length of each prefix.
pub const ROUTES: [(u16, Ip, u8); 6] = [
    (0, Ip::V4(0x0a00_0000), 24),
    (0, Ip::V4(0x1400_0000), 8),
    (0, Ip::V4(0x1e00_0000), 8),
    (3, Ip::V4(0), 0),
    (3, Ip::V4(0x1400_0000), 8),
    (3, Ip::V6(0x2001_0db8_0000_0000_0000_0000_0000_0000), 32),
];

fn station(row: (u16, u64, u16, bool)) -> Option<(L2Key, L2Row)> {
    let vlan = Vlan::new(row.0)?;
    let mac = Mac::new(row.1)?;
    let port = Port::new(row.2)?;
    Some((L2Key { vlan, mac }, L2Row { port, up: row.3 }))
}

pub fn push_stations(rows: &mut L2RowList) -> Result<(), Fail> {
    for row in STATIONS {
        let row = station(row).ok_or("no station")?;
        rows.push(row)?;
    }
    Ok(())
}

fn host_at(place: usize) -> Option<HostKey> {
    let (ip, number) = *HOSTS.get(place)?;
    let intf = Intf::new(number)?;
    Some(HostKey { ip, intf })
}

fn forward(mac: u64, port: u16, up: bool) -> Option<HostAct> {
    let mac = Mac::new(mac)?;
    let port = Port::new(port)?;
    Some(HostAct::Forward { mac, port, up })
}

fn act_at(place: usize) -> Option<HostAct> {
    match place {
        0 => forward(0x0200_0000_0022, 1, true),
        1 => forward(0x0200_0000_0023, 2, false),
        _ => Some(HostAct::Trap),
    }
}

pub fn host_row_at(place: usize) -> Option<(HostKey, HostRow)> {
    let key = host_at(place)?;
    let vrf = match place {
        0 | 1 => Vrf::new(0)?,
        _ => Vrf::new(3)?,
    };
    let act = act_at(place)?;
    Some((key, HostRow { vrf, act }))
}

fn push_hosts(rows: &mut HostRows) -> Result<(), Fail> {
    for place in [0, 1, 2, 3] {
        let row = host_row_at(place).ok_or("no host")?;
        rows.push(row)?;
    }
    Ok(())
}

fn push_members(
    hosts: &mut ItemList<HostKey>,
    marks: &mut MarkList,
    members: &[(usize, bool)],
) -> Result<(), Fail> {
    for member in members {
        let host = host_at(member.0).ok_or("no host")?;
        hosts.push(host)?;
        marks.push(member.1)?;
    }
    Ok(())
}

fn push_group(alloc: Global, rows: &mut GroupRows, members: &[(usize, bool)]) -> Result<(), Fail> {
    let mut hosts = ItemList::new(alloc);
    let mut marks = ItemList::new(alloc);
    let pushed = push_members(&mut hosts, &mut marks, members);
    let added = add_group(alloc, rows, hosts, marks);
    pushed?;
    added?;
    Ok(())
}

fn add_group(
    alloc: Global,
    rows: &mut GroupRows,
    hosts: ItemList<HostKey>,
    marks: MarkList,
) -> Result<(), NoMemory> {
    match Shared::of(alloc, hosts) {
        Ok(hosts) => rows.push((hosts, marks)),
        Err(fault) => {
            drop(marks);
            Err(fault)
        }
    }
}

fn push_groups(alloc: Global, rows: &mut GroupRows) -> Result<(), Fail> {
    push_group(alloc, rows, &FIRST_GROUP)?;
    push_group(alloc, rows, &SECOND_GROUP)?;
    push_group(alloc, rows, &THIRD_GROUP)
}

// The hosts of a group, by its place.
fn group_hosts(rows: &[(HostKeyList, MarkList)], place: usize) -> Result<HopTarget, Fail> {
    let row = rows.get(place).ok_or("no group")?;
    Ok(HopTarget::Group(row.0.share()?))
}

fn target_at(groups: &[(HostKeyList, MarkList)], place: usize) -> Result<HopTarget, Fail> {
    match place {
        0 => Ok(HopTarget::ToCpu),
        1 => group_hosts(groups, 1),
        2 => Ok(HopTarget::Discard),
        3 => group_hosts(groups, 0),
        4 => Ok(HopTarget::Host(host_at(2).ok_or("no host")?)),
        _ => group_hosts(groups, 2),
    }
}

pub fn route_key(route: (u16, Ip, u8)) -> Option<RouteKey> {
    let vrf = Vrf::new(route.0)?;
    let prefix = Prefix::new(route.1, route.2).ok()?;
    Some(RouteKey { vrf, prefix })
}

fn push_routes(groups: &[(HostKeyList, MarkList)], rows: &mut RouteRows) -> Result<(), Fail> {
    let mut place = 0;
    for route in ROUTES {
        let key = route_key(route).ok_or("no route")?;
        rows.push((key, target_at(groups, place)?))?;
        place = place.wrapping_add(1);
    }
    Ok(())
}

fn push_linked(alloc: Global, groups: &mut GroupRows, routes: &mut RouteRows) -> Result<(), Fail> {
    push_groups(alloc, groups)?;
    push_routes(groups.as_slice(), routes)
}

fn push_all(
    alloc: Global,
    l2: &mut L2RowList,
    host: &mut HostRows,
    group: &mut GroupRows,
    route: &mut RouteRows,
) -> Result<(), Fail> {
    push_stations(l2)?;
    push_hosts(host)?;
    push_linked(alloc, group, route)
}

/// Rows of each table but one, or of all.
pub fn tables_without(alloc: Global, left_out: Option<Table>) -> Result<RowLists, Fail> {
    let mut l2 = ItemList::new(alloc);
    let mut host = ItemList::new(alloc);
    let mut group = ItemList::new(alloc);
    let mut route = ItemList::new(alloc);
    let pushed = push_all(alloc, &mut l2, &mut host, &mut group, &mut route);
    let l2 = kept(alloc, l2, left_out != Some(Table::L2));
    let host = kept(alloc, host, left_out != Some(Table::Host));
    let group = kept(alloc, group, left_out != Some(Table::Group));
    let route = kept(alloc, route, left_out != Some(Table::Route));
    let rows = RowLists::of(l2, host, group, route);
    match pushed {
        Ok(()) => Ok(rows),
        Err(fault) => {
            drop(rows);
            Err(fault)
        }
    }
}

fn kept<T: Drop>(alloc: Global, list: ItemList<T>, is_kept: bool) -> ItemList<T> {
    if is_kept {
        list
    } else {
        drop(list);
        ItemList::new(alloc)
    }
}

fn write_ascending(page: &mut Page, rows: &RowLists) -> Result<(), Fail> {
    match keyed::ascends(rows.group().as_slice()) {
        true => {
            write_rows(page, rows)?;
            Ok(())
        }
        false => Err(Fail::from("groups that don't ascend")),
    }
}

pub fn write_empty_tables(page: &mut Page, alloc: Global) -> Result<(), Fail> {
    let rows = RowLists::of(
        ItemList::new(alloc),
        ItemList::new(alloc),
        ItemList::new(alloc),
        ItemList::new(alloc),
    );
    let written = write_ascending(page, &rows);
    drop(rows);
    written
}

pub fn write_full_tables(page: &mut Page, alloc: Global) -> Result<(), Fail> {
    let rows = tables_without(alloc, None)?;
    let written = write_ascending(page, &rows);
    drop(rows);
    written
}
