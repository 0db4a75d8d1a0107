// Tables that make a chip, and tables that make none.
use super::*;

/// A row of an image: a host or a group in a slot, and where a route leads.
#[derive(Clone, Copy, Debug)]
enum Row {
    None,
    Station,
    Host(u32, u32),
    Pair(u32, u32, u32),
    Wide(u32),
    ToHost(u16, u32),
    ToGroup(u16, u32),
}

fn no_rows(alloc: Global) -> Tables {
    Tables {
        l2: ItemList::new(alloc),
        host: ItemList::new(alloc),
        group: ItemList::new(alloc),
        route: ItemList::new(alloc),
    }
}

/// A group of the hosts in so many slots, from the first on.
fn wide(alloc: Global, count: u32) -> Result<ItemList<Member>, NoMemory> {
    let mut list = ItemList::new(alloc);
    for host in 0..count {
        list.push(Member { host, live: true })?;
    }
    Ok(list)
}

fn pair(alloc: Global, first: u32, second: u32) -> Result<ItemList<Member>, NoMemory> {
    let members = crate::rows::members(first, second);
    Ok(ItemList::from_vec(members.as_slice().to_vec(alloc)?))
}

fn push_row(alloc: Global, tables: &mut Tables, row: Row) -> Result<(), NoMemory> {
    match row {
        Row::None => Ok(()),
        Row::Station => tables.l2.push((station_of(7), l2_row())),
        Row::Host(slot, n) => tables.host.push((slot, host_of(n), host_row())),
        Row::Pair(slot, first, second) => tables.group.push((slot, pair(alloc, first, second)?)),
        Row::Wide(count) => tables.group.push((0, wide(alloc, count)?)),
        Row::ToHost(n, slot) => tables.route.push((route_of(n), RouteRow::Host(slot))),
        Row::ToGroup(n, slot) => tables.route.push((route_of(n), RouteRow::Group(slot))),
    }
}

/// Hosts in so many slots, and these rows behind them.
fn image_of(alloc: Global, many: u32, rows: &[Row]) -> Result<Tables, NoMemory> {
    let mut tables = no_rows(alloc);
    for slot in 0..many {
        tables.host.push((slot, host_of(slot), host_row()))?;
    }
    for row in rows {
        push_row(alloc, &mut tables, *row)?;
    }
    Ok(tables)
}

/// Whether they make a chip with that room; None where memory was refused.
fn is_chip(alloc: Global, caps: Caps, many: u32, rows: &[Row]) -> Option<bool> {
    let Ok(tables) = image_of(alloc, many, rows) else {
        return None;
    };
    match SimChip::from_rows(alloc, caps, tables) {
        Ok(_) => Some(true),
        Err(RowsFault::BadRows) => Some(false),
        Err(RowsFault::NoMemory) => None,
    }
}

const ROOM: Caps = Caps {
    l2: 2,
    host: 3,
    group: 3,
    route: 2,
};

const IMAGE: [Row; 5] = [
    Row::Host(0, 9),
    Row::Host(2, 5),
    Row::Pair(1, 2, 0),
    Row::ToGroup(20, 1),
    Row::ToHost(30, 2),
];

const ROOMS: [(Caps, bool); 5] = [
    (ROOM, true),
    (Caps { l2: 0, ..ROOM }, true),
    (Caps { host: 2, ..ROOM }, false),
    (Caps { group: 1, ..ROOM }, false),
    (Caps { route: 1, ..ROOM }, false),
];

#[test]
fn counts_and_slots_are_within_the_capacity(rt: HostRuntime) {
    for (caps, wanted) in ROOMS {
        let made = is_chip(rt.alloc(), caps, 0, IMAGE.as_slice());
        assert!(rt; made == Some(wanted), "{caps:?}");
    }
}

/// So many hosts, two rows behind them, and whether they make a chip.
const PAIRS: [(u32, Row, Row, bool); 14] = [
    (0, Row::Host(0, 9), Row::Host(1, 9), false),
    (0, Row::Host(0, 9), Row::Host(0, 5), false),
    (0, Row::Host(1, 9), Row::Host(0, 5), false),
    (0, Row::Station, Row::Station, false),
    (0, Row::ToHost(20, 0), Row::None, false),
    (3, Row::ToGroup(20, 1), Row::None, false),
    (3, Row::Pair(1, 2, 0), Row::Pair(2, 2, 0), false),
    (3, Row::Pair(1, 2, 0), Row::Pair(2, 0, 2), true),
    (3, Row::Pair(1, 2, 0), Row::Pair(2, 0, 0), false),
    (2, Row::Pair(1, 0, 1), Row::Pair(2, 0, 2), false),
    (65, Row::Wide(1), Row::None, false),
    (65, Row::Wide(2), Row::None, true),
    (65, Row::Wide(64), Row::None, true),
    (65, Row::Wide(65), Row::None, false),
];

#[test]
fn what_makes_a_chip(rt: HostRuntime) {
    let caps = Caps { host: 65, ..ROOM };
    for (many, first, second, wanted) in PAIRS {
        let made = is_chip(rt.alloc(), caps, many, [first, second].as_slice());
        assert!(rt; made == Some(wanted), "{first:?} {second:?}");
    }
}

/// The tables that a chip was made of, and a copy of its own.
fn copies(alloc: Global) -> Option<(Tables, Tables)> {
    let (Ok(given), Ok(again)) = (
        image_of(alloc, 0, IMAGE.as_slice()),
        image_of(alloc, 0, IMAGE.as_slice()),
    ) else {
        return None;
    };
    let Ok(chip) = SimChip::from_rows(alloc, ROOM, given) else {
        return None;
    };
    match chip.copy_tables(alloc) {
        Ok(copied) => Some((again, copied)),
        Err(_) => None,
    }
}

#[test]
fn a_chip_is_made_of_its_tables(rt: HostRuntime) {
    let (given, copied) = copies(rt.alloc()).expect(&rt, "tables");
    assert!(rt; given.l2 == copied.l2);
    assert!(rt; given.host == copied.host);
    assert!(rt; given.group == copied.group);
    assert!(rt; given.route == copied.route);
}
