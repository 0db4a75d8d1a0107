// Answers, each with its text.
use crate::replies::some_totals;
use crate::rows::{ROUTES, host_row_at, push_stations, route_key};
use net_types::{
    Client, GroupRowList, Hop, HopList, HopSet, HostRowList, Intf, Ip, ItemList, NoMemory, Port,
    Prefix, RouteRow, RouteRowList, Tables, Text, Vlan,
};
use report_text::{Found, RouteFound, answer_text, tables_text};
use std::alloc::Global;
use std::process::Abort;
use std::test::Fail;
use switch_model::{FibEntry, PortRec};

#[derive(Clone, Copy)]
enum Case {
    Version,
    Counts,
    PortUp,
    PortDown,
    NoPort,
    NoRoute,
    Connected,
    Forward,
    ToCpu,
    Discard,
    NoEntry,
}

fn port(number: u16, vlan: u16, up: bool) -> Option<Found> {
    let port = Port::new(number)?;
    let vlan = Vlan::new(vlan)?;
    Some(Found::Port {
        port,
        found: Some(PortRec { vlan, up }),
    })
}

fn no_port(number: u16) -> Option<Found> {
    let port = Port::new(number)?;
    Some(Found::Port { port, found: None })
}

fn route(ip: Ip, len: u8, client: Client, entry: Option<FibEntry>) -> Option<Found> {
    match Prefix::new(ip, len) {
        Ok(prefix) => Some(Found::Route(Some(RouteFound {
            prefix,
            client,
            entry,
        }))),
        Err(_) => {
            drop(entry);
            None
        }
    }
}

fn connected() -> Option<Found> {
    let intf = Intf::new(1)?;
    let ip = Ip::V4(0x0a00_0000);
    route(ip, 24, Client::Interface, Some(FibEntry::Connected(intf)))
}

fn two_hops() -> Option<[Hop; 2]> {
    let first = Intf::new(1)?;
    let second = Intf::new(7)?;
    Some([
        Hop {
            ip: Ip::V6(0x2001_0db8_0000_0000_0000_0000_0000_0009),
            intf: Some(second),
        },
        Hop {
            ip: Ip::V4(0x0a00_0002),
            intf: Some(first),
        },
    ])
}

fn hop_set(alloc: Global) -> Result<HopSet, Fail> {
    let hops = two_hops().ok_or("no hops")?;
    let list = HopList::from_vec(hops.to_vec(alloc)?);
    let set = HopSet::of(alloc, &list);
    drop(list);
    Ok(set?)
}

fn forward(alloc: Global) -> Result<Found, Fail> {
    let hops = hop_set(alloc)?;
    let ip = Ip::V4(0x1400_0000);
    let found = route(ip, 8, Client::Ebgp, Some(FibEntry::Forward(hops)));
    Ok(found.ok_or("no route")?)
}

fn found_in(alloc: Global, case: Case) -> Result<Found, Fail> {
    let found = match case {
        Case::Forward => return forward(alloc),
        Case::Version => Some(Found::Version),
        Case::Counts => Some(Found::Counts(some_totals())),
        Case::PortUp => port(1, 10, true),
        Case::PortDown => port(1024, 4094, false),
        Case::NoPort => no_port(7),
        Case::NoRoute => Some(Found::Route(None)),
        Case::Connected => connected(),
        Case::ToCpu => route(Ip::V4(0), 0, Client::Static, Some(FibEntry::ToCpu)),
        Case::Discard => route(Ip::V6(0), 0, Client::Ibgp, Some(FibEntry::Discard)),
        Case::NoEntry => route(Ip::V4(0x1e00_0000), 8, Client::Openr, None),
    };
    Ok(found.ok_or("nothing found")?)
}

fn is_told(rt: &impl Abort, told: Result<Text, NoMemory>, wanted: &str) -> Result<(), Fail> {
    let text = told?;
    let same = text.as_slice() == wanted.as_bytes();
    drop(text);
    assert!(rt; same);
    Ok(())
}

fn is_answer(rt: &impl Abort, alloc: Global, case: Case, wanted: &str) -> Result<(), Fail> {
    let found = found_in(alloc, case)?;
    let told = answer_text(alloc, 2, 3, &found);
    drop(found);
    is_told(rt, told, wanted)
}

#[test]
fn each_question_has_its_answer(rt: HostRuntime) -> Result<(), Fail> {
    let table = [
        (Case::Version, "front 3 version 2"),
        (
            Case::Counts,
            "front 3 version 2 ports 1 up 2 vlans 3 intfs 4 macs 5 neighbors 6 routes 7 fib 18446744073709551615",
        ),
        (Case::PortUp, "front 3 version 2 port 1 vlan 10 up"),
        (Case::PortDown, "front 3 version 2 port 1024 vlan 4094 down"),
        (Case::NoPort, "front 3 version 2 port 7 none"),
        (Case::NoRoute, "front 3 version 2 route none"),
        (
            Case::Connected,
            "front 3 version 2 route 10.0.0.0/24 interface connected",
        ),
        (
            Case::Forward,
            "front 3 version 2 route 20.0.0.0/8 ebgp to 10.0.0.2@1 2001:db8::9@7",
        ),
        (Case::ToCpu, "front 3 version 2 route 0.0.0.0/0 static cpu"),
        (Case::Discard, "front 3 version 2 route ::/0 ibgp drop"),
        (
            Case::NoEntry,
            "front 3 version 2 route 30.0.0.0/8 openr none",
        ),
    ];
    for (case, wanted) in table {
        is_answer(&rt, rt.alloc(), case, wanted)?;
    }
    Ok(())
}

fn push_hosts(hosts: &mut HostRowList) -> Result<(), Fail> {
    for place in [0, 1, 2, 3] {
        let (key, row) = host_row_at(place).ok_or("no host")?;
        hosts.push((place as u32, key, row))?;
    }
    Ok(())
}

fn push_routes(routes: &mut RouteRowList) -> Result<(), Fail> {
    for route in ROUTES {
        let key = route_key(route).ok_or("no route")?;
        routes.push((key, RouteRow::ToCpu))?;
    }
    Ok(())
}

fn push_rows(alloc: Global, tables: &mut Tables) -> Result<(), Fail> {
    push_stations(&mut tables.l2)?;
    push_hosts(&mut tables.host)?;
    tables.group.push((0, ItemList::new(alloc)))?;
    push_routes(&mut tables.route)
}

#[test]
fn the_rows_of_tables_are_counted(rt: HostRuntime) -> Result<(), Fail> {
    let alloc = rt.alloc();
    let mut tables = Tables {
        l2: ItemList::new(alloc),
        host: ItemList::new(alloc),
        group: ItemList::new(alloc),
        route: ItemList::new(alloc),
    };
    let pushed = push_rows(alloc, &mut tables);
    let told = tables_text(alloc, 4, 9, &tables);
    drop(tables);
    pushed?;
    is_told(&rt, told, "front 9 version 4 l2 2 host 4 group 1 route 6")
}
