// Worked examples on a small state.
use net_types::{
    Addr, Client, HostAct, HostKey, Intf, Ip, L2Key, Mac, Port, Prefix, RouteKey, Vlan, VlanName,
    Vrf,
};
use plain_looker::*;
use row_rules::{host_row, live};
use std::alloc::Global;
use std::process::Abort;
use std::test::Fail;
use switch_model::{
    AddrList, Best, BestRoutes, IntfRec, Lookup, MacRec, NeighborKey, NeighborRec, PortRec, RibKey,
    RouteRec, VlanRec,
};

/// What the examples speak of: VLAN 10 with port 1 and interface 1, which has 10.0.0.1/24, and a
/// host there, 10.0.0.9.
#[derive(Clone, Copy)]
struct Names {
    vlan: Vlan,
    port: Port,
    intf: Intf,
    vrf: Vrf,
    mac: Mac,
    addr: Addr,
    host: Ip,
}

fn make_names() -> Result<Names, Fail> {
    Ok(Names {
        vlan: Vlan::new(10).ok_or("no VLAN")?,
        port: Port::new(1).ok_or("no port")?,
        intf: Intf::new(1).ok_or("no interface")?,
        vrf: Vrf::new(0).ok_or("no VRF")?,
        mac: Mac::new(9).ok_or("no MAC")?,
        addr: Addr::new(v4(10, 0, 0, 1), 24).ok().ok_or("no address")?,
        host: v4(10, 0, 0, 9),
    })
}

fn v4(a: u8, b: u8, c: u8, d: u8) -> Ip {
    Ip::V4(u32::from_be_bytes([a, b, c, d]))
}

fn net(ip: Ip, len: u8) -> Result<Prefix, Fail> {
    Ok(Prefix::new(ip, len).ok().ok_or("no prefix")?)
}

fn put_vlan(state: &mut PlainLooker, alloc: Global, n: &Names) -> Result<(), Fail> {
    let name = VlanName::of(alloc, b"a")?.ok_or("no name")?;
    state.put_vlan(n.vlan, VlanRec { name })?;
    Ok(())
}

fn put_intf(state: &mut PlainLooker, alloc: Global, n: &Names) -> Result<(), Fail> {
    let mut addrs = AddrList::new(alloc);
    addrs.put(n.addr)?;
    let rec = IntfRec {
        vlan: n.vlan,
        vrf: n.vrf,
        mac: n.mac,
        addrs,
    };
    state.put_intf(n.intf, rec)?;
    Ok(())
}

fn put_station(state: &mut PlainLooker, n: &Names) -> Result<(), Fail> {
    let key = L2Key {
        vlan: n.vlan,
        mac: n.mac,
    };
    state.put_mac(key, MacRec { port: n.port })?;
    Ok(())
}

fn put_neighbor(state: &mut PlainLooker, n: &Names, rec: NeighborRec) -> Result<(), Fail> {
    let key = NeighborKey {
        intf: n.intf,
        ip: n.host,
    };
    state.put_neighbor(key, rec)?;
    Ok(())
}

fn put_port(state: &mut PlainLooker, n: &Names, up: bool) -> Result<(), Fail> {
    state.put_port(n.port, PortRec { vlan: n.vlan, up })?;
    Ok(())
}

fn put_route(state: &mut PlainLooker, key: RibKey, rec: RouteRec) -> Result<(), Fail> {
    state.put_route(key, rec)?;
    Ok(())
}

/// All that the names speak of, the host as a pending neighbour.
fn fill(state: &mut PlainLooker, alloc: Global, n: &Names) -> Result<(), Fail> {
    put_vlan(state, alloc, n)?;
    put_port(state, n, true)?;
    put_intf(state, alloc, n)?;
    put_station(state, n)?;
    put_neighbor(state, n, NeighborRec::Pending)
}

#[test]
fn what_is_put_is_found(rt: HostRuntime) -> Result<(), Fail> {
    let n = make_names()?;
    let mut state = PlainLooker::new(rt.alloc());
    fill(&mut state, rt.alloc(), &n)?;
    finds_all(&rt, &state, &n);
    Ok(())
}

fn finds_all(rt: &impl Abort, state: &PlainLooker, n: &Names) {
    assert!(rt; state.vlan(n.vlan));
    assert!(rt; state.port(n.port).is_some());
    assert!(rt; state.intf(n.intf).is_some());
    assert!(rt; state.intf_of_vlan(n.vlan) == Some(n.intf));
    assert!(rt; state.neighbor(n.intf, n.host) == Some(NeighborRec::Pending));
    assert!(rt; state.mac(n.vlan, n.mac) == Some(MacRec { port: n.port }));
    assert!(rt; state.vlan_used(n.vlan));
    assert!(rt; state.port_used(n.port));
    assert!(rt; state.has_neighbor(n.intf));
}

#[test]
fn what_is_cut_is_gone(rt: HostRuntime) -> Result<(), Fail> {
    let n = make_names()?;
    let mut state = PlainLooker::new(rt.alloc());
    fill(&mut state, rt.alloc(), &n)?;
    cut_all(&mut state, &n);
    finds_nothing(&rt, &state, &n);
    Ok(())
}

fn cut_all(state: &mut PlainLooker, n: &Names) {
    state.cut_mac(&L2Key {
        vlan: n.vlan,
        mac: n.mac,
    });
    state.cut_neighbor(&NeighborKey {
        intf: n.intf,
        ip: n.host,
    });
    state.cut_port(n.port);
    state.cut_intf(n.intf);
    state.cut_vlan(n.vlan);
}

fn finds_nothing(rt: &impl Abort, state: &PlainLooker, n: &Names) {
    assert!(rt; !state.vlan(n.vlan));
    assert!(rt; state.port(n.port).is_none());
    assert!(rt; state.intf_of_vlan(n.vlan).is_none());
    assert!(rt; state.mac(n.vlan, n.mac).is_none());
    assert!(rt; !state.vlan_used(n.vlan));
    assert!(rt; !state.has_neighbor(n.intf));
}

#[test]
fn subnets_overlap_on_other_interfaces_alone(rt: HostRuntime) -> Result<(), Fail> {
    let one = make_names()?;
    let two = Names {
        intf: Intf::new(2).ok_or("no interface")?,
        ..one
    };
    let half = net(v4(10, 0, 0, 128), 25)?;
    let mut state = PlainLooker::new(rt.alloc());
    put_intf(&mut state, rt.alloc(), &one)?;
    overlaps_nowhere(&rt, &state, &one, &half);
    put_intf(&mut state, rt.alloc(), &two)?;
    put_neighbor(&mut state, &one, NeighborRec::Pending)?;
    overlaps_there(&rt, &state, &one, &half);
    Ok(())
}

fn overlaps_nowhere(rt: &impl Abort, state: &PlainLooker, n: &Names, prefix: &Prefix) {
    assert!(rt; !state.overlaps_other(n.intf, prefix));
    assert!(rt; !state.orphans(n.intf, &n.addr));
}

fn overlaps_there(rt: &impl Abort, state: &PlainLooker, n: &Names, prefix: &Prefix) {
    assert!(rt; state.overlaps_other(n.intf, prefix));
    assert!(rt; state.orphans(n.intf, &n.addr));
}

#[test]
fn a_subnet_is_connected(rt: HostRuntime) -> Result<(), Fail> {
    let n = make_names()?;
    let mut state = PlainLooker::new(rt.alloc());
    put_intf(&mut state, rt.alloc(), &n)?;
    is_connected(&rt, &state, &n);
    Ok(())
}

fn is_connected(rt: &impl Abort, state: &PlainLooker, n: &Names) {
    let key = RouteKey {
        vrf: n.vrf,
        prefix: n.addr.subnet(),
    };
    assert!(rt; client_of(state, n.vrf, &key.prefix) == Some(Client::Interface));
    assert!(rt; state.intf_vrf(n.intf) == Some(n.vrf));
    assert!(rt; state.after(None) == Some(key));
    assert!(rt; state.after(Some(key)).is_none());
}

/// Whose the best route is.
fn client_of(state: &PlainLooker, vrf: Vrf, prefix: &Prefix) -> Option<Client> {
    match state.best(vrf, prefix) {
        Some(Best::Connected(_)) => Some(Client::Interface),
        Some(Best::Route(client, _)) => Some(client),
        None => None,
    }
}

#[test]
fn the_longest_match_is_taken(rt: HostRuntime) -> Result<(), Fail> {
    let n = make_names()?;
    let wide = net(v4(20, 0, 0, 0), 8)?;
    let narrow = net(v4(20, 1, 0, 0), 16)?;
    let mut state = PlainLooker::new(rt.alloc());
    put_route(&mut state, by_bgp(&n, wide), RouteRec::ToCpu)?;
    put_route(&mut state, by_bgp(&n, narrow), RouteRec::Discard)?;
    matches_longest(&rt, &state, &wide, &narrow, n.vrf);
    Ok(())
}

fn by_bgp(n: &Names, prefix: Prefix) -> RibKey {
    RibKey {
        vrf: n.vrf,
        prefix,
        client: Client::Ebgp,
    }
}

fn matches_longest(rt: &impl Abort, state: &PlainLooker, wide: &Prefix, narrow: &Prefix, vrf: Vrf) {
    assert!(rt; prefix_of(state, vrf, v4(20, 1, 2, 3)) == Some(*narrow));
    assert!(rt; prefix_of(state, vrf, v4(20, 2, 2, 3)) == Some(*wide));
    assert!(rt; prefix_of(state, vrf, v4(30, 0, 0, 1)).is_none());
}

/// The prefix of the longest match.
fn prefix_of(state: &PlainLooker, vrf: Vrf, ip: Ip) -> Option<Prefix> {
    match state.longest(vrf, ip) {
        Some((prefix, _)) => Some(prefix),
        None => None,
    }
}

#[test]
fn the_route_of_least_distance_is_best(rt: HostRuntime) -> Result<(), Fail> {
    let n = make_names()?;
    let near = by_bgp(&n, net(v4(20, 0, 0, 0), 8)?);
    let far = RibKey {
        client: Client::Ibgp,
        ..near
    };
    let mut state = PlainLooker::new(rt.alloc());
    put_route(&mut state, far, RouteRec::Discard)?;
    put_route(&mut state, near, RouteRec::ToCpu)?;
    has_best(&rt, &state, &near);
    state.cut_route(&near);
    has_best(&rt, &state, &far);
    Ok(())
}

/// The best route is the one under that key.
fn has_best(rt: &impl Abort, state: &PlainLooker, key: &RibKey) {
    assert!(rt; client_of(state, key.vrf, &key.prefix) == Some(key.client));
    assert!(rt; state.route(key).is_some());
}

#[test]
fn a_host_is_live_by_a_port_that_is_up(rt: HostRuntime) -> Result<(), Fail> {
    let n = make_names()?;
    let station = NeighborRec::Reachable {
        mac: n.mac,
        port: n.port,
    };
    let mut state = PlainLooker::new(rt.alloc());
    put_intf(&mut state, rt.alloc(), &n)?;
    put_neighbor(&mut state, &n, station)?;
    put_port(&mut state, &n, true)?;
    is_live(&rt, &state, &n, true);
    put_port(&mut state, &n, false)?;
    is_live(&rt, &state, &n, false);
    state.cut_intf(n.intf);
    has_no_row(&rt, &state, &n);
    Ok(())
}

fn host(n: &Names) -> HostKey {
    HostKey {
        ip: n.host,
        intf: n.intf,
    }
}

fn is_live(rt: &impl Abort, state: &PlainLooker, n: &Names, up: bool) {
    let act = HostAct::Forward {
        mac: n.mac,
        port: n.port,
        up,
    };
    assert!(rt; live(state, n.intf, n.host) == up);
    assert!(rt; host_row(state, &host(n)).map(|row| row.act) == Some(act));
}

fn has_no_row(rt: &impl Abort, state: &PlainLooker, n: &Names) {
    assert!(rt; host_row(state, &host(n)).is_none());
}
