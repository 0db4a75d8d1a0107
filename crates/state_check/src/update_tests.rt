// Worked examples on a small state.
use net_types::{Addr, Client, Intf, Ip, Mac, NoMemory, Port, Prefix, Vlan, VlanName, Vrf};
use node_core::Node;
use node_map::NodeKey;
use state_update::{Applied, BuildFault, apply, build};
use std::alloc::Global;
use std::process::Abort;
use std::test::Fail;
use switch_model::{Act, ActList, Reason, RouteList, RouteRec, Update, Via};
use switch_state::{StateEdit, SwitchState};

/// fe80::9
const LINK_LOCAL: Ip = Ip::V6(0xfe80_0000_0000_0000_0000_0000_0000_0009);

/// What the examples speak of: VLANs 10 and 11, port 1 in VLAN 10, interface 1 on VLAN 10 with
/// 10.0.0.1/24, and interface 2 on VLAN 11.
#[derive(Clone, Copy)]
struct Names {
    ten: Vlan,
    eleven: Vlan,
    port: Port,
    one: Intf,
    two: Intf,
    vrf: Vrf,
    mac: Mac,
    addr: Addr,
}

fn make_names() -> Result<Names, Fail> {
    Ok(Names {
        ten: Vlan::new(10).ok_or("no VLAN")?,
        eleven: Vlan::new(11).ok_or("no VLAN")?,
        port: Port::new(1).ok_or("no port")?,
        one: Intf::new(1).ok_or("no interface")?,
        two: Intf::new(2).ok_or("no interface")?,
        vrf: Vrf::new(0).ok_or("no VRF")?,
        mac: Mac::new(0x0200_0000_0009).ok_or("no MAC")?,
        addr: make_addr(ten(0, 1), 24)?,
    })
}

/// 10.0.`c`.`d`
fn ten(c: u8, d: u8) -> Ip {
    Ip::V4(u32::from_be_bytes([10, 0, c, d]))
}

fn make_addr(ip: Ip, len: u8) -> Result<Addr, Fail> {
    Ok(Addr::new(ip, len).ok().ok_or("no address")?)
}

/// `a`.0.0.0/8
fn eight(a: u8) -> Result<Prefix, Fail> {
    let ip = Ip::V4(u32::from_be_bytes([a, 0, 0, 0]));
    Ok(Prefix::new(ip, 8).ok().ok_or("no prefix")?)
}

fn add_vlan(alloc: Global, acts: &mut Vec<Act>, vlan: Vlan) -> Result<(), Fail> {
    let name = VlanName::of(alloc, b"a")?.ok_or("no name")?;
    acts.push(Act::VlanAdd { vlan, name })?;
    Ok(())
}

fn add_intf(acts: &mut Vec<Act>, n: &Names, intf: Intf, vlan: Vlan) -> Result<(), NoMemory> {
    let (vrf, mac) = (n.vrf, n.mac);
    acts.push(Act::IntfAdd {
        intf,
        vlan,
        vrf,
        mac,
    })?;
    Ok(())
}

fn add_vlans(alloc: Global, acts: &mut Vec<Act>, n: &Names) -> Result<(), Fail> {
    add_vlan(alloc, acts, n.ten)?;
    add_vlan(alloc, acts, n.eleven)
}

fn add_intfs(acts: &mut Vec<Act>, n: &Names) -> Result<(), NoMemory> {
    let (port, vlan) = (n.port, n.ten);
    acts.push(Act::PortAdd { port, vlan })?;
    add_intf(acts, n, n.one, n.ten)?;
    add_intf(acts, n, n.two, n.eleven)?;
    let (intf, addr) = (n.one, n.addr);
    acts.push(Act::AddrAdd { intf, addr })?;
    Ok(())
}

fn small_acts(alloc: Global, n: &Names) -> Result<Vec<Act>, Fail> {
    let mut acts = Vec::new(alloc);
    add_vlans(alloc, &mut acts, n)?;
    add_intfs(&mut acts, n)?;
    Ok(acts)
}

/// All that the names speak of, at version 7.
fn small_state(alloc: Global, n: &Names) -> Result<SwitchState, Fail> {
    let acts = ActList::from_vec(small_acts(alloc, n)?);
    let built = build(alloc, 7, &acts);
    drop(acts);
    Ok(built?)
}

/// An edit of the state, at the next version.
fn next_edit(alloc: Global, state: &SwitchState) -> Result<StateEdit, Fail> {
    let version = state.version().checked_add(1).ok_or("no next version")?;
    Ok(StateEdit::of(alloc, state, version)?)
}

fn applied(alloc: Global, edit: &mut StateEdit, act: Act) -> Result<Applied, NoMemory> {
    apply(alloc, edit, &Update { alone: false, act })
}

/// What becomes of an act on a new edit of the state.
fn answer(alloc: Global, state: &SwitchState, act: Act) -> Result<Applied, Fail> {
    match next_edit(alloc, state) {
        Ok(mut edit) => {
            let applied = applied(alloc, &mut edit, act);
            drop(edit);
            Ok(applied?)
        }
        Err(fault) => {
            drop(act);
            Err(fault)
        }
    }
}

/// The act is refused for that reason.
fn refuses<R: Abort + AllocGlobal>(
    rt: &R,
    state: &SwitchState,
    act: Act,
    reason: Reason,
) -> Result<(), Fail> {
    let given = answer(rt.alloc(), state, act)?;
    assert_eq!(rt; given, Applied::Invalid(reason));
    Ok(())
}

/// The act is done.
fn does<R: Abort + AllocGlobal>(rt: &R, state: &SwitchState, act: Act) -> Result<(), Fail> {
    let given = answer(rt.alloc(), state, act)?;
    assert_eq!(rt; given, Applied::Changed);
    Ok(())
}

#[test]
fn addresses_are_tested_against_subnets(rt: HostRuntime) -> Result<(), Fail> {
    let n = make_names()?;
    let state = small_state(rt.alloc(), &n)?;
    let told = tests_addresses(&rt, &state, &n);
    drop(state);
    told
}

fn tests_addresses<R: Abort + AllocGlobal>(
    rt: &R,
    state: &SwitchState,
    n: &Names,
) -> Result<(), Fail> {
    let half = make_addr(ten(0, 129), 25)?;
    let other = make_addr(ten(0, 1), 25)?;
    let link_local = make_addr(LINK_LOCAL, 64)?;
    refuses(rt, state, addr_add(n.two, half), Reason::AddrOverlap)?;
    does(rt, state, addr_add(n.one, half))?;
    refuses(rt, state, addr_add(n.one, other), Reason::AddrExists)?;
    does(rt, state, addr_add(n.two, link_local))?;
    refuses(rt, state, addr_del(n.one, other), Reason::NoAddr)?;
    does(rt, state, addr_del(n.one, n.addr))
}

fn addr_add(intf: Intf, addr: Addr) -> Act {
    Act::AddrAdd { intf, addr }
}

fn addr_del(intf: Intf, addr: Addr) -> Act {
    Act::AddrDel { intf, addr }
}

#[test]
fn an_address_stays_while_a_neighbor_needs_it(rt: HostRuntime) -> Result<(), Fail> {
    let n = make_names()?;
    let state = small_state(rt.alloc(), &n)?;
    let told = keeps_address(&rt, &state, &n);
    drop(state);
    told
}

fn keeps_address<R: Abort + AllocGlobal>(
    rt: &R,
    state: &SwitchState,
    n: &Names,
) -> Result<(), Fail> {
    let mut edit = next_edit(rt.alloc(), state)?;
    let told = needs_address(rt, &mut edit, n);
    drop(edit);
    told
}

fn needs_address<R: Abort + AllocGlobal>(
    rt: &R,
    edit: &mut StateEdit,
    n: &Names,
) -> Result<(), Fail> {
    let (intf, ip) = (n.one, ten(0, 9));
    let pending = applied(rt.alloc(), edit, Act::NeighborPending { intf, ip })?;
    let gone = applied(rt.alloc(), edit, addr_del(n.one, n.addr))?;
    assert_eq!(rt; pending, Applied::Changed);
    assert_eq!(rt; gone, Applied::Invalid(Reason::AddrInUse));
    Ok(())
}

#[test]
fn the_earlier_reason_is_given(rt: HostRuntime) -> Result<(), Fail> {
    let n = make_names()?;
    let state = small_state(rt.alloc(), &n)?;
    let told = tests_neighbors(&rt, &state, &n);
    drop(state);
    told
}

fn tests_neighbors<R: Abort + AllocGlobal>(
    rt: &R,
    state: &SwitchState,
    n: &Names,
) -> Result<(), Fail> {
    let nowhere = Intf::new(7).ok_or("no interface")?;
    let no_port = Port::new(8).ok_or("no port")?;
    let (near, far) = (ten(0, 9), ten(1, 9));
    refuses(
        rt,
        state,
        neighbor_set(n, nowhere, near, no_port),
        Reason::NoPort,
    )?;
    refuses(
        rt,
        state,
        neighbor_set(n, nowhere, near, n.port),
        Reason::NoIntf,
    )?;
    refuses(
        rt,
        state,
        neighbor_set(n, n.one, far, n.port),
        Reason::NotInSubnet,
    )?;
    refuses(
        rt,
        state,
        neighbor_set(n, n.two, LINK_LOCAL, n.port),
        Reason::PortNotInVlan,
    )?;
    does(rt, state, neighbor_set(n, n.one, near, n.port))
}

fn neighbor_set(n: &Names, intf: Intf, ip: Ip, port: Port) -> Act {
    Act::NeighborSet {
        intf,
        ip,
        mac: n.mac,
        port,
    }
}

#[test]
fn what_is_used_is_kept(rt: HostRuntime) -> Result<(), Fail> {
    let n = make_names()?;
    let state = small_state(rt.alloc(), &n)?;
    let told = keeps_used(&rt, &state, &n);
    drop(state);
    told
}

fn keeps_used<R: Abort + AllocGlobal>(rt: &R, state: &SwitchState, n: &Names) -> Result<(), Fail> {
    let third = Intf::new(3).ok_or("no interface")?;
    let nobody = Mac::new(0).ok_or("no MAC")?;
    let (vlan, vrf, port) = (n.ten, n.vrf, n.port);
    let added = Act::IntfAdd {
        intf: third,
        vlan,
        vrf,
        mac: n.mac,
    };
    let station = Act::MacSet {
        vlan,
        mac: nobody,
        port,
    };
    refuses(rt, state, added, Reason::VlanHasIntf)?;
    refuses(rt, state, station, Reason::BadMac)?;
    refuses(rt, state, Act::VlanDel { vlan }, Reason::VlanInUse)?;
    refuses(rt, state, Act::IntfDel { intf: n.one }, Reason::IntfInUse)?;
    does(rt, state, Act::PortDel { port })
}

#[test]
fn the_first_refused_act_is_named(rt: HostRuntime) -> Result<(), Fail> {
    let port = Port::new(1).ok_or("no port")?;
    let mut acts = ActList::new(rt.alloc());
    acts.push(Act::PortUp { port })?;
    let built = build(rt.alloc(), 7, &acts);
    drop(acts);
    match built {
        Err(fault) => is_first(&rt, fault),
        Ok(state) => {
            drop(state);
            Err("built".into())
        }
    }
}

fn is_first(rt: &impl Abort, fault: BuildFault) -> Result<(), Fail> {
    let reason = Reason::NoPort;
    assert_eq!(rt; fault, BuildFault::Invalid { index: 0, reason });
    Ok(())
}

fn set_route(n: &Names, prefix: Prefix) -> Act {
    Act::RouteSet {
        vrf: n.vrf,
        prefix,
        client: Client::Static,
        via: Via::ToCpu,
    }
}

fn set_routes(
    alloc: Global,
    edit: &mut StateEdit,
    n: &Names,
    one: Prefix,
    other: Prefix,
) -> Result<(), NoMemory> {
    applied(alloc, edit, set_route(n, one))?;
    applied(alloc, edit, set_route(n, other))?;
    Ok(())
}

/// Two static routes, at version 7.
fn two_routes(
    alloc: Global,
    n: &Names,
    one: Prefix,
    other: Prefix,
) -> Result<SwitchState, NoMemory> {
    let mut edit = StateEdit::of(alloc, &SwitchState::empty(), 7)?;
    match set_routes(alloc, &mut edit, n, one, other) {
        Ok(()) => Ok(edit.finish()),
        Err(fault) => {
            drop(edit);
            Err(fault)
        }
    }
}

fn sync_of(alloc: Global, n: &Names, one: Prefix, other: Prefix) -> Result<Act, NoMemory> {
    let mut routes = RouteList::new(alloc);
    routes.push((one, Via::Discard))?;
    routes.push((other, Via::ToCpu))?;
    Ok(Act::ClientSync {
        vrf: n.vrf,
        client: Client::Static,
        routes,
    })
}

/// The state after an act, at the next version.
fn state_after(alloc: Global, state: &SwitchState, act: Act) -> Result<SwitchState, Fail> {
    match next_edit(alloc, state) {
        Ok(edit) => after(alloc, edit, act),
        Err(fault) => {
            drop(act);
            Err(fault)
        }
    }
}

fn after(alloc: Global, mut edit: StateEdit, act: Act) -> Result<SwitchState, Fail> {
    match applied(alloc, &mut edit, act) {
        Ok(_) => Ok(edit.finish()),
        Err(fault) => {
            drop(edit);
            Err(fault.into())
        }
    }
}

/// When the first three routes were born, and when their nodes were made.
fn ages(state: &SwitchState) -> [Option<(u64, u64)>; 3] {
    let mut walk = state.routes().walk();
    [age(walk.next()), age(walk.next()), age(walk.next())]
}

fn age(entry: Option<(&NodeKey, &Node<RouteRec>)>) -> Option<(u64, u64)> {
    match entry {
        Some((_, node)) => Some((node.born(), node.gen_())),
        None => None,
    }
}

#[test]
fn a_listed_route_keeps_its_birth(rt: HostRuntime) -> Result<(), Fail> {
    let n = make_names()?;
    let (first, second) = (eight(10)?, eight(20)?);
    let state = two_routes(rt.alloc(), &n, first, second)?;
    let told = keeps_birth(&rt, &state, &n, first);
    drop(state);
    told
}

fn keeps_birth<R: Abort + AllocGlobal>(
    rt: &R,
    state: &SwitchState,
    n: &Names,
    listed: Prefix,
) -> Result<(), Fail> {
    let third = eight(30)?;
    let act = sync_of(rt.alloc(), n, listed, third)?;
    let state = state_after(rt.alloc(), state, act)?;
    let ages = ages(&state);
    drop(state);
    assert_eq!(rt; ages, [Some((7, 8)), Some((8, 8)), None]);
    Ok(())
}
