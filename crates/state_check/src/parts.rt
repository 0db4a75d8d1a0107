// Each part is put, changed and cut in turn, and one edit is dropped: what differs between the states.
ghost use Rattle.std.specs.Prelude.{◌≡◌, ◌<◌, IfOk};
ghost use Rattle.state_keys.specs.PartKeys.{family};
ghost use Rattle.switch_state.specs.Follows.{Follows};

use net_types::{Client, Intf, Ip, Mac, Port, Prefix, Vlan, VlanName, Vrf};
use state_delta::{Kind, MapDelta};
use std::alloc::{AllocError, Global};
use std::process::Abort;
use std::test::Fail;
use switch_model::{
    AddrList, FibEntry, IntfRec, Lookup, MacRec, NeighborRec, PortRec, RouteRec, VlanRec,
};
use switch_state::{StateDelta, StateEdit, SwitchState};

#[derive(Clone, Copy, Debug, PartialEq, Eq)]
enum Part {
    Vlans,
    Ports,
    Intfs,
    Macs,
    Arps,
    Ndps,
    Routes,
    Fibs,
}

const PARTS: [Part; 8] = [
    Part::Vlans,
    Part::Ports,
    Part::Intfs,
    Part::Macs,
    Part::Arps,
    Part::Ndps,
    Part::Routes,
    Part::Fibs,
];

/// What is done to one part.
#[derive(Clone, Copy, Debug, PartialEq, Eq)]
enum Act {
    Put,
    PutOther,
    Cut,
    CutAndPut,
}

#[derive(Clone, Copy)]
struct Keys {
    vlan: Vlan,
    other_vlan: Vlan,
    port: Port,
    other_port: Port,
    intf: Intf,
    other_intf: Intf,
    vrf: Vrf,
    mac: Mac,
    prefix: Prefix,
}

fn sample_keys() -> Option<Keys> {
    Some(Keys {
        vlan: Vlan::new(10)?,
        other_vlan: Vlan::new(11)?,
        port: Port::new(1)?,
        other_port: Port::new(2)?,
        intf: Intf::new(1)?,
        other_intf: Intf::new(2)?,
        vrf: Vrf::new(0)?,
        mac: Mac::new(0x0200_0000_0009)?,
        prefix: Prefix::new(Ip::V4(0x1400_0000), 8).ok()?,
    })
}

// 10.0.0.9 on the interface.
fn arp_key(intf: Intf) -> (Intf, Ip)
    ensures { family result.1 ≡ 0 }
{
    (intf, Ip::V4(0x0a00_0009))
}

// 2001:db8::9 on the interface.
fn ndp_key(intf: Intf) -> (Intf, Ip)
    ensures { family result.1 ≡ 1 }
{
    (intf, Ip::V6(0x2001_0db8_0000_0000_0000_0000_0000_0009))
}

fn route_key(keys: &Keys) -> (Vrf, Prefix, Client) {
    (keys.vrf, keys.prefix, Client::Ebgp)
}

fn vlan_rec(alloc: Global, is_other: bool) -> Result<VlanRec, AllocError> {
    let name = if is_other { b"b" } else { b"a" };
    match VlanName::of(alloc, name)? {
        Some(name) => Ok(VlanRec { name }),
        None => Err(AllocError),
    }
}

fn intf_rec(alloc: Global, keys: &Keys, is_other: bool) -> IntfRec {
    IntfRec {
        vlan: if is_other { keys.other_vlan } else { keys.vlan },
        vrf: keys.vrf,
        mac: keys.mac,
        addrs: AddrList::new(alloc),
    }
}

fn port_rec(keys: &Keys, is_other: bool) -> PortRec {
    PortRec {
        vlan: keys.vlan,
        up: is_other,
    }
}

fn station_rec(keys: &Keys, is_other: bool) -> MacRec {
    MacRec {
        port: if is_other { keys.other_port } else { keys.port },
    }
}

fn neighbor_rec(keys: &Keys, is_other: bool) -> NeighborRec {
    if is_other {
        NeighborRec::Reachable {
            mac: keys.mac,
            port: keys.port,
        }
    } else {
        NeighborRec::Pending
    }
}

fn route_rec(is_other: bool) -> RouteRec {
    if is_other {
        RouteRec::Discard
    } else {
        RouteRec::ToCpu
    }
}

fn fib_entry(is_other: bool) -> FibEntry {
    if is_other {
        FibEntry::Discard
    } else {
        FibEntry::ToCpu
    }
}

fn put_vlan(
    edit: &mut StateEdit,
    alloc: Global,
    keys: &Keys,
    is_other: bool,
) -> Result<(), AllocError>
    ensures base { edit.new.base ≡ edit.old.base }
    ensures version { edit.new.state.version ≡ edit.old.state.version }
{
    let rec = vlan_rec(alloc, is_other)?;
    edit.put_vlan(keys.vlan, rec)
}

fn put(
    edit: &mut StateEdit,
    alloc: Global,
    keys: &Keys,
    part: Part,
    is_other: bool,
) -> Result<(), AllocError>
    ensures base { edit.new.base ≡ edit.old.base }
    ensures version { edit.new.state.version ≡ edit.old.state.version }
{
    match part {
        Part::Vlans => put_vlan(edit, alloc, keys, is_other),
        Part::Ports => edit.put_port(keys.port, port_rec(keys, is_other)),
        Part::Intfs => edit.put_intf(keys.intf, intf_rec(alloc, keys, is_other)),
        Part::Macs => edit.put_mac((keys.vlan, keys.mac), station_rec(keys, is_other)),
        Part::Arps => edit.put_arp(arp_key(keys.intf), neighbor_rec(keys, is_other)),
        Part::Ndps => edit.put_ndp(ndp_key(keys.intf), neighbor_rec(keys, is_other)),
        Part::Routes => edit.put_route(route_key(keys), route_rec(is_other)),
        Part::Fibs => edit.put_fib((keys.vrf, keys.prefix), fib_entry(is_other)),
    }
}

fn cut(edit: &mut StateEdit, keys: &Keys, part: Part) -> Result<(), AllocError>
    ensures base { edit.new.base ≡ edit.old.base }
    ensures version { edit.new.state.version ≡ edit.old.state.version }
{
    match part {
        Part::Vlans => edit.cut_vlan(keys.vlan),
        Part::Ports => edit.cut_port(keys.port),
        Part::Intfs => edit.cut_intf(keys.intf),
        Part::Macs => edit.cut_mac((keys.vlan, keys.mac)),
        Part::Arps => edit.cut_arp(arp_key(keys.intf)),
        Part::Ndps => edit.cut_ndp(ndp_key(keys.intf)),
        Part::Routes => edit.cut_route(route_key(keys)),
        Part::Fibs => edit.cut_fib((keys.vrf, keys.prefix)),
    }
}

fn cut_and_put(
    edit: &mut StateEdit,
    alloc: Global,
    keys: &Keys,
    part: Part,
) -> Result<(), AllocError>
    ensures base { edit.new.base ≡ edit.old.base }
    ensures version { edit.new.state.version ≡ edit.old.state.version }
{
    cut(edit, keys, part)?;
    put(edit, alloc, keys, part, false)
}

fn act_on(
    edit: &mut StateEdit,
    alloc: Global,
    keys: &Keys,
    part: Part,
    act: Act,
) -> Result<(), AllocError>
    ensures base { edit.new.base ≡ edit.old.base }
    ensures version { edit.new.state.version ≡ edit.old.state.version }
{
    match act {
        Act::Put => put(edit, alloc, keys, part, false),
        Act::PutOther => put(edit, alloc, keys, part, true),
        Act::Cut => cut(edit, keys, part),
        Act::CutAndPut => cut_and_put(edit, alloc, keys, part),
    }
}

/// The state after one act on one part, at a later version.
fn edited(
    alloc: Global,
    base: &SwitchState,
    version: u64,
    keys: &Keys,
    part: Part,
    act: Act,
) -> Result<SwitchState, AllocError>
    requires { base.now.version < version }
    ensures version { IfOk result (λ s. s.version ≡ version) }
    ensures follows { IfOk result (λ s. Follows base.now s) }
{
    let mut edit = StateEdit::of(alloc, base, version)?;
    act_on(&mut edit, alloc, keys, part, act)?;
    Ok(edit.finish())
}

// How many keys differ, and how the last of them does.
fn kinds<T>(delta: MapDelta<'_, T>) -> (usize, Option<Kind>) {
    let mut count = 0usize;
    let mut last = None;
    for change in delta {
        count = count.wrapping_add(1);
        last = Some(change.kind);
    }
    (count, last)
}

fn kinds_of(delta: &StateDelta, part: Part) -> (usize, Option<Kind>) {
    match part {
        Part::Vlans => kinds(delta.vlans()),
        Part::Ports => kinds(delta.ports()),
        Part::Intfs => kinds(delta.intfs()),
        Part::Macs => kinds(delta.macs()),
        Part::Arps => kinds(delta.arps()),
        Part::Ndps => kinds(delta.ndps()),
        Part::Routes => kinds(delta.routes()),
        Part::Fibs => kinds(delta.fibs()),
    }
}

/// One key of the part differs so, or none does, and none of another part.
fn differ_so(rt: &impl Abort, old: &SwitchState, new: &SwitchState, part: Part, kind: Option<Kind>)
    requires { Follows old.now new.now }
{
    let delta = StateDelta::of(old, new);
    for other in PARTS {
        if other == part && kind.is_some() {
            assert_eq!(rt; kinds_of(&delta, other), (1, kind));
        } else {
            assert_eq!(rt; kinds_of(&delta, other), (0, None));
        }
    }
}

/// One part, with the keys and the memory that its trials take.
#[derive(Clone, Copy)]
struct Trial<'a> {
    alloc: Global,
    keys: &'a Keys,
    part: Part,
}

/// The state after one act, which differs from the base so.
fn step(
    rt: &impl Abort,
    trial: &Trial<'_>,
    base: &SwitchState,
    version: u64,
    act: Act,
    kind: Option<Kind>,
) -> Result<SwitchState, AllocError>
    requires { base.now.version < version }
    ensures { IfOk result (λ s. s.version ≡ version) }
{
    let new = edited(trial.alloc, base, version, trial.keys, trial.part, act)?;
    differ_so(rt, base, &new, trial.part, kind);
    Ok(new)
}

fn put_and_change(rt: &impl Abort, trial: &Trial<'_>) -> Result<SwitchState, AllocError>
    ensures { IfOk result (λ s. s.version ≡ 2) }
{
    let one = step(
        rt,
        trial,
        &SwitchState::empty(),
        1,
        Act::Put,
        Some(Kind::Added),
    )?;
    let two = step(rt, trial, &one, 2, Act::PutOther, Some(Kind::Changed));
    drop(one);
    two
}

fn put_the_same(rt: &impl Abort, trial: &Trial<'_>, state: &SwitchState) -> Result<(), AllocError>
    requires { state.now.version < 3 }
{
    let next = step(rt, trial, state, 3, Act::PutOther, None)?;
    drop(next);
    Ok(())
}

fn replace(rt: &impl Abort, trial: &Trial<'_>, state: &SwitchState) -> Result<(), AllocError>
    requires { state.now.version < 3 }
{
    let next = step(rt, trial, state, 3, Act::CutAndPut, Some(Kind::Replaced))?;
    drop(next);
    Ok(())
}

fn cut_twice(rt: &impl Abort, trial: &Trial<'_>, state: &SwitchState) -> Result<(), AllocError>
    requires { state.now.version < 3 }
{
    let gone = step(rt, trial, state, 3, Act::Cut, Some(Kind::Removed))?;
    let same = step(rt, trial, &gone, 4, Act::Cut, None);
    drop(gone);
    drop(same?);
    Ok(())
}

fn each_act(rt: &impl Abort, trial: &Trial<'_>) -> Result<(), AllocError> {
    let state = put_and_change(rt, trial)?;
    let told = each_later_act(rt, trial, &state);
    drop(state);
    told
}

fn each_later_act(rt: &impl Abort, trial: &Trial<'_>, state: &SwitchState) -> Result<(), AllocError>
    requires { state.now.version < 3 }
{
    put_the_same(rt, trial, state)?;
    replace(rt, trial, state)?;
    cut_twice(rt, trial, state)
}

#[test]
fn each_part_is_put_changed_and_cut(rt: HostRuntime) -> Result<(), Fail> {
    let keys = sample_keys().ok_or("keys")?;
    for part in PARTS {
        let trial = Trial {
            alloc: rt.alloc(),
            keys: &keys,
            part,
        };
        each_act(&rt, &trial)?;
    }
    Ok(())
}

/// An edit that changes the port and takes it away, and is dropped.
fn drop_an_edit(rt: &impl Abort, trial: &Trial<'_>, state: &SwitchState) -> Result<(), AllocError>
    requires { state.now.version < 2 }
{
    let port = trial.keys.port;
    let rec = port_rec(trial.keys, true);
    let mut edit = StateEdit::of(trial.alloc, state, 2)?;
    let changed = put_and_cut_port(&mut edit, port, rec);
    has_no_port(rt, port, &edit);
    drop(edit);
    changed
}

fn put_and_cut_port(edit: &mut StateEdit, port: Port, rec: PortRec) -> Result<(), AllocError> {
    edit.put_port(port, rec)?;
    edit.cut_port(port)
}

fn has_no_port(rt: &impl Abort, port: Port, edit: &StateEdit) {
    assert_eq!(rt; edit.port(port), None);
    assert_eq!(rt; edit.base().version(), 1);
}

fn has_the_port(rt: &impl Abort, keys: &Keys, state: &SwitchState) {
    assert_eq!(rt; state.port(keys.port), Some(port_rec(keys, false)));
    assert_eq!(rt; state.version(), 1);
}

fn share_has_the_port(rt: &impl Abort, keys: &Keys, state: &SwitchState) -> Result<(), AllocError> {
    let shared = state.share()?;
    has_the_port(rt, keys, &shared);
    drop(shared);
    Ok(())
}

#[test]
fn an_edit_that_is_dropped_leaves_the_old_state(rt: HostRuntime) -> Result<(), Fail> {
    let keys = sample_keys().ok_or("keys")?;
    let trial = Trial {
        alloc: rt.alloc(),
        keys: &keys,
        part: Part::Ports,
    };
    let one = step(
        &rt,
        &trial,
        &SwitchState::empty(),
        1,
        Act::Put,
        Some(Kind::Added),
    )?;
    let told = keeps_the_port(&rt, &trial, &one);
    drop(one);
    told?;
    Ok(())
}

fn keeps_the_port(rt: &impl Abort, trial: &Trial<'_>, one: &SwitchState) -> Result<(), AllocError>
    requires { one.now.version < 2 }
{
    drop_an_edit(rt, trial, one)?;
    has_the_port(rt, trial.keys, one);
    share_has_the_port(rt, trial.keys, one)
}
