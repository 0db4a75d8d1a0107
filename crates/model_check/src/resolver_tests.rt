// Worked examples on small states.
use net_types::{Addr, Client, Hop, HopList, HopSet, Intf, Ip, Mac, NoMemory, Prefix, Vlan, Vrf};
use plain_looker::PlainLooker;
use plain_resolver::*;
use std::alloc::Global;
use std::process::Abort;
use std::test::Fail;
use switch_model::{AddrList, IntfRec, Resolved, Resolver, RibKey, RouteRec};

/// fe80::1
const LINK_LOCAL: Ip = Ip::V6(0xfe80_0000_0000_0000_0000_0000_0000_0001);

/// 2001:db8::
const DOCUMENTATION: Ip = Ip::V6(0x2001_0db8_0000_0000_0000_0000_0000_0000);

/// An interface and its VRF.
#[derive(Clone, Copy)]
struct Place {
    intf: Intf,
    vrf: Vrf,
}

fn make_place(intf: u32, vrf: u16) -> Result<Place, Fail> {
    Ok(Place {
        intf: Intf::new(intf).ok_or("no interface")?,
        vrf: Vrf::new(vrf).ok_or("no VRF")?,
    })
}

fn v4(a: u8, b: u8, c: u8, d: u8) -> Ip {
    Ip::V4(u32::from_be_bytes([a, b, c, d]))
}

/// `a`.0.0.0/8
fn eight(a: u8) -> Result<Prefix, Fail> {
    net(v4(a, 0, 0, 0), 8)
}

fn net(ip: Ip, len: u8) -> Result<Prefix, Fail> {
    Ok(Prefix::new(ip, len).ok().ok_or("no prefix")?)
}

fn hop(ip: Ip) -> Hop {
    Hop { ip, intf: None }
}

fn hop_at(ip: Ip, place: &Place) -> Hop {
    Hop {
        ip,
        intf: Some(place.intf),
    }
}

/// The interface, with 10.0.0.1/24.
fn put_intf(state: &mut PlainLooker, alloc: Global, place: &Place) -> Result<(), Fail> {
    let vlan = Vlan::new(10).ok_or("no VLAN")?;
    let mac = Mac::new(0x0200_0000_0101).ok_or("no MAC")?;
    let addr = Addr::new(v4(10, 0, 0, 1), 24).ok().ok_or("no address")?;
    let mut addrs = AddrList::new(alloc);
    addrs.put(addr)?;
    let rec = IntfRec {
        vlan,
        vrf: place.vrf,
        mac,
        addrs,
    };
    state.put_intf(place.intf, rec)?;
    Ok(())
}

/// A route by BGP.
fn put(state: &mut PlainLooker, vrf: Vrf, prefix: Prefix, rec: RouteRec) -> Result<(), Fail> {
    let key = RibKey {
        vrf,
        prefix,
        client: Client::Ebgp,
    };
    state.put_route(key, rec)?;
    Ok(())
}

/// A route by BGP via hops.
fn put_via(
    state: &mut PlainLooker,
    alloc: Global,
    vrf: Vrf,
    prefix: Prefix,
    hops: &[Hop],
) -> Result<(), Fail> {
    let list = HopList::from_vec(Vec::from_slice(alloc, hops)?);
    let set = HopSet::of(alloc, &list)?;
    put(state, vrf, prefix, RouteRec::Hops(set))
}

/// As many hops as given, from 10.0.0.`first` on.
fn hops_from(alloc: Global, first: u8, count: u8) -> Result<Vec<Hop>, NoMemory> {
    let mut hops = Vec::new(alloc);
    for n in 0..count {
        let ip = v4(10, 0, 0, first.wrapping_add(n));
        hops.push(Hop { ip, intf: None })?;
    }
    Ok(hops)
}

/// A route of VRF 0 via those hops.
fn put_many(
    state: &mut PlainLooker,
    alloc: Global,
    vrf: Vrf,
    prefix: Prefix,
    first: u8,
    count: u8,
) -> Result<(), Fail> {
    let hops = hops_from(alloc, first, count)?;
    put_via(state, alloc, vrf, prefix, hops.as_slice())
}

/// What becomes of packets to the prefix.
fn end_of(state: &PlainLooker, alloc: Global, vrf: Vrf, prefix: &Prefix) -> Result<Resolved, Fail> {
    Ok(PlainResolver::of(state).resolve(alloc, vrf, prefix)?)
}

fn forwards_to(end: &Resolved, hops: &[Hop]) -> bool {
    match end {
        Resolved::Forward(set) => set.as_slice() == hops,
        _ => false,
    }
}

fn is_nothing(end: &Resolved) -> bool {
    matches!(end, Resolved::Nothing)
}

fn is_to_cpu(end: &Resolved) -> bool {
    matches!(end, Resolved::ToCpu)
}

/// How many hops there are, the first ip and the last.
fn extent(end: &Resolved) -> Option<(usize, Ip, Ip)> {
    match end {
        Resolved::Forward(set) => extent_of(set),
        _ => None,
    }
}

fn extent_of(set: &HopSet) -> Option<(usize, Ip, Ip)> {
    let first = set.as_slice().first()?;
    let last = set.as_slice().last()?;
    Some((set.len(), first.ip, last.ip))
}

#[test]
fn hops_are_followed_and_a_loop_leads_nowhere(rt: HostRuntime) -> Result<(), Fail> {
    let place = make_place(1, 0)?;
    let mut state = PlainLooker::new(rt.alloc());
    put_intf(&mut state, rt.alloc(), &place)?;
    put_loop(&mut state, rt.alloc(), place.vrf)?;
    follows(&rt, rt.alloc(), &state, &place)
}

/// 20.0.0.0/8 by the default route, and 40.0.0.0/8 and 50.0.0.0/8 by each other.
fn put_loop(state: &mut PlainLooker, alloc: Global, vrf: Vrf) -> Result<(), Fail> {
    let default = net(v4(0, 0, 0, 0), 0)?;
    put_via(
        state,
        alloc,
        vrf,
        default,
        [hop(v4(10, 0, 0, 2))].as_slice(),
    )?;
    put_via(
        state,
        alloc,
        vrf,
        eight(20)?,
        [hop(v4(30, 0, 0, 1))].as_slice(),
    )?;
    put_via(
        state,
        alloc,
        vrf,
        eight(40)?,
        [hop(v4(50, 0, 0, 1))].as_slice(),
    )?;
    put_via(
        state,
        alloc,
        vrf,
        eight(50)?,
        [hop(v4(40, 0, 0, 1))].as_slice(),
    )
}

fn follows(rt: &impl Abort, alloc: Global, state: &PlainLooker, place: &Place) -> Result<(), Fail> {
    let only = [hop_at(v4(10, 0, 0, 2), place)];
    let followed = end_of(state, alloc, place.vrf, &eight(20)?)?;
    assert!(rt; forwards_to(&followed, only.as_slice()));
    let looped = end_of(state, alloc, place.vrf, &eight(40)?)?;
    assert!(rt; is_nothing(&looped));
    Ok(())
}

#[test]
fn a_link_local_hop_needs_an_interface_of_its_vrf(rt: HostRuntime) -> Result<(), Fail> {
    let place = make_place(3, 1)?;
    let other = Vrf::new(0).ok_or("no VRF")?;
    let prefix = net(DOCUMENTATION, 32)?;
    let hops = [hop_at(LINK_LOCAL, &place)];
    let mut state = PlainLooker::new(rt.alloc());
    put_intf(&mut state, rt.alloc(), &place)?;
    put_via(&mut state, rt.alloc(), other, prefix, hops.as_slice())?;
    put_via(&mut state, rt.alloc(), place.vrf, prefix, hops.as_slice())?;
    needs_its_vrf(&rt, rt.alloc(), &state, &place, other, &prefix)
}

fn needs_its_vrf(
    rt: &impl Abort,
    alloc: Global,
    state: &PlainLooker,
    place: &Place,
    other: Vrf,
    prefix: &Prefix,
) -> Result<(), Fail> {
    let elsewhere = end_of(state, alloc, other, prefix)?;
    assert!(rt; is_nothing(&elsewhere));
    let there = end_of(state, alloc, place.vrf, prefix)?;
    assert!(rt; forwards_to(&there, [hop_at(LINK_LOCAL, place)].as_slice()));
    Ok(())
}

#[test]
fn an_entry_has_the_first_64_hops(rt: HostRuntime) -> Result<(), Fail> {
    let place = make_place(1, 0)?;
    let mut state = PlainLooker::new(rt.alloc());
    put_intf(&mut state, rt.alloc(), &place)?;
    put_wide(&mut state, rt.alloc(), place.vrf)?;
    has_64(&rt, rt.alloc(), &state, place.vrf)
}

/// 30.0.0.0/8 by routes with 32, 32 and 1 hops.
fn put_wide(state: &mut PlainLooker, alloc: Global, vrf: Vrf) -> Result<(), Fail> {
    let hops = [
        hop(v4(20, 0, 0, 1)),
        hop(v4(21, 0, 0, 1)),
        hop(v4(22, 0, 0, 1)),
    ];
    put_many(state, alloc, vrf, eight(20)?, 10, 32)?;
    put_many(state, alloc, vrf, eight(21)?, 42, 32)?;
    put_many(state, alloc, vrf, eight(22)?, 74, 1)?;
    put_via(state, alloc, vrf, eight(30)?, hops.as_slice())
}

fn has_64(rt: &impl Abort, alloc: Global, state: &PlainLooker, vrf: Vrf) -> Result<(), Fail> {
    let end = end_of(state, alloc, vrf, &eight(30)?)?;
    assert!(rt; extent(&end) == Some((64, v4(10, 0, 0, 10), v4(10, 0, 0, 73))));
    Ok(())
}

#[test]
fn a_direct_hop_goes_before_the_cpu_and_that_before_drop(rt: HostRuntime) -> Result<(), Fail> {
    let place = make_place(1, 0)?;
    let mut state = PlainLooker::new(rt.alloc());
    put_intf(&mut state, rt.alloc(), &place)?;
    put_ends(&mut state, rt.alloc(), place.vrf)?;
    has_ends(&rt, rt.alloc(), &state, &place)
}

/// 20.0.0.0/8 to the CPU, 21.0.0.0/8 to drop, 30.0.0.0/8 by both, and 31.0.0.0/8 by a direct hop
/// besides.
fn put_ends(state: &mut PlainLooker, alloc: Global, vrf: Vrf) -> Result<(), Fail> {
    let ends = [hop(v4(20, 0, 0, 1)), hop(v4(21, 0, 0, 1))];
    let hops = [
        hop(v4(20, 0, 0, 1)),
        hop(v4(21, 0, 0, 1)),
        hop(v4(10, 0, 0, 2)),
    ];
    put(state, vrf, eight(20)?, RouteRec::ToCpu)?;
    put(state, vrf, eight(21)?, RouteRec::Discard)?;
    put_via(state, alloc, vrf, eight(30)?, ends.as_slice())?;
    put_via(state, alloc, vrf, eight(31)?, hops.as_slice())
}

fn has_ends(
    rt: &impl Abort,
    alloc: Global,
    state: &PlainLooker,
    place: &Place,
) -> Result<(), Fail> {
    let by_both = end_of(state, alloc, place.vrf, &eight(30)?)?;
    assert!(rt; is_to_cpu(&by_both));
    let direct = end_of(state, alloc, place.vrf, &eight(31)?)?;
    assert!(rt; forwards_to(&direct, [hop_at(v4(10, 0, 0, 2), place)].as_slice()));
    Ok(())
}
