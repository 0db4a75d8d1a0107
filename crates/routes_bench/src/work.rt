// What is done with routes.
ghost use Rattle.std.specs.Prelude.{◌≡◌, ◌<◌, OnOk};
ghost use Rattle.state_laws.specs.Fib.{HasFib};

use fib_make::renew_fib;
use net_types::{Addr, Client, Hop, HopList, HopSet, Intf, Ip, Mac, Port, Prefix, Vlan, Vrf};
use rib_lookup::RibView;
use std::alloc::{AllocError, Global};
use switch_model::{AddrList, BestRoutes, IntfRec, PortRec, RouteRec};
use switch_state::{StateEdit, SwitchState};

// How many hosts the routes go to, each on the interface's own subnet.
const HOSTS: u64 = 8;

// One of 2^24 prefixes of 24 bits, which are spread over all of that length.
fn prefix(number: u64) -> Option<Prefix> {
    let address = number.wrapping_mul(0x9e_3779) % (1 << 24) << 8;
    Prefix::new(Ip::V4(address as u32), 24).ok()
}

/// An ip in the prefix of that number.
pub fn inside(number: u64) -> Ip {
    Ip::V4(((number.wrapping_mul(0x9e_3779) % (1 << 24) << 8) + 7) as u32)
}

// 10.0.0.2 to 10.0.0.9
fn host(number: u64) -> Ip {
    Ip::V4(0x0a00_0002 + (number % HOSTS) as u32)
}

/// An edit with that many routes in VRF 0 over eight hosts of one interface.
pub fn with_routes(alloc: Global, routes: u64) -> Result<StateEdit, AllocError> {
    let mut edit = StateEdit::of(alloc, &SwitchState::empty(), 1)?;
    match fill(alloc, &mut edit, routes) {
        Ok(()) => Ok(edit),
        Err(fault) => {
            drop(edit);
            Err(fault)
        }
    }
}

fn fill(alloc: Global, edit: &mut StateEdit, routes: u64) -> Result<(), AllocError> {
    put_intf(alloc, edit)?;
    for number in 0..routes {
        put_route(alloc, edit, number)?;
    }
    Ok(())
}

fn put_intf(alloc: Global, edit: &mut StateEdit) -> Result<(), AllocError> {
    let mut addrs = AddrList::new(alloc);
    if let Ok(addr) = Addr::new(Ip::V4(0x0a00_0001), 24) {
        addrs.put(addr)?;
    }
    put_with(edit, addrs)
}

fn put_with(edit: &mut StateEdit, addrs: AddrList) -> Result<(), AllocError> {
    let (Some(intf), Some(vlan)) = (Intf::new(1), Vlan::new(10)) else {
        return Ok(());
    };
    let (Some(vrf), Some(mac)) = (Vrf::new(0), Mac::new(0x0200_0000_0101)) else {
        return Ok(());
    };
    edit.put_intf(
        intf,
        IntfRec {
            vlan,
            vrf,
            mac,
            addrs,
        },
    )
}

fn put_route(alloc: Global, edit: &mut StateEdit, number: u64) -> Result<(), AllocError> {
    let hops = one_hop(alloc, host(number))?;
    set_route(edit, number, hops)
}

fn one_hop(alloc: Global, ip: Ip) -> Result<HopSet, AllocError> {
    let hops = HopList::from_vec([Hop { ip, intf: None }].to_vec(alloc)?);
    let set = HopSet::of(alloc, &hops);
    drop(hops);
    set
}

/// A change of a state.
#[derive(Clone, Copy)]
pub enum Change {
    /// The route of that number goes to the next host.
    Moved(u64),
    /// It goes away.
    Gone(u64),
    /// Port 1 comes up.
    Port,
}

/// Makes the change, and the FIB that it leads to.
pub fn make_change(
    alloc: Global,
    state: &SwitchState,
    edit: &mut StateEdit,
    change: Change,
) -> Result<(), AllocError>
    requires base { edit.old.base ≡ state.now }
    requires later { state.now.version < edit.old.state.version }
    requires right { HasFib state.now }
    requires untouched { edit.old.state.fibs ≡ state.now.fibs }
    ensures fib { OnOk result (HasFib edit.new.state) }
{
    match change {
        Change::Moved(number) => move_route(alloc, edit, number)?,
        Change::Gone(number) => cut_route(edit, number)?,
        Change::Port => put_port(edit)?,
    }
    renew_fib(alloc, state, edit)
}

fn move_route(alloc: Global, edit: &mut StateEdit, number: u64) -> Result<(), AllocError>
    ensures base { edit.new.base ≡ edit.old.base }
    ensures version { edit.new.state.version ≡ edit.old.state.version }
    ensures fibs { edit.new.state.fibs ≡ edit.old.state.fibs }
{
    let hops = one_hop(alloc, host(number.wrapping_add(1)))?;
    set_route(edit, number, hops)
}

fn set_route(edit: &mut StateEdit, number: u64, hops: HopSet) -> Result<(), AllocError>
    ensures base { edit.new.base ≡ edit.old.base }
    ensures version { edit.new.state.version ≡ edit.old.state.version }
    ensures fibs { edit.new.state.fibs ≡ edit.old.state.fibs }
{
    match (Vrf::new(0), prefix(number)) {
        (Some(vrf), Some(prefix)) => {
            edit.put_route((vrf, prefix, Client::Ebgp), RouteRec::Hops(hops))
        }
        _ => {
            drop(hops);
            Ok(())
        }
    }
}

fn cut_route(edit: &mut StateEdit, number: u64) -> Result<(), AllocError>
    ensures base { edit.new.base ≡ edit.old.base }
    ensures version { edit.new.state.version ≡ edit.old.state.version }
    ensures fibs { edit.new.state.fibs ≡ edit.old.state.fibs }
{
    match (Vrf::new(0), prefix(number)) {
        (Some(vrf), Some(prefix)) => edit.cut_route((vrf, prefix, Client::Ebgp)),
        _ => Ok(()),
    }
}

fn put_port(edit: &mut StateEdit) -> Result<(), AllocError>
    ensures base { edit.new.base ≡ edit.old.base }
    ensures version { edit.new.state.version ≡ edit.old.state.version }
    ensures fibs { edit.new.state.fibs ≡ edit.old.state.fibs }
{
    match (Port::new(1), Vlan::new(10)) {
        (Some(port), Some(vlan)) => edit.put_port(port, PortRec { vlan, up: true }),
        _ => Ok(()),
    }
}

/// How many entries the FIB has.
pub fn entries_of(state: &SwitchState) -> u64 {
    let mut count: u64 = 0;
    for _ in state.fibs() {
        count = count.saturating_add(1);
    }
    count
}

/// How many of so many ips have a longest match.
pub fn matched(state: &SwitchState, asked: u64) -> u64 {
    let view = RibView::of(state.routes(), state.intfs(), state.subnets());
    let mut found: u64 = 0;
    for number in 0..asked {
        found = found.saturating_add(u64::from(is_matched(&view, number)));
    }
    found
}

fn is_matched(view: &RibView<'_>, number: u64) -> bool {
    match Vrf::new(0) {
        Some(vrf) => view.longest(vrf, inside(number)).is_some(),
        None => false,
    }
}
