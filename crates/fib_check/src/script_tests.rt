// Scripts of updates, and the entries of the FIB that is made after them.
ghost use Rattle.std.specs.Prelude.{◌≡◌, ◌<◌, IfOk, OnOk};
ghost use Rattle.state_laws.specs.Fib.{HasFib};

use crate::print::print_fib;
use crate::scripts::{script_of, submit};
use fib_make::{make_fib, renew_fib};
use script_text::{Job, Script};
use state_update::apply;
use std::alloc::Global;
use std::process::Abort;
use std::test::Fail;
use switch_model::Update;
use switch_state::{StateEdit, SwitchState};

// What is done after the base, and the entries.
const CASES: [(&[u8], &[u8]); 9] = [
    // the client of the least distance, whichever was set last
    (
        b"0 route set 0 20.0.0.0/8 ebgp via 10.0.0.2\n0 route set 0 20.0.0.0/8 ibgp via 10.0.0.3\n",
        b"0 10.0.0.0/24 connected\n0 20.0.0.0/8 10.0.0.2@1\n",
    ),
    // and the next one, once that is gone
    (
        b"0 route set 0 20.0.0.0/8 ebgp via 10.0.0.2\n0 route set 0 20.0.0.0/8 ibgp via 10.0.0.3\n0 route del 0 20.0.0.0/8 ebgp\n",
        b"0 10.0.0.0/24 connected\n0 20.0.0.0/8 10.0.0.3@1\n",
    ),
    // a hop by the default route, and two routes that go by each other
    (
        b"0 route set 0 0.0.0.0/0 ebgp via 10.0.0.2\n0 route set 0 20.0.0.0/8 ebgp via 30.0.0.1\n",
        b"0 0.0.0.0/0 10.0.0.2@1\n0 10.0.0.0/24 connected\n0 20.0.0.0/8 10.0.0.2@1\n",
    ),
    (
        b"0 route set 0 40.0.0.0/8 ebgp via 50.0.0.1\n0 route set 0 50.0.0.0/8 ebgp via 40.0.0.1\n",
        b"0 10.0.0.0/24 connected\n",
    ),
    // a link-local hop in another VRF than its interface, and in its interface's
    (
        b"0 route set 0 2001:db8::/32 ebgp via fe80::1@3\n0 route set 1 2001:db8::/32 ebgp via fe80::1@3\n",
        b"0 10.0.0.0/24 connected\n1 2001:db8::/32 fe80::1@3\n",
    ),
    // a client's routes cut by an empty sync
    (
        b"0 route set 0 20.0.0.0/8 ebgp drop\n0 client sync 0 ebgp\n",
        b"0 10.0.0.0/24 connected\n",
    ),
    // the CPU goes before drop, and a host before the CPU
    (
        b"0 route set 0 20.0.0.0/8 ebgp cpu\n0 route set 0 21.0.0.0/8 ebgp drop\n0 route set 0 30.0.0.0/8 ebgp via 20.0.0.1 21.0.0.1\n",
        b"0 10.0.0.0/24 connected\n0 20.0.0.0/8 cpu\n0 21.0.0.0/8 drop\n0 30.0.0.0/8 cpu\n",
    ),
    (
        b"0 route set 0 20.0.0.0/8 ebgp cpu\n0 route set 0 21.0.0.0/8 ebgp drop\n0 route set 0 30.0.0.0/8 ebgp via 10.0.0.2 20.0.0.1 21.0.0.1\n",
        b"0 10.0.0.0/24 connected\n0 20.0.0.0/8 cpu\n0 21.0.0.0/8 drop\n0 30.0.0.0/8 10.0.0.2@1\n",
    ),
    // the first 64 of 65 hosts
    (
        b"0 route set 0 20.0.0.0/8 ebgp via 10.0.0.10 10.0.0.11 10.0.0.12 10.0.0.13 10.0.0.14 10.0.0.15 10.0.0.16 10.0.0.17 10.0.0.18 10.0.0.19 10.0.0.20 10.0.0.21 10.0.0.22 10.0.0.23 10.0.0.24 10.0.0.25 10.0.0.26 10.0.0.27 10.0.0.28 10.0.0.29 10.0.0.30 10.0.0.31 10.0.0.32 10.0.0.33 10.0.0.34 10.0.0.35 10.0.0.36 10.0.0.37 10.0.0.38 10.0.0.39 10.0.0.40 10.0.0.41\n0 route set 0 21.0.0.0/8 ebgp via 10.0.0.42 10.0.0.43 10.0.0.44 10.0.0.45 10.0.0.46 10.0.0.47 10.0.0.48 10.0.0.49 10.0.0.50 10.0.0.51 10.0.0.52 10.0.0.53 10.0.0.54 10.0.0.55 10.0.0.56 10.0.0.57 10.0.0.58 10.0.0.59 10.0.0.60 10.0.0.61 10.0.0.62 10.0.0.63 10.0.0.64 10.0.0.65 10.0.0.66 10.0.0.67 10.0.0.68 10.0.0.69 10.0.0.70 10.0.0.71 10.0.0.72 10.0.0.73\n0 route set 0 22.0.0.0/8 ebgp via 10.0.0.74\n0 route set 0 30.0.0.0/8 ebgp via 20.0.0.1 21.0.0.1 22.0.0.1\n",
        b"0 10.0.0.0/24 connected\n0 20.0.0.0/8 32 10.0.0.10@1 10.0.0.41@1\n0 21.0.0.0/8 32 10.0.0.42@1 10.0.0.73@1\n0 22.0.0.0/8 10.0.0.74@1\n0 30.0.0.0/8 64 10.0.0.10@1 10.0.0.73@1\n",
    ),
];

// What is done after the base, one change of what that gives, and the entries after it.
const CHANGES: [(&[u8], &[u8], &[u8]); 4] = [
    // an interface that a hop names comes
    (
        b"0 vlan add 12 c\n0 route set 0 30.0.0.0/8 ebgp via 10.0.0.9@5\n",
        b"0 intf add 5 12 0 02:00:00:00:01:05\n",
        b"0 10.0.0.0/24 connected\n0 30.0.0.0/8 10.0.0.9@5\n",
    ),
    // a route comes that others go by, one of them by the other
    (
        b"0 route set 0 40.0.0.0/8 ebgp via 30.0.0.1\n0 route set 0 30.0.0.0/8 ebgp via 20.0.0.1\n",
        b"0 route set 0 20.0.0.0/8 ebgp via 10.0.0.2\n",
        b"0 10.0.0.0/24 connected\n0 20.0.0.0/8 10.0.0.2@1\n0 30.0.0.0/8 10.0.0.2@1\n0 40.0.0.0/8 10.0.0.2@1\n",
    ),
    // and goes again
    (
        b"0 route set 0 40.0.0.0/8 ebgp via 30.0.0.1\n0 route set 0 30.0.0.0/8 ebgp via 20.0.0.1\n0 route set 0 20.0.0.0/8 ebgp via 10.0.0.2\n",
        b"0 route del 0 20.0.0.0/8 ebgp\n",
        b"0 10.0.0.0/24 connected\n",
    ),
    // the address goes that the hops lie in
    (
        b"0 route set 0 20.0.0.0/8 ebgp via 10.0.0.2\n",
        b"0 addr del 1 10.0.0.1/24\n",
        b"",
    ),
];

#[test]
fn each_script_gives_its_entries(rt: HostRuntime) -> Result<(), Fail> {
    for (lines, wanted) in CASES {
        let given = entries_of(rt.alloc(), lines)?;
        is_as_wanted(&rt, given.as_slice(), wanted);
        drop(given);
    }
    Ok(())
}

fn is_as_wanted(rt: &impl Abort, given: &[u8], wanted: &[u8]) {
    assert!(rt; given == wanted);
}

// The entries after the base and those lines.
fn entries_of(alloc: Global, lines: &[u8]) -> Result<Vec<u8>, Fail> {
    let state = state_of(alloc, lines)?;
    let printed = printed(alloc, &state);
    drop(state);
    printed
}

fn printed(alloc: Global, state: &SwitchState) -> Result<Vec<u8>, Fail> {
    Ok(print_fib(alloc, state.fibs())?)
}

#[test]
fn each_change_gives_its_entries(rt: HostRuntime) -> Result<(), Fail> {
    for (lines, change, wanted) in CHANGES {
        let given = entries_changed(rt.alloc(), lines, change)?;
        is_as_wanted(&rt, given.as_slice(), wanted);
        drop(given);
    }
    Ok(())
}

// The entries after the base and those lines, and then that change.
fn entries_changed(alloc: Global, lines: &[u8], change: &[u8]) -> Result<Vec<u8>, Fail> {
    let state = state_of(alloc, lines)?;
    let entries = entries_after(alloc, &state, change);
    drop(state);
    entries
}

// The state after the base and those lines, with its FIB.
fn state_of(alloc: Global, lines: &[u8]) -> Result<SwitchState, Fail>
    ensures fib { IfOk result (λ s. HasFib s) }
{
    let mut edit = StateEdit::of(alloc, &SwitchState::empty(), 1)?;
    match fill(alloc, &mut edit, lines) {
        Ok(()) => Ok(edit.finish()),
        Err(fault) => {
            drop(edit);
            Err(fault)
        }
    }
}

fn fill(alloc: Global, edit: &mut StateEdit, lines: &[u8]) -> Result<(), Fail>
    ensures fib { OnOk result (HasFib edit.new.state) }
{
    submit(alloc, edit, lines)?;
    make_fib(alloc, edit)?;
    Ok(())
}

// The entries after the change, which is the first update of those lines.
fn entries_after(alloc: Global, state: &SwitchState, lines: &[u8]) -> Result<Vec<u8>, Fail>
    requires fib { HasFib state.now }
{
    let script = script_of(alloc, lines)?;
    let entries = entries_after_first(alloc, state, &script);
    drop(script);
    entries
}

fn entries_after_first(alloc: Global, state: &SwitchState, script: &Script) -> Result<Vec<u8>, Fail>
    requires fib { HasFib state.now }
{
    let version = state.version().checked_add(1).ok_or("no next version")?;
    let mut edit = StateEdit::of(alloc, state, version)?;
    let entries = entries_renewed(alloc, state, &mut edit, script);
    drop(edit);
    entries
}

fn entries_renewed(
    alloc: Global,
    state: &SwitchState,
    edit: &mut StateEdit,
    script: &Script,
) -> Result<Vec<u8>, Fail>
    requires fib { HasFib state.now }
    requires base { edit.old.base ≡ state.now }
    requires later { state.now.version < edit.old.state.version }
    requires untouched { edit.old.state.fibs ≡ state.now.fibs }
{
    if let Some(update) = first_update(script) {
        apply(alloc, edit, update)?;
    }
    renew_fib(alloc, state, edit)?;
    Ok(print_fib(alloc, edit.fibs())?)
}

fn first_update(script: &Script) -> Option<&Update> {
    match &script.phases.as_slice().first()?.as_slice().first()?.job {
        Job::Submit { update, .. } => Some(update),
        _ => None,
    }
}
