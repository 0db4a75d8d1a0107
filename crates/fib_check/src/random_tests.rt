// The FIB after 2,000 random changes, compared after each fourth with next hops that are followed with plain lists.
ghost use Rattle.std.specs.Prelude.{◌≡◌, ◌<◌, IfOk, OnOk};
ghost use Rattle.state_laws.specs.Fib.{HasFib};

use crate::draws::{Draws, PREFIXES, draw_update, prefix_at};
use crate::scripts::submit;
use fib_make::{make_fib, renew_fib};
use net_types::{NoMemory, RouteKey, Vrf};
use plain_resolver::PlainResolver;
use rib_lookup::RibView;
use state_keys::fib_key;
use state_update::{Applied, apply};
use std::alloc::Global;
use std::test::Fail;
use switch_model::{FibEntry, Resolved, Resolver};
use switch_state::{StateEdit, SwitchState};

const CHANGES: u64 = 2_000;

/// How many updates were drawn, how many of them changed the state, how many entries were compared, how
/// many of those forward, and how many differ.
#[derive(Clone, Copy, Debug)]
struct Tally {
    drawn: u64,
    changed: u64,
    compared: u64,
    forwarding: u64,
    differ: u64,
}

#[test]
fn entries_are_those_of_plain_lists(rt: HostRuntime) -> Result<(), Fail> {
    let tally = walked(rt.alloc())?;
    assert!(rt; tally.changed > 500);
    assert!(rt; tally.compared == CHANGES * 5);
    assert!(rt; tally.forwarding > 1_000);
    assert!(rt; tally.differ == 0);
    Ok(())
}

fn walked(alloc: Global) -> Result<Tally, Fail> {
    let mut draws = Draws::of(1);
    let mut tally = Tally {
        drawn: 0,
        changed: 0,
        compared: 0,
        forwarding: 0,
        differ: 0,
    };
    let state = first_state(alloc)?;
    walk(alloc, state, &mut draws, &mut tally)?;
    Ok(tally)
}

// VLANs 10 to 12, and an interface of each of two VRFs.
fn first_state(alloc: Global) -> Result<SwitchState, Fail>
    ensures fib { IfOk result HasFib }
{
    let mut edit = StateEdit::of(alloc, &SwitchState::empty(), 1)?;
    match fill(alloc, &mut edit) {
        Ok(()) => Ok(edit.finish()),
        Err(fault) => {
            drop(edit);
            Err(fault)
        }
    }
}

fn fill(alloc: Global, edit: &mut StateEdit) -> Result<(), Fail>
    ensures fib { OnOk result (HasFib edit.new.state) }
{
    submit(alloc, edit, b"0 vlan add 12 c\n")?;
    make_fib(alloc, edit)?;
    Ok(())
}

fn walk(
    alloc: Global,
    first: SwitchState,
    draws: &mut Draws,
    tally: &mut Tally,
) -> Result<(), NoMemory>
    requires fib { HasFib first }
{
    let mut state = first;
    for _ in 0..CHANGES {
        let next = changed(alloc, &state, draws, tally);
        drop(state);
        state = next?;
    }
    drop(state);
    Ok(())
}

// The state after one random update, whose entries are compared.
fn changed(
    alloc: Global,
    state: &SwitchState,
    draws: &mut Draws,
    tally: &mut Tally,
) -> Result<SwitchState, NoMemory>
    requires fib { HasFib state.now }
    ensures fib { IfOk result HasFib }
{
    let version = state.version();
    if version == u64::MAX {
        return state.share();
    }
    let mut edit = StateEdit::of(alloc, state, version + 1)?;
    match change(alloc, state, &mut edit, draws, tally) {
        Ok(()) => Ok(edit.finish()),
        Err(fault) => {
            drop(edit);
            Err(fault)
        }
    }
}

fn change(
    alloc: Global,
    state: &SwitchState,
    edit: &mut StateEdit,
    draws: &mut Draws,
    tally: &mut Tally,
) -> Result<(), NoMemory>
    requires fib { HasFib state.now }
    requires base { edit.old.base ≡ state.now }
    requires later { state.now.version < edit.old.state.version }
    requires untouched { edit.old.state.fibs ≡ state.now.fibs }
    ensures fib { OnOk result (HasFib edit.new.state) }
{
    update(alloc, edit, draws, tally)?;
    renew_fib(alloc, state, edit)?;
    tally.drawn = tally.drawn.saturating_add(1);
    if tally.drawn % 4 == 0 {
        return compare(alloc, edit, tally);
    }
    Ok(())
}

fn update(
    alloc: Global,
    edit: &mut StateEdit,
    draws: &mut Draws,
    tally: &mut Tally,
) -> Result<(), NoMemory>
    ensures base { edit.new.base ≡ edit.old.base }
    ensures version { edit.new.state.version ≡ edit.old.state.version }
    ensures fibs { edit.new.state.fibs ≡ edit.old.state.fibs }
{
    let Some(update) = draw_update(alloc, draws)? else {
        return Ok(());
    };
    let applied = apply(alloc, edit, &update);
    drop(update);
    if applied? == Applied::Changed {
        tally.changed = tally.changed.saturating_add(1);
    }
    Ok(())
}

// Each entry beside what the plain resolver finds.
fn compare(alloc: Global, edit: &StateEdit, tally: &mut Tally) -> Result<(), NoMemory> {
    for number in 0..2u16 {
        if let Some(vrf) = Vrf::new(number) {
            compare_all(alloc, edit, vrf, tally)?;
        }
    }
    Ok(())
}

fn compare_all(
    alloc: Global,
    edit: &StateEdit,
    vrf: Vrf,
    tally: &mut Tally,
) -> Result<(), NoMemory> {
    for place in 0..PREFIXES.len() {
        if let Some(prefix) = prefix_at(place) {
            compare_one(alloc, edit, &RouteKey { vrf, prefix }, tally)?;
        }
    }
    Ok(())
}

fn compare_one(
    alloc: Global,
    edit: &StateEdit,
    key: &RouteKey,
    tally: &mut Tally,
) -> Result<(), NoMemory> {
    let view = RibView::of(edit.routes(), edit.intfs(), edit.subnets());
    let resolver = PlainResolver::of(&view);
    let found = resolver.resolve(alloc, key.vrf, &key.prefix)?;
    let entry = match edit.fibs().get(&fib_key(key)) {
        Some(node) => Some(node.value()),
        None => None,
    };
    let is_same = is_entry(&found, entry);
    drop(found);
    tally.compared = tally.compared.saturating_add(1);
    tally.differ = tally.differ.saturating_add(u64::from(!is_same));
    tally.forwarding = tally
        .forwarding
        .saturating_add(u64::from(is_forward(entry)));
    Ok(())
}

fn is_forward(entry: Option<&FibEntry>) -> bool {
    match entry {
        Some(FibEntry::Forward(_)) => true,
        _ => false,
    }
}

fn is_entry(found: &Resolved, entry: Option<&FibEntry>) -> bool {
    match (found, entry) {
        (Resolved::Connected(one), Some(FibEntry::Connected(other))) => one == other,
        (Resolved::Forward(one), Some(FibEntry::Forward(other))) => one == other,
        (Resolved::ToCpu, Some(FibEntry::ToCpu)) => true,
        (Resolved::Discard, Some(FibEntry::Discard)) => true,
        (Resolved::Nothing, None) => true,
        _ => false,
    }
}
