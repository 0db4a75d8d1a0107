// Counts of a state's parts.
ghost use Rattle.std.specs.Prelude.{◌≡◌, ◌+◌, IfSome, length};
ghost use Rattle.node_map.specs.Follows as map;
ghost use Rattle.switch_model.specs.Totals.{counted};
ghost use Rattle.switch_state.specs.Follows.{Follows};
ghost use Rattle.state_counts.specs.Counted.{KeepsUp, counts_of, ports_up};

use crate::counting::{count_all, count_up};
use crate::following::{count_on, up_on};
use node_map::NodeMap;
use switch_model::{NeighborRec, PortRec, Totals};
use switch_state::SwitchState;

/// The counts of the state's own maps, that of the FIB's map included, by a walk over each.
pub fn count_state(state: &SwitchState) -> Totals
    ensures counts { result ≡ counts_of state.now }
{
    state.shape();
    Totals {
        ports: count_all(state.ports()),
        up: count_up(state.ports()),
        vlans: count_all(state.vlans()),
        intfs: count_all(state.intfs()),
        macs: count_all(state.macs()),
        neighbors: count_both(state.arps(), state.ndps()),
        routes: count_all(state.routes()),
        fib: count_all(state.fibs()),
    }
}

/// The counts of the new state, from those of the old one and from what differs between the two. A
/// part is counted anew only where its count stands at, or passes, the last number of its type.
pub fn counts_after(before: &Totals, old: &SwitchState, new: &SwitchState) -> Totals
    requires before { before.now ≡ counts_of old.now }
    requires follows { Follows old.now new.now }
    ensures after { result ≡ counts_of new.now }
{
    old.shape();
    new.shape();
    Totals {
        ports: part_after(before.ports, old.ports(), new.ports()),
        up: up_after(before.up, old.ports(), new.ports()),
        vlans: part_after(before.vlans, old.vlans(), new.vlans()),
        intfs: part_after(before.intfs, old.intfs(), new.intfs()),
        macs: part_after(before.macs, old.macs(), new.macs()),
        neighbors: neighbors_after(before.neighbors, old, new),
        routes: part_after(before.routes, old.routes(), new.routes()),
        fib: part_after(before.fib, old.fibs(), new.fibs()),
    }
}

/// How many entries two maps have together.
fn count_both(arps: &NodeMap<NeighborRec>, ndps: &NodeMap<NeighborRec>) -> u64
    ensures { result ≡ counted (length arps.now.entries + length ndps.now.entries) }
{
    count_all(arps).saturating_add(count_all(ndps))
}

/// The count of a part of the new state.
fn part_after<T>(before: u64, old: &NodeMap<T>, new: &NodeMap<T>) -> u64
    requires { map.Follows old.now.nodes new.now.nodes }
    ensures { before ≡ counted (length old.now.entries) → result ≡ counted (length new.now.entries) }
{
    match count_on(before, old, new) {
        Some(count) => count,
        None => count_all(new),
    }
}

/// How many ports of the new state are up.
fn up_after(before: u64, old: &NodeMap<PortRec>, new: &NodeMap<PortRec>) -> u64
    requires { map.Follows old.now.nodes new.now.nodes }
    ensures { before ≡ counted (ports_up old.now.entries) → result ≡ counted (ports_up new.now.entries) }
{
    match up_on(before, old, new) {
        Some(count) => count,
        None => count_up(new),
    }
}

/// How many neighbours the new state has.
fn neighbors_after(before: u64, old: &SwitchState, new: &SwitchState) -> u64
    requires { Follows old.now new.now }
    ensures { before ≡ counted (length old.now.arps.entries + length old.now.ndps.entries) → result ≡ counted (length new.now.arps.entries + length new.now.ndps.entries) }
{
    match neighbors_on(before, old, new) {
        Some(count) => count,
        None => count_both(new.arps(), new.ndps()),
    }
}

/// How many neighbours the new state has, from how many the old one has: none where a count on the way
/// doesn't fit its type.
fn neighbors_on(before: u64, old: &SwitchState, new: &SwitchState) -> Option<u64>
    requires { Follows old.now new.now }
    ensures { IfSome result (λ now. KeepsUp before (length old.now.arps.entries + length old.now.ndps.entries) now (length new.now.arps.entries + length new.now.ndps.entries)) }
{
    let count = count_on(before, old.arps(), new.arps())?;
    let both = count_on(count, old.ndps(), new.ndps())?;
    Some(both)
}
