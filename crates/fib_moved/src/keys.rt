// The keys that an edit moves.
ghost use Rattle.std.specs.Prelude.{◌≡◌, ◌<◌, ℕ, false, All, IfOk, OnOk};
ghost use Rattle.std.specs.List.Sorted.{IsStrictlySortedBy};
ghost use Rattle.std.specs.Ordering.{nat_cmp};
ghost use Rattle.keyed.specs.Keyed.{at};
ghost use Rattle.keyed.specs.Sets.{insert};
ghost use Rattle.net_types.specs.KeyOrder.{route_cmp};
ghost use Rattle.node_map.specs.Follows.{Follows};
ghost use Rattle.state_keys.specs.PartKeys.{rib_of, IsRibNumber};
ghost use Rattle.switch_model.specs.LongestMatch.{best_keys};
ghost use Rattle.switch_model.specs.Looking.{key_after};
ghost use Rattle.switch_model.specs.PlainState.{rib};
ghost use Rattle.switch_state.specs.Plain.{plain};
ghost use Rattle.route_laws.specs.Moved.{AreMoved};
ghost use Rattle.rib_lookup.specs.Tables.{key_of_rib};
ghost use Rattle.fib_moved.specs.Moving.{AreCandidates, HasAdded, HasKeysOf, HasChanged, IsStep};

use crate::moved::moved_among;
use net_types::{NoMemory, RouteKey, compare_route_keys};
use node_map::{NodeKey, NodeMap};
use rib_lookup::RibView;
use state_delta::{MapDelta, map_delta};
use state_keys::rib_of;
use std::alloc::Global;
use switch_model::{BestRoutes, IntfRec, RouteRec};
use switch_state::{StateEdit, SwitchState};

/// The keys that the edit moves, ascending: those with another best route, and those with a hop that
/// names an interface that came or went.
pub fn moved_keys(
    alloc: Global,
    old: &SwitchState,
    edit: &StateEdit,
) -> Result<Vec<RouteKey>, NoMemory>
    requires base { edit.now.base ≡ old.now }
    requires later { old.now.version < edit.now.state.version }
    ensures { IfOk result (λ keys. AreMoved (rib (plain old.now)) (rib (plain edit.now.state)) keys.items) }
{
    let keys = candidates(alloc, old, edit)?;
    let before = RibView::of(old.routes(), old.intfs(), old.subnets());
    let now = RibView::of(edit.routes(), edit.intfs(), edit.subnets());
    let moved = moved_among(alloc, &before, &now, keys.as_slice())?;
    Ok(moved)
}

/// Keys among which all are that the edit moves, ascending.
fn candidates(alloc: Global, old: &SwitchState, edit: &StateEdit) -> Result<Vec<RouteKey>, NoMemory>
    requires base { edit.now.base ≡ old.now }
    requires later { old.now.version < edit.now.state.version }
    ensures { IfOk result (λ keys. AreCandidates (rib (plain old.now)) (rib (plain edit.now.state)) keys.items) }
{
    old.shape();
    edit.shape();
    if differs(old.intfs(), edit.intfs()) {
        let before = RibView::of(old.routes(), old.intfs(), old.subnets());
        let now = RibView::of(edit.routes(), edit.intfs(), edit.subnets());
        let keys = keys_of_both(alloc, &before, &now)?;
        Ok(keys)
    } else {
        let keys = changed_keys(alloc, old.routes(), edit.routes())?;
        Ok(keys)
    }
}

/// Whether an interface came, went or changed.
fn differs(old: &NodeMap<IntfRec>, new: &NodeMap<IntfRec>) -> bool
    requires { Follows old.now.nodes new.now.nodes }
    ensures { result ≡ false → (key : ℕ) → at nat_cmp key old.now.entries ≡ at nat_cmp key new.now.entries }
{
    let mut delta = map_delta(old, new);
    delta.next().is_some()
}

/// The keys that have a best route in one of the two.
fn keys_of_both<Q: BestRoutes, R: BestRoutes>(
    alloc: Global,
    old: &Q,
    new: &R,
) -> Result<Vec<RouteKey>, NoMemory>
    ensures { IfOk result (λ keys. HasKeysOf (best_keys (Q.rib old.now)) (best_keys (R.rib new.now)) keys.items) }
{
    let mut keys = Vec::new(alloc);
    add_keys(old, &mut keys)?;
    add_keys(new, &mut keys)?;
    Ok(keys)
}

/// Adds each key that has a best route.
fn add_keys<R: BestRoutes>(routes: &R, keys: &mut Vec<RouteKey>) -> Result<(), NoMemory>
    requires { IsStrictlySortedBy route_cmp keys.old.items }
    ensures { OnOk result (HasAdded (best_keys (R.rib routes.now)) keys.old.items keys.new.items) }
{
    let mut last: Option<RouteKey> = None;
    while let Some(key) = next_route(routes, &last) {
        insert_key(keys, &key)?;
        last = Some(key);
    }
    Ok(())
}

fn next_route<R: BestRoutes>(routes: &R, last: &Option<RouteKey>) -> Option<RouteKey>
    ensures { result ≡ key_after last.now (best_keys (R.rib routes.now)) }
{
    routes.after(*last)
}

/// The prefixes of the routes that came, went or changed.
fn changed_keys(
    alloc: Global,
    old: &NodeMap<RouteRec>,
    new: &NodeMap<RouteRec>,
) -> Result<Vec<RouteKey>, NoMemory>
    requires follows { Follows old.now.nodes new.now.nodes }
    requires old_numbers { All (λ e. IsRibNumber e.0) old.now.entries }
    requires new_numbers { All (λ e. IsRibNumber e.0) new.now.entries }
    ensures { IfOk result (λ keys. HasChanged old.now.entries new.now.entries keys.items) }
{
    let mut keys = Vec::new(alloc);
    let mut delta = map_delta(old, new);
    while let Some(number) = next_number(&mut delta) {
        insert_key(&mut keys, &prefix_of(&number))?;
    }
    Ok(keys)
}

/// The key of the next change.
fn next_number(delta: &mut MapDelta<'_, RouteRec>) -> Option<NodeKey>
    ensures { IsStep delta.entry.now delta.exit.now result }
{
    match delta.next() {
        None => None,
        Some(change) => Some(change.key),
    }
}

/// The prefix of a route, in its VRF.
fn prefix_of(number: &NodeKey) -> RouteKey
    requires { IsRibNumber number.now }
    ensures { result ≡ key_of_rib (rib_of number.now) }
{
    let key = rib_of(number);
    RouteKey {
        vrf: key.vrf,
        prefix: key.prefix,
    }
}

/// Puts the key in its place, where it isn't there.
fn insert_key(keys: &mut Vec<RouteKey>, key: &RouteKey) -> Result<(), NoMemory>
    requires { IsStrictlySortedBy route_cmp keys.old.items }
    ensures { OnOk result (keys.new.items ≡ insert route_cmp key.now keys.old.items) }
{
    match keys.binary_search_by(|other| compare_route_keys(other, key)) {
        Ok(place) => keys[place] = *key,
        Err(place) => keys.insert(place, *key)?,
    }
    Ok(())
}
