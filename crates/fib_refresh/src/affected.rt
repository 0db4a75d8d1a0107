// The keys whose entries a change may touch.
ghost use Rattle.std.specs.Prelude.{◌≡◌, ◌==◌, All, IfOk, OnOk};
ghost use Rattle.std.specs.List.{list_any};
ghost use Rattle.state_keys.specs.Bits.{field};
ghost use Rattle.state_keys.specs.PartKeys.{rib_of, IsRibNumber};
ghost use Rattle.state_scan.specs.Listed.{listed};
ghost use Rattle.fib_refresh.specs.Affected.{hops_of, is_key_of, lies_in, HasAll, IsClosed, IsLevel, IsScanned, IsVrfDone, IsVrfScanned};

use crate::keys::RouteKeys;
use net_types::{Hop, NoMemory, RouteKey, Vrf};
use node_core::Forge;
use node_map::{NodeKey, NodeMap};
use rib_descent::longest_key;
use state_keys::{rib_of, vrf_key, vrf_of};
use std::alloc::Global;
use switch_model::{RibKey, RouteRec};

/// The changed keys, and with each key those of its VRF with a route by a hop, without an interface,
/// that lies in it.
pub(crate) fn affected_keys(
    alloc: Global,
    routes: &NodeMap<RouteRec>,
    changed: &[RouteKey],
) -> Result<RouteKeys, NoMemory>
    requires { All (λ e. IsRibNumber e.0) routes.now.entries }
    ensures { IfOk result (λ keys. IsClosed (listed rib_of routes.now.entries) changed.now keys) }
{
    let forge = Forge::at(alloc, 0);
    let mut level = Level {
        keys: all_of(&forge, changed)?,
        grew: !changed.is_empty(),
    };
    while level.grew {
        level = next_level(&forge, routes, &level.keys)?;
    }
    Ok(level.keys)
}

/// Keys, and whether there are more than those that they grew from.
#[derive(Drop)]
pub(crate) struct Level {
    pub(crate) keys: RouteKeys,
    pub(crate) grew: bool,
}

/// The keys as a set.
fn all_of(forge: &Forge, keys: &[RouteKey]) -> Result<RouteKeys, NoMemory>
    ensures { IfOk result (λ all. HasAll keys.now all) }
{
    let mut all = RouteKeys::new();
    for key in keys {
        all = all.with(forge, key)?;
    }
    Ok(all)
}

/// The keys, with those of their dependents, in one scan of the routes of each VRF that has a key.
fn next_level(
    forge: &Forge,
    routes: &NodeMap<RouteRec>,
    keys: &RouteKeys,
) -> Result<Level, NoMemory>
    requires { All (λ e. IsRibNumber e.0) routes.now.entries }
    ensures { IfOk result (λ level. IsLevel (listed rib_of routes.now.entries) keys.now level) }
{
    keys.shape();
    let mut level = Level {
        keys: keys.share()?,
        grew: false,
    };
    let mut last: Option<RouteKey> = None;
    while let Some(key) = keys.after(&last) {
        scan_next(forge, routes, keys, &last, key.vrf, &mut level)?;
        last = Some(key);
    }
    Ok(level)
}

/// Scans the routes of the VRF, where the last key was of another one.
fn scan_next(
    forge: &Forge,
    routes: &NodeMap<RouteRec>,
    keys: &RouteKeys,
    last: &Option<RouteKey>,
    vrf: Vrf,
    level: &mut Level,
) -> Result<(), NoMemory>
    requires { All (λ e. IsRibNumber e.0) routes.now.entries }
    ensures { OnOk result (IsVrfDone (listed rib_of routes.now.entries) keys.now last.now vrf level.old level.new) }
{
    if is_key_of(vrf, last) {
        return Ok(());
    }
    scan_vrf(forge, routes, keys, vrf, level)
}

/// Whether the key is of the VRF.
fn is_key_of(vrf: Vrf, key: &Option<RouteKey>) -> bool
    ensures { result ≡ is_key_of vrf key.now }
{
    match key {
        None => false,
        Some(key) => key.vrf == vrf,
    }
}

/// Adds the key of each route of the VRF of which a hop lies in one of the keys.
fn scan_vrf(
    forge: &Forge,
    routes: &NodeMap<RouteRec>,
    keys: &RouteKeys,
    vrf: Vrf,
    level: &mut Level,
) -> Result<(), NoMemory>
    requires { All (λ e. IsRibNumber e.0) routes.now.entries }
    ensures { OnOk result (IsVrfScanned (listed rib_of routes.now.entries) keys.now vrf level.old level.new) }
{
    routes.shape();
    for (number, node) in routes.walk_from(&vrf_key(vrf)) {
        if !is_in_vrf(number, vrf) {
            return Ok(());
        }
        add_dependent(forge, keys, &rib_of(number), node.value(), level)?;
    }
    Ok(())
}

/// Whether the route whose number it is is in the VRF.
fn is_in_vrf(number: &NodeKey, vrf: Vrf) -> bool
    ensures { result ≡ (field 0 16 number.now == vrf) }
{
    vrf_of(number) == vrf
}

/// Adds the route's key, where a hop of it lies in one of the keys.
fn add_dependent(
    forge: &Forge,
    keys: &RouteKeys,
    key: &RibKey,
    route: &RouteRec,
    level: &mut Level,
) -> Result<(), NoMemory>
    ensures { OnOk result (IsScanned keys.now key.now route.now level.old level.new) }
{
    if !any_lies_in(keys, key.vrf, hops_of(route)) {
        return Ok(());
    }
    let key = RouteKey {
        vrf: key.vrf,
        prefix: key.prefix,
    };
    if level.keys.contains(&key) {
        return Ok(());
    }
    level.keys = level.keys.with(forge, &key)?;
    level.grew = true;
    Ok(())
}

/// Whether one of the hops lies in one of the keys.
fn any_lies_in(keys: &RouteKeys, vrf: Vrf, hops: &[Hop]) -> bool
    ensures { result ≡ list_any (lies_in keys.now vrf) hops.now }
{
    hops.iter().any(|hop| lies_in(keys, vrf, hop))
}

/// Whether the hop names no interface, and its ip lies in one of the keys of the VRF.
fn lies_in(keys: &RouteKeys, vrf: Vrf, hop: &Hop) -> bool
    ensures { result ≡ lies_in keys.now vrf hop.now }
{
    keys.shape();
    hop.intf.is_none() && longest_key(keys, vrf, hop.ip).is_some()
}

/// The hops of a route: none where it has none.
fn hops_of(route: &RouteRec) -> &[Hop]
    ensures { result.now ≡ hops_of route.now }
{
    match route {
        RouteRec::Hops(hops) => hops.as_slice(),
        _ => &[],
    }
}
