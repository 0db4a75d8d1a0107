// Routes of a client put in step with a list of them.
ghost use Rattle.std.specs.Prelude.{◌≡◌, ◌==◌, ◌++◌, ◌∷◌, [], All, IfOk, OnOk, filter, map, not, if◌then◌else◌};
ghost use Rattle.std.specs.List.Sorted.{IsStrictlySortedBy};
ghost use Rattle.keyed.specs.Keyed.{Ascends};
ghost use Rattle.net_types.specs.KeyOrder.{prefix_cmp};
ghost use Rattle.node_map.specs.Paths.{ArePathsMade};
ghost use Rattle.state_keys.specs.Bits.{field};
ghost use Rattle.state_keys.specs.PartKeys.{rib_of, IsRibNumber};
ghost use Rattle.switch_model.specs.Effect.{is_route_of, with_routes};
ghost use Rattle.switch_model.specs.StateKeys.{rib_cmp};
ghost use Rattle.switch_model.specs.Touched.{keys_listed, keys_there, untouched};
ghost use Rattle.switch_state.specs.Plain.{plain};
ghost use Rattle.state_update.specs.Births.{KeepsRest, NewBirths};
ghost use Rattle.state_update.specs.Sync.{is_unlisted, without_routes, IsRouteNumber, Loses, Renews};

use crate::prefixes::{has_prefix, prefixes_of};
use crate::routes::{cut_route, put_route};
use net_types::{Client, NoMemory, Prefix, Vrf};
use node_map::{NodeKey, NodeMap};
use state_keys::{rib_of, vrf_key, vrf_of};
use std::alloc::Global;
use switch_model::{RibKey, RouteRec, Via};
use switch_state::StateEdit;

/// Takes away the client's routes in the VRF to prefixes that aren't listed, and puts the listed
/// ones. A route that is listed and there is never taken away, so its birth stays.
pub(crate) fn sync_client(
    alloc: Global,
    edit: &mut StateEdit,
    vrf: Vrf,
    client: Client,
    routes: &[(Prefix, Via)],
) -> Result<(), NoMemory>
    ensures effect { OnOk result (plain edit.new.state ≡ record (plain edit.old.state) { routes = with_routes vrf client routes.now (filter (λ e. not (is_route_of vrf client e.0)) (plain edit.old.state).routes) }) }
    ensures rest { KeepsRest (record untouched { routes = keys_there (plain edit.old.state) vrf client ++ keys_listed vrf client routes.now }) edit.old edit.new }
{
    let gone = unlisted(alloc, edit, vrf, client, routes)?;
    cut_routes(edit, vrf, client, gone.as_slice())?;
    put_routes(alloc, edit, vrf, client, routes)
}

// The prefixes of the client's routes in the VRF that aren't listed.
fn unlisted(
    alloc: Global,
    edit: &StateEdit,
    vrf: Vrf,
    client: Client,
    routes: &[(Prefix, Via)],
) -> Result<Vec<Prefix>, NoMemory>
    ensures unlisted { IfOk result (λ v. v.items ≡ map (λ e. e.0.prefix) (filter (λ e. is_unlisted vrf client (map (λ r. r.0) routes.now) e.0) (plain edit.now.state).routes)) }
    ensures ascend { OnOk result (Ascends rib_cmp (plain edit.now.state).routes) }
{
    let listed = prefixes_of(alloc, routes)?;
    unlisted_in(alloc, edit.routes(), vrf, client, listed.as_slice())
}

// Those of a map of routes. It looks at the routes of the VRF alone.
fn unlisted_in(
    alloc: Global,
    routes: &NodeMap<RouteRec>,
    vrf: Vrf,
    client: Client,
    listed: &[Prefix],
) -> Result<Vec<Prefix>, NoMemory>
    requires numbers { All (λ e. IsRibNumber e.0) routes.now.entries }
    requires ascending { IsStrictlySortedBy prefix_cmp listed.now }
    ensures { IfOk result (λ v. v.items ≡ map (λ e. (rib_of e.0).prefix) (filter (λ e. is_unlisted vrf client listed.now (rib_of e.0)) routes.now.entries)) }
{
    routes.shape();
    let mut gone = Vec::new(alloc);
    for (key, _) in routes.walk_from(&vrf_key(vrf)) {
        if !is_in_vrf(key, vrf) {
            return Ok(gone);
        }
        note_unlisted(&mut gone, key, vrf, client, listed)?;
    }
    Ok(gone)
}

// Whether the route whose key it is is in the VRF.
fn is_in_vrf(key: &NodeKey, vrf: Vrf) -> bool
    ensures { result ≡ (field 0 16 key.now == vrf) }
{
    vrf_of(key) == vrf
}

fn note_unlisted(
    gone: &mut Vec<Prefix>,
    key: &NodeKey,
    vrf: Vrf,
    client: Client,
    listed: &[Prefix],
) -> Result<(), NoMemory>
    requires number { IsRibNumber key.now }
    requires ascending { IsStrictlySortedBy prefix_cmp listed.now }
    ensures { OnOk result (gone.new.items ≡ gone.old.items ++ (if is_unlisted vrf client listed.now (rib_of key.now) then (rib_of key.now).prefix ∷ [] else [])) }
{
    let key = rib_of(key);
    if is_unlisted(&key, vrf, client, listed) {
        gone.push(key.prefix)?;
    }
    Ok(())
}

fn is_unlisted(key: &RibKey, vrf: Vrf, client: Client, listed: &[Prefix]) -> bool
    requires { IsStrictlySortedBy prefix_cmp listed.now }
    ensures { result ≡ is_unlisted vrf client listed.now key.now }
{
    is_route_of(key, vrf, client) && !has_prefix(listed, &key.prefix)
}

fn is_route_of(key: &RibKey, vrf: Vrf, client: Client) -> bool
    ensures { result ≡ is_route_of vrf client key.now }
{
    key.vrf == vrf && key.client.number() == client.number()
}

fn cut_routes(
    edit: &mut StateEdit,
    vrf: Vrf,
    client: Client,
    prefixes: &[Prefix],
) -> Result<(), NoMemory>
    ensures effect { OnOk result (plain edit.new.state ≡ record (plain edit.old.state) { routes = without_routes vrf client prefixes.now (plain edit.old.state).routes }) }
    ensures others { edit.new ≡ record edit.old { state = record edit.old.state { routes = edit.new.state.routes } } }
    ensures births { Loses (IsRouteNumber vrf client prefixes.now) edit.old.state.routes edit.new.state.routes }
    ensures paths { ArePathsMade edit.old.state.version (IsRouteNumber vrf client prefixes.now) edit.old.state.routes.nodes edit.new.state.routes.nodes }
    ensures born { NewBirths edit.old.state.version edit.old.state.routes edit.new.state.routes }
{
    for prefix in prefixes {
        cut_route(edit, (vrf, *prefix, client))?;
    }
    Ok(())
}

fn put_routes(
    alloc: Global,
    edit: &mut StateEdit,
    vrf: Vrf,
    client: Client,
    routes: &[(Prefix, Via)],
) -> Result<(), NoMemory>
    ensures effect { OnOk result (plain edit.new.state ≡ record (plain edit.old.state) { routes = with_routes vrf client routes.now (plain edit.old.state).routes }) }
    ensures others { edit.new ≡ record edit.old { state = record edit.old.state { routes = edit.new.state.routes } } }
    ensures births { Renews (IsRouteNumber vrf client (map (λ r. r.0) routes.now)) edit.old.state.routes edit.new.state.routes }
    ensures paths { ArePathsMade edit.old.state.version (IsRouteNumber vrf client (map (λ r. r.0) routes.now)) edit.old.state.routes.nodes edit.new.state.routes.nodes }
    ensures born { NewBirths edit.old.state.version edit.old.state.routes edit.new.state.routes }
{
    for route in routes {
        put_route(alloc, edit, (vrf, route.0, client), &route.1)?;
    }
    Ok(())
}
