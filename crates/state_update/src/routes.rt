// What acts on routes do.
ghost use Rattle.std.specs.Prelude.{◌≡◌, IfOk, OnOk};
ghost use Rattle.keyed.specs.Keyed.{put, without};
ghost use Rattle.node_map.specs.Paths.{ArePathsMade};
ghost use Rattle.state_keys.specs.PartKeys.{rib_number, IsRib};
ghost use Rattle.switch_model.specs.Effect.{route_effect, route_of};
ghost use Rattle.switch_model.specs.StateKeys.{rib_cmp};
ghost use Rattle.switch_state.specs.EditKeys.{route_key};
ghost use Rattle.switch_model.specs.Touched.{touched};
ghost use Rattle.switch_state.specs.Plain.{plain};
ghost use Rattle.state_update.specs.Births.{KeepsRest, NewBirths};
ghost use Rattle.state_update.specs.Sync.{Loses, Renews};

use crate::sync::sync_client;
use net_types::{Client, HopSet, NoMemory, Prefix, Vrf};
use std::alloc::Global;
use switch_model::{Act, RouteRec, Via};
use switch_state::StateEdit;

/// Does an act on routes. Other acts do nothing here.
pub(crate) fn change_routes(alloc: Global, edit: &mut StateEdit, act: &Act) -> Result<(), NoMemory>
    ensures effect { OnOk result (plain edit.new.state ≡ route_effect (plain edit.old.state) act.now) }
    ensures rest { KeepsRest (touched (plain edit.old.state) act.now) edit.old edit.new }
{
    match act {
        Act::RouteSet {
            vrf,
            prefix,
            client,
            via,
        } => put_route(alloc, edit, (*vrf, *prefix, *client), via),
        Act::RouteDel {
            vrf,
            prefix,
            client,
        } => cut_route(edit, (*vrf, *prefix, *client)),
        Act::ClientSync {
            vrf,
            client,
            routes,
        } => sync_client(alloc, edit, *vrf, *client, routes.as_slice()),
        _ => Ok(()),
    }
}

/// Puts a route.
pub(crate) fn put_route(
    alloc: Global,
    edit: &mut StateEdit,
    key: (Vrf, Prefix, Client),
    via: &Via,
) -> Result<(), NoMemory>
    ensures effect { OnOk result (plain edit.new.state ≡ record (plain edit.old.state) { routes = put rib_cmp (route_key key) (route_of via.now) (plain edit.old.state).routes }) }
    ensures others { edit.new ≡ record edit.old { state = record edit.old.state { routes = edit.new.state.routes } } }
    ensures births { Renews (λ n. rib_number (route_key key) ≡ n) edit.old.state.routes edit.new.state.routes }
    ensures paths { ArePathsMade edit.old.state.version (λ n. rib_number (route_key key) ≡ n) edit.old.state.routes.nodes edit.new.state.routes.nodes }
    ensures born { NewBirths edit.old.state.version edit.old.state.routes edit.new.state.routes }
    ensures range { IsRib (route_key key) }
{
    let rec = route_of(alloc, via)?;
    edit.put_route(key, rec)
}

/// Takes a route away, where it is there.
pub(crate) fn cut_route(edit: &mut StateEdit, key: (Vrf, Prefix, Client)) -> Result<(), NoMemory>
    ensures effect { OnOk result (plain edit.new.state ≡ record (plain edit.old.state) { routes = without rib_cmp (route_key key) (plain edit.old.state).routes }) }
    ensures others { edit.new ≡ record edit.old { state = record edit.old.state { routes = edit.new.state.routes } } }
    ensures births { Loses (λ n. rib_number (route_key key) ≡ n) edit.old.state.routes edit.new.state.routes }
    ensures paths { ArePathsMade edit.old.state.version (λ n. rib_number (route_key key) ≡ n) edit.old.state.routes.nodes edit.new.state.routes.nodes }
    ensures born { NewBirths edit.old.state.version edit.old.state.routes edit.new.state.routes }
    ensures range { IsRib (route_key key) }
{
    edit.routes().shape();
    edit.cut_route(key)
}

// A route as it is kept, with its hops as a set.
fn route_of(alloc: Global, via: &Via) -> Result<RouteRec, NoMemory>
    ensures { IfOk result (λ rec. rec ≡ route_of via.now) }
{
    match via {
        Via::Hops(hops) => Ok(RouteRec::Hops(HopSet::of(alloc, hops)?)),
        Via::ToCpu => Ok(RouteRec::ToCpu),
        Via::Discard => Ok(RouteRec::Discard),
    }
}
