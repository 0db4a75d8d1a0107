// Why an act is refused.
ghost use Rattle.std.specs.Prelude.{◌≡◌, ◌∷◌, ◌++◌, [], is_some, map, IfOk};
ghost use Rattle.net_types.specs.KeyOrder.{prefix_cmp};
ghost use Rattle.switch_model.specs.First.{first_that_holds};
ghost use Rattle.switch_model.specs.Hops.{has_double};
ghost use Rattle.switch_model.specs.PlainState.{route_at};
ghost use Rattle.switch_model.specs.Reason.{hop_reasons, reason_of_act, route_reasons};
ghost use Rattle.switch_model.specs.Facts.{is_interface};
ghost use Rattle.switch_state.specs.Plain.{plain};

use crate::hops::{hop_reason, hops_reason};
use crate::prefixes::has_double_prefix;
use neighbor_rules::neighbor_reason;
use net_types::{Client, NoMemory, Prefix};
use port_rules::port_reason;
use state_keys::rib_key;
use state_scan::record_under;
use std::alloc::Global;
use switch_model::{Act, Reason, RibKey, RouteList, Via};
use switch_state::StateEdit;

/// Why an act is invalid, if it is: the first reason, in the order of its act, that holds of what
/// the edit has come to.
pub(crate) fn reason_of(
    alloc: Global,
    edit: &StateEdit,
    act: &Act,
) -> Result<Option<Reason>, NoMemory>
    ensures { IfOk result (λ r. r ≡ reason_of_act (plain edit.now.state) act.now) }
{
    if let Some(reason) = port_reason(edit, act) {
        return Ok(Some(reason));
    }
    if let Some(reason) = neighbor_reason(edit, act) {
        return Ok(Some(reason));
    }
    route_reason(alloc, edit, act)
}

fn route_reason(alloc: Global, edit: &StateEdit, act: &Act) -> Result<Option<Reason>, NoMemory>
    ensures { IfOk result (λ r. r ≡ first_that_holds (route_reasons (plain edit.now.state) act.now)) }
{
    match act {
        Act::RouteSet {
            prefix,
            client,
            via,
            ..
        } => Ok(route_set(prefix, *client, via)),
        Act::RouteDel {
            vrf,
            prefix,
            client,
        } => Ok(route_del(
            edit,
            &RibKey {
                vrf: *vrf,
                prefix: *prefix,
                client: *client,
            },
        )),
        Act::ClientSync { client, routes, .. } => client_sync(alloc, *client, routes),
        _ => Ok(None),
    }
}

fn route_set(prefix: &Prefix, client: Client, via: &Via) -> Option<Reason>
    ensures { result ≡ first_that_holds ((Reason.InterfaceClient, is_interface client) ∷ hop_reasons ((prefix.now, via.now) ∷ [])) }
{
    if is_interface(client) {
        return Some(Reason::InterfaceClient);
    }
    hop_reason(prefix, via)
}

fn route_del(edit: &StateEdit, key: &RibKey) -> Option<Reason>
    ensures { result ≡ first_that_holds (route_reasons (plain edit.now.state) (Act.RouteDel key.now.vrf key.now.prefix key.now.client)) }
{
    if is_interface(key.client) {
        return Some(Reason::InterfaceClient);
    }
    if !has_route(edit, key) {
        return Some(Reason::NoRoute);
    }
    None
}

fn client_sync(
    alloc: Global,
    client: Client,
    routes: &RouteList,
) -> Result<Option<Reason>, NoMemory>
    ensures { IfOk result (λ r. r ≡ first_that_holds ((Reason.InterfaceClient, is_interface client) ∷ (hop_reasons routes.now ++ (Reason.DoublePrefix, has_double prefix_cmp (map (λ r. r.0) routes.now)) ∷ []))) }
{
    if is_interface(client) {
        return Ok(Some(Reason::InterfaceClient));
    }
    if let Some(reason) = hops_reason(routes.as_slice()) {
        return Ok(Some(reason));
    }
    if has_double_prefix(alloc, routes.as_slice())? {
        return Ok(Some(Reason::DoublePrefix));
    }
    Ok(None)
}

fn has_route(edit: &StateEdit, key: &RibKey) -> bool
    ensures { result ≡ is_some (route_at (plain edit.now.state) key.now) }
{
    record_under(edit.routes(), &rib_key(key)).is_some()
}

fn is_interface(client: Client) -> bool
    ensures { result ≡ is_interface client }
{
    matches!(client, Client::Interface)
}
