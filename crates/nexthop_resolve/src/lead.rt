// What a hop leads to.
ghost use Rattle.std.specs.Prelude.{◌≡◌, Some};
ghost use Rattle.std.specs.Ordering.{nat_cmp};
ghost use Rattle.keyed.specs.Keyed.{at};
ghost use Rattle.net_types.specs.declared.client.Client.{Client};
ghost use Rattle.net_types.specs.declared.ip.Ip.{Ip};
ghost use Rattle.switch_model.specs.BestRoute.{learnt};
ghost use Rattle.switch_model.specs.Looking.{best_route};
ghost use Rattle.switch_model.specs.LongestMatch.{longest_match};
ghost use Rattle.switch_model.specs.Reach.{hops_of_best, is_of_vrf, leads_to, lead_of_match};
ghost use Rattle.nexthop_resolve.specs.Gathered.{lead_of};

use net_types::{Hop, HostKey, Intf, Ip, Prefix, Vrf};
use switch_model::{Best, BestRoutes, RouteRec};

/// What a hop leads to.
#[derive(Clone, Copy, Debug)]
pub enum HopLead {
    Direct(HostKey),
    /// A route with hops of its own.
    Onward(Prefix),
    ToCpu,
    Discard,
    Nothing,
}

/// The hops of a route: none where it has none.
pub(crate) fn hops_of(route: &RouteRec) -> &[Hop]
    ensures { (client : Client) → result.now ≡ hops_of_best (Some (learnt client route.now)) }
{
    match route {
        RouteRec::Hops(hops) => hops.as_slice(),
        _ => &[],
    }
}

/// What a hop leads to in a VRF.
pub(crate) fn lead_of_hop<R: BestRoutes>(routes: &R, vrf: Vrf, hop: &Hop) -> HopLead
    ensures { lead_of result ≡ leads_to (R.rib routes.now) vrf hop.now }
{
    let Some(intf) = hop.intf else {
        return lead_at(routes, vrf, hop.ip);
    };
    if is_of_vrf(routes, vrf, intf) {
        return HopLead::Direct(HostKey { ip: hop.ip, intf });
    }
    HopLead::Nothing
}

/// Whether the interface is there, and of that VRF.
fn is_of_vrf<R: BestRoutes>(routes: &R, vrf: Vrf, intf: Intf) -> bool
    ensures { result ≡ is_of_vrf vrf (at nat_cmp intf (R.rib routes.now).intfs) }
{
    match routes.intf_vrf(intf) {
        Some(found) => found == vrf,
        None => false,
    }
}

/// What an ip leads to by its longest match.
fn lead_at<R: BestRoutes>(routes: &R, vrf: Vrf, ip: Ip) -> HopLead
    ensures { lead_of result ≡ lead_of_match ip (longest_match (R.rib routes.now) vrf ip) }
{
    match routes.longest(vrf, ip) {
        Some((prefix, best)) => lead_by(ip, prefix, &best),
        None => HopLead::Nothing,
    }
}

/// What an ip leads to whose longest match is that prefix, with that best route.
fn lead_by(ip: Ip, prefix: Prefix, best: &Best<'_>) -> HopLead
    ensures { lead_of result ≡ lead_of_match ip (Some (prefix, best_route best.now)) }
{
    match best {
        Best::Connected(intf) => HopLead::Direct(HostKey { ip, intf: *intf }),
        Best::Route(_, route) => lead_along(prefix, route),
    }
}

/// What a route to a prefix leads to.
fn lead_along(prefix: Prefix, route: &RouteRec) -> HopLead
    ensures { (ip : Ip) (client : Client) → lead_of result ≡ lead_of_match ip (Some (prefix, learnt client route.now)) }
{
    match route {
        RouteRec::Hops(_) => HopLead::Onward(prefix),
        RouteRec::ToCpu => HopLead::ToCpu,
        RouteRec::Discard => HopLead::Discard,
    }
}
