// Everything that the hops of a route lead to, in a queue of the routes on the way.
ghost use Rattle.std.specs.Prelude.{◌≡◌, IfOk, OnOk, map};
ghost use Rattle.std.specs.List.{Contains, list_any};
ghost use Rattle.std.specs.Ordering.{nat_cmp};
ghost use Rattle.keyed.specs.Keyed.{at};
ghost use Rattle.net_types.specs.declared.client.Client.{Client};
ghost use Rattle.net_types.specs.declared.ip.Ip.{Ip};
ghost use Rattle.switch_model.specs.Addresses.{same_addr};
ghost use Rattle.switch_model.specs.BestRoute.{learnt};
ghost use Rattle.switch_model.specs.Ends.{AreEnds};
ghost use Rattle.plain_resolver.specs.Gathered.{lead_of, Grows};
ghost use Rattle.switch_model.specs.Looking.{best_route};
ghost use Rattle.switch_model.specs.LongestMatch.{longest_match};
ghost use Rattle.switch_model.specs.Reach.{leads, hops_of_best, is_of_vrf, leads_to, lead_of_match};
ghost use Rattle.switch_model.specs.ReachLaws.{HasHops};

use net_types::{Hop, HostKey, Intf, Ip, NoMemory, Prefix, Vrf, compare_prefixes};
use std::alloc::Global;
use switch_model::{Best, BestRoutes, RouteRec};

/// What a hop leads to.
#[derive(Clone, Copy, Debug)]
pub enum HopLead {
    Direct(HostKey),
    /// A route with hops of its own.
    Onward(Prefix),
    ToCpu,
    Discard,
    Nothing,
}

/// What was found so far: the routes on the way, each once, and the ends.
#[derive(Debug, Drop)]
pub struct Gathered {
    pub seen: Vec<Prefix>,
    pub hosts: Vec<HostKey>,
    pub cpu: bool,
    pub discard: bool,
}

/// Gathers all that a route with hops leads to.
pub fn gather<R: BestRoutes>(
    alloc: Global,
    routes: &R,
    vrf: Vrf,
    start: &Prefix,
) -> Result<Gathered, NoMemory>
    requires { HasHops (R.rib routes.now) vrf start.now }
    ensures { IfOk result (λ all. AreEnds (R.rib routes.now) vrf start.now all.hosts.items all.cpu all.discard) }
{
    let mut all = Gathered {
        seen: Vec::new(alloc),
        hosts: Vec::new(alloc),
        cpu: false,
        discard: false,
    };
    all.seen.push(*start)?;
    let mut done = 0;
    while done < all.seen.len() {
        let prefix = all.seen[done];
        follow(routes, vrf, &prefix, &mut all)?;
        done += 1;
    }
    Ok(all)
}

/// Adds what each hop of a prefix's best route leads to.
fn follow<R: BestRoutes>(
    routes: &R,
    vrf: Vrf,
    prefix: &Prefix,
    all: &mut Gathered,
) -> Result<(), NoMemory>
    ensures { OnOk result (Grows all.old all.new (Contains (leads (R.rib routes.now) vrf prefix.now))) }
{
    if let Some(Best::Route(_, route)) = routes.best(vrf, prefix) {
        follow_hops(routes, vrf, hops_of(route), all)?;
    }
    Ok(())
}

fn follow_hops<R: BestRoutes>(
    routes: &R,
    vrf: Vrf,
    hops: &[Hop],
    all: &mut Gathered,
) -> Result<(), NoMemory>
    ensures { OnOk result (Grows all.old all.new (Contains (map (leads_to (R.rib routes.now) vrf) hops.now))) }
{
    for hop in hops {
        add(all, lead_of_hop(routes, vrf, hop))?;
    }
    Ok(())
}

/// Adds what one hop leads to.
fn add(all: &mut Gathered, lead: HopLead) -> Result<(), NoMemory>
    ensures { OnOk result (Grows all.old all.new (λ met. met ≡ lead_of lead)) }
{
    match lead {
        HopLead::Direct(host) => all.hosts.push(host)?,
        HopLead::Onward(prefix) => {
            if !has(all.seen.as_slice(), &prefix) {
                all.seen.push(prefix)?;
            }
        }
        HopLead::ToCpu => all.cpu = true,
        HopLead::Discard => all.discard = true,
        HopLead::Nothing => {}
    }
    Ok(())
}

fn has(seen: &[Prefix], prefix: &Prefix) -> bool
    ensures { result ≡ list_any (same_addr prefix.now) seen.now }
{
    seen.iter()
        .any(|other| compare_prefixes(prefix, other).is_eq())
}

/// The hops of a route: none where it has none.
fn hops_of(route: &RouteRec) -> &[Hop]
    ensures { (client : Client) → result.now ≡ hops_of_best (Some (learnt client route.now)) }
{
    match route {
        RouteRec::Hops(hops) => hops.as_slice(),
        _ => &[],
    }
}

/// What a hop leads to in a VRF.
fn lead_of_hop<R: BestRoutes>(routes: &R, vrf: Vrf, hop: &Hop) -> HopLead
    ensures { lead_of result ≡ leads_to (R.rib routes.now) vrf hop.now }
{
    let Some(intf) = hop.intf else {
        return lead_at(routes, vrf, hop.ip);
    };
    if is_of_vrf(routes, vrf, intf) {
        return HopLead::Direct(HostKey { ip: hop.ip, intf });
    }
    HopLead::Nothing
}

/// Whether the interface is there, and of that VRF.
fn is_of_vrf<R: BestRoutes>(routes: &R, vrf: Vrf, intf: Intf) -> bool
    ensures { result ≡ is_of_vrf vrf (at nat_cmp intf (R.rib routes.now).intfs) }
{
    match routes.intf_vrf(intf) {
        Some(found) => found == vrf,
        None => false,
    }
}

/// What an ip leads to by its longest match.
fn lead_at<R: BestRoutes>(routes: &R, vrf: Vrf, ip: Ip) -> HopLead
    ensures { lead_of result ≡ lead_of_match ip (longest_match (R.rib routes.now) vrf ip) }
{
    match routes.longest(vrf, ip) {
        Some((prefix, best)) => lead_by(ip, prefix, &best),
        None => HopLead::Nothing,
    }
}

/// What an ip leads to whose longest match is that prefix, with that best route.
fn lead_by(ip: Ip, prefix: Prefix, best: &Best<'_>) -> HopLead
    ensures { lead_of result ≡ lead_of_match ip (Some (prefix, best_route best.now)) }
{
    match best {
        Best::Connected(intf) => HopLead::Direct(HostKey { ip, intf: *intf }),
        Best::Route(_, route) => lead_along(prefix, route),
    }
}

/// What a route to a prefix leads to.
fn lead_along(prefix: Prefix, route: &RouteRec) -> HopLead
    ensures { (ip : Ip) (client : Client) → lead_of result ≡ lead_of_match ip (Some (prefix, learnt client route.now)) }
{
    match route {
        RouteRec::Hops(_) => HopLead::Onward(prefix),
        RouteRec::ToCpu => HopLead::ToCpu,
        RouteRec::Discard => HopLead::Discard,
    }
}
