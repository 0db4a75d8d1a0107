// Next hops followed to their ends.
ghost use Rattle.std.specs.Prelude.{◌≡◌, IfOk, map, take};
ghost use Rattle.keyed.specs.Sets.{set_of};
ghost use Rattle.net_types.specs.KeyOrder.{host_cmp};
ghost use Rattle.switch_model.specs.Fib.{entry_of_ends, fib, hop_of_host};
ghost use Rattle.nexthop_resolve.specs.Gathered.{IsBest};
ghost use Rattle.switch_model.specs.Looking.{resolved_entry};
ghost use Rattle.switch_model.specs.PlainState.{Rib};

use crate::gather::{Gathered, gather};
use net_types::{Hop, HopList, HopSet, HostKey, NoMemory, Prefix, Vrf};
use std::alloc::Global;
use std::marker::Model;
use switch_model::{Best, BestRoutes, Resolved, Resolver, RouteRec};

/// The most direct hops that an entry forwards to.
const MOST_HOPS: usize = 64;

/// Routes with their next hops followed to their ends: a prefix forwards to the first 64 of the hosts
/// that chains of routes from it reach, by ip and then interface.
#[derive(Debug, Drop)]
pub struct HopResolver<'a, R> {
    routes: &'a R,
}

impl<'a, R> Model for HopResolver<'a, R> {
    ghost Value = { R };

    ghost view = { λ s. s.routes.now };
}

impl<'a, R> HopResolver<'a, R> {
    /// The resolver over these routes.
    pub fn of(routes: &'a R) -> HopResolver<'a, R>
        ensures { result ≡ routes.now }
    {
        HopResolver { routes }
    }
}

impl<R: BestRoutes> Resolver for HopResolver<'_, R> {
    ghost rib = { λ s. R.rib s };

    fn resolve(&self, alloc: Global, vrf: Vrf, prefix: &Prefix) -> Result<Resolved, NoMemory> {
        resolve(alloc, self.routes, vrf, prefix)
    }
}

fn resolve<R: BestRoutes>(
    alloc: Global,
    routes: &R,
    vrf: Vrf,
    prefix: &Prefix,
) -> Result<Resolved, NoMemory>
    ensures { IfOk result (λ found. resolved_entry found ≡ fib (R.rib routes.now) vrf prefix.now) }
{
    let Some(best) = routes.best(vrf, prefix) else {
        return Ok(Resolved::Nothing);
    };
    match best {
        Best::Connected(intf) => Ok(Resolved::Connected(intf)),
        Best::Route(_, route) => resolve_route(alloc, routes, vrf, prefix, route),
    }
}

/// What becomes of packets to a prefix whose best route is that one.
fn resolve_route<R: BestRoutes>(
    alloc: Global,
    routes: &R,
    vrf: Vrf,
    prefix: &Prefix,
    route: &RouteRec,
) -> Result<Resolved, NoMemory>
    requires { IsBest (R.rib routes.now) vrf prefix.now route.now }
    ensures { IfOk result (λ found. resolved_entry found ≡ fib (R.rib routes.now) vrf prefix.now) }
{
    match route {
        RouteRec::ToCpu => Ok(Resolved::ToCpu),
        RouteRec::Discard => Ok(Resolved::Discard),
        RouteRec::Hops(_) => {
            let all = gather(alloc, routes, vrf, prefix)?;
            let end = end_of(alloc, &all)?;
            Ok(end)
        }
    }
}

/// What becomes of packets where these ends are reached: the first direct hops, else the CPU, else
/// drop.
fn end_of(alloc: Global, all: &Gathered) -> Result<Resolved, NoMemory>
    ensures { IfOk result (λ end. resolved_entry end ≡ entry_of_ends (take 64 (set_of host_cmp all.now.hosts.items)) all.now.cpu all.now.discard) }
{
    if !all.hosts.is_empty() {
        let hops = first_hops(alloc, all.hosts.as_slice())?;
        return Ok(Resolved::Forward(hops));
    }
    if all.cpu {
        return Ok(Resolved::ToCpu);
    }
    if all.discard {
        return Ok(Resolved::Discard);
    }
    Ok(Resolved::Nothing)
}

/// The first hosts, by ip and then interface, as hops.
fn first_hops(alloc: Global, hosts: &[HostKey]) -> Result<HopSet, NoMemory>
    ensures { IfOk result (λ hops. hops ≡ map hop_of_host (take 64 (set_of host_cmp hosts.now))) }
{
    let hops = hops_to(alloc, hosts)?;
    let all = HopSet::of(alloc, &hops)?;
    let first = first_of(alloc, all.as_slice())?;
    let set = HopSet::of(alloc, &first)?;
    Ok(set)
}

fn first_of(alloc: Global, hops: &[Hop]) -> Result<HopList, NoMemory>
    ensures { IfOk result (λ first. first ≡ take 64 hops.now) }
{
    let count = hops.len().min(MOST_HOPS);
    let first = Vec::from_slice(alloc, &hops[..count])?;
    Ok(HopList::from_vec(first))
}

fn hops_to(alloc: Global, hosts: &[HostKey]) -> Result<HopList, NoMemory>
    ensures { IfOk result (λ hops. hops ≡ map hop_of_host hosts.now) }
{
    let mut hops = HopList::new(alloc);
    for host in hosts {
        hops.push(Hop {
            ip: host.ip,
            intf: Some(host.intf),
        })?;
    }
    Ok(hops)
}
