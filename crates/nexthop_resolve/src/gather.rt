// Everything that the hops of a route lead to, in a queue of the routes on the way.
ghost use Rattle.std.specs.Prelude.{◌≡◌, IfOk, OnOk, map};
ghost use Rattle.std.specs.List.{Contains};
ghost use Rattle.switch_model.specs.Ends.{AreEnds};
ghost use Rattle.switch_model.specs.Reach.{leads, leads_to, onward};
ghost use Rattle.switch_model.specs.ReachLaws.{HasHops};
ghost use Rattle.nexthop_resolve.specs.Gathered.{lead_of, Grows, IsEmpty};

use crate::lead::{HopLead, hops_of, lead_of_hop};
use key_set::KeySet;
use net_types::{Hop, HostKey, NoMemory, Prefix, RouteKey, Vrf};
use node_core::Forge;
use state_keys::fib_key;
use std::alloc::Global;
use switch_model::{Best, BestRoutes};

/// What was found so far: the routes on the way, each once, the set of their keys, and the ends.
#[derive(Drop)]
pub struct Gathered {
    pub seen: Vec<Prefix>,
    pub known: KeySet,
    pub hosts: Vec<HostKey>,
    pub cpu: bool,
    pub discard: bool,
}

/// Gathers all that a route with hops leads to.
pub fn gather<R: BestRoutes>(
    alloc: Global,
    routes: &R,
    vrf: Vrf,
    start: &Prefix,
) -> Result<Gathered, NoMemory>
    requires { HasHops (R.rib routes.now) vrf start.now }
    ensures { IfOk result (λ all. AreEnds (R.rib routes.now) vrf start.now all.hosts.items all.cpu all.discard) }
{
    let forge = Forge::at(alloc, 0);
    let mut all = nothing_yet(alloc);
    visit(&forge, vrf, start, &mut all)?;
    let mut done = 0;
    while done < all.seen.len() {
        let prefix = all.seen[done];
        follow(&forge, routes, vrf, &prefix, &mut all)?;
        done += 1;
    }
    Ok(all)
}

fn nothing_yet(alloc: Global) -> Gathered
    ensures { IsEmpty result }
{
    Gathered {
        seen: Vec::new(alloc),
        known: KeySet::new(),
        hosts: Vec::new(alloc),
        cpu: false,
        discard: false,
    }
}

/// Adds what each hop of a prefix's best route leads to.
fn follow<R: BestRoutes>(
    forge: &Forge,
    routes: &R,
    vrf: Vrf,
    prefix: &Prefix,
    all: &mut Gathered,
) -> Result<(), NoMemory>
    ensures { OnOk result (Grows vrf all.old all.new (Contains (leads (R.rib routes.now) vrf prefix.now))) }
{
    if let Some(Best::Route(_, route)) = routes.best(vrf, prefix) {
        follow_hops(forge, routes, vrf, hops_of(route), all)?;
    }
    Ok(())
}

fn follow_hops<R: BestRoutes>(
    forge: &Forge,
    routes: &R,
    vrf: Vrf,
    hops: &[Hop],
    all: &mut Gathered,
) -> Result<(), NoMemory>
    ensures { OnOk result (Grows vrf all.old all.new (Contains (map (leads_to (R.rib routes.now) vrf) hops.now))) }
{
    for hop in hops {
        add(forge, vrf, all, lead_of_hop(routes, vrf, hop))?;
    }
    Ok(())
}

/// Adds what one hop leads to.
fn add(forge: &Forge, vrf: Vrf, all: &mut Gathered, lead: HopLead) -> Result<(), NoMemory>
    ensures { OnOk result (Grows vrf all.old all.new (λ met. met ≡ lead_of lead)) }
{
    match lead {
        HopLead::Direct(host) => all.hosts.push(host)?,
        HopLead::Onward(prefix) => visit(forge, vrf, &prefix, all)?,
        HopLead::ToCpu => all.cpu = true,
        HopLead::Discard => all.discard = true,
        HopLead::Nothing => {}
    }
    Ok(())
}

/// Adds a route on the way, where it isn't there.
fn visit(forge: &Forge, vrf: Vrf, prefix: &Prefix, all: &mut Gathered) -> Result<(), NoMemory>
    ensures { OnOk result (Grows vrf all.old all.new (λ met. met ≡ onward prefix.now)) }
{
    let key = fib_key(&RouteKey {
        vrf,
        prefix: *prefix,
    });
    if all.known.contains(&key) {
        return Ok(());
    }
    all.known = all.known.with(forge, key)?;
    all.seen.push(*prefix)?;
    Ok(())
}
