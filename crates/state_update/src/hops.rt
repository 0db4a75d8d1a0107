// Why the hops of routes are refused.
ghost use Rattle.std.specs.Prelude.{◌≡◌, ◌∷◌, []};
ghost use Rattle.std.specs.List.{list_any};
ghost use Rattle.std.specs.Ordering.{eq_by_cmp};
ghost use Rattle.net_types.specs.KeyOrder.{hop_cmp};
ghost use Rattle.switch_model.specs.First.{first_that_holds};
ghost use Rattle.switch_model.specs.Hops.{has_double, has_double_hop, has_too_many, hops_of, is_mixed, lacks_hops};
ghost use Rattle.switch_model.specs.Reason.{hop_reasons};

use net_types::{Hop, Prefix, compare_hops};
use switch_model::{Reason, Via};

/// The most hops that a route may be given.
const MOST_HOPS: usize = 32;

/// Why the hops of a route are refused, if they are.
pub(crate) fn hop_reason(prefix: &Prefix, via: &Via) -> Option<Reason>
    ensures { result ≡ first_that_holds (hop_reasons ((prefix.now, via.now) ∷ [])) }
{
    if is_mixed(prefix, via) {
        return Some(Reason::FamilyMix);
    }
    if lacks_hops(via) {
        return Some(Reason::NoHops);
    }
    if has_too_many(via) {
        return Some(Reason::TooManyHops);
    }
    if has_double_hop(via) {
        return Some(Reason::DoubleHop);
    }
    None
}

/// Why the hops of routes are refused, if those of one of them are. Each check is made of all routes
/// before the next one.
pub(crate) fn hops_reason(routes: &[(Prefix, Via)]) -> Option<Reason>
    ensures { result ≡ first_that_holds (hop_reasons routes.now) }
{
    if some_mixed(routes) {
        return Some(Reason::FamilyMix);
    }
    if some_lacks_hops(routes) {
        return Some(Reason::NoHops);
    }
    if some_has_too_many(routes) {
        return Some(Reason::TooManyHops);
    }
    if some_has_double_hop(routes) {
        return Some(Reason::DoubleHop);
    }
    None
}

fn some_mixed(routes: &[(Prefix, Via)]) -> bool
    ensures { result ≡ list_any (λ r. is_mixed r.0 r.1) routes.now }
{
    routes.iter().any(|route| is_mixed(&route.0, &route.1))
}

fn some_lacks_hops(routes: &[(Prefix, Via)]) -> bool
    ensures { result ≡ list_any (λ r. lacks_hops r.1) routes.now }
{
    routes.iter().any(|route| lacks_hops(&route.1))
}

fn some_has_too_many(routes: &[(Prefix, Via)]) -> bool
    ensures { result ≡ list_any (λ r. has_too_many r.1) routes.now }
{
    routes.iter().any(|route| has_too_many(&route.1))
}

fn some_has_double_hop(routes: &[(Prefix, Via)]) -> bool
    ensures { result ≡ list_any (λ r. has_double_hop r.1) routes.now }
{
    routes.iter().any(|route| has_double_hop(&route.1))
}

fn hops_of(via: &Via) -> &[Hop]
    ensures { result.now ≡ hops_of via.now }
{
    match via {
        Via::Hops(hops) => hops.as_slice(),
        _ => &[],
    }
}

fn is_mixed(prefix: &Prefix, via: &Via) -> bool
    ensures { result ≡ is_mixed prefix.now via.now }
{
    hops_of(via)
        .iter()
        .any(|hop| hop.ip.width() != prefix.ip().width())
}

fn lacks_hops(via: &Via) -> bool
    ensures { result ≡ lacks_hops via.now }
{
    match via {
        Via::Hops(hops) => hops.is_empty(),
        _ => false,
    }
}

fn has_too_many(via: &Via) -> bool
    ensures { result ≡ has_too_many via.now }
{
    hops_of(via).len() > MOST_HOPS
}

fn has_double_hop(via: &Via) -> bool
    ensures { result ≡ has_double_hop via.now }
{
    has_double(hops_of(via))
}

/// Whether a hop stands twice. A route that is let through so far has 32 hops at most, so each is
/// compared with each.
fn has_double(hops: &[Hop]) -> bool
    ensures { result ≡ has_double hop_cmp hops.now }
{
    for (n, hop) in hops.iter().enumerate() {
        if has_hop(&hops[n + 1..], hop) {
            return true;
        }
    }
    false
}

fn has_hop(hops: &[Hop], hop: &Hop) -> bool
    ensures { result ≡ list_any (eq_by_cmp hop_cmp hop.now) hops.now }
{
    hops.iter().any(|other| compare_hops(hop, other).is_eq())
}
