// Sets of prefixes, by ascending prefix.
ghost use Rattle.std.specs.Prelude.{◌≡◌, ◌↔◌, IfOk, map, length};
ghost use Rattle.std.specs.List.{Contains, list_any};
ghost use Rattle.std.specs.List.Sorted.{IsStrictlySortedBy};
ghost use Rattle.std.specs.Ordering.{eq_by_cmp};
ghost use Rattle.keyed.specs.Keyed.{IsKeyOrder};
ghost use Rattle.net_types.specs.Cidr.{Cidr};
ghost use Rattle.net_types.specs.KeyOrder.{prefix_cmp};
ghost use Rattle.switch_model.specs.Hops.{has_double};

use net_types::{NoMemory, Prefix, compare_prefixes};
use std::alloc::Global;
use switch_model::Via;

/// The prefixes of routes, each once.
pub(crate) fn prefixes_of(alloc: Global, routes: &[(Prefix, Via)]) -> Result<Vec<Prefix>, NoMemory>
    ensures ascending { IfOk result (λ v. IsStrictlySortedBy prefix_cmp v.items) }
    ensures same { IfOk result (λ v. (p : Cidr) → Contains v.items p ↔ Contains (map (λ r. r.0) routes.now) p) }
{
    Ok(sorted_once(all_prefixes(alloc, routes)?))
}

/// Whether a prefix stands twice among routes: their set is smaller then.
pub(crate) fn has_double_prefix(alloc: Global, routes: &[(Prefix, Via)]) -> Result<bool, NoMemory>
    ensures { IfOk result (λ b. b ≡ has_double prefix_cmp (map (λ r. r.0) routes.now)) }
{
    let prefixes = prefixes_of(alloc, routes)?;
    Ok(prefixes.len() < routes.len())
}

/// Whether the prefix is one of a set.
pub(crate) fn has_prefix(prefixes: &[Prefix], prefix: &Prefix) -> bool
    requires { IsStrictlySortedBy prefix_cmp prefixes.now }
    ensures { result ≡ list_any (eq_by_cmp prefix_cmp prefix.now) prefixes.now }
{
    prefixes
        .binary_search_by(|other| compare_prefixes(other, prefix))
        .is_ok()
}

fn all_prefixes(alloc: Global, routes: &[(Prefix, Via)]) -> Result<Vec<Prefix>, NoMemory>
    ensures { IfOk result (λ v. v.items ≡ map (λ r. r.0) routes.now) }
{
    routes.iter().map(|route| route.0).collect(alloc)
}

/// The items in ascending order, each once.
fn sorted_once<T: Ord + Drop>(mut items: Vec<T>) -> Vec<T>
    ensures ascending { IsStrictlySortedBy T.cmp result.items }
    ensures same { IsKeyOrder T.cmp → (x : T) → Contains result.items x ↔ Contains items.items x }
{
    items.sort_unstable();
    items.dedup();
    items
}
