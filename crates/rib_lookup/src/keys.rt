// Look-ups of keys in both tables.
ghost use Rattle.std.specs.Prelude.{◌≡◌, None, Some, option_map};
ghost use Rattle.keyed.specs.Least.{lesser};
ghost use Rattle.net_types.specs.KeyOrder.{route_cmp};
ghost use Rattle.route_laws.specs.Descent.{last_to};
ghost use Rattle.switch_model.specs.LongestMatch.{best_keys};
ghost use Rattle.switch_model.specs.Looking.{key_after};
ghost use Rattle.rib_lookup.specs.Over.{greater};
ghost use Rattle.rib_lookup.specs.Tables.{key_of_rib, key_of_subnet, with_client};

use crate::connected::with_intf;
use crate::tables::RibView;
use net_types::{Client, RouteKey, compare_route_keys};
use subnet_index::Subnet;
use switch_model::RibKey;

/// The greatest number of an interface.
const LAST_INTF: u32 = 4294967295;

/// The last key with a best route that isn't above the bound.
pub fn last_key(tables: &RibView<'_>, bound: &RouteKey) -> Option<RouteKey>
    ensures { result ≡ last_to bound.now (best_keys tables.now) }
{
    tables.shape();
    let subnet = tables.subnet_last_to(&with_intf(bound, LAST_INTF));
    let route = tables.route_last_to(&with_client(bound, Client::Ibgp));
    greater(of_subnet(&subnet), of_route(&route))
}

/// The first key with a best route.
pub fn first_key(tables: &RibView<'_>) -> Option<RouteKey>
    ensures { result ≡ key_after None (best_keys tables.now) }
{
    tables.shape();
    let subnet = tables.first_subnet();
    let route = tables.first_route();
    lesser(of_subnet(&subnet), of_route(&route))
}

/// The first key with a best route past the key.
pub fn key_past(tables: &RibView<'_>, key: &RouteKey) -> Option<RouteKey>
    ensures { result ≡ key_after (Some key.now) (best_keys tables.now) }
{
    tables.shape();
    let subnet = tables.subnet_after(&with_intf(key, LAST_INTF));
    let route = tables.route_after(&with_client(key, Client::Ibgp));
    lesser(of_subnet(&subnet), of_route(&route))
}

fn with_client(key: &RouteKey, client: Client) -> RibKey
    ensures { result ≡ with_client client key.now }
{
    RibKey {
        vrf: key.vrf,
        prefix: key.prefix,
        client,
    }
}

fn of_subnet(found: &Option<Subnet>) -> Option<RouteKey>
    ensures { result ≡ option_map key_of_subnet found.now }
{
    match found {
        Some(key) => Some(RouteKey {
            vrf: key.vrf,
            prefix: key.prefix,
        }),
        None => None,
    }
}

fn of_route(found: &Option<RibKey>) -> Option<RouteKey>
    ensures { result ≡ option_map key_of_rib found.now }
{
    match found {
        Some(key) => Some(RouteKey {
            vrf: key.vrf,
            prefix: key.prefix,
        }),
        None => None,
    }
}

/// The greater of two keys, or the one that is given.
fn greater(first: Option<RouteKey>, second: Option<RouteKey>) -> Option<RouteKey>
    ensures { result ≡ greater route_cmp first second }
{
    let Some(a) = first else {
        return second;
    };
    let Some(b) = second else {
        return Some(a);
    };
    if compare_route_keys(&a, &b).is_lt() {
        Some(b)
    } else {
        Some(a)
    }
}

/// The lesser of two keys, or the one that is given.
fn lesser(first: Option<RouteKey>, second: Option<RouteKey>) -> Option<RouteKey>
    ensures { result ≡ lesser route_cmp first second }
{
    let Some(a) = first else {
        return second;
    };
    let Some(b) = second else {
        return Some(a);
    };
    if compare_route_keys(&b, &a).is_lt() {
        Some(b)
    } else {
        Some(a)
    }
}
