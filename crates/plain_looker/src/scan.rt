// The least key among those that have a best route, by a scan of all interfaces and routes.
ghost use Rattle.std.specs.Prelude.{◌≡◌, ◌==◌, ◌&&◌, ◌++◌, Bool, None, if◌then◌else◌, map, flat_map};
ghost use Rattle.std.specs.Ordering.{is_lt};
ghost use Rattle.std.specs.declared.cmp.Ordering.{Ordering};
ghost use Rattle.keyed.specs.Keyed.{IsKeyOrder};
ghost use Rattle.keyed.specs.Least.{least_of, lesser, passing};
ghost use Rattle.net_types.specs.declared.table.RouteKey.{RouteKey};
ghost use Rattle.net_types.specs.KeyOrder.{route_cmp, route_order};
ghost use Rattle.net_types.specs.Prefix.{contains, subnet_of};
ghost use Rattle.switch_model.specs.Addresses.{has_subnet};
ghost use Rattle.switch_model.specs.Looking.{is_past};
ghost use Rattle.switch_model.specs.LongestMatch.{connected_keys, routed_key};
ghost use Rattle.plain_looker.specs.Scan.{longest_cmp, subnet_keys};
ghost use Rattle.plain_looker.specs.ScanLaws.{longest_order};

use net_types::{Addr, Intf, Ip, RouteKey, Vrf, compare_route_keys};
use switch_model::{AddrList, IntfRec, RibKey, RouteRec};

/// Which of the keys is sought: the least one, by an order, that passes a test.
pub trait Wanted {
    ghost cmp: { RouteKey → RouteKey → Ordering };

    ghost test: { Self → RouteKey → Bool };

    fn passes(&self, key: &RouteKey) -> bool
        ensures { result ≡ test self.now key.now };

    fn is_before(&self, a: &RouteKey, b: &RouteKey) -> bool
        ensures { result ≡ is_lt (cmp a.now b.now) };

    ghost order: { IsKeyOrder cmp };
}

/// The first key past one, or the first of all.
#[derive(Clone, Copy)]
pub struct Past {
    pub from: Option<RouteKey>,
}

impl Wanted for Past {
    ghost cmp = { route_cmp };

    ghost test = { λ p. is_past p.from };

    fn passes(&self, key: &RouteKey) -> bool {
        match &self.from {
            None => true,
            Some(from) => compare_route_keys(from, key).is_lt(),
        }
    }

    fn is_before(&self, a: &RouteKey, b: &RouteKey) -> bool {
        compare_route_keys(a, b).is_lt()
    }

    ghost order = { route_order };
}

/// The longest prefix of a VRF that contains an ip.
#[derive(Clone, Copy)]
pub struct Containing {
    pub vrf: Vrf,
    pub ip: Ip,
}

impl Wanted for Containing {
    ghost cmp = { longest_cmp };

    ghost test = { λ c key. (key.vrf == c.vrf) && contains key.prefix c.ip };

    fn passes(&self, key: &RouteKey) -> bool {
        key.vrf == self.vrf && key.prefix.contains(self.ip)
    }

    fn is_before(&self, a: &RouteKey, b: &RouteKey) -> bool {
        b.prefix
            .len()
            .cmp(&a.prefix.len())
            .then(compare_route_keys(a, b))
            .is_lt()
    }

    ghost order = { longest_order };
}

/// The wanted key among the subnets of interfaces and the prefixes of routes.
pub fn least_key<W: Wanted>(
    wanted: &W,
    intfs: &[(Intf, IntfRec)],
    routes: &[(RibKey, RouteRec)],
) -> Option<RouteKey>
    ensures { result ≡ least_of W.cmp (W.test wanted.now) (flat_map connected_keys intfs.now ++ map routed_key routes.now) }
{
    lesser(
        wanted,
        least_connected(wanted, intfs),
        least_routed(wanted, routes),
    )
}

fn least_connected<W: Wanted>(wanted: &W, intfs: &[(Intf, IntfRec)]) -> Option<RouteKey>
    ensures { result ≡ least_of W.cmp (W.test wanted.now) (flat_map connected_keys intfs.now) }
{
    let mut least = None;
    for entry in intfs {
        let intf = &entry.1;
        least = lesser(wanted, least, least_subnet(wanted, intf.vrf, &intf.addrs));
    }
    least
}

fn least_subnet<W: Wanted>(wanted: &W, vrf: Vrf, addrs: &AddrList) -> Option<RouteKey>
    ensures { result ≡ least_of W.cmp (W.test wanted.now) (subnet_keys vrf addrs.now) }
{
    let mut least = None;
    for addr in addrs.as_slice() {
        least = lesser(wanted, least, subnet(wanted, vrf, addr));
    }
    least
}

fn subnet<W: Wanted>(wanted: &W, vrf: Vrf, addr: &Addr) -> Option<RouteKey>
    ensures { result ≡ (if has_subnet addr.now then passing (W.test wanted.now) (record { vrf = vrf; prefix = subnet_of addr.now }) else None) }
{
    if addr.ip().is_link_local() {
        return None;
    }
    passing(
        wanted,
        RouteKey {
            vrf,
            prefix: addr.subnet(),
        },
    )
}

fn least_routed<W: Wanted>(wanted: &W, routes: &[(RibKey, RouteRec)]) -> Option<RouteKey>
    ensures { result ≡ least_of W.cmp (W.test wanted.now) (map routed_key routes.now) }
{
    let mut least = None;
    for entry in routes {
        let key = RouteKey {
            vrf: entry.0.vrf,
            prefix: entry.0.prefix,
        };
        least = lesser(wanted, least, passing(wanted, key));
    }
    least
}

fn passing<W: Wanted>(wanted: &W, key: RouteKey) -> Option<RouteKey>
    ensures { result ≡ passing (W.test wanted.now) key }
{
    if wanted.passes(&key) { Some(key) } else { None }
}

fn lesser<W: Wanted>(
    wanted: &W,
    first: Option<RouteKey>,
    second: Option<RouteKey>,
) -> Option<RouteKey>
    ensures { result ≡ lesser W.cmp first second }
{
    let Some(a) = first else {
        return second;
    };
    let Some(b) = second else {
        return Some(a);
    };
    if wanted.is_before(&b, &a) {
        Some(b)
    } else {
        Some(a)
    }
}
