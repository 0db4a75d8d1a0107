// Which subnets overlap a prefix.
ghost use Rattle.std.specs.Prelude.{◌≡◌, ◌≤◌, ◌/◌, ◌^◌, ◌==◌, ◌&&◌, not};
ghost use Rattle.std.specs.List.{list_any, take_while};
ghost use Rattle.std.specs.Ordering.{nat_cmp};
ghost use Rattle.keyed.specs.Ranges.{keys_onward};
ghost use Rattle.net_types.specs.Prefix.{IsPrefix, contains};
ghost use Rattle.state_keys.specs.Bits.{field};
ghost use Rattle.state_keys.specs.PartKeys.{ip_of};
ghost use Rattle.subnet_index.specs.Overlapping.{IsAroundFound, is_other_at, is_other_within, overlaps_another, shortened};

use crate::key::{has_prefix_of, is_of_intf};
use crate::subnets::Subnets;
use key_set::{KeySet, NodeKey};
use net_types::{Addr, Intf, Prefix, RouteKey, Vrf};
use state_keys::{fib_key, ip_of, vrf_of};

impl Subnets {
    /// Whether a subnet of another interface in the VRF overlaps the prefix. It takes no memory.
    pub fn overlaps_other(&self, intf: Intf, vrf: Vrf, prefix: &Prefix) -> bool
        ensures { result ≡ list_any (overlaps_another intf vrf prefix.now) self.now }
    {
        self.keys();
        fib_key(&route_key(vrf, prefix));
        self.has_other_within(intf, vrf, prefix) || self.has_other_around(intf, vrf, prefix)
    }

    // Whether another interface has a subnet past the prefix's key whose ip the prefix contains.
    fn has_other_within(&self, intf: Intf, vrf: Vrf, prefix: &Prefix) -> bool
        ensures { result ≡ list_any (is_other_within intf vrf prefix.now) self.now }
    {
        let keys = self.keys();
        keys.shape();
        let first = fib_key(&route_key(vrf, prefix));
        other_within(keys, &first, vrf, prefix, intf)
    }

    // Whether another interface has a subnet with a shorter length around the prefix.
    fn has_other_around(&self, intf: Intf, vrf: Vrf, prefix: &Prefix) -> bool
        ensures { IsAroundFound intf vrf prefix.now self.now result }
    {
        for len in 0..prefix.len() {
            if self.has_other_at(intf, vrf, &shortened(prefix, len)) {
                return true;
            }
        }
        false
    }

    // Whether another interface has that very subnet.
    fn has_other_at(&self, intf: Intf, vrf: Vrf, prefix: &Prefix) -> bool
        ensures { result ≡ list_any (is_other_at intf vrf prefix.now) self.now }
    {
        let keys = self.keys();
        keys.shape();
        let first = fib_key(&route_key(vrf, prefix));
        other_at(keys, &first, intf)
    }
}

fn route_key(vrf: Vrf, prefix: &Prefix) -> RouteKey
    ensures { result ≡ record { vrf = vrf; prefix = prefix.now } }
{
    RouteKey {
        vrf,
        prefix: *prefix,
    }
}

// Whether a key from the first one on, as long as the prefix contains its ip, is another interface's.
fn other_within(keys: &KeySet, first: &NodeKey, vrf: Vrf, prefix: &Prefix, intf: Intf) -> bool
    ensures { result ≡ list_any (λ k. not (field 153 32 k == intf)) (take_while (λ k. (field 0 16 k == vrf) && contains prefix.now (ip_of k)) (keys_onward nat_cmp first.now keys.now)) }
{
    keys.walk_from(first)
        .take_while(|key| vrf_of(*key) == vrf && prefix.contains(ip_of(*key)))
        .any(|key| !is_of_intf(key, intf))
}

// Whether a key from the first one on, as long as it is of the same prefix, is another interface's.
fn other_at(keys: &KeySet, first: &NodeKey, intf: Intf) -> bool
    ensures { result ≡ list_any (λ k. not (field 153 32 k == intf)) (take_while (λ k. k / 2 ^ 39 == first.now / 2 ^ 39) (keys_onward nat_cmp first.now keys.now)) }
{
    keys.walk_from(first)
        .take_while(|key| has_prefix_of(*key, first))
        .any(|key| !is_of_intf(key, intf))
}

// The prefix at a shorter length.
fn shortened(prefix: &Prefix, len: u8) -> Prefix
    requires { len ≤ prefix.now.len }
    ensures value { result ≡ shortened prefix.now len }
    ensures range { IsPrefix result }
{
    prefix.len();
    match Addr::new(prefix.ip(), len) {
        Ok(addr) => addr.subnet(),
        Err(_) => unreachable!(),
    }
}
