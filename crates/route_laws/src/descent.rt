// The longest of the keys that contain an ip, by look-ups of the last key up to a bound.
//
// The first bound is the ip itself, in its full length. A step looks up the last key that isn't above
// the bound. Where it is of another VRF or family there is no match; where it contains the ip it is the
// longest match; else the next bound is the ip in the length that the key shares with it.
ghost use Rattle.std.specs.Prelude.{◌≡◌, ◌≤◌, ◌<◌, ℕ, true, false, List, None, Some};
ghost use Rattle.std.specs.List.{Contains};
ghost use Rattle.std.specs.List.Sorted.{IsStrictlySortedBy};
ghost use Rattle.std.specs.Ordering.{is_le};
ghost use Rattle.net_types.specs.declared.ip.Ip.{Ip};
ghost use Rattle.net_types.specs.declared.table.RouteKey.{RouteKey};
ghost use Rattle.net_types.specs.Address.{ip_width};
ghost use Rattle.net_types.specs.KeyOrder.{route_cmp};
ghost use Rattle.net_types.specs.Prefix.{contains};
ghost use Rattle.route_laws.specs.Descent.{last_to, longest_key, ArePrefixKeys, AreUpTo, IsCommon, IsLastTo, IsStep, Matches};

/// The last key up to a bound, of keys that ascend, is one of them, isn't above the bound, and no
/// other such key is above it. There is none only where each key is above the bound.
pub fn last_key_is_last()
    ensures found { (keys : List RouteKey) (to key : RouteKey) → IsStrictlySortedBy route_cmp keys → last_to to keys ≡ Some key → IsLastTo route_cmp to keys key }
    ensures none { (keys : List RouteKey) (to key : RouteKey) → IsStrictlySortedBy route_cmp keys → last_to to keys ≡ None → Contains keys key → is_le (route_cmp key to) ≡ true → ⊥ }
{}

/// The search by steps finds the longest key: no key that matches stands past the first bound; where
/// some key matches, the key of a step is of the same VRF and family; where that key matches it is the
/// longest one; and where it doesn't, no key that matches stands past the next bound, which is shorter.
pub fn steps_keep_what_matches()
    ensures first { (keys : List RouteKey) → ArePrefixKeys keys → (vrf : ℕ) (ip : Ip) → AreUpTo keys vrf ip (ip_width ip) }
    ensures same_vrf { (keys : List RouteKey) (vrf : ℕ) (ip : Ip) (len : ℕ) (last : RouteKey) → IsStep keys vrf ip len last → (key : RouteKey) → Contains keys key → Matches vrf ip key → last.vrf ≡ vrf }
    ensures same_family { (keys : List RouteKey) (vrf : ℕ) (ip : Ip) (len : ℕ) (last : RouteKey) → IsStep keys vrf ip len last → (key : RouteKey) → Contains keys key → Matches vrf ip key → ip_width last.prefix.ip ≡ ip_width ip }
    ensures found { (keys : List RouteKey) (vrf : ℕ) (ip : Ip) (len : ℕ) (last : RouteKey) → IsStep keys vrf ip len last → Matches vrf ip last → longest_key vrf ip keys ≡ Some last }
    ensures kept { (keys : List RouteKey) (vrf : ℕ) (ip : Ip) (len : ℕ) (last : RouteKey) → IsStep keys vrf ip len last → last.vrf ≡ vrf → (common : ℕ) → IsCommon last.prefix.ip ip common → AreUpTo keys vrf ip common }
    ensures falls { (keys : List RouteKey) (vrf : ℕ) (ip : Ip) (len : ℕ) (last : RouteKey) → IsStep keys vrf ip len last → last.vrf ≡ vrf → contains last.prefix ip ≡ false → (common : ℕ) → IsCommon last.prefix.ip ip common → common < len }
    ensures none { (keys : List RouteKey) (vrf : ℕ) (ip : Ip) → ((key : RouteKey) → Contains keys key → Matches vrf ip key → ⊥) → longest_key vrf ip keys ≡ None }
{}
