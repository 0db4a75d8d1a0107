// Best routes and longest matches.
ghost use Rattle.std.specs.Prelude.{◌≡◌, ◌↔◌, ℕ, true, IsSome, Option, None, Some};
ghost use Rattle.std.specs.List.{Contains};
ghost use Rattle.std.specs.List.Sorted.{IsStrictlySortedBy};
ghost use Rattle.net_types.specs.declared.client.Client.{Client};
ghost use Rattle.net_types.specs.declared.ip.Ip.{Ip};
ghost use Rattle.net_types.specs.declared.table.RouteKey.{RouteKey};
ghost use Rattle.net_types.specs.Cidr.{Cidr};
ghost use Rattle.net_types.specs.KeyOrder.{route_cmp};
ghost use Rattle.net_types.specs.Prefix.{contains};
ghost use Rattle.route_laws.specs.Entries.{AreInOrder, connects, route_of};
ghost use Rattle.route_laws.specs.Match.{HavePrefixes, ArePrefixes, IsLongestMatch};
ghost use Rattle.route_laws.specs.Nearest.{IsBest};
ghost use Rattle.switch_model.specs.BestRoute.{BestRoute, best};
ghost use Rattle.switch_model.specs.LongestMatch.{best_keys, longest_match};
ghost use Rattle.switch_model.specs.PlainState.{Rib};

/// The best keys are exactly the keys with a best route, each listed once, ascending.
pub fn best_keys_have_best_routes()
    ensures exact { (rib : Rib) (key : RouteKey) → Contains (best_keys rib) key ↔ IsSome (best rib key.vrf key.prefix) }
    ensures ascend { (rib : Rib) → IsStrictlySortedBy route_cmp (best_keys rib) }
{}

/// The longest match of an ip is the longest prefix that contains it and has a best route. There is
/// none only where no prefix that contains it has one. Where what has a best route is a prefix, two
/// can't be longest, so it is the only such one; and that is so by the types of routes and addresses.
pub fn longest_match_is_longest()
    ensures found { (rib : Rib) (vrf : ℕ) (ip : Ip) (prefix : Cidr) (route : BestRoute) → longest_match rib vrf ip ≡ Some (prefix, route) → IsLongestMatch rib vrf ip prefix route }
    ensures none { (rib : Rib) (vrf : ℕ) (ip : Ip) → longest_match rib vrf ip ≡ None → (other : Cidr) → contains other ip ≡ true → best rib vrf other ≡ None }
    ensures exact { (rib : Rib) → ArePrefixes rib → (vrf : ℕ) (ip : Ip) (prefix : Cidr) (route : BestRoute) → IsLongestMatch rib vrf ip prefix route → longest_match rib vrf ip ≡ Some (prefix, route) }
    ensures prefixes { (rib : Rib) → HavePrefixes rib → ArePrefixes rib }
{}

/// The best route to a key is by the interface of least number that has its prefix as a subnet, else that
/// of the client with the least distance, else there is none; and no other route is so.
pub fn best_routes_are_nearest()
    ensures is { (rib : Rib) → AreInOrder rib → (key : RouteKey) → IsBest rib key (best rib key.vrf key.prefix) }
    ensures exact { (rib : Rib) → AreInOrder rib → (key : RouteKey) (route : Option BestRoute) → IsBest rib key route → best rib key.vrf key.prefix ≡ route }
{}

/// A key has one best route in two states where each client has one route to it and the same
/// interfaces have its prefix as a subnet. So a best route differs only where one of these entries does.
pub fn best_routes_rest_on_their_entries()
    ensures same { (old new : Rib) → AreInOrder old → AreInOrder new → (key : RouteKey) → ((client : Client) → route_of old key client ≡ route_of new key client) → ((intf : ℕ) → connects old key intf ≡ connects new key intf) →
        best old key.vrf key.prefix ≡ best new key.vrf key.prefix }
{}
