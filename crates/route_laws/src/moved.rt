// Which entries of the FIB a change of routes and interfaces leaves as they were.
ghost use Rattle.std.specs.Prelude.{◌≡◌, ℕ, List};
ghost use Rattle.std.specs.List.{Contains};
ghost use Rattle.net_types.specs.declared.table.RouteKey.{RouteKey};
ghost use Rattle.net_types.specs.Cidr.{Cidr};
ghost use Rattle.route_laws.specs.Match.{ArePrefixes};
ghost use Rattle.route_laws.specs.Moved.{key_in, AreMoved, DependsOn, HasDependents, HasMoved, IsAffected, IsMoved};
ghost use Rattle.switch_model.specs.Fib.{fib};
ghost use Rattle.switch_model.specs.PlainState.{Rib};

/// The moved keys are those of exactly one ascending list.
pub fn moved_keys_are_one_list()
    ensures some { (old new : Rib) → HasMoved old new }
    ensures one { (old new : Rib) (moved other : List RouteKey) → AreMoved old new moved → AreMoved old new other → moved ≡ other }
{}

/// After a change of routes and interfaces each key has the entry that it had, but the affected ones:
/// the least set that has the moved keys and, with a key, each one that depends on it. A set serves as
/// well that has the moved keys and, with a key, each other one of its VRF with a hop that lies in its
/// prefix, which the new routes alone tell.
pub fn unaffected_entries_stay()
    ensures stay { (old new : Rib) (moved : List RouteKey) → ArePrefixes new → ((key : RouteKey) → IsMoved old new key → Contains moved key) →
        (key : RouteKey) → (IsAffected old new (Contains moved) key.vrf key.prefix → ⊥) → fib old key.vrf key.prefix ≡ fib new key.vrf key.prefix }
    ensures least { (old new : Rib) (moved keys : List RouteKey) → ((key : RouteKey) → Contains moved key → Contains keys key) →
        ((vrf : ℕ) (prefix other : Cidr) → DependsOn old new vrf prefix other → Contains keys (key_in vrf other) → Contains keys (key_in vrf prefix)) →
        (vrf : ℕ) (prefix : Cidr) → IsAffected old new (Contains moved) vrf prefix → Contains keys (key_in vrf prefix) }
    ensures contained { (old new : Rib) (keys : List RouteKey) → ArePrefixes new → ((key : RouteKey) → IsMoved old new key → Contains keys key) → HasDependents new (Contains keys) →
        (key : RouteKey) → (Contains keys key → ⊥) → fib old key.vrf key.prefix ≡ fib new key.vrf key.prefix }
{}
