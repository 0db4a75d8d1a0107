// What an entry of the FIB depends on.
ghost use Rattle.std.specs.Prelude.{◌≡◌, ℕ, Bool, List, None, Some, take};
ghost use Rattle.keyed.specs.Keyed.{at, Ascends};
ghost use Rattle.keyed.specs.Sets.{set_of};
ghost use Rattle.net_types.specs.declared.client.Client.{Client};
ghost use Rattle.net_types.specs.declared.hop.Hop.{Hop};
ghost use Rattle.net_types.specs.declared.table.HostKey.{HostKey};
ghost use Rattle.net_types.specs.declared.table.RouteKey.{RouteKey};
ghost use Rattle.net_types.specs.Cidr.{Cidr};
ghost use Rattle.net_types.specs.KeyOrder.{host_cmp, route_cmp};
ghost use Rattle.route_laws.specs.Ends.{HasEnds, IsForward};
ghost use Rattle.route_laws.specs.Local.{Agree};
ghost use Rattle.switch_model.specs.declared.record.FibEntry.{FibEntry};
ghost use Rattle.switch_model.specs.declared.record.FibEntry.TheVariants.{Discard, ToCpu};
ghost use Rattle.switch_model.specs.declared.record.RouteRec.TheVariants.{Hops};
ghost use Rattle.switch_model.specs.BestRoute.{best, learnt};
ghost use Rattle.switch_model.specs.Ends.{AreEnds};
ghost use Rattle.switch_model.specs.Fib.{entry_of_ends, fib, fibs};
ghost use Rattle.switch_model.specs.PlainState.{Rib};
ghost use Rattle.switch_model.specs.Reach.{direct, dropped, to_cpu, IsChain, Reaches};

/// The FIB ascends and has under each key that key's entry, and no other list does.
pub fn fibs_have_each_entry()
    ensures at { (rib : Rib) (key : RouteKey) → at route_cmp key (fibs rib) ≡ fib rib key.vrf key.prefix }
    ensures ascend { (rib : Rib) → Ascends route_cmp (fibs rib) }
    ensures same { (rib : Rib) (entries : List (RouteKey × FibEntry)) → Ascends route_cmp entries → ((key : RouteKey) → at route_cmp key entries ≡ fib rib key.vrf key.prefix) → entries ≡ fibs rib }
{}

/// The entry of a route with hops is that of the ends that finite chains of any length from it reach:
/// the first 64 of the direct hosts, else the CPU, else drop, else none. Each prefix has its ends.
pub fn entries_are_of_ends()
    ensures entry { (rib : Rib) (vrf : ℕ) (prefix : Cidr) (client : Client) (hops : List Hop) (hosts : List HostKey) (cpu drop : Bool) → best rib vrf prefix ≡ Some (learnt client (Hops hops)) → AreEnds rib vrf prefix hosts cpu drop →
        fib rib vrf prefix ≡ entry_of_ends (take 64 (set_of host_cmp hosts)) cpu drop }
    ensures ends { (rib : Rib) (vrf : ℕ) (prefix : Cidr) → HasEnds rib vrf prefix }
{}

/// A route with hops forwards where some host is reached directly; else packets to it go to the CPU where
/// that is reached; else they are dropped where a route that drops is reached; else it has no entry.
pub fn hosts_go_before_cpu_and_drop()
    ensures hosts { (rib : Rib) (vrf : ℕ) (prefix : Cidr) (client : Client) (hops : List Hop) → best rib vrf prefix ≡ Some (learnt client (Hops hops)) → (host : HostKey) → Reaches rib vrf prefix (direct host) → IsForward (fib rib vrf prefix) }
    ensures cpu { (rib : Rib) (vrf : ℕ) (prefix : Cidr) (client : Client) (hops : List Hop) → best rib vrf prefix ≡ Some (learnt client (Hops hops)) → ((host : HostKey) → Reaches rib vrf prefix (direct host) → ⊥) →
        Reaches rib vrf prefix to_cpu → fib rib vrf prefix ≡ Some ToCpu }
    ensures drop { (rib : Rib) (vrf : ℕ) (prefix : Cidr) (client : Client) (hops : List Hop) → best rib vrf prefix ≡ Some (learnt client (Hops hops)) → ((host : HostKey) → Reaches rib vrf prefix (direct host) → ⊥) →
        (Reaches rib vrf prefix to_cpu → ⊥) → Reaches rib vrf prefix dropped → fib rib vrf prefix ≡ Some Discard }
    ensures none { (rib : Rib) (vrf : ℕ) (prefix : Cidr) (client : Client) (hops : List Hop) → best rib vrf prefix ≡ Some (learnt client (Hops hops)) → ((host : HostKey) → Reaches rib vrf prefix (direct host) → ⊥) →
        (Reaches rib vrf prefix to_cpu → ⊥) → (Reaches rib vrf prefix dropped → ⊥) → fib rib vrf prefix ≡ None }
{}

/// A prefix has one entry in two states that agree on it and on each further member of a chain from it.
pub fn entries_are_local()
    ensures same { (old new : Rib) (vrf : ℕ) (prefix : Cidr) → ((members : List Cidr) (last : Cidr) → IsChain new vrf prefix members last → Agree old new vrf last) → fib old vrf prefix ≡ fib new vrf prefix }
{}
