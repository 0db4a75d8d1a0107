// Keys of routes in order, each once.
ghost use Rattle.std.specs.Prelude.{◌≡◌, ◌↔◌, [], Contains, IfOk, IsTrue, None, Some};
ghost use Rattle.std.specs.Option.{option_copied};
ghost use Rattle.std.specs.List.Sorted.{IsStrictlySortedBy};
ghost use Rattle.keyed.specs.Ranges.{head_of};
ghost use Rattle.keyed.specs.Sets.{insert};
ghost use Rattle.net_types.specs.KeyOrder.{route_cmp};
ghost use Rattle.route_laws.specs.Descent.{ArePrefixKeys};
ghost use Rattle.switch_model.specs.Looking.{key_after};

use key_set::{KeySet, KeyWalk};
use net_types::{NoMemory, RouteKey};
use node_core::Forge;
use node_key::NodeKey;
use rib_descent::KeyTable;
use state_keys::{fib_key, fib_of};
use std::marker::Model;

/// Keys of routes by VRF and prefix, each once.
#[derive(Drop)]
pub(crate) struct RouteKeys {
    keys: KeySet,
}

impl Model for RouteKeys {
    ghost use Rattle.std.specs.Prelude.{List, All, map};
    ghost use Rattle.net_types.specs.declared.table.RouteKey.{RouteKey};
    ghost use Rattle.state_keys.specs.PartKeys.{fib_of, IsFibNumber};

    ghost Value = { List RouteKey };

    ghost view = { λ s. map fib_of s.keys };

    ghost invariant = { λ s. All IsFibNumber s.keys };
}

impl RouteKeys {
    pub(crate) fn new() -> RouteKeys
        ensures { result ≡ [] }
    {
        RouteKeys {
            keys: KeySet::new(),
        }
    }

    /// One more owner of the same keys.
    pub(crate) fn share(&self) -> Result<RouteKeys, NoMemory>
        ensures { IfOk result (λ s. s ≡ self.now) }
    {
        let _ = &self.keys;
        let keys = self.keys.share()?;
        Ok(RouteKeys { keys })
    }

    /// What holds of all such keys. It does nothing when it runs.
    pub(crate) fn shape(&self)
        ensures ascend { IsStrictlySortedBy route_cmp self.now }
        ensures prefixes { ArePrefixKeys self.now }
    {
        self.keys.shape();
    }

    /// The keys with that one.
    pub(crate) fn with(&self, forge: &Forge, key: &RouteKey) -> Result<RouteKeys, NoMemory>
        ensures { IfOk result (λ s. s ≡ insert route_cmp key.now self.now) }
    {
        let _ = &self.keys;
        let keys = self.keys.with(forge, fib_key(key))?;
        Ok(RouteKeys { keys })
    }

    pub(crate) fn contains(&self, key: &RouteKey) -> bool
        ensures { IsTrue result ↔ Contains self.now key.now }
    {
        let _ = &self.keys;
        self.keys.contains(&fib_key(key))
    }

    /// The first key past the last one, or the first of all.
    pub(crate) fn after(&self, last: &Option<RouteKey>) -> Option<RouteKey>
        ensures { result ≡ key_after last.now self.now }
    {
        match last {
            None => self.first(),
            Some(key) => self.past(key),
        }
    }

    fn first(&self) -> Option<RouteKey>
        ensures { result ≡ key_after None self.now }
    {
        match first_of(self.keys.walk()) {
            None => None,
            Some(number) => Some(fib_of(number)),
        }
    }

    fn past(&self, key: &RouteKey) -> Option<RouteKey>
        ensures { result ≡ key_after (Some key.now) self.now }
    {
        match self.keys.after(&fib_key(key)) {
            None => None,
            Some(number) => Some(fib_of(number)),
        }
    }
}

impl KeyTable for RouteKeys {
    ghost keys = { λ keys. keys };

    fn last_to(&self, bound: &RouteKey) -> Option<RouteKey> {
        self.keys.shape();
        match self.keys.last_to(&fib_key(bound)) {
            None => None,
            Some(number) => Some(fib_of(number)),
        }
    }
}

// The first key of a walk.
fn first_of<'a>(walk: KeyWalk<'a>) -> Option<&'a NodeKey>
    ensures { option_copied result ≡ head_of walk.entry }
{
    let mut walk = walk;
    walk.next()
}
