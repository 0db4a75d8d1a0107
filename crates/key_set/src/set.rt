// A persistent set of keys.
ghost use Rattle.std.specs.Prelude.{◌≡◌, ◌↔◌, [], Contains, IfOk, IsTrue, Some};
ghost use Rattle.std.specs.List.Sorted.{IsStrictlySortedBy};
ghost use Rattle.std.specs.Option.{option_copied};
ghost use Rattle.std.specs.Ordering.{nat_cmp};
ghost use Rattle.keyed.specs.Ranges.{head_of, last_of, keys_up_to, keys_onward, keys_past};
ghost use Rattle.keyed.specs.Sets.{insert, delete};
ghost use Rattle.key_set.specs.Next.{IsNext};

use crate::walk::KeyWalk;
use node_core::Forge;
use node_key::NodeKey;
use node_map::NodeMap;
use std::alloc::AllocError as NoMemory;
use std::marker::Model;

// What stands under each key of a set: nothing but that the key is in it.
#[derive(Clone, Copy, Debug, PartialEq, Eq)]
pub(crate) struct Mark;

/// A set of keys that is shared and never changed: a change gives a new set, which shares with the
/// old one all but the path to the key.
#[derive(Drop)]
pub struct KeySet {
    marks: NodeMap<Mark>,
}

impl Model for KeySet {
    ghost use Rattle.std.specs.Prelude.{List, ℕ};
    ghost use Rattle.keyed.specs.Ranges.{keys_of};

    ghost Value = { List ℕ };

    ghost view = { λ s. keys_of s.marks.entries };
}

impl KeySet {
    /// The set of no keys.
    pub fn new() -> KeySet
        ensures { result ≡ [] }
    {
        KeySet {
            marks: NodeMap::new(),
        }
    }

    /// One more owner of the same set.
    pub fn share(&self) -> Result<KeySet, NoMemory>
        ensures { IfOk result (λ s. s ≡ self.now) }
    {
        let marks = self.marks.share()?;
        Ok(KeySet { marks })
    }

    /// What holds of every set. It does nothing when it runs.
    pub fn shape(&self)
        ensures { IsStrictlySortedBy nat_cmp self.now }
    {
        self.marks.shape();
    }

    /// The set with the key.
    pub fn with(&self, forge: &Forge, key: NodeKey) -> Result<KeySet, NoMemory>
        ensures { IfOk result (λ s. s ≡ insert nat_cmp key self.now) }
    {
        let marks = self.marks.put(forge, key, Mark)?;
        Ok(KeySet { marks })
    }

    /// The set without the key.
    pub fn without(&self, forge: &Forge, key: &NodeKey) -> Result<KeySet, NoMemory>
        ensures { IfOk result (λ s. s ≡ delete nat_cmp key.now self.now) }
    {
        let marks = self.marks.without(forge, key)?;
        Ok(KeySet { marks })
    }

    /// Whether the key is in the set.
    pub fn contains(&self, key: &NodeKey) -> bool
        ensures { IsTrue result ↔ Contains self.now key.now }
    {
        self.marks.shape();
        self.marks.get(key).is_some()
    }

    /// The first key above the key.
    pub fn after(&self, key: &NodeKey) -> Option<&NodeKey>
        ensures value { option_copied result ≡ head_of (keys_past nat_cmp key.now self.now) }
        ensures least { IsNext (Some key.now) self.now (option_copied result) }
    {
        self.marks.shape();
        match self.marks.after(key) {
            None => None,
            Some((found, _)) => Some(found),
        }
    }

    /// The last key that isn't above the key.
    pub fn last_to(&self, key: &NodeKey) -> Option<&NodeKey>
        ensures { option_copied result ≡ last_of (keys_up_to nat_cmp key.now self.now) }
    {
        match self.marks.last_to(key) {
            None => None,
            Some((found, _)) => Some(found),
        }
    }

    /// The keys from the key on, in order.
    pub fn walk_from(&self, key: &NodeKey) -> KeyWalk<'_>
        ensures { result ≡ keys_onward nat_cmp key.now self.now }
    {
        KeyWalk::of(self.marks.walk_from(key))
    }

    /// The keys in order.
    pub fn walk(&self) -> KeyWalk<'_>
        ensures { result ≡ self.now }
    {
        KeyWalk::of(self.marks.walk())
    }
}
