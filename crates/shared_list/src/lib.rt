//! Lists by position that are shared and never changed: a longer list shares with the one that it was
//! made of all but the nodes on the paths to its new places.
#![tactic(auto)]

ghost use Rattle.std.specs.Prelude.{◌≡◌, ◌<◌, ◌+◌, ◌^◌, ◌++◌, ◌∷◌, [], IfOk, length, slice_get};
ghost use Rattle.std.specs.Option.{option_copied};

use node_core::Forge;
use node_key::NodeKey;
use node_map::NodeMap;
use std::alloc::{AllocError as NoMemory, Global};
use std::marker::Model;

/// A list that several owners share, and that nobody changes. It has fewer than 2^64 items.
#[derive(Drop)]
pub struct SharedList<T> {
    nodes: NodeMap<T>,
    len: u64,
}

impl<T> Model for SharedList<T> {
    ghost use Rattle.std.specs.Prelude.{List};
    ghost use Rattle.shared_list.specs.Positions.{HasLength, values_of};

    ghost Value = { List T };

    ghost view = { λ l. values_of l.nodes.entries };

    ghost invariant = { λ l. HasLength l.len l.nodes.entries };
}

impl<T> SharedList<T> {
    /// The list of nothing.
    pub fn new() -> SharedList<T>
        ensures list { result ≡ [] }
    {
        SharedList {
            nodes: NodeMap::new(),
            len: 0,
        }
    }

    /// How many items there are.
    pub fn len(&self) -> u64
        ensures length { result ≡ length self.now }
    {
        self.len
    }

    /// The item at a place, counted from 0: none exactly past the end.
    pub fn get(&self, place: u64) -> Option<&T>
        ensures item { option_copied result ≡ slice_get self.now place }
    {
        match self.nodes.get(&key_of(place)) {
            None => None,
            Some(node) => Some(node.value()),
        }
    }
}

impl<T: Drop> SharedList<T> {
    /// One more owner of the same list. It costs one link.
    pub fn share(&self) -> Result<SharedList<T>, NoMemory>
        ensures same { IfOk result (λ l. l ≡ self.now) }
    {
        let nodes = self.nodes.share()?;
        Ok(SharedList {
            nodes,
            len: self.len,
        })
    }

    /// The list with one more item, at its end. The list itself stays as it is.
    pub fn push(&self, alloc: Global, item: T) -> Result<SharedList<T>, NoMemory>
        requires room { length self.now + 1 < 2 ^ 64 }
        ensures list { IfOk result (λ l. l ≡ self.now ++ item ∷ []) }
    {
        self.with_last(&Forge::at(alloc, 0), item)
    }

    /// The list with these items more, in their order, at its end. The list itself stays as it is.
    pub fn append(&self, alloc: Global, items: Vec<T>) -> Result<SharedList<T>, NoMemory>
        requires room { length self.now + length items.items < 2 ^ 64 }
        ensures list { IfOk result (λ l. l ≡ self.now ++ items.items) }
    {
        let forge = Forge::at(alloc, 0);
        let mut list = self.share()?;
        for item in items {
            list = list.with_last(&forge, item)?;
        }
        Ok(list)
    }

    // The forge's version stamps the nodes and says nothing here: no two lists are compared by it.
    fn with_last(&self, forge: &Forge, item: T) -> Result<SharedList<T>, NoMemory>
        requires room { length self.now + 1 < 2 ^ 64 }
        ensures list { IfOk result (λ l. l ≡ self.now ++ item ∷ []) }
    {
        let nodes = self.nodes.set(forge, key_of(self.len), item)?;
        Ok(SharedList {
            nodes,
            len: self.len + 1,
        })
    }
}

fn key_of(place: u64) -> NodeKey
    ensures { result ≡ place }
{
    NodeKey::new(0, u128::from(place))
}
