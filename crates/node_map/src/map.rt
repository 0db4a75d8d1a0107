// A persistent map of nodes, seen as its entries by ascending key and as the nodes of its tree.
ghost use Rattle.std.specs.Prelude.{◌≡◌, [], None, IfOk, IfSome, IsNone, IsTrue, All, MatchOption};
ghost use Rattle.std.specs.Option.{option_copied, option_map};
ghost use Rattle.std.specs.Ordering.{nat_cmp};
ghost use Rattle.keyed.specs.Keyed.{at, put, without, Ascends};
ghost use Rattle.keyed.specs.Ranges.{head_of, last_of, up_to, onward, past};
ghost use Rattle.node_core.specs.Node.{made};
ghost use Rattle.node_map.specs.Change.{IsPathMade, renewed, stored};
ghost use Rattle.node_map.specs.Map.{IsRootOf};
ghost use Rattle.node_map.specs.Sound.{AreSingle, HasLeaf, IsPlace};
ghost use Rattle.node_map.specs.TreeNode.{PathsFit};

use crate::tree::{Tree, leaf, place_in, without_in};
use crate::walk::Walk;
use node_core::{Forge, Node, NodeFault};
use node_key::NodeKey;
use std::alloc::AllocError as NoMemory;
use std::marker::Model;
use std::sync::Arc;

/// A map from keys to nodes that is shared and never changed: a change gives a new map, which shares
/// with the old one all but the nodes on the path to the changed key.
#[derive(Drop)]
pub struct NodeMap<T> {
    root: Option<Arc<Tree<T>>>,
}

impl<T> Model for NodeMap<T> {
    ghost use Rattle.node_map.specs.Map.{MapView, link_entries, link_nodes, IsSoundLink};

    ghost Value = { MapView T };

    ghost view = { λ m. record { entries = link_entries m.root; nodes = link_nodes m.root } };

    ghost invariant = { λ m. IsSoundLink m.root };
}

impl<T> NodeMap<T> {
    /// The empty map.
    pub fn new() -> NodeMap<T>
        ensures entries { result.entries ≡ [] }
        ensures nodes { result.nodes ≡ [] }
    {
        NodeMap { root: None }
    }

    /// The node under the key.
    pub fn get(&self, key: &NodeKey) -> Option<&Node<T>>
        ensures { option_copied result ≡ at nat_cmp key.now self.now.entries }
    {
        match &self.root {
            None => None,
            Some(tree) => tree.get(key),
        }
    }

    /// The keys with their nodes, in order. It copies nothing and takes no memory.
    pub fn walk(&self) -> Walk<'_, T>
        ensures { result ≡ self.now.entries }
    {
        Walk::new(self.root())
    }

    /// The keys with their nodes from the key on, in order. It copies nothing and takes no memory.
    pub fn walk_from(&self, key: &NodeKey) -> Walk<'_, T>
        ensures { result ≡ onward nat_cmp key.now self.now.entries }
    {
        Walk::seek(self.root(), key)
    }

    /// The first entry whose key is above the key.
    pub fn after(&self, key: &NodeKey) -> Option<(&NodeKey, &Node<T>)>
        ensures { option_map (λ e. (e.0.now, e.1.now)) result ≡ head_of (past nat_cmp key.now self.now.entries) }
    {
        match &self.root {
            None => None,
            Some(tree) => tree.after(key),
        }
    }

    /// The last entry whose key isn't above the key.
    pub fn last_to(&self, key: &NodeKey) -> Option<(&NodeKey, &Node<T>)>
        ensures { option_map (λ e. (e.0.now, e.1.now)) result ≡ last_of (up_to nat_cmp key.now self.now.entries) }
    {
        match &self.root {
            None => None,
            Some(tree) => tree.last_to(key),
        }
    }

    /// The root of the tree, for walks that pass over what two maps share.
    pub fn root(&self) -> Option<&Tree<T>>
        ensures { IsRootOf self.now result }
    {
        match &self.root {
            None => None,
            Some(tree) => Some(tree),
        }
    }

    /// What holds of every map. It does nothing when it runs.
    pub fn shape(&self)
        ensures ascends { Ascends nat_cmp self.now.entries }
        ensures places { All (λ n. IsPlace n.low n.width) self.now.nodes }
        ensures leaves { All (HasLeaf self.now.nodes) self.now.entries }
        ensures single { AreSingle self.now.nodes }
        ensures paths { PathsFit self.now.nodes }
    {
        let _ = &self.root;
    }
}

impl<T: Drop> NodeMap<T> {
    /// One more owner of the same map.
    pub fn share(&self) -> Result<NodeMap<T>, NoMemory>
        ensures { IfOk result (λ m. m ≡ self.now) }
    {
        match &self.root {
            None => Ok(NodeMap { root: None }),
            Some(tree) => {
                let tree = Arc::try_clone(tree)?;
                Ok(NodeMap { root: Some(tree) })
            }
        }
    }

    /// The map without the key. Where the key isn't there, it is the same map, and no node is made.
    pub fn without(&self, forge: &Forge, key: &NodeKey) -> Result<NodeMap<T>, NoMemory>
        ensures entries { IfOk result (λ m. m.entries ≡ without nat_cmp key.now self.now.entries) }
        ensures absent { IsNone (at nat_cmp key.now self.now.entries) → IfOk result (λ m. m ≡ self.now) }
        ensures nodes { IfOk result (λ m. IsPathMade forge.now.version key.now self.now.nodes m.nodes) }
    {
        if self.get(key).is_none() {
            return self.share();
        }
        match &self.root {
            None => Ok(NodeMap { root: None }),
            Some(tree) => {
                let root = without_in(tree, forge, key)?;
                Ok(NodeMap { root })
            }
        }
    }

    // The map with the node under the key.
    fn place(&self, forge: &Forge, key: NodeKey, node: Arc<Node<T>>) -> Result<NodeMap<T>, NoMemory>
        requires { node.value.generation ≡ forge.now.version }
        ensures entries { IfOk result (λ m. m.entries ≡ put nat_cmp key node.value self.now.entries) }
        ensures nodes { IfOk result (λ m. IsPathMade forge.now.version key self.now.nodes m.nodes) }
    {
        match &self.root {
            None => {
                let tree = leaf(forge, key, node)?;
                Ok(NodeMap { root: Some(tree) })
            }
            Some(tree) => {
                tree.is_within_all(&key);
                let tree = place_in(tree, forge, 192, key, node)?;
                Ok(NodeMap { root: Some(tree) })
            }
        }
    }

    // The map with a new node of the value under the key.
    fn with_value(
        &self,
        forge: &Forge,
        key: NodeKey,
        born: Option<u64>,
        value: T,
    ) -> Result<NodeMap<T>, NoMemory>
        ensures entries { IfOk result (λ m. m.entries ≡ put nat_cmp key (made forge.now.version born value) self.now.entries) }
        ensures nodes { IfOk result (λ m. IsPathMade forge.now.version key self.now.nodes m.nodes) }
    {
        match forge.make(born, value) {
            Err(NodeFault::NoMemory(_)) => Err(NoMemory),
            Ok(node) => self.place(forge, key, node),
        }
    }

    /// The map with the value under the key, always in a new node: for values that have no equality.
    /// A key that is there keeps its birth; a new key is born at the forge's version.
    pub fn set(&self, forge: &Forge, key: NodeKey, value: T) -> Result<NodeMap<T>, NoMemory>
        ensures entries { IfOk result (λ m. m.entries ≡ put nat_cmp key (renewed forge.now.version value (at nat_cmp key self.now.entries)) self.now.entries) }
        ensures nodes { IfOk result (λ m. IsPathMade forge.now.version key self.now.nodes m.nodes) }
    {
        match self.get(&key) {
            None => self.with_value(forge, key, None, value),
            Some(node) => self.with_value(forge, key, Some(node.born()), value),
        }
    }
}

impl<T: Eq + Drop> NodeMap<T> {
    /// The map with the value under the key. An equal value keeps the map as it is, and makes no
    /// node; another value under a key that is there keeps the key's birth; a new key is born at the
    /// forge's version.
    pub fn put(&self, forge: &Forge, key: NodeKey, value: T) -> Result<NodeMap<T>, NoMemory>
        ensures entries { IfOk result (λ m. m.entries ≡ put nat_cmp key (stored T.eq forge.now.version value (at nat_cmp key self.now.entries)) self.now.entries) }
        ensures same { IfSome (at nat_cmp key self.now.entries) (λ node. IsTrue (T.eq node.value value) → IfOk result (λ m. m ≡ self.now)) }
        ensures nodes { IfOk result (λ m. IsPathMade forge.now.version key self.now.nodes m.nodes) }
    {
        match self.get(&key) {
            None => self.with_value(forge, key, None, value),
            Some(node) => {
                if *node.value() == value {
                    self.share()
                } else {
                    self.with_value(forge, key, Some(node.born()), value)
                }
            }
        }
    }
}

impl<'a, T> IntoIterator for &'a NodeMap<T> {
    type Item = (&'a NodeKey, &'a Node<T>);

    type IntoIter = Walk<'a, T>;

    ghost into_iter_gives = { λ m w. w ≡ m.now.entries };

    fn into_iter(self) -> Walk<'a, T> {
        self.walk()
    }
}
