// A path-compressed binary tree of nodes by ascending key.
ghost use Rattle.std.specs.Prelude.{◌≡◌, ◌≢◌, ◌==◌, ◌+◌, ◌-◌, ◌^◌, ◌<◌, ◌≤◌, Some, IfOk, IsSome};
ghost use Rattle.std.specs.Option.{option_copied, option_map};
ghost use Rattle.std.specs.Ordering.{nat_cmp};
ghost use Rattle.keyed.specs.Keyed.{at};
ghost use Rattle.keyed.specs.Ranges.{head_of, last_of, up_to};
ghost use Rattle.node_key.specs.Place.{floor, Encloses};
ghost use Rattle.node_map.specs.Sound.{IsBranch, IsSound, IsPlaced, IsLeft};
ghost use Rattle.node_map.specs.Steps.{after, later};
ghost use Rattle.node_map.specs.TreeNode.{leaf_view, branch_view};

use node_core::{Forge, Node, Stamp};
use node_key::{Fork, NodeKey};
use std::alloc::AllocError;
use std::marker::Model;
use std::sync::Arc;

// One entry, or two halves.
#[cycle(tree)]
#[derive(Drop)]
pub(crate) enum Shape<T> {
    Leaf(Arc<Node<T>>),
    Branch(Arc<Tree<T>>, Arc<Tree<T>>),
}

/// A node of a map's tree, with all that stands below it. Its place is the keys that differ from its
/// mark in their lowest `width` bits alone: a leaf's mark is its key, and a branch's is its split,
/// the first key of its right half. Its stamp is the mark of the forge that made it: a tree can't be
/// made once more with the generation that it has.
#[cycle(tree)]
#[derive(Drop)]
pub struct Tree<T> {
    mark: NodeKey,
    stamp: Stamp,
    shape: Shape<T>,
    width: u8,
}

impl<T> Model for Tree<T> {
    ghost use Rattle.std.specs.Prelude.{length};
    ghost use Rattle.node_map.specs.TreeNode.{TreeView};

    ghost Value = { TreeView T };

    ghost use Rattle.std.proofs.Common.{arith, length-append};
    ghost use Rattle.node_map.specs.Shapes.{shaped, IsShaped};

    ghost view = { λ t. shaped t.mark t.width t.stamp t.shape };

    ghost invariant = { λ t. IsShaped t.mark t.width t.stamp t.shape };

    ghost size = { λ v. length v.nodes };

    ghost size_decreases = { λ t h. Prim.grind (arith, length-append) };
}

/// What a tree is made of: a key with its node, or two halves that part at the split, the first key
/// of the right one.
#[derive(Drop)]
pub enum Arms<'a, T> {
    Leaf(&'a NodeKey, &'a Node<T>),
    Branch(&'a NodeKey, &'a Tree<T>, &'a Tree<T>),
}

impl<T> Tree<T> {
    ghost use Rattle.node_map.specs.Arms.{IsArms};

    /// What holds of every tree. It does nothing when it runs.
    pub fn sound(&self)
        ensures { IsSound self.now }
    {
        let _ = &self.shape;
    }

    /// A leaf's key, or the first key of a branch's right half.
    pub fn mark(&self) -> &NodeKey
        ensures leaf { self.now.width ≡ 0 → result.now ≡ self.now.low }
        ensures branch { 0 < self.now.width → result.now ≡ self.now.low + 2 ^ (self.now.width - 1) }
    {
        let _ = &self.shape;
        &self.mark
    }

    /// How many of its keys' lowest bits may differ. It is 0 exactly at a leaf.
    pub fn width(&self) -> u8
        ensures { result ≡ self.now.width }
    {
        self.width
    }

    /// The first key of its place: the bits that all its keys begin with, and then zeros.
    pub fn low(&self) -> NodeKey
        ensures { result ≡ self.now.low }
    {
        let _ = &self.shape;
        self.mark.floor(self.width)
    }

    /// The version that made the tree's own node.
    pub fn gen_(&self) -> u64
        ensures { result ≡ self.now.generation }
    {
        self.stamp.version()
    }

    /// The entry of a leaf, or the halves of a branch.
    pub fn arms(&self) -> Arms<'_, T>
        ensures { IsArms self.now result }
    {
        match &self.shape {
            Shape::Leaf(node) => Arms::Leaf(&self.mark, node),
            Shape::Branch(left, right) => Arms::Branch(&self.mark, left, right),
        }
    }

    pub(crate) fn get(&self, key: &NodeKey) -> Option<&Node<T>>
        ensures { option_copied result ≡ at nat_cmp key.now self.now.entries }
    {
        match &self.shape {
            Shape::Leaf(node) => {
                if key.is_same(&self.mark) {
                    Some(node)
                } else {
                    None
                }
            }
            Shape::Branch(left, right) => {
                if key.is_before(&self.mark) {
                    left.get(key)
                } else {
                    right.get(key)
                }
            }
        }
    }

    /// The first entry past the last key that was seen, or the first one where none was.
    pub fn entry_past<'a>(&'a self, last: &Option<NodeKey>) -> Option<(&'a NodeKey, &'a Node<T>)>
        ensures { option_map (λ e. (e.0.now, e.1.now)) result ≡ head_of (later last.now self.now.entries) }
    {
        match last {
            None => Some(self.first()),
            Some(key) => self.after(key),
        }
    }

    // The key is in the tree's place.
    pub(crate) fn covers(&self, key: &NodeKey) -> bool
        ensures { result ≡ (floor self.now.width key.now == self.now.low) }
    {
        let _ = &self.shape;
        key.floor(self.width).is_same(&self.mark.floor(self.width))
    }

    // Each tree's place is one of all keys'.
    pub(crate) fn is_within_all(&self, key: &NodeKey)
        ensures { Encloses (floor 192 key.now) 192 self.now.low self.now.width }
    {
        let _ = &self.shape;
        key.is_bounded();
        self.mark.is_bounded();
    }

    /// The first entry.
    pub fn first(&self) -> (&NodeKey, &Node<T>)
        ensures { Some (result.0.now, result.1.now) ≡ head_of self.now.entries }
    {
        match &self.shape {
            Shape::Leaf(node) => (&self.mark, node),
            Shape::Branch(left, _) => left.first(),
        }
    }

    /// The last entry.
    pub fn last(&self) -> (&NodeKey, &Node<T>)
        ensures { Some (result.0.now, result.1.now) ≡ last_of self.now.entries }
    {
        match &self.shape {
            Shape::Leaf(node) => (&self.mark, node),
            Shape::Branch(_, right) => right.last(),
        }
    }

    /// The last entry whose key isn't above the key.
    pub fn last_to<'a>(&'a self, key: &NodeKey) -> Option<(&'a NodeKey, &'a Node<T>)>
        ensures { option_map (λ e. (e.0.now, e.1.now)) result ≡ last_of (up_to nat_cmp key.now self.now.entries) }
    {
        match &self.shape {
            Shape::Leaf(node) => {
                if key.is_before(&self.mark) {
                    None
                } else {
                    Some((&self.mark, node))
                }
            }
            Shape::Branch(left, right) => {
                if key.is_before(&self.mark) {
                    left.last_to(key)
                } else {
                    match right.last_to(key) {
                        None => Some(left.last()),
                        Some(entry) => Some(entry),
                    }
                }
            }
        }
    }

    /// The first entry whose key is above the key.
    pub fn after<'a>(&'a self, key: &NodeKey) -> Option<(&'a NodeKey, &'a Node<T>)>
        ensures { option_map (λ e. (e.0.now, e.1.now)) result ≡ after key.now self.now.entries }
    {
        match &self.shape {
            Shape::Leaf(node) => {
                if key.is_before(&self.mark) {
                    Some((&self.mark, node))
                } else {
                    None
                }
            }
            Shape::Branch(left, right) => {
                if key.is_before(&self.mark) {
                    match left.after(key) {
                        None => Some(right.first()),
                        Some(entry) => Some(entry),
                    }
                } else {
                    right.after(key)
                }
            }
        }
    }
}

// A tree of one entry.
pub(crate) fn leaf<T: Drop>(
    forge: &Forge,
    key: NodeKey,
    node: Arc<Node<T>>,
) -> Result<Arc<Tree<T>>, AllocError>
    requires { node.value.generation ≡ forge.now.version }
    ensures { IfOk result (λ t. t.value ≡ leaf_view key node.value) }
{
    let tree = Tree {
        mark: key,
        stamp: forge.stamp(),
        shape: Shape::Leaf(node),
        width: 0,
    };
    forge.link(tree)
}

// A tree of two halves.
fn branch<T: Drop>(
    forge: &Forge,
    fork: Fork,
    left: Arc<Tree<T>>,
    right: Arc<Tree<T>>,
) -> Result<Arc<Tree<T>>, AllocError>
    requires { IsBranch (floor fork.width fork.split) fork.split fork.width left.value right.value }
    ensures { IfOk result (λ t. t.value ≡ branch_view (floor fork.width fork.split) fork.width forge.now.version left.value right.value) }
{
    let tree = Tree {
        mark: fork.split,
        stamp: forge.stamp(),
        shape: Shape::Branch(left, right),
        width: fork.width,
    };
    forge.link(tree)
}

// A branch of a new left half and the old right one, which is shared.
fn with_left<T: Drop>(
    forge: &Forge,
    fork: Fork,
    left: Arc<Tree<T>>,
    right: &Arc<Tree<T>>,
) -> Result<Arc<Tree<T>>, AllocError>
    requires { IsBranch (floor fork.width fork.split) fork.split fork.width left.value right.now.value }
    ensures { IfOk result (λ t. t.value ≡ branch_view (floor fork.width fork.split) fork.width forge.now.version left.value right.now.value) }
{
    let right = Arc::try_clone(right)?;
    branch(forge, fork, left, right)
}

// A branch of the old left half, which is shared, and a new right one.
fn with_right<T: Drop>(
    forge: &Forge,
    fork: Fork,
    left: &Arc<Tree<T>>,
    right: Arc<Tree<T>>,
) -> Result<Arc<Tree<T>>, AllocError>
    requires { IsBranch (floor fork.width fork.split) fork.split fork.width left.now.value right.value }
    ensures { IfOk result (λ t. t.value ≡ branch_view (floor fork.width fork.split) fork.width forge.now.version left.now.value right.value) }
{
    let left = Arc::try_clone(left)?;
    branch(forge, fork, left, right)
}

// The tree and a leaf beside it.
fn beside<T: Drop>(
    link: &Arc<Tree<T>>,
    forge: &Forge,
    top: u8,
    key: NodeKey,
    node: Arc<Node<T>>,
) -> Result<Arc<Tree<T>>, AllocError>
    requires fits { top ≤ 192 }
    requires made { node.value.generation ≡ forge.now.version }
    requires within { Encloses (floor top key) top link.now.value.low link.now.value.width }
    requires outside { floor link.now.value.width key ≢ link.now.value.low }
    ensures { IfOk result (λ t. IsPlaced top forge.now.version key node.value link.now.value t.value) }
{
    let tree: &Tree<T> = link;
    let _ = &tree.shape;
    let low = tree.mark.floor(tree.width);
    let fork = Fork::around(&low, tree.width, &key, top);
    let leaf = leaf(forge, key, node)?;
    if key.is_before(&low) {
        let tree = with_left(forge, fork, leaf, link)?;
        Ok(tree)
    } else {
        let tree = with_right(forge, fork, link, leaf)?;
        Ok(tree)
    }
}

// The tree with the node under the key. The nodes on the key's path are made anew, and the others
// are shared. `top` bounds the width of the place that the tree may come to have.
pub(crate) fn place_in<T: Drop>(
    link: &Arc<Tree<T>>,
    forge: &Forge,
    top: u8,
    key: NodeKey,
    node: Arc<Node<T>>,
) -> Result<Arc<Tree<T>>, AllocError>
    requires fits { top ≤ 192 }
    requires made { node.value.generation ≡ forge.now.version }
    requires within { Encloses (floor top key) top link.now.value.low link.now.value.width }
    ensures { IfOk result (λ t. IsPlaced top forge.now.version key node.value link.now.value t.value) }
{
    let tree: &Tree<T> = link;
    if !tree.covers(&key) {
        return beside(link, forge, top, key, node);
    }
    match &tree.shape {
        Shape::Leaf(_) => {
            let tree = leaf(forge, key, node)?;
            Ok(tree)
        }
        Shape::Branch(left, right) => {
            let fork = Fork {
                split: tree.mark,
                width: tree.width,
            };
            if key.is_before(&tree.mark) {
                let left = place_in(left, forge, tree.width - 1, key, node)?;
                let tree = with_left(forge, fork, left, right)?;
                Ok(tree)
            } else {
                let right = place_in(right, forge, tree.width - 1, key, node)?;
                let tree = with_right(forge, fork, left, right)?;
                Ok(tree)
            }
        }
    }
}

// What is left of the tree without the key. The sibling of its leaf is shared as it is.
pub(crate) fn without_in<T: Drop>(
    link: &Arc<Tree<T>>,
    forge: &Forge,
    key: &NodeKey,
) -> Result<Option<Arc<Tree<T>>>, AllocError>
    requires there { IsSome (at nat_cmp key.now link.now.value.entries) }
    ensures { IfOk result (λ l. IsLeft forge.now.version key.now link.now.value l) }
{
    let tree: &Tree<T> = link;
    match &tree.shape {
        Shape::Leaf(_) => Ok(None),
        Shape::Branch(left, right) => {
            let fork = Fork {
                split: tree.mark,
                width: tree.width,
            };
            if key.is_before(&tree.mark) {
                match without_in(left, forge, key)? {
                    None => Ok(Some(Arc::try_clone(right)?)),
                    Some(left) => {
                        let tree = with_left(forge, fork, left, right)?;
                        Ok(Some(tree))
                    }
                }
            } else {
                match without_in(right, forge, key)? {
                    None => Ok(Some(Arc::try_clone(left)?)),
                    Some(right) => {
                        let tree = with_right(forge, fork, left, right)?;
                        Ok(Some(tree))
                    }
                }
            }
        }
    }
}
