// The entries of a map in order.
ghost use Rattle.std.specs.Prelude.{◌≡◌, ◌≤◌, ◌∷◌, ◌++◌, None, replicate};
ghost use Rattle.std.specs.Ordering.{nat_cmp};
ghost use Rattle.keyed.specs.Ranges.{onward};
ghost use Rattle.node_map.specs.Map.{link_entries, IsSoundLink};
ghost use Rattle.node_map.specs.Pending.{AreSlots, IsNarrow, IsTaken, head_entries, pending_entries, slot_entries};

use crate::tree::{Arms, Tree};
use node_core::Node;
use node_key::NodeKey;
use std::marker::Model;
use std::sync::Arc;

// One more than the most bits that a place may leave open.
const SLOTS: usize = 193;

/// The entries that are left. It keeps the right halves that are still to be met on the way to the
/// next entry, each at the width of its place, so a walk takes no memory and goes down each link once.
/// A walk that begins at a key has its first entry in hand.
#[derive(Drop)]
pub struct Walk<'a, T> {
    head: Option<(&'a NodeKey, &'a Node<T>)>,
    pending: [Option<&'a Tree<T>>; SLOTS],
    from: usize,
}

impl<'a, T> Model for Walk<'a, T> {
    ghost use Rattle.node_map.specs.TreeNode.{Entries};
    ghost use Rattle.std.specs.Prelude.{◌++◌};
    ghost use Rattle.node_map.specs.Pending.{AreSlots, head_entries, pending_entries};

    ghost Value = { Entries T };

    ghost view = { λ w. head_entries w.head ++ pending_entries w.pending };

    ghost invariant = { λ w. AreSlots w.from w.pending };
}

// Puts the tree into the last slot.
fn keep_root<'a, T>(pending: &mut [Option<&'a Tree<T>>], root: Option<&'a Tree<T>>)
    requires empty { pending.old ≡ replicate 193 None }
    requires narrow { IsNarrow 192 root }
    ensures slots { AreSlots 192 pending.new }
    ensures entries { pending_entries pending.new ≡ slot_entries root.entry }
{
    pending[SLOTS - 1] = root;
}

impl<'a, T> Walk<'a, T> {
    pub(crate) fn new(root: Option<&'a Tree<T>>) -> Walk<'a, T>
        requires { IsNarrow 192 root }
        ensures { result ≡ slot_entries root.entry }
    {
        let mut pending = [None; SLOTS];
        keep_root(&mut pending, root);
        Walk {
            head: None,
            pending,
            from: SLOTS - 1,
        }
    }

    // The walk of the tree's entries from the key on.
    pub(crate) fn seek(root: Option<&'a Tree<T>>, key: &NodeKey) -> Walk<'a, T>
        requires { IsNarrow 192 root }
        ensures { result ≡ onward nat_cmp key.now (slot_entries root.entry) }
    {
        let mut pending = [None; SLOTS];
        keep_root(&mut pending, None);
        let (head, from) = match root {
            None => (None, SLOTS - 1),
            Some(tree) => seek_in(&mut pending, tree, key, SLOTS - 1),
        };
        Walk {
            head,
            pending,
            from,
        }
    }
}

// Goes down to the first entry of the tree that isn't below the key, and keeps what is to be met
// after it.
fn seek_in<'a, T>(
    pending: &mut [Option<&'a Tree<T>>],
    tree: &'a Tree<T>,
    key: &NodeKey,
    from: usize,
) -> (Option<(&'a NodeKey, &'a Node<T>)>, usize)
    requires slots { AreSlots from pending.old }
    requires narrow { tree.now.width ≤ from }
    ensures slots { AreSlots result.1 pending.new }
    ensures entries { head_entries result.0 ++ pending_entries pending.new ≡ onward nat_cmp key.now tree.now.entries ++ pending_entries pending.old }
{
    match tree.arms() {
        Arms::Leaf(own, node) => {
            if own.is_before(key) {
                (None, from)
            } else {
                (Some((own, node)), from)
            }
        }
        Arms::Branch(split, left, right) => {
            if key.is_before(split) {
                let at = usize::from(tree.width() - 1);
                pending[at] = Some(right);
                seek_in(pending, left, key, at)
            } else {
                seek_in(pending, right, key, from)
            }
        }
    }
}

// Takes the tree out of the first slot from there on that isn't empty, with the slot's number.
fn take_next<'a, T>(
    pending: &mut [Option<&'a Tree<T>>],
    from: usize,
) -> Option<(usize, &'a Tree<T>)>
    requires { AreSlots from pending.old }
    ensures { IsTaken from pending.old pending.new result }
{
    for at in from..SLOTS {
        if let Some(tree) = pending[at] {
            pending[at] = None;
            return Some((at, tree));
        }
    }
    None
}

// Goes down to the first entry of the tree, and keeps what is to be met after it.
fn first_entry<'a, T>(
    pending: &mut [Option<&'a Tree<T>>],
    tree: &'a Tree<T>,
    from: usize,
) -> (&'a NodeKey, &'a Node<T>, usize)
    requires slots { AreSlots from pending.old }
    requires narrow { tree.now.width ≤ from }
    ensures slots { AreSlots result.2 pending.new }
    ensures entries { (result.0.now, result.1.now) ∷ pending_entries pending.new ≡ tree.now.entries ++ pending_entries pending.old }
{
    match tree.arms() {
        Arms::Leaf(key, node) => (key, node, from),
        Arms::Branch(_, left, right) => {
            let at = usize::from(tree.width() - 1);
            pending[at] = Some(right);
            first_entry(pending, left, at)
        }
    }
}

impl<'a, T> Iterator for Walk<'a, T> {
    ghost use Rattle.std.specs.Iterator.{YieldsFirstBy, item_count};

    type Item = (&'a NodeKey, &'a Node<T>);

    ghost next_gives = { YieldsFirstBy (λ item. (item.0.now, item.1.now)) (λ left. left) };

    ghost remaining = { item_count (λ left. left) };

    fn next(&mut self) -> Option<(&'a NodeKey, &'a Node<T>)> {
        if let Some(entry) = self.head {
            self.head = None;
            return Some(entry);
        }
        let from = self.from;
        let (at, tree) = take_next(&mut self.pending, from)?;
        let (key, node, from) = first_entry(&mut self.pending, tree, at);
        self.from = from;
        Some((key, node))
    }
}
