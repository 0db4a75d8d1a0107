// The first key past another one under which two trees differ.
ghost use Rattle.std.specs.Prelude.{◌≡◌, ◌↔◌, ◌<◌, None, IsTrue};
ghost use Rattle.std.specs.Option.{option_map};
ghost use Rattle.std.specs.Ordering.{nat_cmp};
ghost use Rattle.keyed.specs.Keyed.{at};
ghost use Rattle.state_delta.specs.Change.{change_of, seen};
ghost use Rattle.state_delta.specs.Delta.{IsNext, IsPast, change_at};
ghost use Rattle.state_delta.specs.Sides.{Agree, side_entries, side_nodes};

use crate::change::{Change, Kind, node_change};
use crate::cut::{cut, parting};
use node_map::{NodeKey, Tree};

// Whether the key is past the last one that was seen.
fn is_past(key: &NodeKey, last: &Option<NodeKey>) -> bool
    ensures { IsTrue result ↔ IsPast last.now key.now }
{
    match last {
        None => true,
        Some(last) => last.is_before(key),
    }
}

// The first entry of the tree past the last key, as one that stands in the old map alone.
fn first_removed<'a, T>(tree: &'a Tree<T>, last: &Option<NodeKey>) -> Option<Change<'a, T>>
    ensures { IsNext last.now (λ k. change_of (at nat_cmp k tree.now.entries) None) (option_map seen result) }
{
    tree.sound();
    match tree.entry_past(last) {
        None => None,
        Some((key, node)) => Some(Change {
            key: *key,
            old: Some(node.value()),
            new: None,
            kind: Kind::Removed,
        }),
    }
}

// The first entry of the tree past the last key, as one that stands in the new map alone.
fn first_added<'a, T>(tree: &'a Tree<T>, last: &Option<NodeKey>) -> Option<Change<'a, T>>
    ensures { IsNext last.now (λ k. change_of None (at nat_cmp k tree.now.entries)) (option_map seen result) }
{
    tree.sound();
    match tree.entry_past(last) {
        None => None,
        Some((key, node)) => Some(Change {
            key: *key,
            old: None,
            new: Some(node.value()),
            kind: Kind::Added,
        }),
    }
}

// The change from the one leaf to the other, under the one key that both have.
fn leaf_change<'a, T>(
    old: &'a Tree<T>,
    new: &'a Tree<T>,
    last: &Option<NodeKey>,
) -> Option<Change<'a, T>>
    requires old_leaf { old.now.width ≡ 0 }
    requires new_leaf { new.now.width ≡ 0 }
    requires one_key { old.now.low ≡ new.now.low }
    ensures { IsNext last.now (change_at old.now.entries new.now.entries) (option_map seen result) }
{
    old.sound();
    new.sound();
    let (key, old_node) = old.first();
    let (_, new_node) = new.first();
    if !is_past(key, last) {
        return None;
    }
    node_change(key, old_node, new_node)
}

// Whether the two are leaves of one key.
fn are_leaves_of_one_key<T>(old: &Tree<T>, new: &Tree<T>) -> bool
    ensures { IsTrue result ↔ ((old.now.width ≡ 0) × (new.now.width ≡ 0) × (old.now.low ≡ new.now.low)) }
{
    old.width() == 0 && new.width() == 0 && old.low().is_same(&new.low())
}

// Whether the two are at one place and of one generation.
fn is_shared<T>(old: &Tree<T>, new: &Tree<T>) -> bool
    ensures { IsTrue result ↔ ((old.now.low ≡ new.now.low) × (old.now.width ≡ new.now.width) × (old.now.generation ≡ new.now.generation)) }
{
    old.gen_() == new.gen_() && old.width() == new.width() && old.low().is_same(&new.low())
}

// The first change past the last key. Two trees at one place and of one generation have the same
// entries, and are passed over.
pub(crate) fn first_change<'a, T>(
    old: Option<&'a Tree<T>>,
    new: Option<&'a Tree<T>>,
    last: &Option<NodeKey>,
) -> Option<Change<'a, T>>
    requires { Agree (side_nodes old) (side_nodes new) }
    ensures { IsNext last.now (change_at (side_entries old.entry) (side_entries new.entry)) (option_map seen result) }
{
    let Some(old) = old else {
        return match new {
            None => None,
            Some(new) => first_added(new, last),
        };
    };
    let Some(new) = new else {
        return first_removed(old, last);
    };
    old.sound();
    new.sound();
    if is_shared(old, new) {
        return None;
    }
    if are_leaves_of_one_key(old, new) {
        return leaf_change(old, new, last);
    }
    let split = parting(old, new);
    let old_halves = cut(old, &split);
    let new_halves = cut(new, &split);
    if !is_past(&split, last) {
        return first_change(old_halves.rest, new_halves.rest, last);
    }
    match first_change(old_halves.below, new_halves.below, last) {
        Some(change) => Some(change),
        None => first_change(old_halves.rest, new_halves.rest, last),
    }
}
