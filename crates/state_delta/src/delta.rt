// The changes between two maps, one at a time.
ghost use Rattle.std.specs.Prelude.{◌≡◌, ℕ, None};
ghost use Rattle.std.specs.Ordering.{nat_cmp};
ghost use Rattle.keyed.specs.Keyed.{at};
ghost use Rattle.node_map.specs.Follows.{Follows};
ghost use Rattle.state_delta.specs.Delta.{IsDelta};

use crate::change::Change;
use crate::search::first_change;
use node_map::{NodeKey, NodeMap, Tree};
use std::marker::Model;

/// The changes that are left, by ascending key.
#[derive(Drop)]
pub struct MapDelta<'a, T> {
    old: Option<&'a Tree<T>>,
    new: Option<&'a Tree<T>>,
    last: Option<NodeKey>,
}

impl<'a, T> Model for MapDelta<'a, T> {
    ghost use Rattle.std.specs.Prelude.{List, ℕ};
    ghost use Rattle.node_map.specs.Steps.{later};
    ghost use Rattle.state_delta.specs.Change.{ChangeView};
    ghost use Rattle.state_delta.specs.Delta.{delta};
    ghost use Rattle.state_delta.specs.Sides.{IsReady, side_entries};

    ghost Value = { List (ℕ × ChangeView T) };

    ghost view = { λ d. later d.last (delta (side_entries d.old) (side_entries d.new)) };

    ghost invariant = { λ d. IsReady d.old d.new };
}

/// The changes from the old map to the new one, which follows it, by ascending key. It takes no
/// memory, and passes over what the maps share: trees at one place and of one generation.
pub fn map_delta<'a, T>(old: &'a NodeMap<T>, new: &'a NodeMap<T>) -> MapDelta<'a, T>
    requires { Follows old.now.nodes new.now.nodes }
    ensures lists { IsDelta old.now.entries new.now.entries result }
    ensures unlisted { (key : ℕ) → at nat_cmp key result ≡ None → at nat_cmp key old.now.entries ≡ at nat_cmp key new.now.entries }
{
    old.shape();
    new.shape();
    MapDelta {
        old: old.root(),
        new: new.root(),
        last: None,
    }
}

impl<'a, T> Iterator for MapDelta<'a, T> {
    ghost use Rattle.std.specs.Iterator.{YieldsFirstBy, item_count};
    ghost use Rattle.state_delta.specs.Change.{seen};

    type Item = Change<'a, T>;

    ghost next_gives = { YieldsFirstBy seen (λ left. left) };

    ghost remaining = { item_count (λ left. left) };

    fn next(&mut self) -> Option<Change<'a, T>> {
        match first_change(self.old, self.new, &self.last) {
            None => None,
            Some(change) => {
                self.last = Some(change.key);
                Some(change)
            }
        }
    }
}
