// The keys of a set in order.
ghost use Rattle.std.specs.Prelude.{◌≡◌};
ghost use Rattle.keyed.specs.Ranges.{keys_of};

use crate::set::Mark;
use node_key::NodeKey;
use node_map::Walk;
use std::marker::Model;

/// The keys that are left.
#[derive(Drop)]
pub struct KeyWalk<'a> {
    walk: Walk<'a, Mark>,
}

impl<'a> Model for KeyWalk<'a> {
    ghost use Rattle.std.specs.Prelude.{List, ℕ};
    ghost use Rattle.keyed.specs.Ranges.{keys_of};

    ghost Value = { List ℕ };

    ghost view = { λ w. keys_of w.walk };
}

impl<'a> KeyWalk<'a> {
    pub(crate) fn of(walk: Walk<'a, Mark>) -> KeyWalk<'a>
        ensures { result ≡ keys_of walk.entry }
    {
        KeyWalk { walk }
    }
}

impl<'a> Iterator for KeyWalk<'a> {
    ghost use Rattle.std.specs.Iterator.{YieldsFirstBy, item_count};

    type Item = &'a NodeKey;

    ghost next_gives = { YieldsFirstBy (λ item. item.now) (λ left. left) };

    ghost remaining = { item_count (λ left. left) };

    fn next(&mut self) -> Option<&'a NodeKey> {
        match self.walk.next() {
            None => None,
            Some((key, _)) => Some(key),
        }
    }
}
