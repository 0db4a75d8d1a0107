// One key under which two maps differ.
ghost use Rattle.std.specs.Prelude.{◌≡◌, None, Some};
ghost use Rattle.std.specs.Option.{option_map};
ghost use Rattle.state_delta.specs.Change.{between, seen};

use node_core::Node;
use node_map::NodeKey;

/// How the maps differ under a key.
#[derive(Clone, Copy, Debug, PartialEq, Eq)]
pub enum Kind {
    /// The key stands in the new map alone.
    Added,
    /// The key stands in the old map alone.
    Removed,
    /// The key stayed, and its content was set anew.
    Changed,
    /// The key was removed and added again.
    Replaced,
}

/// A key under which two maps differ, with what stands there in each.
#[derive(Drop)]
pub struct Change<'a, T> {
    pub key: NodeKey,
    pub old: Option<&'a T>,
    pub new: Option<&'a T>,
    pub kind: Kind,
}

// The change from the one node to the other, under one key.
pub(crate) fn node_change<'a, T>(
    key: &NodeKey,
    old: &'a Node<T>,
    new: &'a Node<T>,
) -> Option<Change<'a, T>>
    ensures { option_map seen result ≡ option_map (λ c. (key.now, c)) (between old.now new.now) }
{
    let kind = if old.born() != new.born() {
        Kind::Replaced
    } else if old.gen_() != new.gen_() {
        Kind::Changed
    } else {
        return None;
    };
    Some(Change {
        key: *key,
        old: Some(old.value()),
        new: Some(new.value()),
        kind,
    })
}
