// The smallest place with a place and a key outside it.
ghost use Rattle.std.specs.Prelude.{◌≡◌, ◌≢◌, ◌-◌, ◌<◌, ◌≤◌};
ghost use Rattle.node_key.specs.Place.{floor, Encloses, IsFork, IsBracket};

use crate::key::NodeKey;

/// A place of two halves: its keys agree but for their lowest `width` bits, and `split` is the first
/// key of the upper half.
#[derive(Clone, Copy, Debug)]
pub struct Fork {
    pub split: NodeKey,
    pub width: u8,
}

// A closer bracket of the width at which two keys part.
fn closer(at: &NodeKey, key: &NodeKey, below: u8, above: u8) -> (u8, u8)
    requires fits { above ≤ 192 }
    requires apart { 1 < above - below }
    requires bracket { IsBracket at.now key.now below above }
    ensures bracket { IsBracket at.now key.now result.0 result.1 }
    ensures from { below ≤ result.0 }
    ensures to { result.1 ≤ above }
    ensures closer { result.1 - result.0 < above - below }
{
    let middle = below + (above - below) / 2;
    let is_same = key.floor(middle).is_same(&at.floor(middle));
    if is_same {
        return (below, middle);
    }
    (middle, above)
}

impl Fork {
    /// The smallest place that has both the place of `wide` free bits at `at` and the key outside it, in
    /// two halves that part them. `top` bounds its width.
    pub fn around(at: &NodeKey, wide: u8, key: &NodeKey, top: u8) -> Fork
        requires fits { top ≤ 192 }
        requires aligned { floor wide at.now ≡ at.now }
        requires within { Encloses (floor top key.now) top at.now wide }
        requires outside { floor wide key.now ≢ at.now }
        ensures { IsFork at.now wide key.now top (floor result.width result.split) result.split result.width }
    {
        let mut below = wide;
        let mut above = top;
        while above - below > 1 {
            let (nearer_below, nearer_above) = closer(at, key, below, above);
            below = nearer_below;
            above = nearer_above;
        }
        if key.is_before(at) {
            Fork {
                split: at.floor(below),
                width: above,
            }
        } else {
            Fork {
                split: key.floor(below),
                width: above,
            }
        }
    }
}
