// Two trees, cut at one key into what is below it and the rest.
ghost use Rattle.std.specs.Prelude.{◌≡◌, ◌↔◌, ◌≤◌, IsTrue};
ghost use Rattle.node_key.specs.Place.{floor};
ghost use Rattle.state_delta.specs.Cut.{IsAside, IsParted, IsCut, PartsBoth};

use node_map::{Arms, NodeKey, Tree};

/// What a tree has below a key, and from the key on.
#[derive(Drop)]
pub(crate) struct Halves<'a, T> {
    pub below: Option<&'a Tree<T>>,
    pub rest: Option<&'a Tree<T>>,
}

// Whether the outer tree's place has the inner one's.
fn encloses<T>(outer: &Tree<T>, inner: &Tree<T>) -> bool
    ensures { IsTrue result ↔ ((inner.now.width ≤ outer.now.width) × (floor outer.now.width inner.now.low ≡ outer.now.low)) }
{
    outer.sound();
    if inner.width() > outer.width() {
        return false;
    }
    inner.low().floor(outer.width()).is_same(&outer.low())
}

// A key that parts the trees: the middle of the place that has the other one, and else the first key
// of the later place.
pub(crate) fn parting<T>(a: &Tree<T>, b: &Tree<T>) -> NodeKey
    requires { a.now.width ≡ 0 → b.now.width ≡ 0 → a.now.low ≡ b.now.low → ⊥ }
    ensures { PartsBoth result a.now b.now }
{
    a.sound();
    b.sound();
    if encloses(a, b) {
        return *a.mark();
    }
    if encloses(b, a) {
        return *b.mark();
    }
    let a_low = a.low();
    let b_low = b.low();
    if a_low.is_before(&b_low) {
        b_low
    } else {
        a_low
    }
}

// The tree, all of which is on one side of the key.
fn aside<'a, T>(tree: &'a Tree<T>, split: &NodeKey) -> Halves<'a, T>
    requires { IsAside split.now tree.now.low tree.now.width }
    ensures { IsCut split.now tree.now result.below result.rest }
{
    tree.sound();
    if tree.low().is_before(split) {
        Halves {
            below: Some(tree),
            rest: None,
        }
    } else {
        Halves {
            below: None,
            rest: Some(tree),
        }
    }
}

// The tree, cut at a key that parts it.
pub(crate) fn cut<'a, T>(tree: &'a Tree<T>, split: &NodeKey) -> Halves<'a, T>
    requires { IsParted split.now tree.now.low tree.now.width }
    ensures { IsCut split.now tree.now result.below result.rest }
{
    match tree.arms() {
        Arms::Leaf(_, _) => aside(tree, split),
        Arms::Branch(middle, left, right) => {
            if middle.is_same(split) {
                Halves {
                    below: Some(left),
                    rest: Some(right),
                }
            } else {
                aside(tree, split)
            }
        }
    }
}
