// Keys are ordered as numbers.
ghost use Rattle.std.specs.Prelude.{◌==◌};
ghost use Rattle.std.proofs.Common.{rules};
ghost use Rattle.std.specs.Cmp.{partial_order_from_own_ties};
ghost use Rattle.std.specs.Cmp.Rules.{comparing};
ghost use Rattle.std.specs.Ordering.{nat_cmp, as_partial_cmp};

use crate::key::NodeKey;
use std::cmp::Ordering;

impl PartialEq for NodeKey {
    ghost eq = { ◌==◌ };

    ghost laws = { Prim.search (comparing, rules) };

    fn eq(&self, other: &NodeKey) -> bool {
        self.is_same(other)
    }
}

impl Eq for NodeKey {
    ghost laws = { Prim.search (comparing, rules) };
}

impl PartialOrd for NodeKey {
    ghost partial_cmp = { as_partial_cmp nat_cmp };

    ghost laws = { partial_order_from_own_ties (Prim.search (comparing, rules)) (Prim.search (comparing, rules)) };

    fn partial_cmp(&self, other: &NodeKey) -> Option<Ordering> {
        Some(self.cmp(other))
    }
}

impl Ord for NodeKey {
    ghost cmp = { nat_cmp };

    ghost total = { Prim.search (comparing, rules) };

    ghost matches_partial_cmp = { Prim.search (comparing, rules) };

    ghost matches_eq = { Prim.search (comparing, rules) };

    fn cmp(&self, other: &NodeKey) -> Ordering {
        if self.is_before(other) {
            return Ordering::Less;
        }
        if self.is_same(other) {
            return Ordering::Equal;
        }
        Ordering::Greater
    }
}
