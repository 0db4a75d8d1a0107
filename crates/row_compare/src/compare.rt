// The rows that differ between two lists.
ghost use Rattle.std.specs.Prelude.{◌≡◌, ◌++◌, ◌∷◌, [], false, IfOk, OnOk};
ghost use Rattle.std.specs.Option.{option_eq};
ghost use Rattle.keyed.specs.Keyed.{Ascends, IsKeyOrder};
ghost use Rattle.chip_core.specs.ChangeLists.{IsAscending};
ghost use Rattle.row_change_laws.specs.Between.{AreChangesBetween};
ghost use Rattle.row_compare.specs.Compare.{IsTest, change_of};

use crate::front::{Pair, take_least};
use chip_core::ChangeList;
use net_types::NoMemory;
use std::alloc::Global;
use std::collections::VecDeque;

/// The changes from old rows to new ones, both by ascending key: exactly the keys whose rows differ,
/// ascending, each with both rows. Each list is gone through once.
pub fn changes_between<K: Ord + Drop, V: Eq + Drop>(
    alloc: Global,
    old: Vec<(K, V)>,
    new: Vec<(K, V)>,
) -> Result<ChangeList<K, V>, NoMemory>
    requires order { IsKeyOrder K.cmp }
    requires test { IsTest V.eq }
    requires old { Ascends K.cmp old.items }
    requires new { Ascends K.cmp new.items }
    ensures { IfOk result (λ changes. AreChangesBetween K.cmp changes old.items new.items) }
{
    let mut old_left = VecDeque::from_vec(old);
    let mut new_left = VecDeque::from_vec(new);
    let mut changes = ChangeList::new(alloc);
    while let Some(pair) = take_least(&mut old_left, &mut new_left) {
        add_change(&mut changes, pair)?;
    }
    Ok(changes)
}

/// Adds the change of a key that is above the others, where its rows differ.
fn add_change<K: Ord + Drop, V: Eq + Drop>(
    changes: &mut ChangeList<K, V>,
    pair: Pair<K, V>,
) -> Result<(), NoMemory>
    requires { option_eq V.eq pair.1 pair.2 ≡ false → IsAscending K.cmp (changes.old ++ pair ∷ []) }
    ensures { OnOk result (changes.new ≡ changes.old ++ change_of V.eq pair) }
{
    if pair.1 == pair.2 {
        return Ok(());
    }
    changes.push(pair)?;
    Ok(())
}
