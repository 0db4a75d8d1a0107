// Two lists of rows, taken off side by side.
ghost use Rattle.std.specs.Prelude.{◌≡◌, option_copied};
ghost use Rattle.keyed.specs.Keyed.{Ascends, IsKeyOrder};
ghost use Rattle.keyed.specs.Ranges.{head_of};
ghost use Rattle.row_compare.specs.Front.{AreTaken, first_of, row_of_both, row_of_new, row_of_old};

use std::cmp::Ordering;
use std::collections::VecDeque;

/// A key with its row in an old list and in a new one, each where there is one.
pub(crate) type Pair<K, V> = (K, Option<V>, Option<V>);

/// Takes the least key of two lists off them, with its row in each: none where both are empty.
pub(crate) fn take_least<K: Ord + Drop, V: Drop>(
    old: &mut VecDeque<(K, V)>,
    new: &mut VecDeque<(K, V)>,
) -> Option<Pair<K, V>>
    requires order { IsKeyOrder K.cmp }
    requires old { Ascends K.cmp old.old.items }
    requires new { Ascends K.cmp new.old.items }
    ensures { AreTaken K.cmp old.old.items new.old.items old.new.items new.new.items result }
{
    match first_of(old, new) {
        None => None,
        Some(Ordering::Less) => row_of_old(old.pop_front()),
        Some(Ordering::Equal) => row_of_both(old.pop_front(), new.pop_front()),
        Some(Ordering::Greater) => row_of_new(new.pop_front()),
    }
}

/// How the first key of the old list is to that of the new one, where an empty list comes last: none
/// where both are empty.
fn first_of<K: Ord, V>(old: &VecDeque<(K, V)>, new: &VecDeque<(K, V)>) -> Option<Ordering>
    ensures { result ≡ first_of K.cmp (head_of old.now.items) (head_of new.now.items) }
{
    match (front_of(old), front_of(new)) {
        (None, None) => None,
        (Some(_), None) => Some(Ordering::Less),
        (None, Some(_)) => Some(Ordering::Greater),
        (Some(before), Some(after)) => Some(before.0.cmp(&after.0)),
    }
}

fn front_of<K, V>(rows: &VecDeque<(K, V)>) -> Option<&(K, V)>
    ensures { option_copied result ≡ head_of rows.now.items }
{
    rows.front()
}

fn row_of_old<K: Drop, V: Drop>(row: Option<(K, V)>) -> Option<Pair<K, V>>
    ensures { result ≡ row_of_old row }
{
    match row {
        Some((key, before)) => Some((key, Some(before), None)),
        None => None,
    }
}

fn row_of_new<K: Drop, V: Drop>(row: Option<(K, V)>) -> Option<Pair<K, V>>
    ensures { result ≡ row_of_new row }
{
    match row {
        Some((key, after)) => Some((key, None, Some(after))),
        None => None,
    }
}

fn row_of_both<K: Drop, V: Drop>(old: Option<(K, V)>, new: Option<(K, V)>) -> Option<Pair<K, V>>
    ensures { result ≡ row_of_both old new }
{
    match (old, new) {
        (Some((key, before)), Some((_, after))) => Some((key, Some(before), Some(after))),
        _ => None,
    }
}
