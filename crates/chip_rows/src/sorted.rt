// Entries that are put in order.
ghost use Rattle.std.specs.Prelude.{◌≡◌};
ghost use Rattle.std.specs.List.Sorted.{IsPermutation};
ghost use Rattle.keyed.specs.Keyed.{Ascends, IsKeyOrder};
ghost use Rattle.chip_rows.specs.BySlot.{AreApart};

/// Entries of which no two have one key, by ascending key. It takes no memory.
pub(crate) fn by_key<K: Ord + Drop, V: Drop>(mut entries: Vec<(K, V)>) -> Vec<(K, V)>
    requires order { IsKeyOrder K.cmp }
    requires apart { AreApart K.cmp entries.items }
    ensures same { IsPermutation entries.items result.items }
    ensures ascends { Ascends K.cmp result.items }
{
    entries.sort_unstable_by(|entry, other| entry.0.cmp(&other.0));
    entries
}
