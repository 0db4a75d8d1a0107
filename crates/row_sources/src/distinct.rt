// The distinct keys of a list.
ghost use Rattle.std.specs.Prelude.{◌≡◌};
ghost use Rattle.keyed.specs.Keyed.{IsKeyOrder};
ghost use Rattle.keyed.specs.Sets.{set_of};

/// The distinct keys of a list, ascending. It takes no memory.
pub(crate) fn distinct<K: Ord + Drop>(mut keys: Vec<K>) -> Vec<K>
    requires { IsKeyOrder K.cmp }
    ensures { result.items ≡ set_of K.cmp keys.items }
{
    keys.sort_unstable();
    keys.dedup();
    keys
}
