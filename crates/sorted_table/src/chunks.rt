// The chunks of a table, by ascending rows.
ghost use Rattle.std.specs.Prelude.{◌≡◌, ◌<◌, ◌+◌, IsTrue, drop, length, option_copied, slice_get, take};
ghost use Rattle.keyed.specs.Keyed.{IsBelow};
ghost use Rattle.sorted_table.specs.Chunks.{AreBelow, IsParted, joined, parts};

use crate::chunk::Chunk;

/// The chunk in which the key stands, or would: the last one whose first key isn't above it, or the
/// first one, by binary search.
pub(crate) fn place_of<K: Ord, V>(chunks: &[Chunk<K, V>], key: &K) -> usize
    requires { IsParted K.cmp (parts chunks.now) }
    ensures within { result < length chunks.now }
    ensures below { AreBelow K.cmp (joined (take result (parts chunks.now))) key.now }
    ensures above { IsBelow K.cmp key.now (joined (drop (result + 1) (parts chunks.now))) }
{
    let mut low = 0;
    let mut high = chunks.len();
    while high - low > 1 {
        let middle = low + (high - low) / 2;
        if chunks[middle].is_above(key) {
            high = middle;
        } else {
            low = middle;
        }
    }
    low
}

/// The row at that place in all chunks, counted from 0: none exactly past the end.
pub(crate) fn nth_of<K, V>(chunks: &[Chunk<K, V>], n: usize) -> Option<&(K, V)>
    ensures { option_copied result ≡ slice_get (joined (parts chunks.now)) n }
{
    let mut left = n;
    for chunk in chunks {
        if left < chunk.len() {
            return chunk.at(left);
        }
        left -= chunk.len();
    }
    None
}

/// Whether the key belongs in that chunk or behind it.
fn is_behind<K: Ord, V>(chunks: &[Chunk<K, V>], at: usize, key: &K) -> bool
    requires parted { IsParted K.cmp (parts chunks.now) }
    requires within { at < length chunks.now }
    ensures { IsTrue result → AreBelow K.cmp (joined (take at (parts chunks.now))) key.now }
{
    if at == 0 {
        return true;
    }
    !chunks[at].is_above(key)
}

/// Whether the key belongs in that chunk or before it.
fn is_before<K: Ord, V>(chunks: &[Chunk<K, V>], at: usize, key: &K) -> bool
    requires parted { IsParted K.cmp (parts chunks.now) }
    requires within { at < length chunks.now }
    ensures { IsTrue result → IsBelow K.cmp key.now (joined (drop (at + 1) (parts chunks.now))) }
{
    match chunks.get(at + 1) {
        Some(next) => next.is_above(key),
        None => true,
    }
}

/// The same chunk as `place_of` finds, looked for at that place first.
pub(crate) fn place_near<K: Ord, V>(chunks: &[Chunk<K, V>], near: usize, key: &K) -> usize
    requires { IsParted K.cmp (parts chunks.now) }
    ensures within { result < length chunks.now }
    ensures below { AreBelow K.cmp (joined (take result (parts chunks.now))) key.now }
    ensures above { IsBelow K.cmp key.now (joined (drop (result + 1) (parts chunks.now))) }
{
    if near >= chunks.len() {
        return place_of(chunks, key);
    }
    if is_behind(chunks, near, key) && is_before(chunks, near, key) {
        return near;
    }
    place_of(chunks, key)
}
