// Neighbours that become one chunk.
ghost use Rattle.std.specs.Prelude.{◌≡◌, ◌≤◌, ◌<◌, ◌+◌, false, IsTrue, [], drop, length, slice_index_or, take, vec_capacity, vec_len};
ghost use Rattle.sorted_table.specs.Rows.{half, room};
ghost use Rattle.sorted_table.specs.Chunks.{AreEmpty, AreFilled, IsFilledBy, IsJoined, joined, parts};

use crate::chunk::{Chunk, HALF, put_last};

/// Whether neighbours with so many rows are joined: where half a chunk has room for all of them, or
/// one of them has none.
fn are_few(this: usize, next: usize) -> bool
    requires this { this ≤ room }
    requires next { next ≤ room }
    ensures fits { IsTrue result → this + next ≤ room }
    ensures first { result ≡ false → 0 < this }
    ensures second { result ≡ false → 0 < next }
    ensures both { result ≡ false → half < this + next }
{
    this == 0 || next == 0 || this + next <= HALF
}

/// Whether this chunk and the next are joined.
fn may_join<K, V>(chunks: &[Chunk<K, V>], at: usize) -> bool
    requires { at < length chunks.now }
    ensures next { IsTrue result → at + 1 < length chunks.now }
    ensures room { IsTrue result → length (slice_index_or (parts chunks.now) at []) + length (slice_index_or (parts chunks.now) (at + 1) []) ≤ room }
    ensures not { result ≡ false → IsFilledBy (slice_index_or (parts chunks.now) at []) (drop (at + 1) (parts chunks.now)) }
{
    match chunks.get(at + 1) {
        Some(next) => are_few(chunks[at].len(), next.len()),
        None => false,
    }
}

/// Moves the rows of the next chunk to this one.
fn join<K: Drop, V: Drop>(chunks: &mut Vec<Chunk<K, V>>, spare: &mut Vec<Chunk<K, V>>, at: usize)
    requires next { at + 1 < vec_len chunks.old }
    requires fits { length (slice_index_or (parts chunks.old.items) at []) + length (slice_index_or (parts chunks.old.items) (at + 1) []) ≤ room }
    requires filled { AreFilled (drop (at + 1) (parts chunks.old.items)) }
    requires empty { AreEmpty spare.old.items }
    requires room { vec_len spare.old < vec_capacity spare.old }
    ensures joined { IsJoined at (parts chunks.old.items) (parts chunks.new.items) }
    ensures empty { AreEmpty spare.new.items }
    ensures count { vec_len chunks.new + vec_len spare.new ≡ vec_len chunks.old + vec_len spare.old }
    ensures room { vec_capacity chunks.old ≤ vec_capacity chunks.new }
    ensures spare_room { vec_capacity spare.old ≤ vec_capacity spare.new }
{
    let mut next = chunks.remove(at + 1);
    chunks[at].absorb(&mut next);
    put_last(spare, next);
}

/// Joins the next chunk to the one at a place, where they are few rows.
pub(crate) fn join_next<K: Drop, V: Drop>(
    chunks: &mut Vec<Chunk<K, V>>,
    spare: &mut Vec<Chunk<K, V>>,
    at: usize,
)
    requires within { at < vec_len chunks.old }
    requires filled { AreFilled (drop (at + 1) (parts chunks.old.items)) }
    requires empty { AreEmpty spare.old.items }
    requires room { vec_len chunks.old + vec_len spare.old ≤ vec_capacity spare.old }
    ensures joined { IsJoined at (parts chunks.old.items) (parts chunks.new.items) }
    ensures empty { AreEmpty spare.new.items }
    ensures count { vec_len chunks.new + vec_len spare.new ≡ vec_len chunks.old + vec_len spare.old }
    ensures room { vec_capacity chunks.old ≤ vec_capacity chunks.new }
    ensures spare_room { vec_capacity spare.old ≤ vec_capacity spare.new }
{
    if may_join(chunks.as_slice(), at) {
        join(chunks, spare, at);
    }
}

/// Joins the chunk at a place to the one before it, where they are few rows.
pub(crate) fn join_before<K: Drop, V: Drop>(
    chunks: &mut Vec<Chunk<K, V>>,
    spare: &mut Vec<Chunk<K, V>>,
    at: usize,
)
    requires within { at < vec_len chunks.old }
    requires before { AreFilled (take at (parts chunks.old.items)) }
    requires behind { AreFilled (drop at (parts chunks.old.items)) }
    requires empty { AreEmpty spare.old.items }
    requires room { vec_len chunks.old + vec_len spare.old ≤ vec_capacity spare.old }
    ensures rows { joined (parts chunks.new.items) ≡ joined (parts chunks.old.items) }
    ensures filled { AreFilled (parts chunks.new.items) }
    ensures some { 0 < vec_len chunks.new }
    ensures empty { AreEmpty spare.new.items }
    ensures count { vec_len chunks.new + vec_len spare.new ≡ vec_len chunks.old + vec_len spare.old }
    ensures room { vec_capacity chunks.old ≤ vec_capacity chunks.new }
    ensures spare_room { vec_capacity spare.old ≤ vec_capacity spare.new }
{
    if at > 0 {
        join_next(chunks, spare, at - 1);
    }
}
