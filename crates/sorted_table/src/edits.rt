// Rows that come to the chunks of a table, and that go from them.
ghost use Rattle.std.specs.Prelude.{◌≡◌, ◌≤◌, ◌<◌, ◌+◌, ◌++◌, IsSome, None, Some, [], drop, length, slice_index_or, take, vec_capacity, vec_len};
ghost use Rattle.std.specs.List.{insert};
ghost use Rattle.keyed.specs.Keyed.{Ascends, IsBelow, at, put, without};
ghost use Rattle.sorted_table.specs.Rows.{half, room};
ghost use Rattle.sorted_table.specs.Chunks.{AreBelow, AreEmpty, IsParted, joined, parts};

use crate::chunk::Chunk;
use crate::joins::{join_before, join_next};

/// Puts a row into a chunk that has room for it.
fn put_in<K: Ord + Drop, V: Drop>(chunks: &mut Vec<Chunk<K, V>>, place: usize, key: K, value: V)
    requires within { place < vec_len chunks.old }
    requires parted { IsParted K.cmp (parts chunks.old.items) }
    requires below { AreBelow K.cmp (joined (take place (parts chunks.old.items))) key }
    requires above { IsBelow K.cmp key (joined (drop (place + 1) (parts chunks.old.items))) }
    requires room { length (slice_index_or (parts chunks.old.items) place []) < room }
    ensures rows { joined (parts chunks.new.items) ≡ put K.cmp key value (joined (parts chunks.old.items)) }
    ensures parted { IsParted K.cmp (parts chunks.new.items) }
    ensures count { vec_len chunks.new ≡ vec_len chunks.old }
    ensures room { vec_capacity chunks.old ≤ vec_capacity chunks.new }
{
    chunks[place].put(key, value);
}

/// Moves the upper half of a full chunk to one without rows, and puts a row into the half where its
/// key belongs.
fn put_half<K: Ord + Drop, V: Drop>(
    lower: &mut Chunk<K, V>,
    upper: &mut Chunk<K, V>,
    key: K,
    value: V,
)
    requires ascends { Ascends K.cmp lower.old.rows.items }
    requires full { length lower.old.rows.items ≡ room }
    requires empty { length upper.old.rows.items ≡ 0 }
    ensures rows { lower.new.rows.items ++ upper.new.rows.items ≡ put K.cmp key value lower.old.rows.items }
    ensures lower { half ≤ length lower.new.rows.items }
    ensures upper { half ≤ length upper.new.rows.items }
{
    lower.halve(upper);
    if upper.is_above(&key) {
        lower.put(key, value);
    } else {
        upper.put(key, value);
    }
}

/// Inserts an item, where the list has room.
fn insert_at<T: Drop>(list: &mut Vec<T>, at: usize, item: T)
    requires within { at ≤ vec_len list.old }
    requires room { vec_len list.old < vec_capacity list.old }
    ensures items { list.new.items ≡ insert list.old.items at item }
    ensures len { vec_len list.new ≡ vec_len list.old + 1 }
    ensures room { vec_capacity list.old ≤ vec_capacity list.new }
{
    match list.insert(at, item) {
        Ok(()) => {}
        Err(_) => unreachable!(),
    }
}

/// Splits a full chunk in two, one of which has the new row.
fn split<K: Ord + Drop, V: Drop>(
    chunks: &mut Vec<Chunk<K, V>>,
    mut upper: Chunk<K, V>,
    place: usize,
    key: K,
    value: V,
)
    requires within { place < vec_len chunks.old }
    requires ascends { Ascends K.cmp (joined (parts chunks.old.items)) }
    requires below { AreBelow K.cmp (joined (take place (parts chunks.old.items))) key }
    requires above { IsBelow K.cmp key (joined (drop (place + 1) (parts chunks.old.items))) }
    requires absent { at K.cmp key (joined (parts chunks.old.items)) ≡ None }
    requires full { length (slice_index_or (parts chunks.old.items) place []) ≡ room }
    requires empty { length upper.rows.items ≡ 0 }
    requires room { vec_len chunks.old < vec_capacity chunks.old }
    ensures rows { joined (parts chunks.new.items) ≡ put K.cmp key value (joined (parts chunks.old.items)) }
    ensures before { take place (parts chunks.new.items) ≡ take place (parts chunks.old.items) }
    ensures behind { drop (place + 2) (parts chunks.new.items) ≡ drop (place + 1) (parts chunks.old.items) }
    ensures lower { half ≤ length (slice_index_or (parts chunks.new.items) place []) }
    ensures upper { half ≤ length (slice_index_or (parts chunks.new.items) (place + 1) []) }
    ensures count { vec_len chunks.new ≡ vec_len chunks.old + 1 }
    ensures room { vec_capacity chunks.old ≤ vec_capacity chunks.new }
{
    put_half(&mut chunks[place], &mut upper, key, value);
    insert_at(chunks, place + 1, upper);
}

/// Puts a row under a new key into a full chunk: a spare one takes half of it. Neighbours that are
/// few rows then are joined.
fn split_in<K: Ord + Drop, V: Drop>(
    chunks: &mut Vec<Chunk<K, V>>,
    spare: &mut Vec<Chunk<K, V>>,
    place: usize,
    key: K,
    value: V,
)
    requires within { place < vec_len chunks.old }
    requires parted { IsParted K.cmp (parts chunks.old.items) }
    requires below { AreBelow K.cmp (joined (take place (parts chunks.old.items))) key }
    requires above { IsBelow K.cmp key (joined (drop (place + 1) (parts chunks.old.items))) }
    requires absent { at K.cmp key (joined (parts chunks.old.items)) ≡ None }
    requires full { length (slice_index_or (parts chunks.old.items) place []) ≡ room }
    requires spare { 0 < vec_len spare.old }
    requires empty { AreEmpty spare.old.items }
    requires room { vec_len chunks.old + vec_len spare.old ≤ vec_capacity chunks.old }
    requires spare_room { vec_len chunks.old + vec_len spare.old ≤ vec_capacity spare.old }
    ensures rows { joined (parts chunks.new.items) ≡ put K.cmp key value (joined (parts chunks.old.items)) }
    ensures parted { IsParted K.cmp (parts chunks.new.items) }
    ensures empty { AreEmpty spare.new.items }
    ensures count { vec_len chunks.new + vec_len spare.new ≡ vec_len chunks.old + vec_len spare.old }
    ensures room { vec_capacity chunks.old ≤ vec_capacity chunks.new }
    ensures spare_room { vec_capacity spare.old ≤ vec_capacity spare.new }
{
    let Some(upper) = spare.pop() else {
        unreachable!();
    };
    split(chunks, upper, place, key, value);
    join_next(chunks, spare, place + 1);
    join_before(chunks, spare, place);
}

/// Puts a row under a new key into its chunk, which is split where it is full.
pub(crate) fn add_in<K: Ord + Drop, V: Drop>(
    chunks: &mut Vec<Chunk<K, V>>,
    spare: &mut Vec<Chunk<K, V>>,
    place: usize,
    key: K,
    value: V,
)
    requires within { place < vec_len chunks.old }
    requires parted { IsParted K.cmp (parts chunks.old.items) }
    requires below { AreBelow K.cmp (joined (take place (parts chunks.old.items))) key }
    requires above { IsBelow K.cmp key (joined (drop (place + 1) (parts chunks.old.items))) }
    requires absent { at K.cmp key (joined (parts chunks.old.items)) ≡ None }
    requires spare { 0 < vec_len spare.old }
    requires empty { AreEmpty spare.old.items }
    requires room { vec_len chunks.old + vec_len spare.old ≤ vec_capacity chunks.old }
    requires spare_room { vec_len chunks.old + vec_len spare.old ≤ vec_capacity spare.old }
    ensures rows { joined (parts chunks.new.items) ≡ put K.cmp key value (joined (parts chunks.old.items)) }
    ensures parted { IsParted K.cmp (parts chunks.new.items) }
    ensures empty { AreEmpty spare.new.items }
    ensures count { vec_len chunks.new + vec_len spare.new ≡ vec_len chunks.old + vec_len spare.old }
    ensures room { vec_capacity chunks.old ≤ vec_capacity chunks.new }
    ensures spare_room { vec_capacity spare.old ≤ vec_capacity spare.new }
{
    if chunks[place].is_full() {
        split_in(chunks, spare, place, key, value);
        return;
    }
    put_in(chunks, place, key, value);
}

/// Takes a row out of its chunk. Neighbours that are few rows then are joined.
pub(crate) fn cut_from<K: Ord + Drop, V: Drop>(
    chunks: &mut Vec<Chunk<K, V>>,
    spare: &mut Vec<Chunk<K, V>>,
    place: usize,
    key: &K,
) -> V
    requires within { place < vec_len chunks.old }
    requires parted { IsParted K.cmp (parts chunks.old.items) }
    requires below { AreBelow K.cmp (joined (take place (parts chunks.old.items))) key.now }
    requires above { IsBelow K.cmp key.now (joined (drop (place + 1) (parts chunks.old.items))) }
    requires there { IsSome (at K.cmp key.now (joined (parts chunks.old.items))) }
    requires empty { AreEmpty spare.old.items }
    requires spare_room { vec_len chunks.old + vec_len spare.old ≤ vec_capacity spare.old }
    ensures old { at K.cmp key.now (joined (parts chunks.old.items)) ≡ Some result }
    ensures rows { joined (parts chunks.new.items) ≡ without K.cmp key.now (joined (parts chunks.old.items)) }
    ensures parted { IsParted K.cmp (parts chunks.new.items) }
    ensures empty { AreEmpty spare.new.items }
    ensures count { vec_len chunks.new + vec_len spare.new ≡ vec_len chunks.old + vec_len spare.old }
    ensures room { vec_capacity chunks.old ≤ vec_capacity chunks.new }
    ensures spare_room { vec_capacity spare.old ≤ vec_capacity spare.new }
{
    let old = chunks[place].cut(key);
    join_next(chunks, spare, place);
    join_before(chunks, spare, place);
    old
}

/// Puts another value under a key that has one, and hands the old value back.
pub(crate) fn set_in<K: Ord + Copy, V>(
    chunks: &mut Vec<Chunk<K, V>>,
    place: usize,
    key: &K,
    value: V,
) -> V
    requires within { place < vec_len chunks.old }
    requires parted { IsParted K.cmp (parts chunks.old.items) }
    requires below { AreBelow K.cmp (joined (take place (parts chunks.old.items))) key.now }
    requires above { IsBelow K.cmp key.now (joined (drop (place + 1) (parts chunks.old.items))) }
    requires there { IsSome (at K.cmp key.now (joined (parts chunks.old.items))) }
    ensures old { at K.cmp key.now (joined (parts chunks.old.items)) ≡ Some result }
    ensures rows { joined (parts chunks.new.items) ≡ put K.cmp key.now value (joined (parts chunks.old.items)) }
    ensures parted { IsParted K.cmp (parts chunks.new.items) }
    ensures count { vec_len chunks.new ≡ vec_len chunks.old }
    ensures room { vec_capacity chunks.old ≤ vec_capacity chunks.new }
{
    chunks[place].set(key, value)
}
