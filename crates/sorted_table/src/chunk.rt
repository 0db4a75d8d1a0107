// A few rows by ascending key.
ghost use Rattle.std.specs.Prelude.{◌≡◌, ◌≤◌, ◌<◌, ◌+◌, ◌*◌, ◌==◌, ◌++◌, false, IfOk, ◌∷◌, IsSome, IsTrue, Some, [], length, option_copied, reverse, slice_get, vec_capacity, vec_len};
ghost use Rattle.keyed.specs.Keyed.{Ascends, IsBelow, at, put, without};
ghost use Rattle.sorted_table.specs.Rows.{first_of, room};

use std::alloc::{AllocError as NoMemory, Global};

/// How many rows a chunk has room for.
pub(crate) const ROOM: usize = 64;

/// Neighbours with no more rows than this are joined. It is half of the room, so that many rows have
/// to come before the chunk is split again.
pub(crate) const HALF: usize = ROOM / 2;

/// Rows by ascending key, in room that was taken when the chunk was opened.
#[derive(Drop)]
pub(crate) struct Chunk<K, V> {
    pub(crate) rows: Vec<(K, V)>,
    ghost fits: { length rows.items ≤ room },
    ghost has_room: { room ≤ vec_capacity rows },
}

impl<K: Drop, V: Drop> Chunk<K, V> {
    /// A chunk without rows, with all its room taken.
    pub(crate) fn open(alloc: Global) -> Result<Self, NoMemory>
        ensures { IfOk result (λ chunk. chunk.rows.items ≡ []) }
    {
        Ok(Chunk {
            rows: Vec::with_capacity(alloc, ROOM)?,
        })
    }
}

impl<K, V> Chunk<K, V> {
    pub(crate) fn len(&self) -> usize
        ensures { result ≡ length self.now.rows.items }
    {
        self.rows.len()
    }

    pub(crate) fn is_full(&self) -> bool
        ensures { result ≡ (length self.now.rows.items == room) }
    {
        self.rows.len() == ROOM
    }
}

impl<K, V> Chunk<K, V> {
    /// The row at that place, counted from 0: none exactly past the end.
    pub(crate) fn at(&self, n: usize) -> Option<&(K, V)>
        ensures { option_copied result ≡ slice_get self.now.rows.items n }
    {
        self.rows.get(n)
    }

    pub(crate) fn first(&self) -> Option<&(K, V)>
        ensures { option_copied result ≡ first_of self.now.rows.items }
    {
        self.rows.first()
    }
}

impl<K: Ord, V> Chunk<K, V> {
    /// Whether the key is below that of the first row.
    pub(crate) fn is_above(&self, key: &K) -> bool
        ensures above { IsTrue result → IsBelow K.cmp key.now self.now.rows.items }
        ensures not { result ≡ false → 0 < length self.now.rows.items → IsBelow K.cmp key.now self.now.rows.items → ⊥ }
    {
        match self.rows.first() {
            Some(row) => key.cmp(&row.0).is_lt(),
            None => true,
        }
    }

    /// The value under a key.
    pub(crate) fn get(&self, key: &K) -> Option<&V>
        requires { Ascends K.cmp self.now.rows.items }
        ensures { option_copied result ≡ at K.cmp key.now self.now.rows.items }
    {
        keyed::get(self.rows.as_slice(), key)
    }
}

impl<K: Ord + Drop, V: Drop> Chunk<K, V> {
    /// Puts a row under a key, where there is room for one more.
    pub(crate) fn put(&mut self, key: K, value: V)
        requires ascends { Ascends K.cmp self.old.rows.items }
        requires room { length self.old.rows.items < room }
        ensures { self.new.rows.items ≡ put K.cmp key value self.old.rows.items }
    {
        let Ok(()) = keyed::put(&mut self.rows, key, value) else {
            unreachable!();
        };
    }

    /// Takes away the row under a key that has one.
    pub(crate) fn cut(&mut self, key: &K) -> V
        requires ascends { Ascends K.cmp self.old.rows.items }
        requires there { IsSome (at K.cmp key.now self.old.rows.items) }
        ensures old { at K.cmp key.now self.old.rows.items ≡ Some result }
        ensures rows { self.new.rows.items ≡ without K.cmp key.now self.old.rows.items }
    {
        match keyed::cut(&mut self.rows, key) {
            Some(old) => old,
            None => unreachable!(),
        }
    }
}

impl<K: Ord + Copy, V> Chunk<K, V> {
    /// Puts another value under a key that has one, and hands the old value back.
    pub(crate) fn set(&mut self, key: &K, value: V) -> V
        requires ascends { Ascends K.cmp self.old.rows.items }
        requires there { IsSome (at K.cmp key.now self.old.rows.items) }
        ensures old { at K.cmp key.now self.old.rows.items ≡ Some result }
        ensures rows { self.new.rows.items ≡ put K.cmp key.now value self.old.rows.items }
    {
        keyed::set(self.rows.as_mut_slice(), key, value)
    }
}

impl<K: Drop, V: Drop> Chunk<K, V> {
    /// Moves the upper half of the rows to a chunk without rows.
    pub(crate) fn halve(&mut self, upper: &mut Chunk<K, V>)
        requires full { length self.old.rows.items ≡ room }
        requires empty { length upper.old.rows.items ≡ 0 }
        ensures rows { self.new.rows.items ++ upper.new.rows.items ≡ self.old.rows.items }
        ensures lower { 2 * length self.new.rows.items ≡ room }
        ensures upper { 2 * length upper.new.rows.items ≡ room }
    {
        move_last(&mut self.rows, &mut upper.rows, HALF);
        upper.rows.reverse();
    }

    /// Moves all rows of the next chunk to the end of this one.
    pub(crate) fn absorb(&mut self, next: &mut Chunk<K, V>)
        requires room { length self.old.rows.items + length next.old.rows.items ≤ room }
        ensures rows { self.new.rows.items ≡ self.old.rows.items ++ next.old.rows.items }
        ensures empty { length next.new.rows.items ≡ 0 }
    {
        match self.rows.append(&mut next.rows) {
            Ok(()) => {}
            Err(_) => unreachable!(),
        }
    }
}

/// Puts an item last, where the list has room.
pub(crate) fn put_last<T: Drop>(list: &mut Vec<T>, item: T)
    requires { vec_len list.old < vec_capacity list.old }
    ensures items { list.new.items ≡ list.old.items ++ item ∷ [] }
    ensures len { vec_len list.new ≡ vec_len list.old + 1 }
    ensures room { vec_capacity list.old ≤ vec_capacity list.new }
{
    match list.push(item) {
        Ok(()) => {}
        Err(_) => unreachable!(),
    }
}

/// Moves the last items to another list, which has room for them, from the last one on.
fn move_last<T: Drop>(list: &mut Vec<T>, other: &mut Vec<T>, count: usize)
    requires there { count ≤ vec_len list.old }
    requires room { vec_len other.old + count ≤ vec_capacity other.old }
    ensures items { list.new.items ++ reverse other.new.items ≡ list.old.items ++ reverse other.old.items }
    ensures left { vec_len list.new + count ≡ vec_len list.old }
    ensures moved { vec_len other.new ≡ vec_len other.old + count }
    ensures list_room { vec_capacity list.new ≡ vec_capacity list.old }
    ensures other_room { vec_capacity other.old ≤ vec_capacity other.new }
{
    for _ in 0..count {
        let Some(item) = list.pop() else {
            unreachable!();
        };
        put_last(other, item);
    }
}
