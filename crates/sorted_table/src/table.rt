// The table.
ghost use Rattle.std.specs.Prelude.{◌≡◌, ◌≤◌, ◌<◌, ◌==◌, ◌++◌, false, IfOk, IfSome, IsSome, None, Ok, OnOk, Some, [], length, option_copied, slice_get, vec_capacity};
ghost use Rattle.keyed.specs.Keyed.{Ascends, at, put, without};
ghost use Rattle.sorted_table.specs.Rows.{IsSorted, first_of};
ghost use Rattle.sorted_table.specs.Chunks.{AreEmpty, joined, parts};

use crate::chunk::{Chunk, HALF};
use crate::chunks::{nth_of, place_near, place_of};
use crate::edits::{add_in, cut_from, set_in};
use std::alloc::{AllocError as NoMemory, Global};
use std::marker::Model;

/// Rows by ascending key, in room that is taken when the table is opened. They stand in chunks of
/// up to 64 rows. A row is found by two binary searches, for its chunk and within it. One that comes
/// or goes moves rows of its own chunk alone, but where a full chunk is split in halves, or two
/// neighbours that fit into half a chunk are joined.
#[derive(Drop)]
pub struct SortedTable<K: Ord, V> {
    chunks: Vec<Chunk<K, V>>,
    spare: Vec<Chunk<K, V>>,
    count: usize,
    capacity: u32,
    // Where the last row was cut, or was put back.
    near: usize,
}

impl<K: Ord, V> Model for SortedTable<K, V> {
    ghost use Rattle.sorted_table.specs.Rows.{TableView};
    ghost use Rattle.std.specs.Prelude.{vec_capacity};
    ghost use Rattle.sorted_table.specs.Chunks.{IsSound, joined, parts};

    ghost Value = { TableView K V };

    ghost view = { λ t. record { rows = joined (parts t.chunks.items); capacity = t.capacity } };

    ghost invariant = { λ t. IsSound K.cmp (parts t.chunks.items) t.spare.items (vec_capacity t.chunks) (vec_capacity t.spare) t.count t.capacity };
}

impl<K: Ord + Drop, V: Drop> SortedTable<K, V> {
    /// A table without rows, with all its room taken: for about four times as many rows as the
    /// capacity, so that chunks can be half full.
    pub fn open(alloc: Global, capacity: u32) -> Result<Self, NoMemory>
        ensures rows { IfOk result (λ table. table.rows ≡ []) }
        ensures capacity { IfOk result (λ table. table.capacity ≡ capacity) }
        ensures sorted { IfOk result (λ table. IsSorted K.cmp table.capacity table.rows) }
    {
        let most = capacity as usize * 2 / (HALF + 1) + 2;
        let chunks = open_chunks(alloc, most, 1)?;
        let spare = open_chunks(alloc, most, most - 1)?;
        Ok(SortedTable {
            chunks,
            spare,
            count: 0,
            capacity,
            near: 0,
        })
    }
}

impl<K: Ord, V> SortedTable<K, V> {
    /// Whether there is no room for a row more.
    pub fn is_full(&self) -> bool
        ensures full { result ≡ (length self.now.rows == self.now.capacity) }
        ensures room { result ≡ false → length self.now.rows < self.now.capacity }
    {
        self.count == self.capacity as usize
    }

    /// The row of the lowest key.
    pub fn first(&self) -> Option<&(K, V)>
        ensures { option_copied result ≡ first_of self.now.rows }
    {
        self.chunks[0].first()
    }

    /// The row at that place by ascending key, counted from 0: none exactly past the end. It passes
    /// over the chunks before it.
    pub fn at(&self, n: usize) -> Option<&(K, V)>
        ensures { option_copied result ≡ slice_get self.now.rows n }
    {
        nth_of(self.chunks.as_slice(), n)
    }

    /// The value under a key.
    pub fn get(&self, key: &K) -> Option<&V>
        ensures { option_copied result ≡ at K.cmp key.now self.now.rows }
    {
        let place = place_of(self.chunks.as_slice(), key);
        self.chunks[place].get(key)
    }
}

impl<K: Ord + Drop, V: Drop> SortedTable<K, V> {
    /// The table of these rows, in the order in which they are given: none exactly where their keys
    /// don't ascend, or they are more than the capacity.
    pub fn of(alloc: Global, capacity: u32, rows: Vec<(K, V)>) -> Result<Option<Self>, NoMemory>
        ensures rows { IfOk result (λ table. IfSome table (λ t. t.rows ≡ rows.items)) }
        ensures capacity { IfOk result (λ table. IfSome table (λ t. t.capacity ≡ capacity)) }
        ensures sorted { IfOk result (λ table. IfSome table (λ t. IsSorted K.cmp t.capacity t.rows)) }
        ensures none { result ≡ Ok None → ¬ IsSorted K.cmp capacity rows.items }
    {
        if rows.len() > capacity as usize || !keyed::ascends(rows.as_slice()) {
            return Ok(None);
        }
        let mut table = SortedTable::open(alloc, capacity)?;
        table.fill(rows);
        Ok(Some(table))
    }

    /// Adds the rows to a table that has none.
    fn fill(&mut self, rows: Vec<(K, V)>)
        requires empty { self.old.rows ≡ [] }
        requires ascends { Ascends K.cmp rows.items }
        requires fits { length rows.items ≤ self.old.capacity }
        ensures rows { self.new.rows ≡ rows.items }
        ensures capacity { self.new.capacity ≡ self.old.capacity }
    {
        for (key, value) in rows {
            self.put(key, value);
        }
    }

    /// Adds a row under a key that has none, where there is room.
    pub fn put(&mut self, key: K, value: V)
        requires absent { at K.cmp key self.old.rows ≡ None }
        requires room { length self.old.rows < self.old.capacity }
        ensures rows { self.new.rows ≡ put K.cmp key value self.old.rows }
        ensures capacity { self.new.capacity ≡ self.old.capacity }
        ensures sorted { IsSorted K.cmp self.new.capacity self.new.rows }
    {
        let place = place_of(self.chunks.as_slice(), &key);
        self.count += 1;
        add_in(&mut self.chunks, &mut self.spare, place, key, value);
    }

    /// Adds a row as `put` does, and looks for its place first where the last row was cut or put back:
    /// for rows that come back in the order in which they went, or in the other one.
    pub fn put_back(&mut self, key: K, value: V)
        requires absent { at K.cmp key self.old.rows ≡ None }
        requires room { length self.old.rows < self.old.capacity }
        ensures rows { self.new.rows ≡ put K.cmp key value self.old.rows }
        ensures capacity { self.new.capacity ≡ self.old.capacity }
        ensures sorted { IsSorted K.cmp self.new.capacity self.new.rows }
    {
        let place = place_near(self.chunks.as_slice(), self.near, &key);
        self.near = place;
        self.count += 1;
        add_in(&mut self.chunks, &mut self.spare, place, key, value);
    }

    /// Takes away the row under a key that has one.
    pub fn cut(&mut self, key: &K) -> V
        requires { IsSome (at K.cmp key.now self.old.rows) }
        ensures old { at K.cmp key.now self.old.rows ≡ Some result }
        ensures rows { self.new.rows ≡ without K.cmp key.now self.old.rows }
        ensures capacity { self.new.capacity ≡ self.old.capacity }
        ensures sorted { IsSorted K.cmp self.new.capacity self.new.rows }
    {
        let place = place_of(self.chunks.as_slice(), key);
        self.near = place;
        self.count -= 1;
        cut_from(&mut self.chunks, &mut self.spare, place, key)
    }
}

impl<K: Ord + Copy, V> SortedTable<K, V> {
    /// Puts another value under a key that has one, and hands the old value back.
    pub fn set(&mut self, key: &K, value: V) -> V
        requires { IsSome (at K.cmp key.now self.old.rows) }
        ensures old { at K.cmp key.now self.old.rows ≡ Some result }
        ensures rows { self.new.rows ≡ put K.cmp key.now value self.old.rows }
        ensures capacity { self.new.capacity ≡ self.old.capacity }
        ensures sorted { IsSorted K.cmp self.new.capacity self.new.rows }
    {
        let place = place_of(self.chunks.as_slice(), key);
        set_in(&mut self.chunks, place, key, value)
    }
}

impl<K: Ord + Copy, V: Copy> SortedTable<K, V> {
    /// A copy of the rows.
    pub fn to_vec(&self, alloc: Global) -> Result<Vec<(K, V)>, NoMemory>
        ensures { IfOk result (λ rows. rows.items ≡ self.now.rows) }
    {
        let mut rows = Vec::with_capacity(alloc, self.count)?;
        copy_rows(&mut rows, self.chunks.as_slice())?;
        Ok(rows)
    }
}

/// So many chunks without rows, in a list with room for others.
fn open_chunks<K: Drop, V: Drop>(
    alloc: Global,
    room: usize,
    count: usize,
) -> Result<Vec<Chunk<K, V>>, NoMemory>
    ensures empty { IfOk result (λ chunks. AreEmpty chunks.items) }
    ensures count { IfOk result (λ chunks. length chunks.items ≡ count) }
    ensures room { IfOk result (λ chunks. room ≤ vec_capacity chunks) }
{
    let mut chunks = Vec::with_capacity(alloc, room)?;
    for _ in 0..count {
        chunks.push(Chunk::open(alloc)?)?;
    }
    Ok(chunks)
}

/// Copies the rows of chunks to the end of a list.
fn copy_rows<K: Copy, V: Copy>(
    rows: &mut Vec<(K, V)>,
    chunks: &[Chunk<K, V>],
) -> Result<(), NoMemory>
    ensures { OnOk result (rows.new.items ≡ rows.old.items ++ joined (parts chunks.now)) }
{
    for chunk in chunks {
        rows.extend_from_slice(chunk.rows.as_slice())?;
    }
    Ok(())
}
