// Tables whose rows stand in numbered slots, and are found by name as well.
ghost use Rattle.std.specs.Prelude.{◌≡◌, ◌≤◌, ◌<◌, ◌==◌, ◌^◌, ◌↔◌, ℕ, false, All, IfOk, IfSome, IsSome, IsTrue, None, Ok, OnSome, Some, [], length, map, option_copied, vec_len};
ghost use Rattle.std.specs.Option.{option_map};
ghost use Rattle.std.specs.Ordering.{nat_cmp};
ghost use Rattle.keyed.specs.Keyed.{Ascends, IsKeyOrder, at, put, without};
ghost use Rattle.keyed.specs.Named.{key_of, AreDistinct};
ghost use Rattle.chip_core.specs.Slots.{IsLowestFree};
ghost use Rattle.chip_core.specs.Tables.{IsSlotted};
ghost use Rattle.chip_core.specs.Taken.{AreFree, taken};

use net_types::NoMemory;
use sorted_table::SortedTable;
use std::alloc::Global;
use std::marker::Model;
use std::mem;

/// A value with a name of its own.
pub(crate) trait Named<N: Ord>: Drop {
    ghost name: { Self → N };

    fn name(&self) -> N
        ensures { result ≡ name self.now };

    // Names that are ordered as equal are one.
    ghost order: { IsKeyOrder N.cmp };
}

/// Values in numbered slots, no two of one name. A value is found by its slot at once, and by its
/// name in the time of a search in a sorted table, as is the lowest free slot.
#[derive(Drop)]
pub(crate) struct SlotTable<N: Ord, V: Named<N>> {
    slots: Vec<Option<V>>,
    free: SortedTable<u32, ()>,
    index: SortedTable<N, u32>,
}

impl<N: Ord, V: Named<N>> Model for SlotTable<N, V> {
    ghost use Rattle.std.specs.Prelude.{ℕ};
    ghost use Rattle.sorted_table.specs.Rows.{TableView};
    ghost use Rattle.chip_core.specs.Taken.{AreNamed, taken};

    ghost Value = { TableView ℕ V };

    ghost view = { λ t. record { rows = taken 0 t.slots.items; capacity = t.free.capacity } };

    ghost invariant = { λ t. AreNamed N.cmp V.name t.slots.items t.free.rows t.index.rows t.free.capacity t.index.capacity };
}

impl<N: Ord + Drop, V: Named<N>> SlotTable<N, V> {
    /// A table without values, with all its room taken.
    pub(crate) fn open(alloc: Global, capacity: u32) -> Result<Self, NoMemory>
        ensures rows { IfOk result (λ table. table.rows ≡ []) }
        ensures capacity { IfOk result (λ table. table.capacity ≡ capacity) }
        ensures slotted { IfOk result (λ table. IsSlotted N.cmp V.name table.capacity table.rows) }
    {
        let mut free = SortedTable::open(alloc, capacity)?;
        let slots = empty_slots(alloc, capacity, &mut free)?;
        let index = SortedTable::open(alloc, capacity)?;
        Ok(SlotTable { slots, free, index })
    }

    /// Whether there is no free slot.
    pub(crate) fn is_full(&self) -> bool
        ensures full { result ≡ (length self.now.rows == self.now.capacity) }
        ensures room { result ≡ false → length self.now.rows < self.now.capacity }
    {
        self.index.is_full()
    }

    /// The slot of a name.
    pub(crate) fn find(&self, name: &N) -> Option<u32>
        ensures { result ≡ key_of N.cmp V.name name.now self.now.rows }
    {
        self.index.get(name).copied()
    }

    /// The value in a slot.
    pub(crate) fn get(&self, slot: u32) -> Option<&V>
        ensures { option_copied result ≡ at nat_cmp slot self.now.rows }
    {
        match self.slots.get(slot as usize) {
            Some(held) => held.as_ref(),
            None => None,
        }
    }

    /// The slots in order, each with its value where it has one.
    pub(crate) fn slots(&self) -> &[Option<V>]
        ensures rows { taken 0 result.now ≡ self.now.rows }
        ensures few { length result.now < 2 ^ 32 }
    {
        self.slots.as_slice()
    }

    /// The lowest free slot, where there is one.
    fn lowest_free(&self) -> u32
        requires { length self.now.rows < self.now.capacity }
        ensures lowest { IsLowestFree result self.now.rows }
        ensures below { result < self.now.capacity }
    {
        match self.free.first() {
            Some(free) => free.0,
            None => unreachable!(),
        }
    }

    /// Adds a value of a new name in the lowest free slot, which is handed back.
    pub(crate) fn add(&mut self, value: V) -> u32
        requires absent { key_of N.cmp V.name (V.name value) self.old.rows ≡ None }
        requires room { length self.old.rows < self.old.capacity }
        ensures slot { IsLowestFree result self.old.rows }
        ensures rows { self.new.rows ≡ put nat_cmp result value self.old.rows }
        ensures capacity { self.new.capacity ≡ self.old.capacity }
        ensures slotted { IsSlotted N.cmp V.name self.new.capacity self.new.rows }
    {
        let slot = self.lowest_free();
        self.put_back(slot, value);
        slot
    }

    /// Adds a value of a new name in a free slot.
    pub(crate) fn put_back(&mut self, slot: u32, value: V)
        requires absent { key_of N.cmp V.name (V.name value) self.old.rows ≡ None }
        requires free { at nat_cmp slot self.old.rows ≡ None }
        requires below { slot < self.old.capacity }
        ensures rows { self.new.rows ≡ put nat_cmp slot value self.old.rows }
        ensures capacity { self.new.capacity ≡ self.old.capacity }
        ensures slotted { IsSlotted N.cmp V.name self.new.capacity self.new.rows }
    {
        self.index.put(value.name(), slot);
        take_slot(&mut self.slots, &mut self.free, slot, value);
    }

    /// Puts another value of the same name in a slot, and hands the old one back.
    pub(crate) fn set(&mut self, slot: u32, value: V) -> V
        requires { option_map V.name (at nat_cmp slot self.old.rows) ≡ Some (V.name value) }
        ensures old { at nat_cmp slot self.old.rows ≡ Some result }
        ensures rows { self.new.rows ≡ put nat_cmp slot value self.old.rows }
        ensures capacity { self.new.capacity ≡ self.old.capacity }
        ensures slotted { IsSlotted N.cmp V.name self.new.capacity self.new.rows }
    {
        match mem::replace(&mut self.slots[slot as usize], Some(value)) {
            Some(old) => old,
            None => unreachable!(),
        }
    }

    /// Takes away the value in a slot.
    pub(crate) fn cut(&mut self, slot: u32) -> V
        requires { IsSome (at nat_cmp slot self.old.rows) }
        ensures old { at nat_cmp slot self.old.rows ≡ Some result }
        ensures rows { self.new.rows ≡ without nat_cmp slot self.old.rows }
        ensures capacity { self.new.capacity ≡ self.old.capacity }
        ensures slotted { IsSlotted N.cmp V.name self.new.capacity self.new.rows }
    {
        let value = free_slot(&mut self.slots, &mut self.free, slot);
        let _ = self.index.cut(&value.name());
        value
    }

    /// The table of these rows, in the order in which they are given: none exactly where their
    /// slots don't ascend or aren't below the capacity, or two values have one name.
    pub(crate) fn of(
        alloc: Global,
        capacity: u32,
        rows: Vec<(u32, V)>,
    ) -> Result<Option<Self>, NoMemory>
        ensures rows { IfOk result (λ table. IfSome table (λ t. t.rows ≡ rows.items)) }
        ensures capacity { IfOk result (λ table. IfSome table (λ t. t.capacity ≡ capacity)) }
        ensures slotted { IfOk result (λ table. IfSome table (λ t. IsSlotted N.cmp V.name t.capacity t.rows)) }
        ensures none { result ≡ Ok None → ¬ IsSlotted N.cmp V.name capacity rows.items }
    {
        if !keyed::ascends(rows.as_slice()) {
            return Ok(None);
        }
        if !are_below(rows.as_slice(), capacity) {
            return Ok(None);
        }
        let Some(index) = index_of(alloc, rows.as_slice(), capacity)? else {
            return Ok(None);
        };
        let mut free = SortedTable::open(alloc, capacity)?;
        let mut slots = empty_slots(alloc, capacity, &mut free)?;
        take_slots(&mut slots, &mut free, rows);
        Ok(Some(SlotTable { slots, free, index }))
    }
}

/// So many slots without values, which become the free ones.
fn empty_slots<V: Drop>(
    alloc: Global,
    count: u32,
    free: &mut SortedTable<u32, ()>,
) -> Result<Vec<Option<V>>, NoMemory>
    requires empty { free.old.rows ≡ [] }
    requires room { free.old.capacity ≡ count }
    ensures none { IfOk result (λ slots. taken 0 slots.items ≡ []) }
    ensures free { IfOk result (λ slots. AreFree slots.items free.new.rows) }
    ensures count { IfOk result (λ slots. length slots.items ≡ count) }
    ensures room { free.new.capacity ≡ free.old.capacity }
{
    let mut slots = Vec::with_capacity(alloc, count as usize)?;
    for slot in 0..count {
        slots.push(None)?;
        free.put(slot, ());
    }
    Ok(slots)
}

/// Puts a value in a free slot.
fn take_slot<V: Drop>(
    slots: &mut Vec<Option<V>>,
    free: &mut SortedTable<u32, ()>,
    slot: u32,
    value: V,
)
    requires within { slot < vec_len slots.old }
    requires free { AreFree slots.old.items free.old.rows }
    requires empty { at nat_cmp slot (taken 0 slots.old.items) ≡ None }
    ensures rows { taken 0 slots.new.items ≡ put nat_cmp slot value (taken 0 slots.old.items) }
    ensures free { AreFree slots.new.items free.new.rows }
    ensures count { vec_len slots.new ≡ vec_len slots.old }
    ensures room { free.new.capacity ≡ free.old.capacity }
{
    let () = free.cut(&slot);
    slots[slot as usize] = Some(value);
}

/// Takes the value out of a slot, which is free then.
fn free_slot<V: Drop>(slots: &mut Vec<Option<V>>, free: &mut SortedTable<u32, ()>, slot: u32) -> V
    requires taken { IsSome (at nat_cmp slot (taken 0 slots.old.items)) }
    requires free { AreFree slots.old.items free.old.rows }
    requires room { vec_len slots.old ≤ free.old.capacity }
    ensures old { at nat_cmp slot (taken 0 slots.old.items) ≡ Some result }
    ensures rows { taken 0 slots.new.items ≡ without nat_cmp slot (taken 0 slots.old.items) }
    ensures free { AreFree slots.new.items free.new.rows }
    ensures count { vec_len slots.new ≡ vec_len slots.old }
    ensures room { free.new.capacity ≡ free.old.capacity }
{
    free.put(slot, ());
    match slots[slot as usize].take() {
        Some(value) => value,
        None => unreachable!(),
    }
}

/// Puts each value in its slot.
fn take_slots<V: Drop>(
    slots: &mut Vec<Option<V>>,
    free: &mut SortedTable<u32, ()>,
    rows: Vec<(u32, V)>,
)
    requires ascends { Ascends nat_cmp rows.items }
    requires below { All (λ row. row.0 < vec_len slots.old) rows.items }
    requires free { AreFree slots.old.items free.old.rows }
    requires empty { taken 0 slots.old.items ≡ [] }
    ensures rows { taken 0 slots.new.items ≡ rows.items }
    ensures free { AreFree slots.new.items free.new.rows }
    ensures count { vec_len slots.new ≡ vec_len slots.old }
    ensures room { free.new.capacity ≡ free.old.capacity }
{
    for (slot, value) in rows {
        take_slot(slots, free, slot, value);
    }
}

/// Whether each slot is below the capacity.
pub(crate) fn are_below<V>(rows: &[(u32, V)], capacity: u32) -> bool
    ensures { IsTrue result ↔ All (λ row. row.0 < capacity) rows.now }
{
    rows.iter().all(|row| row.0 < capacity)
}

/// The index of rows: the slot of each name, and none exactly where two have one name.
fn index_of<N: Ord + Drop, V: Named<N>>(
    alloc: Global,
    rows: &[(u32, V)],
    capacity: u32,
) -> Result<Option<SortedTable<N, u32>>, NoMemory>
    requires { length rows.now ≤ capacity }
    ensures found { IfOk result (λ found. IfSome found (λ index. (n : N) → at N.cmp n index.rows ≡ key_of N.cmp V.name n rows.now)) }
    ensures distinct { IfOk result (λ found. OnSome found (AreDistinct N.cmp V.name rows.now)) }
    ensures ascends { IfOk result (λ found. IfSome found (λ index. Ascends N.cmp index.rows)) }
    ensures capacity { IfOk result (λ found. IfSome found (λ index. index.capacity ≡ capacity)) }
    ensures count { IfOk result (λ found. IfSome found (λ index. length index.rows ≡ length rows.now)) }
    ensures none { result ≡ Ok None → ¬ AreDistinct N.cmp V.name rows.now }
{
    let mut names = names_of(alloc, rows)?;
    names.sort_unstable();
    match SortedTable::of(alloc, capacity, names)? {
        Some(index) => Ok(Some(index)),
        None => Ok(None),
    }
}

/// The name and the slot of each row.
fn names_of<N: Ord + Drop, V: Named<N>>(
    alloc: Global,
    rows: &[(u32, V)],
) -> Result<Vec<(N, u32)>, NoMemory>
    ensures { IfOk result (λ names. names.items ≡ map (λ row. (V.name row.1, row.0)) rows.now) }
{
    let mut names = Vec::with_capacity(alloc, rows.len())?;
    for row in rows {
        names.push((row.1.name(), row.0))?;
    }
    Ok(names)
}
