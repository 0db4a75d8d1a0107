// A chip in memory.
ghost use Rattle.std.specs.Prelude.{◌≡◌, ◌<◌, ◌^◌, ◌++◌, ◌∷◌, All, Err, IfOk, OnOk, [], length, option_copied, slice_get};
ghost use Rattle.std.specs.Option.{option_map};
ghost use Rattle.std.specs.Ordering.{nat_cmp};
ghost use Rattle.keyed.specs.Keyed.{at};
ghost use Rattle.net_types.specs.Groups.{IsGroupLength, group_key_cmp, group_key_of};
ghost use Rattle.chip_core.specs.Chip.{AreLinked, AreShaped, IsImage, empty};
ghost use Rattle.chip_core.specs.Sim.{AreLinked-prop, tables_of};
ghost use Rattle.chip_core.specs.Slots.{host_at, host_entries, host_rows};
ghost use Rattle.chip_core.specs.Sound.{is_chip};
ghost use Rattle.chip_core.specs.Tables.{IsSlotted, IsSlotted-prop};
ghost use Rattle.chip_core.specs.Taken.{taken};
ghost use Rattle.sorted_table.specs.Rows.{IsSorted, IsSorted-prop};

use crate::named::{GroupTable, HostTable};
use crate::slots::{Named, SlotTable};
use crate::{Full, HwSwitch, RowsFault, WriteCount, image, shape};
use net_types::{
    Caps, GroupKey, GroupRow, GroupRowList, HostKey, HostRow, HostRowList, ItemList, L2Key, L2Row,
    MemberList, NoMemory, RouteKey, RouteRow, Tables,
};
use sorted_table::SortedTable;
use std::alloc::Global;

/// A chip in memory. It takes all its room when it is opened. Rows, and the slots of hosts and
/// groups by their keys, are found by binary search; a row that is added or taken away moves at most
/// some dozens of others.
#[derive(Drop)]
pub struct SimChip {
    l2: SortedTable<L2Key, L2Row>,
    hosts: HostTable,
    groups: GroupTable,
    routes: SortedTable<RouteKey, RouteRow>,
    writes: WriteCount,
    ghost l2_sorted: { IsSorted ⟦<L2Key as Ord>⟧.cmp l2.capacity l2.rows } by { IsSorted-prop ⟦<L2Key as Ord>⟧.cmp l2.capacity l2.rows },
    ghost routes_sorted: { IsSorted ⟦<RouteKey as Ord>⟧.cmp routes.capacity routes.rows } by { IsSorted-prop ⟦<RouteKey as Ord>⟧.cmp routes.capacity routes.rows },
    ghost hosts_slotted: { IsSlotted ⟦<HostKey as Ord>⟧.cmp (λ host. host.0) hosts.capacity hosts.rows } by { IsSlotted-prop ⟦<HostKey as Ord>⟧.cmp (λ host. host.0) hosts.capacity hosts.rows },
    ghost groups_slotted: { IsSlotted group_key_cmp group_key_of groups.capacity groups.rows } by { IsSlotted-prop group_key_cmp group_key_of groups.capacity groups.rows },
    ghost linked: { AreLinked (tables_of (record { l2 = l2.rows; host = hosts.rows; group = groups.rows; route = routes.rows })) } by { AreLinked-prop (tables_of (record { l2 = l2.rows; host = hosts.rows; group = groups.rows; route = routes.rows })) },
}

impl SimChip {
    /// A chip without rows, with all its room taken.
    pub fn open(alloc: Global, caps: Caps) -> Result<SimChip, NoMemory>
        ensures raw { IfOk result (λ chip. ⟦<SimChip as HwSwitch>⟧.raw chip ≡ empty) }
        ensures caps { IfOk result (λ chip. ⟦<SimChip as HwSwitch>⟧.caps chip ≡ caps) }
        ensures writes { IfOk result (λ chip. ⟦<SimChip as HwSwitch>⟧.writes chip ≡ 0) }
    {
        Ok(SimChip {
            l2: SortedTable::open(alloc, caps.l2)?,
            hosts: SlotTable::open(alloc, caps.host)?,
            groups: SlotTable::open(alloc, caps.group)?,
            routes: SortedTable::open(alloc, caps.route)?,
            writes: WriteCount::new(),
        })
    }

    /// A chip with these tables, slots included, which has had no writes. BadRows where they break a
    /// rule of the chip's tables, or a group names a host twice. All of that is tested before memory
    /// is taken, save that a host or a group stands in two slots.
    pub fn from_rows(alloc: Global, caps: Caps, tables: Tables) -> Result<SimChip, RowsFault>
        ensures raw { IfOk result (λ chip. ⟦<SimChip as HwSwitch>⟧.raw chip ≡ tables) }
        ensures caps { IfOk result (λ chip. ⟦<SimChip as HwSwitch>⟧.caps chip ≡ caps) }
        ensures writes { IfOk result (λ chip. ⟦<SimChip as HwSwitch>⟧.writes chip ≡ 0) }
        ensures image { OnOk result (IsImage caps tables) }
        ensures bad { result ≡ Err RowsFault.BadRows → ¬ IsImage caps tables }
        ensures shaped { result ≡ Err RowsFault.NoMemory → AreShaped caps tables }
    {
        if !shape::are_shaped(caps, &tables) {
            return Err(RowsFault::BadRows);
        }
        let Tables {
            l2,
            host,
            group,
            route,
        } = tables;
        let l2 = match sorted_table(alloc, caps.l2, l2.into_vec()) {
            Ok(table) => table,
            Err(fault) => return Err(fault),
        };
        let hosts = match host_table(alloc, caps.host, host.as_slice()) {
            Ok(table) => table,
            Err(fault) => return Err(fault),
        };
        let groups = match group_table(alloc, caps.group, group.as_slice()) {
            Ok(table) => table,
            Err(fault) => return Err(fault),
        };
        let routes = match sorted_table(alloc, caps.route, route.into_vec()) {
            Ok(table) => table,
            Err(fault) => return Err(fault),
        };
        Ok(SimChip {
            l2,
            hosts,
            groups,
            routes,
            writes: WriteCount::new(),
        })
    }

    /// The l2 row at that place by ascending key, counted from 0: none exactly past the end.
    pub fn l2_at(&self, n: usize) -> Option<(&L2Key, &L2Row)>
        ensures { option_map (λ row. (row.0.now, row.1.now)) result ≡ slice_get (⟦<SimChip as HwSwitch>⟧.raw self.now).l2 n }
    {
        match self.l2.at(n) {
            Some(row) => Some((&row.0, &row.1)),
            None => None,
        }
    }

    /// The route at that place by ascending key, counted from 0: none exactly past the end.
    pub fn route_at(&self, n: usize) -> Option<(&RouteKey, &RouteRow)>
        ensures { option_map (λ row. (row.0.now, row.1.now)) result ≡ slice_get (⟦<SimChip as HwSwitch>⟧.raw self.now).route n }
    {
        match self.routes.at(n) {
            Some(row) => Some((&row.0, &row.1)),
            None => None,
        }
    }

    /// The host in a slot: none exactly where the slot is free.
    pub fn host_at(&self, slot: u32) -> Option<(&HostKey, &HostRow)>
        ensures { option_map (λ host. (host.0.now, host.1.now)) result ≡ host_at slot (⟦<SimChip as HwSwitch>⟧.raw self.now).host }
    {
        match self.hosts.get(slot) {
            Some(host) => Some((&host.0, &host.1)),
            None => None,
        }
    }

    /// The group in a slot: none exactly where the slot is free.
    pub fn group_at(&self, slot: u32) -> Option<&GroupRow>
        ensures { option_copied result ≡ at nat_cmp slot (⟦<SimChip as HwSwitch>⟧.raw self.now).group }
    {
        self.groups.get(slot)
    }
}

impl HwSwitch for SimChip {
    ghost raw = { λ chip. tables_of (record { l2 = chip.l2.rows; host = chip.hosts.rows; group = chip.groups.rows; route = chip.routes.rows }) };

    ghost caps = { λ chip. record { l2 = chip.l2.capacity; host = chip.hosts.capacity; group = chip.groups.capacity; route = chip.routes.capacity } };

    ghost writes = { λ chip. chip.writes.writes };

    fn add_l2(&mut self, key: L2Key, row: L2Row) -> Result<(), Full> {
        if self.l2.is_full() {
            return Err(Full);
        }
        self.l2.put(key, row);
        self.writes = self.writes.next();
        Ok(())
    }

    fn add_host(&mut self, key: HostKey, row: HostRow) -> Result<u32, Full> {
        if self.hosts.is_full() {
            return Err(Full);
        }
        let slot = self.hosts.add((key, row));
        self.writes = self.writes.next();
        Ok(slot)
    }

    fn add_group(&mut self, row: GroupRow) -> Result<u32, Full> {
        if self.groups.is_full() {
            return Err(Full);
        }
        // It has 2 to 64 members.
        let _ = row.members();
        let slot = self.groups.add(row);
        self.writes = self.writes.next();
        Ok(slot)
    }

    fn add_route(&mut self, key: RouteKey, row: RouteRow) -> Result<(), Full> {
        if self.routes.is_full() {
            return Err(Full);
        }
        self.routes.put(key, row);
        self.writes = self.writes.next();
        Ok(())
    }

    fn set_l2(&mut self, key: &L2Key, row: L2Row) -> L2Row {
        let old = self.l2.set(key, row);
        self.writes = self.writes.next();
        old
    }

    fn set_host(&mut self, slot: u32, row: HostRow) -> HostRow {
        let Some((key, _)) = self.hosts.get(slot).copied() else {
            unreachable!();
        };
        let (_, old) = self.hosts.set(slot, (key, row));
        self.writes = self.writes.next();
        old
    }

    fn set_group(&mut self, slot: u32, row: GroupRow) -> GroupRow {
        let old = self.groups.set(slot, row);
        self.writes = self.writes.next();
        old
    }

    fn del_l2(&mut self, key: &L2Key) -> L2Row {
        let old = self.l2.cut(key);
        self.writes = self.writes.next();
        old
    }

    fn del_host(&mut self, slot: u32) -> (HostKey, HostRow) {
        let old = self.hosts.cut(slot);
        self.writes = self.writes.next();
        old
    }

    fn del_group(&mut self, slot: u32) -> GroupRow {
        let old = self.groups.cut(slot);
        self.writes = self.writes.next();
        old
    }

    fn del_route(&mut self, key: &RouteKey) -> RouteRow {
        let old = self.routes.cut(key);
        self.writes = self.writes.next();
        old
    }

    fn put_back_l2(&mut self, key: L2Key, row: L2Row) {
        self.l2.put_back(key, row);
        self.writes = self.writes.next();
    }

    fn put_back_host(&mut self, slot: u32, key: HostKey, row: HostRow) {
        self.hosts.put_back(slot, (key, row));
        self.writes = self.writes.next();
    }

    fn put_back_group(&mut self, slot: u32, row: GroupRow) {
        // It has 2 to 64 members.
        let _ = row.members();
        self.groups.put_back(slot, row);
        self.writes = self.writes.next();
    }

    fn put_back_route(&mut self, key: RouteKey, row: RouteRow) {
        self.routes.put_back(key, row);
        self.writes = self.writes.next();
    }

    fn find_l2(&self, key: &L2Key) -> Option<L2Row> {
        self.l2.get(key).copied()
    }

    fn find_host(&self, key: &HostKey) -> Option<u32> {
        self.hosts.find(key)
    }

    fn find_group(&self, hosts: &[u32]) -> Option<u32> {
        match GroupKey::of_slots(hosts) {
            None => None,
            Some(key) => self.groups.find(&key),
        }
    }

    fn find_route(&self, key: &RouteKey) -> Option<RouteRow> {
        self.routes.get(key).copied()
    }

    fn copy_tables(&self, alloc: Global) -> Result<Tables, NoMemory> {
        Ok(Tables {
            l2: ItemList::from_vec(self.l2.to_vec(alloc)?),
            host: copy_hosts(alloc, self.hosts.slots())?,
            group: copy_groups(alloc, self.groups.slots())?,
            route: ItemList::from_vec(self.routes.to_vec(alloc)?),
        })
    }

    ghost sound = { λ chip. is_chip (record { l2 = chip.l2.capacity; host = chip.hosts.capacity; group = chip.groups.capacity; route = chip.routes.capacity })
        (record { l2 = chip.l2.rows; host = chip.hosts.rows; group = chip.groups.rows; route = chip.routes.rows })
        chip.l2_sorted
        chip.hosts_slotted
        chip.groups_slotted
        chip.routes_sorted
        chip.linked };
}

/// The table of these rows by key.
fn sorted_table<K: Ord + Drop, V: Drop>(
    alloc: Global,
    capacity: u32,
    rows: Vec<(K, V)>,
) -> Result<SortedTable<K, V>, RowsFault>
    ensures rows { IfOk result (λ table. table.rows ≡ rows.items) }
    ensures capacity { IfOk result (λ table. table.capacity ≡ capacity) }
    ensures sorted { IfOk result (λ table. IsSorted K.cmp table.capacity table.rows) }
    ensures bad { result ≡ Err RowsFault.BadRows → ¬ IsSorted K.cmp capacity rows.items }
{
    match SortedTable::of(alloc, capacity, rows) {
        Ok(Some(table)) => Ok(table),
        Ok(None) => Err(RowsFault::BadRows),
        Err(_) => Err(RowsFault::NoMemory),
    }
}

/// The table of these rows by slot.
fn slot_table<N: Ord + Drop, V: Named<N>>(
    alloc: Global,
    capacity: u32,
    rows: Vec<(u32, V)>,
) -> Result<SlotTable<N, V>, RowsFault>
    ensures rows { IfOk result (λ table. table.rows ≡ rows.items) }
    ensures capacity { IfOk result (λ table. table.capacity ≡ capacity) }
    ensures slotted { IfOk result (λ table. IsSlotted N.cmp V.name table.capacity table.rows) }
    ensures bad { result ≡ Err RowsFault.BadRows → ¬ IsSlotted N.cmp V.name capacity rows.items }
{
    match SlotTable::of(alloc, capacity, rows) {
        Ok(Some(table)) => Ok(table),
        Ok(None) => Err(RowsFault::BadRows),
        Err(_) => Err(RowsFault::NoMemory),
    }
}

/// The host table of these rows.
fn host_table(
    alloc: Global,
    capacity: u32,
    hosts: &[(u32, HostKey, HostRow)],
) -> Result<HostTable, RowsFault>
    ensures rows { IfOk result (λ table. table.rows ≡ host_entries hosts.now) }
    ensures capacity { IfOk result (λ table. table.capacity ≡ capacity) }
    ensures slotted { IfOk result (λ table. IsSlotted ⟦<HostKey as Ord>⟧.cmp (λ host. host.0) table.capacity table.rows) }
    ensures bad { result ≡ Err RowsFault.BadRows
        → ¬ IsSlotted ⟦<HostKey as Ord>⟧.cmp (λ host. host.0) capacity (host_entries hosts.now) }
{
    match image::host_entries(alloc, hosts) {
        Ok(rows) => slot_table(alloc, capacity, rows),
        Err(_) => Err(RowsFault::NoMemory),
    }
}

/// The group table of these rows.
fn group_table(
    alloc: Global,
    capacity: u32,
    groups: &[(u32, MemberList)],
) -> Result<GroupTable, RowsFault>
    requires { All (λ group. IsGroupLength (length group.1)) groups.now }
    ensures rows { IfOk result (λ table. table.rows ≡ groups.now) }
    ensures capacity { IfOk result (λ table. table.capacity ≡ capacity) }
    ensures slotted { IfOk result (λ table. IsSlotted group_key_cmp group_key_of table.capacity table.rows) }
    ensures bad { result ≡ Err RowsFault.BadRows → ¬ IsSlotted group_key_cmp group_key_of capacity groups.now }
{
    match image::group_rows(alloc, groups) {
        Ok(rows) => slot_table(alloc, capacity, rows),
        Err(_) => Err(RowsFault::NoMemory),
    }
}

/// The rows of the host table, as they are listed.
fn copy_hosts(alloc: Global, slots: &[Option<(HostKey, HostRow)>]) -> Result<HostRowList, NoMemory>
    requires { length slots.now < 2 ^ 32 }
    ensures { IfOk result (λ list. list ≡ host_rows (taken 0 slots.now)) }
{
    let mut list = ItemList::new(alloc);
    for slot in 0..slots.len() {
        push_host(&mut list, slot as u32, &slots[slot])?;
    }
    Ok(list)
}

/// Puts a host last, where there is one.
fn push_host(
    list: &mut HostRowList,
    slot: u32,
    host: &Option<(HostKey, HostRow)>,
) -> Result<(), NoMemory>
    ensures { OnOk result (list.new ≡ list.old ++ host_rows (taken slot (host.now ∷ []))) }
{
    match host {
        Some(host) => Ok(list.push((slot, host.0, host.1))?),
        None => Ok(()),
    }
}

/// The rows of the group table, as they are listed.
fn copy_groups(alloc: Global, slots: &[Option<GroupRow>]) -> Result<GroupRowList, NoMemory>
    requires { length slots.now < 2 ^ 32 }
    ensures { IfOk result (λ list. list ≡ taken 0 slots.now) }
{
    let mut list = ItemList::new(alloc);
    for slot in 0..slots.len() {
        push_group(alloc, &mut list, slot as u32, &slots[slot])?;
    }
    Ok(list)
}

/// Puts a group last, where there is one.
fn push_group(
    alloc: Global,
    list: &mut GroupRowList,
    slot: u32,
    group: &Option<GroupRow>,
) -> Result<(), NoMemory>
    ensures { OnOk result (list.new ≡ list.old ++ taken slot (group.now ∷ [])) }
{
    match group {
        Some(group) => {
            let members = ItemList::from_vec(group.members().to_vec(alloc)?);
            list.push((slot, members))?;
            Ok(())
        }
        None => Ok(()),
    }
}
