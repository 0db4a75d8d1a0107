// What each chip does.
ghost use Rattle.std.specs.Prelude.{◌≡◌, ◌<◌, ◌↔◌, ◌+◌, ℕ, IfOk, IsErr, IsSome, None, OnErr, OnOk, Some, is_ok, length, if◌then◌else◌};
ghost use Rattle.std.specs.Option.{option_map};
ghost use Rattle.std.specs.Ordering.{nat_cmp};
ghost use Rattle.keyed.specs.Keyed.{at, put, without};
ghost use Rattle.net_types.specs.Groups.{group_key_of};
ghost use Rattle.net_types.specs.KeyOrder.{l2_cmp, route_cmp};
ghost use Rattle.net_types.specs.declared.table.Caps.{Caps as CapsValue};
ghost use Rattle.net_types.specs.declared.table.Tables.{Tables as TablesValue};
ghost use Rattle.chip_core.specs.Chip.{IsChip};
ghost use Rattle.chip_core.specs.References.{AreMembersHeld, IsRouteHeld, IsUnusedHost, IsUnusedGroup};
ghost use Rattle.chip_core.specs.Slots.{IsLowestFree, group_slot_of, host_at, host_entries, put_host, set_host, slot_of, without_host};

use net_types::{GroupRow, HostKey, HostRow, L2Key, L2Row, NoMemory, RouteKey, RouteRow, Tables};
use std::alloc::Global;

/// The table has no room.
#[derive(Clone, Copy, Debug, PartialEq, Eq, thiserror::Error)]
#[error("the table is full")]
pub struct Full;

/// A chip. Contracts see its tables as `raw`, how many rows each has room for as `caps`, and how
/// many writes it has had as `writes`. No call tells a capacity.
///
/// A host or a group stands in a slot, a number below its table's capacity, and what leads to it
/// names that slot. A group's key is the list of its hosts' slots, in the order of its members.
pub trait HwSwitch: Drop {
    ghost raw: { Self → TablesValue };

    ghost caps: { Self → CapsValue };

    ghost writes: { Self → ℕ };

    /// Adds an l2 row under a key that has none. Where the table is full the row is dropped.
    fn add_l2(&mut self, key: L2Key, row: L2Row) -> Result<(), Full>
        requires { at l2_cmp key (raw self.old).l2 ≡ None }
        ensures full { IsErr result ↔ (length (raw self.old).l2 ≡ (caps self.old).l2) }
        ensures ok { OnOk result (raw self.new ≡ record (raw self.old) { l2 = put l2_cmp key row (raw self.old).l2 }) }
        ensures err { OnErr result (raw self.new ≡ raw self.old) }
        ensures caps { caps self.new ≡ caps self.old }
        ensures writes { writes self.new ≡ (if is_ok result then writes self.old + 1 else writes self.old) };

    /// Adds a host that isn't there, and answers its slot: the lowest free one. Where the table is
    /// full the row is dropped.
    fn add_host(&mut self, key: HostKey, row: HostRow) -> Result<u32, Full>
        requires { slot_of key (raw self.old).host ≡ None }
        ensures full { IsErr result ↔ (length (raw self.old).host ≡ (caps self.old).host) }
        ensures slot { IfOk result (λ slot. IsLowestFree slot (host_entries (raw self.old).host)) }
        ensures ok { IfOk result (λ slot. raw self.new ≡ record (raw self.old) { host = put_host slot key row (raw self.old).host }) }
        ensures err { OnErr result (raw self.new ≡ raw self.old) }
        ensures caps { caps self.new ≡ caps self.old }
        ensures writes { writes self.new ≡ (if is_ok result then writes self.old + 1 else writes self.old) };

    /// Adds a group whose hosts are there, and that isn't, and answers its slot: the lowest free
    /// one. Where the table is full the row is dropped.
    fn add_group(&mut self, row: GroupRow) -> Result<u32, Full>
        requires absent { group_slot_of (group_key_of row) (raw self.old).group ≡ None }
        requires held { AreMembersHeld (raw self.old) row }
        ensures full { IsErr result ↔ (length (raw self.old).group ≡ (caps self.old).group) }
        ensures slot { IfOk result (λ slot. IsLowestFree slot (raw self.old).group) }
        ensures ok { IfOk result (λ slot. raw self.new ≡ record (raw self.old) { group = put nat_cmp slot row (raw self.old).group }) }
        ensures err { OnErr result (raw self.new ≡ raw self.old) }
        ensures caps { caps self.new ≡ caps self.old }
        ensures writes { writes self.new ≡ (if is_ok result then writes self.old + 1 else writes self.old) };

    /// Adds a route under a key that has none, to a host or group that is there. Where the table
    /// is full the row is dropped.
    fn add_route(&mut self, key: RouteKey, row: RouteRow) -> Result<(), Full>
        requires absent { at route_cmp key (raw self.old).route ≡ None }
        requires held { IsRouteHeld (raw self.old) row }
        ensures full { IsErr result ↔ (length (raw self.old).route ≡ (caps self.old).route) }
        ensures ok { OnOk result (raw self.new ≡ record (raw self.old) { route = put route_cmp key row (raw self.old).route }) }
        ensures err { OnErr result (raw self.new ≡ raw self.old) }
        ensures caps { caps self.new ≡ caps self.old }
        ensures writes { writes self.new ≡ (if is_ok result then writes self.old + 1 else writes self.old) };

    /// Puts another row under a key that has one, and hands the old row back.
    fn set_l2(&mut self, key: &L2Key, row: L2Row) -> L2Row
        requires { IsSome (at l2_cmp key.now (raw self.old).l2) }
        ensures raw { raw self.new ≡ record (raw self.old) { l2 = put l2_cmp key.now row (raw self.old).l2 } }
        ensures old { at l2_cmp key.now (raw self.old).l2 ≡ Some result }
        ensures caps { caps self.new ≡ caps self.old }
        ensures writes { writes self.new ≡ writes self.old + 1 };

    /// Puts another row in the slot of a host, under the same key, and hands the old row back.
    fn set_host(&mut self, slot: u32, row: HostRow) -> HostRow
        requires { IsSome (host_at slot (raw self.old).host) }
        ensures raw { raw self.new ≡ record (raw self.old) { host = set_host slot row (raw self.old).host } }
        ensures old { option_map (λ host. host.1) (host_at slot (raw self.old).host) ≡ Some result }
        ensures caps { caps self.new ≡ caps self.old }
        ensures writes { writes self.new ≡ writes self.old + 1 };

    /// Puts another row with the same key in the slot of a group, and hands the old row back.
    fn set_group(&mut self, slot: u32, row: GroupRow) -> GroupRow
        requires { option_map group_key_of (at nat_cmp slot (raw self.old).group) ≡ Some (group_key_of row) }
        ensures raw { raw self.new ≡ record (raw self.old) { group = put nat_cmp slot row (raw self.old).group } }
        ensures old { at nat_cmp slot (raw self.old).group ≡ Some result }
        ensures caps { caps self.new ≡ caps self.old }
        ensures writes { writes self.new ≡ writes self.old + 1 };

    /// Takes away the row under a key that has one.
    fn del_l2(&mut self, key: &L2Key) -> L2Row
        requires { IsSome (at l2_cmp key.now (raw self.old).l2) }
        ensures raw { raw self.new ≡ record (raw self.old) { l2 = without l2_cmp key.now (raw self.old).l2 } }
        ensures old { at l2_cmp key.now (raw self.old).l2 ≡ Some result }
        ensures caps { caps self.new ≡ caps self.old }
        ensures writes { writes self.new ≡ writes self.old + 1 };

    /// Takes away the host in a slot, to which nothing leads.
    fn del_host(&mut self, slot: u32) -> (HostKey, HostRow)
        requires there { IsSome (host_at slot (raw self.old).host) }
        requires unused { IsUnusedHost (raw self.old) slot }
        ensures raw { raw self.new ≡ record (raw self.old) { host = without_host slot (raw self.old).host } }
        ensures old { host_at slot (raw self.old).host ≡ Some result }
        ensures caps { caps self.new ≡ caps self.old }
        ensures writes { writes self.new ≡ writes self.old + 1 };

    /// Takes away the group in a slot, to which nothing leads.
    fn del_group(&mut self, slot: u32) -> GroupRow
        requires there { IsSome (at nat_cmp slot (raw self.old).group) }
        requires unused { IsUnusedGroup (raw self.old) slot }
        ensures raw { raw self.new ≡ record (raw self.old) { group = without nat_cmp slot (raw self.old).group } }
        ensures old { at nat_cmp slot (raw self.old).group ≡ Some result }
        ensures caps { caps self.new ≡ caps self.old }
        ensures writes { writes self.new ≡ writes self.old + 1 };

    /// Takes away the route under a key that has one.
    fn del_route(&mut self, key: &RouteKey) -> RouteRow
        requires { IsSome (at route_cmp key.now (raw self.old).route) }
        ensures raw { raw self.new ≡ record (raw self.old) { route = without route_cmp key.now (raw self.old).route } }
        ensures old { at route_cmp key.now (raw self.old).route ≡ Some result }
        ensures caps { caps self.new ≡ caps self.old }
        ensures writes { writes self.new ≡ writes self.old + 1 };

    /// Adds an l2 row where the caller knows that there is room, as after taking it away.
    fn put_back_l2(&mut self, key: L2Key, row: L2Row)
        requires absent { at l2_cmp key (raw self.old).l2 ≡ None }
        requires room { length (raw self.old).l2 < (caps self.old).l2 }
        ensures raw { raw self.new ≡ record (raw self.old) { l2 = put l2_cmp key row (raw self.old).l2 } }
        ensures caps { caps self.new ≡ caps self.old }
        ensures writes { writes self.new ≡ writes self.old + 1 };

    /// Adds a host in that free slot, where the caller knows that there is room.
    fn put_back_host(&mut self, slot: u32, key: HostKey, row: HostRow)
        requires absent { slot_of key (raw self.old).host ≡ None }
        requires free { host_at slot (raw self.old).host ≡ None }
        requires below { slot < (caps self.old).host }
        requires room { length (raw self.old).host < (caps self.old).host }
        ensures raw { raw self.new ≡ record (raw self.old) { host = put_host slot key row (raw self.old).host } }
        ensures caps { caps self.new ≡ caps self.old }
        ensures writes { writes self.new ≡ writes self.old + 1 };

    /// Adds a group in that free slot, where the caller knows that there is room.
    fn put_back_group(&mut self, slot: u32, row: GroupRow)
        requires absent { group_slot_of (group_key_of row) (raw self.old).group ≡ None }
        requires held { AreMembersHeld (raw self.old) row }
        requires free { at nat_cmp slot (raw self.old).group ≡ None }
        requires below { slot < (caps self.old).group }
        requires room { length (raw self.old).group < (caps self.old).group }
        ensures raw { raw self.new ≡ record (raw self.old) { group = put nat_cmp slot row (raw self.old).group } }
        ensures caps { caps self.new ≡ caps self.old }
        ensures writes { writes self.new ≡ writes self.old + 1 };

    /// Adds a route where the caller knows that there is room, as after taking it away.
    fn put_back_route(&mut self, key: RouteKey, row: RouteRow)
        requires absent { at route_cmp key (raw self.old).route ≡ None }
        requires held { IsRouteHeld (raw self.old) row }
        requires room { length (raw self.old).route < (caps self.old).route }
        ensures raw { raw self.new ≡ record (raw self.old) { route = put route_cmp key row (raw self.old).route } }
        ensures caps { caps self.new ≡ caps self.old }
        ensures writes { writes self.new ≡ writes self.old + 1 };

    /// The row under a key.
    fn find_l2(&self, key: &L2Key) -> Option<L2Row>
        ensures { result ≡ at l2_cmp key.now (raw self.now).l2 };

    /// The slot of a host.
    fn find_host(&self, key: &HostKey) -> Option<u32>
        ensures { result ≡ slot_of key.now (raw self.now).host };

    /// The slot of the group with these hosts, in this order.
    fn find_group(&self, hosts: &[u32]) -> Option<u32>
        ensures { result ≡ group_slot_of hosts.now (raw self.now).group };

    /// The row under a key.
    fn find_route(&self, key: &RouteKey) -> Option<RouteRow>
        ensures { result ≡ at route_cmp key.now (raw self.now).route };

    /// The tables as they are.
    fn copy_tables(&self, alloc: Global) -> Result<Tables, NoMemory>
        ensures { IfOk result (λ tables. tables ≡ raw self.now) };

    // Each chip keeps the rules of its tables.
    ghost sound: { (chip : Self) → IsChip (caps chip) (raw chip) };
}
