// What can be told of tables row by row, without memory.
ghost use Rattle.std.specs.Prelude.{◌≡◌, ◌<◌, ◌==◌, ◌↔◌, All, IsSome, IsTrue, is_some, nat_eq, option_copied};
ghost use Rattle.std.specs.List.{IsDistinct, list_any};
ghost use Rattle.std.specs.Option.{option_map};
ghost use Rattle.std.specs.Ordering.{nat_cmp};
ghost use Rattle.keyed.specs.Keyed.{Ascends, at};
ghost use Rattle.chip_core.specs.Chip.{AreShaped};
ghost use Rattle.chip_core.specs.References.{IsRouteHeld};
ghost use Rattle.chip_core.specs.Sim.{tables_of, targets};
ghost use Rattle.chip_core.specs.Slots.{host_at, host_entries, hosts_of};
ghost use Rattle.chip_core.specs.Tables.{AreInOrder, AreSlots, IsGroupRow, MembersHeld, RoutesHeld};
ghost use Rattle.sorted_table.specs.Rows.{IsSorted};

use crate::slots::are_below;
use net_types::{Caps, HostKey, HostRow, Member, MemberList, RouteKey, RouteRow, Tables};

/// Whether the tables keep a chip's rules, and no group names a host twice, save that a host or a
/// group may stand in two slots.
pub(crate) fn are_shaped(caps: Caps, tables: &Tables) -> bool
    ensures { IsTrue result ↔ AreShaped caps tables.now }
{
    if !are_in_order(caps, tables) {
        return false;
    }
    let groups = tables.group.as_slice();
    if !are_group_rows(groups) {
        return false;
    }
    are_linked(tables.host.as_slice(), groups, tables.route.as_slice())
}

/// Whether rows ascend by key or by slot, and have room.
fn are_in_order(caps: Caps, tables: &Tables) -> bool
    ensures { IsTrue result ↔ AreInOrder caps tables.now }
{
    if !is_sorted(tables.l2.as_slice(), caps.l2) {
        return false;
    }
    if !is_sorted(tables.route.as_slice(), caps.route) {
        return false;
    }
    if !are_host_slots(tables.host.as_slice(), caps.host) {
        return false;
    }
    are_slots(tables.group.as_slice(), caps.group)
}

/// Whether keys ascend, and are no more than the capacity.
fn is_sorted<K: Ord, V>(rows: &[(K, V)], capacity: u32) -> bool
    ensures { IsTrue result ↔ IsSorted K.cmp capacity rows.now }
{
    if rows.len() > capacity as usize {
        return false;
    }
    keyed::ascends(rows)
}

/// Whether slots ascend, and are below the capacity.
fn are_slots<V>(rows: &[(u32, V)], capacity: u32) -> bool
    ensures { IsTrue result ↔ AreSlots capacity rows.now }
{
    if !keyed::ascends(rows) {
        return false;
    }
    are_below(rows, capacity)
}

/// Whether the hosts' slots ascend, and are below the capacity.
fn are_host_slots(hosts: &[(u32, HostKey, HostRow)], capacity: u32) -> bool
    ensures { IsTrue result ↔ AreSlots capacity (host_entries hosts.now) }
{
    if !hosts.is_sorted_by(|host, next| host.0.cmp(&next.0).is_lt()) {
        return false;
    }
    are_hosts_below(hosts, capacity)
}

/// Whether each host's slot is below the capacity.
fn are_hosts_below(hosts: &[(u32, HostKey, HostRow)], capacity: u32) -> bool
    ensures { IsTrue result ↔ All (λ host. host.0 < capacity) hosts.now }
{
    hosts.iter().all(|host| host.0 < capacity)
}

/// Whether each list makes a group.
fn are_group_rows(groups: &[(u32, MemberList)]) -> bool
    ensures { IsTrue result ↔ All (λ group. IsGroupRow group.1) groups.now }
{
    for group in groups {
        if !is_group_row(group.1.as_slice()) {
            return false;
        }
    }
    true
}

/// Whether the members are 2 to 64, no two of them one host.
fn is_group_row(members: &[Member]) -> bool
    ensures { IsTrue result ↔ IsGroupRow members.now }
{
    let count = members.len();
    if count < 2 || count > 64 {
        return false;
    }
    are_distinct(members)
}

/// Whether no two members are one host.
fn are_distinct(members: &[Member]) -> bool
    ensures { IsTrue result ↔ IsDistinct nat_eq (hosts_of members.now) }
{
    for place in 0..members.len() {
        if is_named(members[place].host, &members[place + 1..]) {
            return false;
        }
    }
    true
}

/// Whether a member is this host.
fn is_named(host: u32, members: &[Member]) -> bool
    ensures { result ≡ list_any (λ member. host == member.host) members.now }
{
    members.iter().any(|member| host == member.host)
}

/// Whether what members and routes lead to is there.
fn are_linked(
    hosts: &[(u32, HostKey, HostRow)],
    groups: &[(u32, MemberList)],
    routes: &[(RouteKey, RouteRow)],
) -> bool
    requires hosts { Ascends nat_cmp (host_entries hosts.now) }
    requires groups { Ascends nat_cmp groups.now }
    ensures { IsTrue result ↔ (MembersHeld (host_entries hosts.now) groups.now
        × RoutesHeld (host_entries hosts.now) groups.now routes.now) }
{
    if !are_groups_held(hosts, groups) {
        return false;
    }
    are_routes_held(hosts, groups, routes)
}

/// Whether each group's hosts are there.
fn are_groups_held(hosts: &[(u32, HostKey, HostRow)], groups: &[(u32, MemberList)]) -> bool
    requires { Ascends nat_cmp (host_entries hosts.now) }
    ensures { IsTrue result ↔ MembersHeld (host_entries hosts.now) groups.now }
{
    for group in groups {
        if !are_held(hosts, group.1.as_slice()) {
            return false;
        }
    }
    true
}

/// Whether each member's host is there.
fn are_held(hosts: &[(u32, HostKey, HostRow)], members: &[Member]) -> bool
    requires { Ascends nat_cmp (host_entries hosts.now) }
    ensures { IsTrue result ↔ All (λ member. IsSome (at nat_cmp member.host (host_entries hosts.now))) members.now }
{
    for member in members {
        if !is_host(hosts, member.host) {
            return false;
        }
    }
    true
}

/// Whether what each route leads to is there.
fn are_routes_held(
    hosts: &[(u32, HostKey, HostRow)],
    groups: &[(u32, MemberList)],
    routes: &[(RouteKey, RouteRow)],
) -> bool
    requires hosts { Ascends nat_cmp (host_entries hosts.now) }
    requires groups { Ascends nat_cmp groups.now }
    ensures { IsTrue result ↔ RoutesHeld (host_entries hosts.now) groups.now routes.now }
{
    for route in routes {
        if !is_route_held(hosts, groups, &route.1) {
            return false;
        }
    }
    true
}

/// Whether what the route leads to is there.
fn is_route_held(
    hosts: &[(u32, HostKey, HostRow)],
    groups: &[(u32, MemberList)],
    row: &RouteRow,
) -> bool
    requires hosts { Ascends nat_cmp (host_entries hosts.now) }
    requires groups { Ascends nat_cmp groups.now }
    ensures { IsTrue result ↔ IsRouteHeld (tables_of (targets (host_entries hosts.now) groups.now)) row.now }
{
    match row {
        RouteRow::Host(slot) => is_host(hosts, *slot),
        RouteRow::Group(slot) => keyed::contains(groups, slot),
        RouteRow::ToCpu | RouteRow::Discard => true,
    }
}

/// Whether a host stands in the slot.
fn is_host(hosts: &[(u32, HostKey, HostRow)], slot: u32) -> bool
    requires { Ascends nat_cmp (host_entries hosts.now) }
    ensures { result ≡ is_some (at nat_cmp slot (host_entries hosts.now)) }
{
    host_in(hosts, slot).is_some()
}

/// The row of the host in the slot, by binary search.
pub(crate) fn host_in(
    hosts: &[(u32, HostKey, HostRow)],
    slot: u32,
) -> Option<&(u32, HostKey, HostRow)>
    requires { Ascends nat_cmp (host_entries hosts.now) }
    ensures { option_map (λ host. (host.1, host.2)) (option_copied result) ≡ host_at slot hosts.now }
{
    match hosts.binary_search_by(|host| host.0.cmp(&slot)) {
        Ok(at) => Some(&hosts[at]),
        Err(_) => None,
    }
}
