// The rows that a chip's tables mean.
ghost use Rattle.std.specs.Prelude.{◌≡◌, IfOk};
ghost use Rattle.keyed.specs.Named.{gathered};
ghost use Rattle.net_types.specs.KeyOrder.{group_cmp};
ghost use Rattle.chip_core.specs.Chip.{IsConsistent, view_of};
ghost use Rattle.chip_rows.specs.BySlot.{host_keys};

use crate::groups::GroupLists;
use crate::hosts::{host_keys, host_rows};
use crate::lists::RowLists;
use crate::routes::route_rows;
use crate::sorted::by_key;
use chip_core::MarkList;
use net_types::{HopTarget, HostKeyList, ItemList, NoMemory, RouteKey, Tables};
use std::alloc::Global;

/// The rows of the group and of the route table.
#[derive(Drop)]
struct LinkedRows {
    group: Vec<(HostKeyList, MarkList)>,
    route: Vec<(RouteKey, HopTarget)>,
}

/// The rows that a chip's tables mean: by ascending key, with the keys of hosts and of groups in the
/// place of their slots, and with the marks of a group's members. What is in a slot is found by binary
/// search. All routes to one group share its list of hosts.
pub fn rows_of(alloc: Global, tables: &Tables) -> Result<RowLists, NoMemory>
    requires consistent { IsConsistent tables.now }
    ensures rows { IfOk result (λ rows. rows ≡ view_of tables.now) }
{
    let LinkedRows { group, route } = linked_rows(alloc, tables)?;
    let host = host_rows(alloc, tables.host.as_slice())?;
    let l2 = tables.l2.copy(alloc)?;
    Ok(RowLists::of(
        l2,
        ItemList::from_vec(host),
        ItemList::from_vec(group),
        ItemList::from_vec(route),
    ))
}

/// The rows of the tables that lead to slots.
fn linked_rows(alloc: Global, tables: &Tables) -> Result<LinkedRows, NoMemory>
    requires consistent { IsConsistent tables.now }
    ensures group { IfOk result (λ rows. rows.group.items ≡ (view_of tables.now).group) }
    ensures route { IfOk result (λ rows. rows.route.items ≡ (view_of tables.now).route) }
{
    let hosts = host_keys(alloc, tables.host.as_slice())?;
    let groups = GroupLists::of(alloc, hosts.as_slice(), tables.group.as_slice())?;
    let route = route_rows(
        alloc,
        hosts.as_slice(),
        groups.by_slot.as_slice(),
        tables.route.as_slice(),
    )?;
    let GroupLists { by_slot, rows } = groups;
    drop(by_slot);
    drop(hosts);
    Ok(LinkedRows {
        group: by_key(rows),
        route,
    })
}
