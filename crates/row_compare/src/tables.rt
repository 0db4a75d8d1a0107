// The rows that differ, table by table.
ghost use Rattle.std.specs.Prelude.{IfOk};
ghost use Rattle.keyed.specs.Keyed.{Ascends};
ghost use Rattle.net_types.specs.KeyOrder.{l2_cmp, host_cmp, group_cmp, route_cmp};
ghost use Rattle.row_change_laws.specs.Between.{AreChangesBetween};

use crate::compare::changes_between;
use chip_core::{ChangeList, HostChangeList, L2ChangeList, MarkList, RouteChangeList};
use net_types::{HopTarget, HostKey, HostKeyList, HostRow, L2Key, L2Row, NoMemory, RouteKey};
use std::alloc::Global;

/// The changes from old rows of the l2 table to new ones: exactly the keys whose rows differ,
/// ascending, each with both rows.
pub fn l2_changes(
    alloc: Global,
    old: Vec<(L2Key, L2Row)>,
    new: Vec<(L2Key, L2Row)>,
) -> Result<L2ChangeList, NoMemory>
    requires old { Ascends l2_cmp old.items }
    requires new { Ascends l2_cmp new.items }
    ensures { IfOk result (λ changes. AreChangesBetween l2_cmp changes old.items new.items) }
{
    changes_between(alloc, old, new)
}

/// The same of the host table.
pub fn host_changes(
    alloc: Global,
    old: Vec<(HostKey, HostRow)>,
    new: Vec<(HostKey, HostRow)>,
) -> Result<HostChangeList, NoMemory>
    requires old { Ascends host_cmp old.items }
    requires new { Ascends host_cmp new.items }
    ensures { IfOk result (λ changes. AreChangesBetween host_cmp changes old.items new.items) }
{
    changes_between(alloc, old, new)
}

/// The same of the group table.
pub fn group_changes(
    alloc: Global,
    old: Vec<(HostKeyList, MarkList)>,
    new: Vec<(HostKeyList, MarkList)>,
) -> Result<ChangeList<HostKeyList, MarkList>, NoMemory>
    requires old { Ascends group_cmp old.items }
    requires new { Ascends group_cmp new.items }
    ensures { IfOk result (λ changes. AreChangesBetween group_cmp changes old.items new.items) }
{
    changes_between(alloc, old, new)
}

/// The same of the route table.
pub fn route_changes(
    alloc: Global,
    old: Vec<(RouteKey, HopTarget)>,
    new: Vec<(RouteKey, HopTarget)>,
) -> Result<RouteChangeList, NoMemory>
    requires old { Ascends route_cmp old.items }
    requires new { Ascends route_cmp new.items }
    ensures { IfOk result (λ changes. AreChangesBetween route_cmp changes old.items new.items) }
{
    changes_between(alloc, old, new)
}
