// The rows that differ, table by table.
ghost use Rattle.std.specs.Prelude.{IfOk};
ghost use Rattle.keyed.specs.Keyed.{Ascends};
ghost use Rattle.net_types.specs.KeyOrder.{l2_cmp, host_cmp, group_cmp, route_cmp};
ghost use Rattle.row_change_laws.specs.Between.{AreChangesBetween};
ghost use Rattle.switch_model.specs.Rows.{rows};
ghost use Rattle.switch_state.specs.Plain.{plain};
ghost use Rattle.state_laws.specs.Fib.{HasFib};

use chip_core::{ChangeList, HostChangeList, L2ChangeList, MarkList, RouteChangeList};
use net_types::{HopTarget, HostKey, HostKeyList, HostRow, L2Key, L2Row, NoMemory, RouteKey};
use row_compare::{group_changes, host_changes, l2_changes, route_changes};
use row_sources::{group_rows, host_rows, l2_rows, route_rows};
use std::alloc::Global;
use switch_state::SwitchState;

/// The changes from these rows of the l2 table to those of the state.
pub(crate) fn l2_since(
    alloc: Global,
    old: Vec<(L2Key, L2Row)>,
    state: &SwitchState,
) -> Result<L2ChangeList, NoMemory>
    requires { Ascends l2_cmp old.items }
    ensures { IfOk result (λ changes. AreChangesBetween l2_cmp changes old.items (rows (plain state.now)).l2) }
{
    state.shape();
    let new = l2_rows(alloc, state)?;
    l2_changes(alloc, old, new)
}

/// The changes of the l2 table from one state to another.
pub(crate) fn l2_between(
    alloc: Global,
    old: &SwitchState,
    new: &SwitchState,
) -> Result<L2ChangeList, NoMemory>
    ensures { IfOk result (λ changes. AreChangesBetween l2_cmp changes (rows (plain old.now)).l2 (rows (plain new.now)).l2) }
{
    old.shape();
    let rows = l2_rows(alloc, old)?;
    l2_since(alloc, rows, new)
}

/// The changes from these rows of the host table to those of the state.
pub(crate) fn host_since(
    alloc: Global,
    old: Vec<(HostKey, HostRow)>,
    state: &SwitchState,
) -> Result<HostChangeList, NoMemory>
    requires fib { HasFib state.now }
    requires old { Ascends host_cmp old.items }
    ensures { IfOk result (λ changes. AreChangesBetween host_cmp changes old.items (rows (plain state.now)).host) }
{
    state.shape();
    let new = host_rows(alloc, state)?;
    host_changes(alloc, old, new)
}

/// The changes of the host table from one state to another.
pub(crate) fn host_between(
    alloc: Global,
    old: &SwitchState,
    new: &SwitchState,
) -> Result<HostChangeList, NoMemory>
    requires old_fib { HasFib old.now }
    requires new_fib { HasFib new.now }
    ensures { IfOk result (λ changes. AreChangesBetween host_cmp changes (rows (plain old.now)).host (rows (plain new.now)).host) }
{
    old.shape();
    let rows = host_rows(alloc, old)?;
    host_since(alloc, rows, new)
}

/// The changes from these rows of the group table to those of the state.
pub(crate) fn group_since(
    alloc: Global,
    old: Vec<(HostKeyList, MarkList)>,
    state: &SwitchState,
) -> Result<ChangeList<HostKeyList, MarkList>, NoMemory>
    requires fib { HasFib state.now }
    requires old { Ascends group_cmp old.items }
    ensures { IfOk result (λ changes. AreChangesBetween group_cmp changes old.items (rows (plain state.now)).group) }
{
    state.shape();
    let new = group_rows(alloc, state)?;
    group_changes(alloc, old, new)
}

/// The changes of the group table from one state to another.
pub(crate) fn group_between(
    alloc: Global,
    old: &SwitchState,
    new: &SwitchState,
) -> Result<ChangeList<HostKeyList, MarkList>, NoMemory>
    requires old_fib { HasFib old.now }
    requires new_fib { HasFib new.now }
    ensures { IfOk result (λ changes. AreChangesBetween group_cmp changes (rows (plain old.now)).group (rows (plain new.now)).group) }
{
    old.shape();
    let rows = group_rows(alloc, old)?;
    group_since(alloc, rows, new)
}

/// The changes from these rows of the route table to those of the state.
pub(crate) fn route_since(
    alloc: Global,
    old: Vec<(RouteKey, HopTarget)>,
    state: &SwitchState,
) -> Result<RouteChangeList, NoMemory>
    requires fib { HasFib state.now }
    requires old { Ascends route_cmp old.items }
    ensures { IfOk result (λ changes. AreChangesBetween route_cmp changes old.items (rows (plain state.now)).route) }
{
    state.shape();
    let new = route_rows(alloc, state)?;
    route_changes(alloc, old, new)
}

/// The changes of the route table from one state to another.
pub(crate) fn route_between(
    alloc: Global,
    old: &SwitchState,
    new: &SwitchState,
) -> Result<RouteChangeList, NoMemory>
    requires old_fib { HasFib old.now }
    requires new_fib { HasFib new.now }
    ensures { IfOk result (λ changes. AreChangesBetween route_cmp changes (rows (plain old.now)).route (rows (plain new.now)).route) }
{
    old.shape();
    let rows = route_rows(alloc, old)?;
    route_since(alloc, rows, new)
}
