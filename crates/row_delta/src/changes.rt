// The rows that differ between two states.
ghost use Rattle.std.specs.Prelude.{◌≡◌, IfOk};
ghost use Rattle.chip_core.specs.Changes.{AreOldRows, changed_rows};
ghost use Rattle.hw_undo.specs.Counts.{differing};
ghost use Rattle.net_types.specs.Closed.{IsClosed};
ghost use Rattle.net_types.specs.Differ.{differ};
ghost use Rattle.row_change_laws.specs.Between.{AreRowChangesBetween, no_rows};
ghost use Rattle.row_change_laws.specs.Made.{added_rows};
ghost use Rattle.switch_model.specs.Rows.{rows};
ghost use Rattle.switch_state.specs.Follows.{Follows};
ghost use Rattle.switch_state.specs.Plain.{plain};
ghost use Rattle.state_laws.specs.Fib.{HasFib};

use crate::tables::{
    group_between, group_since, host_between, host_since, l2_between, l2_since, route_between,
    route_since,
};
use chip_core::{GroupChangeList, RowChanges};
use net_types::NoMemory;
use std::alloc::Global;
use switch_state::SwitchState;

/// The rows that differ between any two states, all four tables: exactly the keys whose rows differ,
/// ascending, each with both rows. It makes the rows of both states whole. The only error is that
/// memory was refused.
pub fn changes_between(
    alloc: Global,
    old: &SwitchState,
    new: &SwitchState,
) -> Result<RowChanges, NoMemory>
    requires old { HasFib old.now }
    requires new { HasFib new.now }
    // Exactly the keys whose rows differ are listed, with both rows.
    ensures rows { IfOk result (λ changes. AreRowChangesBetween changes (rows (plain old.now)) (rows (plain new.now))) }
    // The listed old rows are those of the old state.
    ensures old { IfOk result (λ changes. AreOldRows changes (rows (plain old.now))) }
    // The old rows with the changes are the rows of the new state.
    ensures new { IfOk result (λ changes. changed_rows changes (rows (plain old.now)) ≡ rows (plain new.now)) }
    // In these nothing leads to a row that isn't there.
    ensures closed { IfOk result (λ changes. IsClosed (rows (plain new.now))) }
    // As many changes are listed as rows differ.
    ensures count { IfOk result (λ changes. differing changes ≡ differ (rows (plain old.now)) (rows (plain new.now))) }
{
    old.shape();
    new.shape();
    all_between(alloc, old, new)
}

/// The rows that differ between a state and one that follows it. The rest is as for any two states.
pub fn row_changes(
    alloc: Global,
    old: &SwitchState,
    new: &SwitchState,
) -> Result<RowChanges, NoMemory>
    requires follows { Follows old.now new.now }
    requires old { HasFib old.now }
    requires new { HasFib new.now }
    // Exactly the keys whose rows differ are listed, with both rows.
    ensures rows { IfOk result (λ changes. AreRowChangesBetween changes (rows (plain old.now)) (rows (plain new.now))) }
    // The listed old rows are those of the old state.
    ensures old { IfOk result (λ changes. AreOldRows changes (rows (plain old.now))) }
    // The old rows with the changes are the rows of the new state.
    ensures new { IfOk result (λ changes. changed_rows changes (rows (plain old.now)) ≡ rows (plain new.now)) }
    // In these nothing leads to a row that isn't there.
    ensures closed { IfOk result (λ changes. IsClosed (rows (plain new.now))) }
    // As many changes are listed as rows differ.
    ensures count { IfOk result (λ changes. differing changes ≡ differ (rows (plain old.now)) (rows (plain new.now))) }
{
    changes_between(alloc, old, new)
}

/// All rows of a state, each as an added one: the changes from no rows at all to those of the state.
/// The only error is that memory was refused.
pub fn rows_of(alloc: Global, state: &SwitchState) -> Result<RowChanges, NoMemory>
    requires fib { HasFib state.now }
    // Exactly the rows of the state are listed, each as an added one.
    ensures added { IfOk result (λ changes. changes ≡ added_rows (rows (plain state.now))) }
    // They are the changes from no rows.
    ensures rows { IfOk result (λ changes. AreRowChangesBetween changes no_rows (rows (plain state.now))) }
    // The listed old rows are none.
    ensures old { IfOk result (λ changes. AreOldRows changes no_rows) }
    // No rows with the changes are the rows of the state.
    ensures new { IfOk result (λ changes. changed_rows changes no_rows ≡ rows (plain state.now)) }
    // In these nothing leads to a row that isn't there.
    ensures closed { IfOk result (λ changes. IsClosed (rows (plain state.now))) }
    // As many changes are listed as there are rows.
    ensures count { IfOk result (λ changes. differing changes ≡ differ no_rows (rows (plain state.now))) }
{
    state.shape();
    all_rows(alloc, state)
}

fn all_between(alloc: Global, old: &SwitchState, new: &SwitchState) -> Result<RowChanges, NoMemory>
    requires old_fib { HasFib old.now }
    requires new_fib { HasFib new.now }
    ensures { IfOk result (λ changes. AreRowChangesBetween changes (rows (plain old.now)) (rows (plain new.now))) }
{
    let l2 = l2_between(alloc, old, new)?;
    let host = host_between(alloc, old, new)?;
    let group = GroupChangeList::of(group_between(alloc, old, new)?);
    let route = route_between(alloc, old, new)?;
    Ok(RowChanges {
        l2,
        host,
        group,
        route,
    })
}

fn all_rows(alloc: Global, state: &SwitchState) -> Result<RowChanges, NoMemory>
    requires fib { HasFib state.now }
    ensures { IfOk result (λ changes. AreRowChangesBetween changes no_rows (rows (plain state.now))) }
{
    let l2 = l2_since(alloc, Vec::new(alloc), state)?;
    let host = host_since(alloc, Vec::new(alloc), state)?;
    let group = GroupChangeList::of(group_since(alloc, Vec::new(alloc), state)?);
    let route = route_since(alloc, Vec::new(alloc), state)?;
    Ok(RowChanges {
        l2,
        host,
        group,
        route,
    })
}
