// The calls of the layers below, in the words of the core.
ghost use Rattle.std.specs.Prelude.{◌≡◌, ◌<◌, IfOk, OnOk};
ghost use Rattle.core_laws.specs.Changes.{AreChanges};
ghost use Rattle.switch_model.specs.Rows.{rows};
ghost use Rattle.switch_state.specs.Follows.{Follows};
ghost use Rattle.switch_state.specs.Plain.{plain};
ghost use Rattle.switch_state.specs.StateView.{nothing};
ghost use Rattle.state_laws.specs.Fib.{HasFib};

use chip_core::RowChanges;
use fib_make::{make_fib, renew_fib};
use net_types::NoMemory;
use row_delta::{row_changes, rows_of};
use std::alloc::Global;
use switch_state::{StateEdit, SwitchState};

/// The state with the FIB that its routes and interfaces give, at its version.
pub fn with_fib(alloc: Global, state: &SwitchState) -> Result<SwitchState, NoMemory>
    ensures plain { IfOk result (λ s. plain s ≡ plain state.now) }
    ensures version { IfOk result (λ s. s.version ≡ state.now.version) }
    ensures fib { IfOk result HasFib }
{
    let mut edit = StateEdit::of(alloc, state, state.version())?;
    make_fib(alloc, &mut edit)?;
    Ok(edit.finish())
}

/// Makes the FIB of an edit of that state the one that the edit's routes and interfaces give.
pub(crate) fn renew_fib_of(
    alloc: Global,
    old: &SwitchState,
    edit: &mut StateEdit,
) -> Result<(), NoMemory>
    requires base { edit.old.base ≡ old.now }
    requires later { old.now.version < edit.old.state.version }
    requires fib { HasFib old.now }
    requires fibs { edit.old.state.fibs ≡ old.now.fibs }
    ensures fib { OnOk result (HasFib edit.new.state) }
    ensures others { OnOk result (edit.new ≡ record edit.old { state = record edit.old.state { fibs = edit.new.state.fibs } }) }
    ensures plain { OnOk result (plain edit.new.state ≡ plain edit.old.state) }
{
    renew_fib(alloc, old, edit)?;
    Ok(())
}

/// The rows that differ between a state and one that follows it, both with their FIBs.
pub(crate) fn rows_changed(
    alloc: Global,
    old: &SwitchState,
    new: &SwitchState,
) -> Result<RowChanges, NoMemory>
    requires follows { Follows old.now new.now }
    requires old { HasFib old.now }
    requires new { HasFib new.now }
    ensures changes { IfOk result (λ changes. AreChanges (rows (plain old.now)) (rows (plain new.now)) changes) }
{
    let changes = row_changes(alloc, old, new)?;
    Ok(changes)
}

/// All rows of a state with its FIB, as the changes from those of the state of nothing.
pub fn first_rows(alloc: Global, state: &SwitchState) -> Result<RowChanges, NoMemory>
    requires fib { HasFib state.now }
    ensures changes { IfOk result (λ changes. AreChanges (rows (plain nothing)) (rows (plain state.now)) changes) }
{
    let changes = rows_of(alloc, state)?;
    Ok(changes)
}
