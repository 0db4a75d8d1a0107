// What is written to a chip, and who is told of it.
ghost use Rattle.std.specs.Prelude.{◌≡◌, IfNone, IfOk, IfSome, OnErr};
ghost use Rattle.std.specs.List.{AllByRecursion};
ghost use Rattle.agent_core.specs.Written.{WasUndone, WasWritten};
ghost use Rattle.chip_core.specs.Changes.{AreOldRows, changed_rows};
ghost use Rattle.chip_core.specs.Chip.{view_of};
ghost use Rattle.net_types.specs.Closed.{IsClosed};
ghost use Rattle.switch_state.specs.Follows.{Follows};

use chip_core::{HwSwitch, RowChanges};
use core_audience::Audience;
use hw_undo::{UndoLog, commit};
use net_types::{NoMemory, Table};
use observers::StateObserver;
use std::alloc::Global;
use switch_state::SwitchState;

/// Writes the rows that change to the chip, and tells the observers of the state that has them. Where the
/// rows don't fit, chip and observers are as before, and it names the first table that is too small. All
/// memory is taken before the first write; after a refusal chip and observers are as before.
pub(crate) fn write<C: HwSwitch, O: StateObserver>(
    alloc: Global,
    chip: &mut C,
    log: &mut UndoLog,
    audience: &mut Audience<O>,
    changes: RowChanges,
    state: &SwitchState,
) -> Result<Option<Table>, NoMemory>
    requires old { AreOldRows changes (view_of (C.raw chip.old)) }
    requires closed { IsClosed (changed_rows changes (view_of (C.raw chip.old))) }
    requires follows { AllByRecursion (λ k. Follows k state.now) audience.old.kept }
    ensures written { IfOk result (λ full. IfNone full (WasWritten changes state.now (C.caps chip.old) (C.raw chip.old) (C.raw chip.new) (C.writes chip.old) (C.writes chip.new) audience.old audience.new)) }
    ensures undone { IfOk result (λ full. IfSome full (λ t. WasUndone t changes (C.caps chip.old) (C.raw chip.old) (C.raw chip.new) (C.writes chip.old) (C.writes chip.new) audience.old audience.new)) }
    ensures caps { C.caps chip.new ≡ C.caps chip.old }
    ensures chip { OnErr result (chip.new ≡ chip.old) }
    ensures audience { OnErr result (audience.new ≡ audience.old) }
{
    let shares = audience.shares(alloc, state)?;
    log.reserve(changes.writes())?;
    match commit(chip, changes, log) {
        Ok(()) => {
            audience.tell(state, shares);
            Ok(None)
        }
        Err(table) => {
            drop(shares);
            Ok(Some(table))
        }
    }
}
