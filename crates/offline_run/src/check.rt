// The check of a saved text.
ghost use Rattle.std.specs.Prelude.{◌≡◌, None, IfErr, IfOk};
ghost use Rattle.chip_core.specs.Chip.{view_of};
ghost use Rattle.chip_rows.specs.Difference.{first_differing};
ghost use Rattle.offline_run.specs.Check.{IsDiffering, IsRefusedFor, IsUntaken, OrNoMemory, TellsOf, TellsOfState, ok_line};
ghost use Rattle.switch_model.specs.Rows.{rows};
ghost use Rattle.switch_model.specs.Sound.{IsSound};
ghost use Rattle.switch_state.specs.Plain.{plain};

use crate::text::core_line;
use chip_core::{HwSwitch, RowsFault, SimChip};
use net_types::NoMemory;
use observer_kinds::TotalsObserver;
use observers::Observers;
use run_outcome::SavedRefusal;
use saved_state::{Saved, SavedFault, read_saved};
use std::alloc::Global;
use switch_state::SwitchState;
use warm_boot::{WarmFault, open_warm};

/// Why there is no line that tells of a saved text.
#[derive(Clone, Copy, Debug, PartialEq, Eq)]
pub(crate) enum CheckFault {
    Refused(SavedRefusal),
    NoMemory,
}

impl From<NoMemory> for CheckFault {
    ghost use Rattle.std.specs.Prelude.{◌≡◌};
    ghost use Rattle.offline_run.specs.declared.check.CheckFault.TheVariants as check_faults;

    ghost from_gives = { λ _ fault. fault ≡ check_faults.NoMemory };

    fn from(_: NoMemory) -> CheckFault {
        CheckFault::NoMemory
    }
}

/// Tests a saved text as a warm start would, and tells of it.
pub(crate) fn check_text(alloc: Global, bytes: &[u8]) -> Result<Vec<u8>, CheckFault>
    ensures line { IfOk result (λ line. TellsOf bytes.now line.items) }
    ensures refused { IfErr result (OrNoMemory (IsRefusedFor bytes.now)) }
{
    match read_saved(alloc, bytes) {
        Ok(saved) => check_saved(alloc, saved),
        Err(SavedFault::NotJson) => Err(CheckFault::Refused(SavedRefusal::NotJson)),
        Err(SavedFault::BadShape) => Err(CheckFault::Refused(SavedRefusal::BadShape)),
        Err(SavedFault::BadDigest) => Err(CheckFault::Refused(SavedRefusal::BadDigest)),
        Err(SavedFault::BadState(reason)) => {
            Err(CheckFault::Refused(SavedRefusal::BadState(reason)))
        }
        Err(SavedFault::NoMemory) => Err(CheckFault::NoMemory),
    }
}

/// Makes a chip of the saved tables, and tests it and the state.
fn check_saved(alloc: Global, saved: Saved) -> Result<Vec<u8>, CheckFault>
    requires sound { IsSound (plain saved.state) }
    ensures line { IfOk result (λ line. TellsOfState saved.caps saved.tables saved.state.version (plain saved.state) line.items) }
    ensures refused { IfErr result (OrNoMemory (IsUntaken saved.caps saved.tables (plain saved.state))) }
{
    let Saved {
        caps,
        state,
        tables,
    } = saved;
    match SimChip::from_rows(alloc, caps, tables) {
        Ok(chip) => check_chip(alloc, state, chip),
        Err(RowsFault::BadRows) => {
            drop(state);
            Err(CheckFault::Refused(SavedRefusal::BadRows))
        }
        Err(RowsFault::NoMemory) => {
            drop(state);
            Err(CheckFault::NoMemory)
        }
    }
}

/// Takes a chip over with a state and no observers, and tells of the state.
fn check_chip<C: HwSwitch>(
    alloc: Global,
    state: SwitchState,
    chip: C,
) -> Result<Vec<u8>, CheckFault>
    requires sound { IsSound (plain state) }
    ensures line { IfOk result (λ line. line.items ≡ ok_line state.version (plain state)) }
    ensures shown { IfOk result (λ line. view_of (C.raw chip) ≡ rows (plain state)) }
    ensures alike { IfOk result (λ line. first_differing (view_of (C.raw chip)) (rows (plain state)) ≡ None) }
    ensures refused { IfErr result (OrNoMemory (IsDiffering (C.raw chip) (plain state))) }
{
    let observers: Observers<TotalsObserver> = Observers::new(Vec::new(alloc));
    match open_warm(alloc, state, chip, observers) {
        Ok(core) => {
            let line = core_line(alloc, &core);
            drop(core);
            match line {
                Ok(line) => Ok(line),
                Err(fault) => Err(fault.into()),
            }
        }
        Err(WarmFault::ChipDiffers(table)) => {
            Err(CheckFault::Refused(SavedRefusal::ChipDiffers(table)))
        }
        Err(WarmFault::NoMemory) => Err(CheckFault::NoMemory),
    }
}
