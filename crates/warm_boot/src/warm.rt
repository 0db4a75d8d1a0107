// How a core begins on a chip that was left running.
ghost use Rattle.std.specs.Prelude.{◌≡◌, ◌⊎◌, [], Err, IfOk, Some, map};
ghost use Rattle.chip_core.specs.Chip.{view_of};
ghost use Rattle.chip_rows.specs.Difference.{first_differing};
ghost use Rattle.core_laws.specs.Audience.{WereBegun};
ghost use Rattle.core_laws.specs.Published.{journal_of};
ghost use Rattle.net_types.specs.declared.table.Table.{Table};
ghost use Rattle.state_laws.specs.Fib.{HasFib};
ghost use Rattle.switch_model.specs.Rows.{rows};
ghost use Rattle.switch_model.specs.Sound.{IsSound};
ghost use Rattle.switch_state.specs.Plain.{plain};

use crate::compared::first_other;
use crate::fault::WarmFault;
use agent_core::Core;
use chip_core::HwSwitch;
use core_published::with_fib;
use observers::{Observers, StateObserver};
use std::alloc::Global;
use switch_state::SwitchState;

/// A core of a chip that shows the rows of a sound state already, as after a restart of the agent
/// alone. It makes the state's FIB, compares the chip's rows with the state's, and begins each observer
/// at the state. It writes nothing to the chip. Where the rows differ, it names the first table that does.
/// After a refusal chip, state and observers are dropped.
pub fn open_warm<C: HwSwitch, O: StateObserver>(
    alloc: Global,
    state: SwitchState,
    chip: C,
    observers: Observers<O>,
) -> Result<Core<C, O>, WarmFault>
    requires sound { IsSound (plain state) }
    ensures journal { IfOk result (λ c. journal_of c.published ≡ record { opening = record { state = plain state; version = state.version; caps = C.caps chip }; rounds = [] }) }
    ensures raw { IfOk result (λ c. c.raw ≡ C.raw chip) }
    ensures writes { IfOk result (λ c. c.writes ≡ C.writes chip) }
    ensures caps { IfOk result (λ c. c.caps ≡ C.caps chip) }
    ensures begun { IfOk result (λ c. WereBegun c.published.state (record { watches = map O.watch observers.list.items; kept = [] }) c.audience) }
    ensures differs { (t : Table) → result ≡ Err (WarmFault.ChipDiffers t) → first_differing (view_of (C.raw chip)) (rows (plain state)) ≡ Some t }
    ensures refused { (t : Table) → first_differing (view_of (C.raw chip)) (rows (plain state)) ≡ Some t → (result ≡ Err (WarmFault.ChipDiffers t)) ⊎ (result ≡ Err WarmFault.NoMemory) }
{
    match with_fib(alloc, &state) {
        Ok(base) => {
            drop(state);
            adopt_shown(alloc, base, chip, observers)
        }
        Err(fault) => {
            drop(state);
            drop(chip);
            drop(observers);
            Err(fault.into())
        }
    }
}

/// The same, for a state with its FIB.
fn adopt_shown<C: HwSwitch, O: StateObserver>(
    alloc: Global,
    base: SwitchState,
    chip: C,
    observers: Observers<O>,
) -> Result<Core<C, O>, WarmFault>
    requires sound { IsSound (plain base) }
    requires fib { HasFib base }
    ensures journal { IfOk result (λ c. journal_of c.published ≡ record { opening = record { state = plain base; version = base.version; caps = C.caps chip }; rounds = [] }) }
    ensures raw { IfOk result (λ c. c.raw ≡ C.raw chip) }
    ensures writes { IfOk result (λ c. c.writes ≡ C.writes chip) }
    ensures caps { IfOk result (λ c. c.caps ≡ C.caps chip) }
    ensures begun { IfOk result (λ c. WereBegun c.published.state (record { watches = map O.watch observers.list.items; kept = [] }) c.audience) }
    ensures differs { (t : Table) → result ≡ Err (WarmFault.ChipDiffers t) → first_differing (view_of (C.raw chip)) (rows (plain base)) ≡ Some t }
    ensures refused { (t : Table) → first_differing (view_of (C.raw chip)) (rows (plain base)) ≡ Some t → (result ≡ Err (WarmFault.ChipDiffers t)) ⊎ (result ≡ Err WarmFault.NoMemory) }
{
    match first_other(alloc, &chip, &base) {
        Ok(None) => match Core::adopt(alloc, chip, base, observers) {
            Ok(core) => Ok(core),
            Err(fault) => Err(fault.into()),
        },
        Ok(Some(table)) => {
            drop(base);
            drop(chip);
            drop(observers);
            Err(WarmFault::ChipDiffers(table))
        }
        Err(fault) => {
            drop(base);
            drop(chip);
            drop(observers);
            Err(fault.into())
        }
    }
}
