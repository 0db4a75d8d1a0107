// How a core begins.
ghost use Rattle.std.specs.Prelude.{◌≡◌, ◌⊎◌, [], Err, IfOk, OnOk, Some, map};
ghost use Rattle.chip_core.specs.Chip.{empty, view_of};
ghost use Rattle.core_laws.specs.Audience.{WereBegun};
ghost use Rattle.core_laws.specs.Published.{journal_of};
ghost use Rattle.net_types.specs.Capacity.{over};
ghost use Rattle.net_types.specs.declared.table.Table.{Table};
ghost use Rattle.switch_model.specs.Rows.{rows};
ghost use Rattle.switch_model.specs.Sound.{IsSound};
ghost use Rattle.switch_state.specs.Plain.{plain};
ghost use Rattle.state_laws.specs.Fib.{HasFib};

use crate::fault::OpenFault;
use crate::switch_core::Core;
use chip_core::HwSwitch;
use core_audience::Audience;
use core_published::{ChipCaps, Published, first_rows, with_fib};
use hw_undo::{UndoLog, commit};
use net_types::NoMemory;
use observers::{Observers, StateObserver};
use std::alloc::Global;
use switch_state::SwitchState;

impl<C: HwSwitch, O: StateObserver> Core<C, O> {
    /// A core of an empty chip and a sound opening state. It makes the state's FIB, writes its rows to the
    /// chip, and begins each observer there. Where the rows don't fit, it names the first table that is too
    /// small. After a refusal chip, state and observers are dropped.
    pub fn open(
        alloc: Global,
        chip: C,
        base: SwitchState,
        observers: Observers<O>,
    ) -> Result<Core<C, O>, OpenFault>
        requires empty { C.raw chip ≡ empty }
        requires sound { IsSound (plain base) }
        ensures journal { IfOk result (λ c. journal_of c.published ≡ record { opening = record { state = plain base; version = base.version; caps = C.caps chip }; rounds = [] }) }
        ensures caps { IfOk result (λ c. c.caps ≡ C.caps chip) }
        ensures begun { IfOk result (λ c. WereBegun c.published.state (record { watches = map O.watch observers.list.items; kept = [] }) c.audience) }
        ensures full { (t : Table) → result ≡ Err (OpenFault.Full t) → over (rows (plain base)) (C.caps chip) ≡ Some t }
        ensures refused { (t : Table) → over (rows (plain base)) (C.caps chip) ≡ Some t → (result ≡ Err (OpenFault.Full t)) ⊎ (result ≡ Err OpenFault.NoMemory) }
    {
        let mut chip = chip;
        match program(alloc, &mut chip, &base) {
            Ok((state, log)) => {
                drop(base);
                let core = begin(alloc, chip, state, observers, log)?;
                Ok(core)
            }
            Err(fault) => {
                drop(chip);
                drop(base);
                drop(observers);
                Err(fault)
            }
        }
    }

    /// A core of a chip that shows the rows of a sound state with its FIB already. It writes nothing to the
    /// chip, and begins each observer at the state. After a refusal of memory chip, state and observers are
    /// dropped.
    pub fn adopt(
        alloc: Global,
        chip: C,
        base: SwitchState,
        observers: Observers<O>,
    ) -> Result<Core<C, O>, NoMemory>
        requires sound { IsSound (plain base) }
        requires fib { HasFib base }
        requires shown { view_of (C.raw chip) ≡ rows (plain base) }
        ensures journal { IfOk result (λ c. journal_of c.published ≡ record { opening = record { state = plain base; version = base.version; caps = C.caps chip }; rounds = [] }) }
        ensures raw { IfOk result (λ c. c.raw ≡ C.raw chip) }
        ensures writes { IfOk result (λ c. c.writes ≡ C.writes chip) }
        ensures caps { IfOk result (λ c. c.caps ≡ C.caps chip) }
        ensures begun { IfOk result (λ c. WereBegun c.published.state (record { watches = map O.watch observers.list.items; kept = [] }) c.audience) }
    {
        begin(alloc, chip, base, observers, UndoLog::new(alloc))
    }
}

// The state with its FIB, whose rows are on the chip then, and a log with room for writing them.
fn program<C: HwSwitch>(
    alloc: Global,
    chip: &mut C,
    base: &SwitchState,
) -> Result<(SwitchState, UndoLog), OpenFault>
    requires empty { C.raw chip.old ≡ empty }
    ensures same { IfOk result (λ made. plain made.0 ≡ plain base.now) }
    ensures version { IfOk result (λ made. made.0.version ≡ base.now.version) }
    ensures fib { IfOk result (λ made. HasFib made.0) }
    ensures shown { IfOk result (λ made. view_of (C.raw chip.new) ≡ rows (plain made.0)) }
    ensures caps { C.caps chip.new ≡ C.caps chip.old }
    ensures full { (t : Table) → result ≡ Err (OpenFault.Full t) → over (rows (plain base.now)) (C.caps chip.old) ≡ Some t }
    ensures refused { (t : Table) → over (rows (plain base.now)) (C.caps chip.old) ≡ Some t → (result ≡ Err (OpenFault.Full t)) ⊎ (result ≡ Err OpenFault.NoMemory) }
{
    let state = with_fib(alloc, base)?;
    match write_rows(alloc, chip, &state) {
        Ok(log) => Ok((state, log)),
        Err(fault) => {
            drop(state);
            Err(fault)
        }
    }
}

// Writes the rows of a state with its FIB to an empty chip.
fn write_rows<C: HwSwitch>(
    alloc: Global,
    chip: &mut C,
    state: &SwitchState,
) -> Result<UndoLog, OpenFault>
    requires empty { C.raw chip.old ≡ empty }
    requires fib { HasFib state.now }
    ensures shown { OnOk result (view_of (C.raw chip.new) ≡ rows (plain state.now)) }
    ensures caps { C.caps chip.new ≡ C.caps chip.old }
    ensures full { (t : Table) → result ≡ Err (OpenFault.Full t) → over (rows (plain state.now)) (C.caps chip.old) ≡ Some t }
    ensures refused { (t : Table) → over (rows (plain state.now)) (C.caps chip.old) ≡ Some t → (result ≡ Err (OpenFault.Full t)) ⊎ (result ≡ Err OpenFault.NoMemory) }
{
    let changes = first_rows(alloc, state)?;
    let mut log = UndoLog::new(alloc);
    log.reserve(changes.writes())?;
    match commit(chip, changes, &mut log) {
        Ok(()) => Ok(log),
        Err(table) => {
            drop(log);
            Err(OpenFault::Full(table))
        }
    }
}

// A core of a chip that shows the rows of a sound state with its FIB, and of a log.
fn begin<C: HwSwitch, O: StateObserver>(
    alloc: Global,
    chip: C,
    base: SwitchState,
    observers: Observers<O>,
    log: UndoLog,
) -> Result<Core<C, O>, NoMemory>
    requires sound { IsSound (plain base) }
    requires fib { HasFib base }
    requires shown { view_of (C.raw chip) ≡ rows (plain base) }
    ensures journal { IfOk result (λ c. journal_of c.published ≡ record { opening = record { state = plain base; version = base.version; caps = C.caps chip }; rounds = [] }) }
    ensures raw { IfOk result (λ c. c.raw ≡ C.raw chip) }
    ensures writes { IfOk result (λ c. c.writes ≡ C.writes chip) }
    ensures caps { IfOk result (λ c. c.caps ≡ C.caps chip) }
    ensures begun { IfOk result (λ c. WereBegun c.published.state (record { watches = map O.watch observers.list.items; kept = [] }) c.audience) }
{
    let caps = ChipCaps::of(&chip);
    let published = Published::open(base, caps)?;
    published.shape();
    let audience = Audience::begin(alloc, observers, published.state())?;
    Ok(Core {
        chip,
        published,
        audience,
        log,
    })
}
