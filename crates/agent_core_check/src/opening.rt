// Cores that scripts begin with.
ghost use Rattle.std.specs.Prelude.{◌≡◌, IfOk};
ghost use Rattle.switch_model.specs.Sound.{IsSound};
ghost use Rattle.switch_state.specs.Plain.{plain};

use agent_core::{Core, OpenFault};
use chip_core::SimChip;
use net_types::{Caps, NoMemory};
use observers::{Observers, StateObserver};
use script_text::{BaseList, Script, Start, read_script};
use state_update::build;
use std::alloc::Global;
use std::test::Fail;
use switch_model::ActList;
use switch_state::SwitchState;

/// The script of a text.
pub fn script_of(alloc: Global, text: &[u8]) -> Result<Script, Fail> {
    let script = read_script(alloc, text);
    Ok(script.ok().ok_or("no script")?)
}

/// The capacities of a cold start.
pub fn caps_of(start: &Start) -> Result<Caps, Fail> {
    match start {
        Start::Cold(caps) => Ok(*caps),
        Start::Warm(_) => Err(Fail::from("no cold start")),
    }
}

/// The core of a sound state, on an empty chip.
pub fn core_of<O: StateObserver>(
    alloc: Global,
    caps: Caps,
    state: SwitchState,
    observers: Observers<O>,
) -> Result<Core<SimChip, O>, OpenFault>
    requires sound { IsSound (plain state) }
{
    match SimChip::open(alloc, caps) {
        Ok(chip) => Core::open(alloc, chip, state, observers),
        Err(fault) => {
            drop(state);
            drop(observers);
            Err(OpenFault::from(fault))
        }
    }
}

/// The state of the base's acts.
pub fn state_of(alloc: Global, base: BaseList) -> Result<SwitchState, Fail>
    ensures sound { IfOk result (λ s. IsSound (plain s)) }
{
    let acts = acts_of(alloc, base)?;
    let state = build(alloc, 0, &acts);
    drop(acts);
    Ok(state.ok().ok_or("no base")?)
}

fn acts_of(alloc: Global, base: BaseList) -> Result<ActList, NoMemory> {
    let mut acts = ActList::new(alloc);
    for (_, act) in base.into_vec() {
        acts.push(act)?;
    }
    Ok(acts)
}
