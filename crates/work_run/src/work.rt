// Generated work, from its seed to its summary.
ghost use Rattle.std.specs.Prelude.{◌≡◌, ◌∷◌, [], IfOk};
ghost use Rattle.core_laws.specs.Published.{journal_of};
ghost use Rattle.net_types.specs.Capacity.{Fits};
ghost use Rattle.script_text.specs.declared.script.Start.TheVariants.{Cold};
ghost use Rattle.switch_model.specs.Journal.{version_of};
ghost use Rattle.switch_model.specs.Rows.{rows};
ghost use Rattle.switch_model.specs.Sound.{IsSound};
ghost use Rattle.switch_state.specs.Plain.{plain};
ghost use Rattle.work_gen.specs.Generated.{generated, generated_caps, generated_lines};
ghost use Rattle.work_laws.specs.Summary.{IsWorkSummary, Sums};

use crate::blocks::serve_blocks;
use crate::summing::sum_up;
use agent_core::{Core, OpenFault};
use base_state::{Base, lay};
use chip_core::{HwSwitch, SimChip};
use net_types::{Caps, NoMemory};
use observer_kinds::TotalsObserver;
use observers::{Observers, StateObserver};
use script_text::{Line, LineList, PhaseList, Script, Start};
use solo_agent::SoloAgent;
use std::alloc::{AllocError, Global};
use switch_state::SwitchState;
use work_gen::make_script;

/// The summary of so many updates that are drawn from a seed: they are run by one caller on a switch in
/// memory, in blocks of sixteen, each of which is settled before the next one begins. The same seed and
/// count give the same summary everywhere.
///
/// Memory alone is refused: the base of the work is valid, and its rows fit.
pub fn run_work(alloc: Global, seed: u64, count: u32) -> Result<Vec<u8>, NoMemory>
    ensures summary { IfOk result (λ text. IsWorkSummary seed count text.items) }
{
    let script = make_script(alloc, seed, count)?;
    run_script(alloc, seed, count, script)
}

/// The summary of the seed's script.
fn run_script(alloc: Global, seed: u64, count: u32, script: Script) -> Result<Vec<u8>, NoMemory>
    requires script { script ≡ generated seed count }
    ensures summary { IfOk result (λ text. IsWorkSummary seed count text.items) }
{
    let Script {
        start,
        limit: _,
        callers: _,
        base,
        phases,
    } = script;
    let caps = cold_caps(start);
    match lay(alloc, base) {
        Ok(Base::Laid(state)) => {
            let text = run_state(alloc, seed, count, caps, state, &phases);
            drop(phases);
            text
        }
        Ok(Base::Bad { .. }) => unreachable!(),
        Err(fault) => {
            drop(phases);
            Err(fault)
        }
    }
}

/// The capacities of the seed's script.
fn cold_caps(start: Start) -> Caps
    requires cold { start ≡ Cold generated_caps }
    ensures { result ≡ generated_caps }
{
    match start {
        Start::Cold(caps) => caps,
        Start::Warm(_) => unreachable!(),
    }
}

/// The lines of the only phase.
fn only_phase(phases: &PhaseList, seed: u64, count: u32) -> &LineList
    requires one { phases.now ≡ generated_lines seed count ∷ [] }
    ensures { result.now ≡ generated_lines seed count }
{
    let _ = seed;
    let _ = count;
    match phases.at(0) {
        Some(lines) => lines,
        None => unreachable!(),
    }
}

/// The summary of the seed's lines on a state of version 0, whose rows fit.
fn run_state(
    alloc: Global,
    seed: u64,
    count: u32,
    caps: Caps,
    state: SwitchState,
    phases: &PhaseList,
) -> Result<Vec<u8>, NoMemory>
    requires phases { phases.now ≡ generated_lines seed count ∷ [] }
    requires version { state.version ≡ 0 }
    requires sound { IsSound (plain state) }
    requires fits { Fits (rows (plain state)) caps }
    ensures sums { IfOk result (λ text. Sums seed count (record { state = plain state; version = 0; caps = caps }) text.items) }
{
    let core = open_core(alloc, caps, state)?;
    run_lines(
        alloc,
        seed,
        count,
        core,
        only_phase(phases, seed, count).as_slice(),
    )
}

/// A core on an empty chip in memory, without observers.
fn open_core(
    alloc: Global,
    caps: Caps,
    state: SwitchState,
) -> Result<Core<SimChip, TotalsObserver>, NoMemory>
    requires version { state.version ≡ 0 }
    requires sound { IsSound (plain state) }
    requires fits { Fits (rows (plain state)) caps }
    ensures journal { IfOk result (λ c. journal_of c.published ≡ record { opening = record { state = plain state; version = 0; caps = caps }; rounds = [] }) }
{
    let chip = match SimChip::open(alloc, caps) {
        Ok(chip) => chip,
        Err(fault) => {
            drop(state);
            return Err(fault);
        }
    };
    match Core::open(alloc, chip, state, Observers::new(Vec::new(alloc))) {
        Ok(core) => Ok(core),
        Err(OpenFault::Full(_)) => unreachable!(),
        Err(OpenFault::NoMemory) => Err(AllocError),
    }
}

/// The summary of the seed's lines on a core whose journal is empty.
fn run_lines<C: HwSwitch, O: StateObserver>(
    alloc: Global,
    seed: u64,
    count: u32,
    core: Core<C, O>,
    lines: &[Line],
) -> Result<Vec<u8>, NoMemory>
    requires rounds { core.published.rounds ≡ [] }
    requires version { version_of (journal_of core.published) ≡ 0 }
    requires lines { lines.now ≡ generated_lines seed count }
    ensures sums { IfOk result (λ text. Sums seed count (journal_of core.published).opening text.items) }
{
    let mut agent = SoloAgent::open(alloc, core, u64::from(count))?;
    match serve_blocks(alloc, &mut agent, lines) {
        Ok(()) => {
            agent.shape();
            let text = sum_up(alloc, seed, count, agent.core());
            drop(agent);
            text
        }
        Err(fault) => {
            drop(agent);
            Err(fault)
        }
    }
}
