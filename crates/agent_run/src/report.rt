// The report of a script's run.
ghost use Rattle.std.specs.Prelude.{◌≡◌, ◌≤◌, IfErr, IfOk, MatchOption, map};
ghost use Rattle.std.specs.List.{AllByRecursion};
ghost use Rattle.agent_run.specs.Run.{IsOverfull, ReportsRun, opening_of};
ghost use Rattle.agent_run.specs.Script.{ReportsScript};
ghost use Rattle.agent_run.specs.Standing.{sures_of};
ghost use Rattle.net_types.specs.Capacity.{over};
ghost use Rattle.run_outcome.specs.declared.refusal.RunFault.TheVariants.{NoMemory as OutOfMemory};
ghost use Rattle.run_outcome.specs.Opening.{IsBuilt, IsRunnable};
ghost use Rattle.run_outcome.specs.Reports.{IsReportOf};
ghost use Rattle.run_outcome.specs.Top.{IsBaseRefused, IsRefused, IsScriptRefused, OrNoMemory};
ghost use Rattle.script_text.specs.Ranges.{IsInRange};
ghost use Rattle.script_text.specs.declared.script.Start.TheVariants.{Cold};
ghost use Rattle.switch_model.specs.Rows.{rows};
ghost use Rattle.switch_model.specs.Sound.{IsSound};
ghost use Rattle.switch_state.specs.Plain.{plain};

use crate::run::{Work, run_on};
use base_state::{Base, lay};
use chip_core::SimChip;
use net_types::Caps;
use observers::{Observers, StateObserver};
use run_outcome::{Refusal, RunFault, unread};
use script_text::{Script, Start, read_script};
use std::alloc::Global;
use switch_state::SwitchState;

/// The report of the run of a script that is these bytes, or why there is none.
pub(crate) fn report_of<O: StateObserver>(
    alloc: Global,
    bytes: &[u8],
    observers: Observers<O>,
) -> Result<Vec<u8>, RunFault>
    ensures report { IfOk result (λ text. IsReportOf (sures_of (map O.watch observers.list.items)) bytes.now text.items) }
    ensures fault { IfErr result (OrNoMemory (IsRefused bytes.now)) }
    // what can be run is reported, unless memory runs out
    ensures only { IsRunnable bytes.now → IfErr result (λ fault. fault ≡ OutOfMemory) }
{
    match read_script(alloc, bytes) {
        Ok(script) => run_built(alloc, script, observers),
        Err(fault) => {
            drop(observers);
            Err(unread(fault))
        }
    }
}

/// The report of the run of a script, where it is built.
fn run_built<O: StateObserver>(
    alloc: Global,
    script: Script,
    observers: Observers<O>,
) -> Result<Vec<u8>, RunFault>
    requires range { IsInRange script }
    ensures report { IfOk result (λ text. IsBuilt script × ReportsScript script (sures_of (map O.watch observers.list.items)) text.items) }
    ensures fault { IfErr result (OrNoMemory (IsScriptRefused script)) }
{
    match built_caps(&script) {
        Some(caps) => run_script(alloc, caps, script, observers),
        None => {
            drop(script);
            drop(observers);
            Err(RunFault::Refused(Refusal::NotBuilt))
        }
    }
}

/// The capacities of a script that is run: none exactly where it starts warm, or hasn't one caller.
fn built_caps(script: &Script) -> Option<Caps>
    ensures built { MatchOption result (IsBuilt script.now → ⊥) (λ caps. IsBuilt script.now × (script.now.start ≡ Cold caps)) }
{
    if script.callers != 1 {
        return None;
    }
    match &script.start {
        Start::Cold(caps) => Some(*caps),
        Start::Warm(_) => None,
    }
}

/// The report of the run of a cold script with one caller.
fn run_script<O: StateObserver>(
    alloc: Global,
    caps: Caps,
    script: Script,
    observers: Observers<O>,
) -> Result<Vec<u8>, RunFault>
    requires start { script.start ≡ Cold caps }
    requires limit { script.limit ≤ 1000000 }
    requires callers { AllByRecursion (AllByRecursion (λ l. l.caller ≡ 0)) script.phases }
    ensures report { IfOk result (λ text. ReportsScript script (sures_of (map O.watch observers.list.items)) text.items) }
    ensures fault { IfErr result (OrNoMemory (IsBaseRefused script)) }
{
    let Script {
        start,
        limit,
        callers: _,
        base,
        phases,
    } = script;
    drop(start);
    let work = Work {
        caps,
        limit,
        phases,
    };
    match lay(alloc, base) {
        Ok(Base::Laid(state)) => run_state(alloc, state, work, observers),
        Ok(Base::Bad { line, reason }) => {
            drop(work);
            drop(observers);
            Err(RunFault::Refused(Refusal::Base { line, reason }))
        }
        Err(_) => {
            drop(work);
            drop(observers);
            Err(RunFault::NoMemory)
        }
    }
}

/// The report of what is done after a state of version 0, on a chip in memory.
fn run_state<O: StateObserver>(
    alloc: Global,
    state: SwitchState,
    work: Work,
    observers: Observers<O>,
) -> Result<Vec<u8>, RunFault>
    requires version { state.version ≡ 0 }
    requires sound { IsSound (plain state) }
    requires limit { work.limit ≤ 1000000 }
    requires callers { AllByRecursion (AllByRecursion (λ l. l.caller ≡ 0)) work.phases }
    ensures report { IfOk result (λ text. ReportsRun work (opening_of state work.caps) (sures_of (map O.watch observers.list.items)) text.items) }
    ensures fault { IfErr result (OrNoMemory (IsOverfull (over (rows (plain state)) work.caps))) }
{
    match SimChip::open(alloc, work.caps) {
        Ok(chip) => run_on(alloc, chip, state, work, observers),
        Err(_) => {
            drop(state);
            drop(work);
            drop(observers);
            Err(RunFault::NoMemory)
        }
    }
}
