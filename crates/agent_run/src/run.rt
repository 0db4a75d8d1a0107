// The run of one caller's lines on a switch, up to its report.
ghost use Rattle.std.specs.Prelude.{◌≡◌, ◌≤◌, [], false, IfErr, IfOk, map};
ghost use Rattle.std.specs.List.{AllByRecursion};
ghost use Rattle.agent_run.specs.Run.{IsOverfull, ReportsRun, opening_of, report_by, report_of, unopened};
ghost use Rattle.agent_run.specs.Standing.{standing_of, sures_of};
ghost use Rattle.chip_core.specs.Chip.{empty as no_rows, view_of};
ghost use Rattle.core_laws.specs.Published.{journal_of};
ghost use Rattle.keyed.specs.Keyed.{Ascends};
ghost use Rattle.net_types.specs.Capacity.{over};
ghost use Rattle.net_types.specs.KeyOrder.{group_cmp};
ghost use Rattle.report_text.specs.Report.{report};
ghost use Rattle.run_outcome.specs.Top.{OrNoMemory};
ghost use Rattle.solo_agent.specs.Views.{IsSameSwitch, Kept, sures};
ghost use Rattle.switch_model.specs.Journal.{version_of};
ghost use Rattle.switch_model.specs.Rows.{rows};
ghost use Rattle.switch_model.specs.Sound.{IsSound};
ghost use Rattle.switch_state.specs.Plain.{plain};
ghost use Rattle.told_laws.specs.Course.{phases as after_phases, started};

use crate::standing::standings_of;
use agent_core::{Core, OpenFault, Published};
use chip_core::HwSwitch;
use chip_rows::{RowLists, rows_of};
use core_report::report_bytes;
use net_types::{Caps, NoMemory};
use observers::{Observers, StateObserver};
use run_outcome::{Refusal, RunFault, in_line_order};
use script_text::PhaseList;
use solo_agent::SoloAgent;
use std::alloc::Global;
use switch_model::ReplyList;
use switch_state::SwitchState;

/// What one caller's script asks for, once its base is done: the capacities of the chip, how many updates
/// may be submitted, and the lines.
#[derive(Drop)]
pub(crate) struct Work {
    pub caps: Caps,
    pub limit: u64,
    pub phases: PhaseList,
}

/// Serves one caller's phases on an empty chip, after a state of version 0, and reports that.
pub(crate) fn run_on<C: HwSwitch, O: StateObserver>(
    alloc: Global,
    chip: C,
    state: SwitchState,
    work: Work,
    observers: Observers<O>,
) -> Result<Vec<u8>, RunFault>
    requires chip { C.raw chip ≡ no_rows }
    requires caps { C.caps chip ≡ work.caps }
    requires version { state.version ≡ 0 }
    requires sound { IsSound (plain state) }
    requires limit { work.limit ≤ 1000000 }
    requires callers { AllByRecursion (AllByRecursion (λ l. l.caller ≡ 0)) work.phases }
    ensures report { IfOk result (λ text. ReportsRun work (opening_of state work.caps) (sures_of (map O.watch observers.list.items)) text.items) }
    ensures fault { IfErr result (OrNoMemory (IsOverfull (over (rows (plain state)) work.caps))) }
{
    match Core::open(alloc, chip, state, observers) {
        Ok(core) => {
            let text = run_core(alloc, core, work)?;
            Ok(text)
        }
        Err(fault) => {
            drop(work);
            Err(unopened(fault))
        }
    }
}

/// Serves the phases on a core whose journal is empty, and reports that.
fn run_core<C: HwSwitch, O: StateObserver>(
    alloc: Global,
    core: Core<C, O>,
    work: Work,
) -> Result<Vec<u8>, NoMemory>
    requires rounds { core.published.rounds ≡ [] }
    requires caps { core.caps ≡ work.caps }
    requires version { version_of (journal_of core.published) ≡ 0 }
    requires limit { work.limit ≤ 1000000 }
    requires callers { AllByRecursion (AllByRecursion (λ l. l.caller ≡ 0)) work.phases }
    ensures report { IfOk result (λ text. ReportsRun work (journal_of core.published).opening (sures core.audience) text.items) }
{
    core.shape();
    let caps = work.caps;
    let agent = serve(alloc, core, work)?;
    agent.shape();
    agent.core().shape();
    agent.core().published().shape();
    report_agent(alloc, caps, agent)
}

/// Serves the phases on a core whose journal is empty.
fn serve<C: HwSwitch, O: StateObserver>(
    alloc: Global,
    core: Core<C, O>,
    work: Work,
) -> Result<SoloAgent<C, O>, NoMemory>
    requires rounds { core.published.rounds ≡ [] }
    requires version { version_of (journal_of core.published) ≡ 0 }
    requires limit { work.limit ≤ 1000000 }
    requires callers { AllByRecursion (AllByRecursion (λ l. l.caller ≡ 0)) work.phases }
    ensures switch { IfOk result (λ a. IsSameSwitch core a.core) }
    ensures course { IfOk result (λ a. a.course ≡ after_phases work.limit (started (journal_of core.published).opening) work.phases) }
{
    let Work {
        caps: _,
        limit,
        phases,
    } = work;
    match SoloAgent::open(alloc, core, limit) {
        Ok(agent) => {
            let served = serve_all(alloc, agent, &phases);
            drop(phases);
            served
        }
        Err(fault) => {
            drop(phases);
            Err(fault)
        }
    }
}

/// Serves the phases.
fn serve_all<C: HwSwitch, O: StateObserver>(
    alloc: Global,
    agent: SoloAgent<C, O>,
    phases: &PhaseList,
) -> Result<SoloAgent<C, O>, NoMemory>
    requires callers { AllByRecursion (AllByRecursion (λ l. l.caller ≡ 0)) phases.now }
    ensures kept { IfOk result (Kept agent) }
    ensures course { IfOk result (λ a. a.course ≡ after_phases agent.limit agent.course phases.now) }
{
    let mut agent = agent;
    match agent.serve_phases(alloc, phases) {
        Ok(()) => Ok(agent),
        Err(fault) => {
            drop(agent);
            Err(fault)
        }
    }
}

/// The report of what an agent has served.
fn report_agent<C: HwSwitch, O: StateObserver>(
    alloc: Global,
    caps: Caps,
    agent: SoloAgent<C, O>,
) -> Result<Vec<u8>, NoMemory>
    requires caps { caps ≡ agent.core.published.caps }
    ensures report { IfOk result (λ text. text.items ≡ report_of agent) }
{
    let (core, replies) = agent.into_parts();
    match in_line_order(alloc, replies) {
        Ok(replies) => {
            let text = report_core(alloc, caps, core, &replies);
            drop(replies);
            text
        }
        Err(fault) => {
            drop(core);
            Err(fault)
        }
    }
}

/// The report of a core, and of replies.
fn report_core<C: HwSwitch, O: StateObserver>(
    alloc: Global,
    caps: Caps,
    core: Core<C, O>,
    replies: &ReplyList,
) -> Result<Vec<u8>, NoMemory>
    requires caps { caps ≡ core.published.caps }
    ensures report { IfOk result (λ text. text.items ≡ report_by core replies.now) }
{
    match rows_of_core(alloc, &core) {
        Ok(rows) => {
            let (chip, published, observers) = core.into_parts();
            drop(chip);
            let text = write_report(alloc, caps, &published, replies, &rows, &observers);
            drop(rows);
            drop(published);
            drop(observers);
            text
        }
        Err(fault) => {
            drop(core);
            Err(fault)
        }
    }
}

/// The rows of a core's chip, by key.
fn rows_of_core<C: HwSwitch, O: StateObserver>(
    alloc: Global,
    core: &Core<C, O>,
) -> Result<RowLists, NoMemory>
    ensures rows { IfOk result (λ rows. rows ≡ view_of core.now.raw) }
    ensures groups { IfOk result (λ rows. Ascends group_cmp rows.group) }
{
    core.shape();
    let tables = core.copy_tables(alloc)?;
    let rows = rows_of(alloc, &tables);
    drop(tables);
    rows
}

/// The report of what was published, of replies and rows, and of where observers stand.
fn write_report<O: StateObserver>(
    alloc: Global,
    caps: Caps,
    published: &Published,
    replies: &ReplyList,
    rows: &RowLists,
    observers: &Observers<O>,
) -> Result<Vec<u8>, NoMemory>
    requires caps { caps ≡ published.now.caps }
    requires groups { Ascends group_cmp rows.now.group }
    ensures report { IfOk result (λ text. text.items ≡ report false (journal_of published.now) replies.now rows.now (map standing_of (map O.watch observers.now.list.items))) }
{
    let standings = standings_of(alloc, observers)?;
    let text = report_bytes(alloc, false, caps, published, replies, rows, &standings);
    drop(standings);
    text
}

/// What it means for a run that no core was opened.
fn unopened(fault: OpenFault) -> RunFault
    ensures { result ≡ unopened fault }
{
    match fault {
        OpenFault::Full(table) => RunFault::Refused(Refusal::Opening(table)),
        OpenFault::NoMemory => RunFault::NoMemory,
    }
}
