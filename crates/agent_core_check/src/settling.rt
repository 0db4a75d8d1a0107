// What the lines of a script do to a core.
ghost use Rattle.std.specs.Prelude.{◌≡◌, ◌<◌, ◌≤◌, ◌+◌, ◌^◌, length};
ghost use Rattle.core_laws.specs.Published.{journal_of};
ghost use Rattle.switch_model.specs.Journal.{len};

use agent_core::Core;
use chip_core::SimChip;
use net_types::Shared;
use observers::StateObserver;
use run_queue::{Pending, Run};
use script_text::{Job, LineList, PhaseList};
use std::alloc::Global;
use std::test::Fail;
use switch_model::{Submission, Update};

// More than any script here has.
const MOST: u64 = 1_000_000;

/// Does what the phases say, and leaves what waits at the end.
pub fn do_phases<O: StateObserver>(
    core: &mut Core<SimChip, O>,
    alloc: Global,
    phases: PhaseList,
) -> Result<(), Fail> {
    let mut pending = Pending::new(alloc);
    let done = do_all(core, alloc, &mut pending, phases);
    drop(pending);
    done
}

fn do_all<O: StateObserver>(
    core: &mut Core<SimChip, O>,
    alloc: Global,
    pending: &mut Pending,
    phases: PhaseList,
) -> Result<(), Fail> {
    for lines in phases.into_vec() {
        do_lines(core, alloc, pending, lines)?;
    }
    Ok(())
}

fn do_lines<O: StateObserver>(
    core: &mut Core<SimChip, O>,
    alloc: Global,
    pending: &mut Pending,
    lines: LineList,
) -> Result<(), Fail> {
    for line in lines.into_vec() {
        do_job(core, alloc, pending, line.job)?;
    }
    Ok(())
}

fn do_job<O: StateObserver>(
    core: &mut Core<SimChip, O>,
    alloc: Global,
    pending: &mut Pending,
    job: Job,
) -> Result<(), Fail> {
    match job {
        Job::Submit { queue, update } => submit(core, alloc, pending, queue, update),
        Job::Settle => settle_all(core, alloc, pending),
        Job::Pump => settle_next(core, alloc, pending),
        Job::Peek | Job::Tables => Ok(()),
        Job::Show(query) => {
            drop(query);
            Ok(())
        }
    }
}

fn submit<O: StateObserver>(
    core: &mut Core<SimChip, O>,
    alloc: Global,
    pending: &mut Pending,
    queue: bool,
    update: Update,
) -> Result<(), Fail> {
    let seq = core.published().front().saturating_add(pending.len());
    push(alloc, pending, seq, update)?;
    if queue {
        return Ok(());
    }
    settle_all(core, alloc, pending)
}

fn push(alloc: Global, pending: &mut Pending, seq: u64, update: Update) -> Result<(), Fail> {
    let update = Shared::of(alloc, update)?;
    let pushed = pending.push(Submission {
        caller: 0,
        seq,
        update,
    });
    Ok(pushed.ok().ok_or("no memory")?)
}

// Runs rounds until nothing waits.
fn settle_all<O: StateObserver>(
    core: &mut Core<SimChip, O>,
    alloc: Global,
    pending: &mut Pending,
) -> Result<(), Fail> {
    for _ in 0..pending.len() {
        settle_next(core, alloc, pending)?;
    }
    Ok(())
}

// Runs one round, where something waits.
fn settle_next<O: StateObserver>(
    core: &mut Core<SimChip, O>,
    alloc: Global,
    pending: &mut Pending,
) -> Result<(), Fail> {
    if pending.len() == 0 {
        return Ok(());
    }
    let mut run = Run::room(alloc)?;
    let settled = settle_run(core, alloc, pending, &mut run);
    drop(run);
    let settled = settled?;
    if u64::from(settled) > pending.len() {
        return Err(Fail::from("more was settled than waits"));
    }
    pending.drop_front(settled);
    Ok(())
}

// Settles the run of what waits: how many entries the round has.
fn settle_run<O: StateObserver>(
    core: &mut Core<SimChip, O>,
    alloc: Global,
    pending: &Pending,
    run: &mut Run,
) -> Result<u32, Fail>
    requires some { 1 ≤ length pending.now }
{
    run.load(pending)?;
    let front = core.published().front();
    let version = core.published().state().version();
    if front > MOST || version > MOST {
        return Err(Fail::from("too long a journal"));
    }
    let done = core.round(alloc, run)?;
    let settled = done.settled;
    drop(done);
    Ok(settled)
}
