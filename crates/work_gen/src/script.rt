// The script of a seed.
ghost use Rattle.std.specs.Prelude.{◌≡◌, ◌≤◌, ◌^◌, ◌∷◌, [], length, IfOk};
ghost use Rattle.switch_model.specs.Built.{placed};
ghost use Rattle.work_gen.specs.Generated.{generated, generated_lines, queued};

use crate::base::base_acts;
use crate::draws::next_act;
use net_types::{Caps, NoMemory};
use rand_pcg::Lcg64Xsh32;
use script_text::{BaseList, Job, Line, LineList, PhaseList, Script, Start};
use std::alloc::Global;
use switch_model::{Act, Update};

/// The first line of the base.
const FIRST_OF_BASE: u64 = 4;

/// The first line of the phase, after the line that begins it.
const FIRST_OF_PHASE: u64 = 93;

/// The capacities of the chip's tables.
const CAPS: Caps = Caps {
    l2: 1024,
    host: 512,
    group: 32,
    route: 256,
};

/// The script of so many updates that are drawn from the seed: a base of 88 acts, and one phase in
/// which caller 0 submits the updates and leaves each to a later round.
pub fn make_script(alloc: Global, seed: u64, count: u32) -> Result<Script, NoMemory>
    ensures { IfOk result (λ script. script ≡ generated seed count) }
{
    let base = numbered(alloc, base_acts(alloc)?)?;
    let phases = one_phase(alloc, seed, count)?;
    Ok(Script {
        start: Start::Cold(CAPS),
        limit: u64::from(count),
        callers: 1,
        base,
        phases,
    })
}

/// The acts as a base, with the numbers of their lines.
fn numbered(alloc: Global, acts: Vec<Act>) -> Result<BaseList, NoMemory>
    requires { length acts.items ≤ 2 ^ 32 }
    ensures { IfOk result (λ base. base ≡ placed 4 acts.items) }
{
    let mut base = BaseList::new(alloc);
    let mut line = FIRST_OF_BASE;
    for act in acts {
        base.push((line, act))?;
        line += 1;
    }
    Ok(base)
}

/// The one phase of the script.
fn one_phase(alloc: Global, seed: u64, count: u32) -> Result<PhaseList, NoMemory>
    ensures { IfOk result (λ phases. phases ≡ generated_lines seed count ∷ []) }
{
    let lines = queued_lines(alloc, seed, count)?;
    let mut phases = PhaseList::new(alloc);
    phases.push(lines)?;
    Ok(phases)
}

/// The lines of the phase.
fn queued_lines(alloc: Global, seed: u64, count: u32) -> Result<LineList, NoMemory>
    ensures { IfOk result (λ lines. lines ≡ generated_lines seed count) }
{
    let mut rng = Lcg64Xsh32::new(seed, 0);
    let mut lines = LineList::new(alloc);
    for place in 0..count {
        let act = next_act(alloc, &mut rng)?;
        lines.push(queued(FIRST_OF_PHASE + u64::from(place), act))?;
    }
    Ok(lines)
}

/// The line of that number, in which caller 0 submits the act and leaves it to a later round.
fn queued(line: u64, act: Act) -> Line
    ensures { result ≡ queued (line, act) }
{
    Line {
        line,
        caller: 0,
        job: Job::Submit {
            queue: true,
            update: Update { alone: false, act },
        },
    }
}
