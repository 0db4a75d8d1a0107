// Lines that are served in blocks.
ghost use Rattle.std.specs.Prelude.{◌≡◌, ◌<◌, ◌≤◌, ◌^◌, OnOk, length};
ghost use Rattle.std.specs.Int.{div_ceil};
ghost use Rattle.std.specs.List.{AllByRecursion};
ghost use Rattle.solo_agent.specs.Views.{Kept};
ghost use Rattle.told_laws.specs.Course.{lines as after_lines, phases as after_phases};
ghost use Rattle.work_laws.specs.Work.{block_at, in_blocks};

use chip_core::HwSwitch;
use net_types::NoMemory;
use observers::StateObserver;
use script_text::Line;
use solo_agent::SoloAgent;
use std::alloc::Global;

/// How many lines a block has.
const BLOCK: usize = 16;

/// Serves lines in blocks. All that a block submits is settled before the next one begins.
pub(crate) fn serve_blocks<C: HwSwitch, O: StateObserver>(
    alloc: Global,
    agent: &mut SoloAgent<C, O>,
    lines: &[Line],
) -> Result<(), NoMemory>
    requires callers { AllByRecursion (λ l. l.caller ≡ 0) lines.now }
    ensures kept { Kept agent.old agent.new }
    ensures course { OnOk result (agent.new.course ≡ after_phases agent.old.limit agent.old.course (in_blocks lines.now)) }
{
    for n in 0..lines.len().div_ceil(BLOCK) {
        serve_block(alloc, agent, block_at(lines, n))?;
    }
    Ok(())
}

/// Serves the lines of a block, and settles what they have submitted.
fn serve_block<C: HwSwitch, O: StateObserver>(
    alloc: Global,
    agent: &mut SoloAgent<C, O>,
    block: &[Line],
) -> Result<(), NoMemory>
    requires callers { AllByRecursion (λ l. l.caller ≡ 0) block.now }
    ensures kept { Kept agent.old agent.new }
    ensures course { OnOk result (agent.new.course ≡ after_lines agent.old.limit agent.old.course block.now) }
{
    for line in block {
        agent.serve(alloc, Some(line))?;
    }
    agent.serve(alloc, None)
}

/// The n-th block of lines, counted from 0.
fn block_at(lines: &[Line], n: usize) -> &[Line]
    requires there { n < div_ceil (length lines.now) 16 }
    ensures block { result.now ≡ block_at lines.now n }
{
    let rest = &lines[n * BLOCK..];
    if rest.len() < BLOCK {
        rest
    } else {
        &rest[..BLOCK]
    }
}
