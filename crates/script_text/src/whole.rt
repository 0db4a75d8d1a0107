// The whole script, line by line.
ghost use Rattle.std.specs.Prelude.{◌≡◌, ◌+◌, length, IfOk, IfErr, MatchResult};
ghost use Rattle.script_words.specs.Lines.{lines};
ghost use Rattle.script_text.specs.Draft.{with_entry, draft_entries, finished, IsAt, IsBehind, IsBadLine};
ghost use Rattle.script_text.specs.Ranges.{IsInRange};
ghost use Rattle.script_text.specs.Script.{IsScript, IsScriptFault, AreEntries, IsStage};
ghost use Rattle.script_text.specs.declared.entries.Stage.{Stage as TheStage};
ghost use Rattle.script_text.specs.declared.entries.Stage.TheVariants.{Opening};
ghost use Rattle.script_text.specs.declared.fault.ScriptFault.TheVariants.{NoMemory as Refused};
ghost use Rattle.script_text.specs.declared.whole.Draft.TheVariants as drafts;
ghost use Rattle.script_text.specs.declared.script.Script.{Script as TheScript};

use crate::entries::{Entry, Stage, behind, read_entry};
use crate::{BaseList, LineList, PhaseList, Script, ScriptFault, Start};
use net_types::NoMemory;
use script_words::{ReadFault, all_allowed, count, is_skipped, next_line};
use std::alloc::Global;

/// What was read so far.
#[derive(Drop)]
pub enum Draft {
    Nothing,
    Start(Start),
    Limit(Start, u64),
    /// No phase has begun.
    Base(Script),
    /// The lines of the phase that has begun aren't in the script yet.
    Phase(Script, LineList),
}

/// The draft with what one line more says.
fn with_entry(alloc: Global, draft: Draft, entry: Entry) -> Result<Draft, NoMemory>
    ensures { IfOk result (λ new. new ≡ with_entry draft entry) }
{
    match draft {
        Draft::Nothing => Ok(with_start(entry)),
        Draft::Start(start) => Ok(with_limit(start, entry)),
        Draft::Limit(start, limit) => Ok(with_callers(alloc, start, limit, entry)),
        Draft::Base(script) => with_base(alloc, script, entry),
        Draft::Phase(script, lines) => with_line(alloc, script, lines, entry),
    }
}

fn with_start(entry: Entry) -> Draft
    ensures { result ≡ with_entry drafts.Nothing entry }
{
    match entry {
        Entry::Starts(start) => Draft::Start(start),
        _ => Draft::Nothing,
    }
}

fn with_limit(start: Start, entry: Entry) -> Draft
    ensures { result ≡ with_entry (drafts.Start start) entry }
{
    match entry {
        Entry::Limits(limit) => Draft::Limit(start, limit),
        _ => Draft::Start(start),
    }
}

fn with_callers(alloc: Global, start: Start, limit: u64, entry: Entry) -> Draft
    ensures { result ≡ with_entry (drafts.Limit start limit) entry }
{
    match entry {
        Entry::Calls(callers) => Draft::Base(Script {
            start,
            limit,
            callers,
            base: BaseList::new(alloc),
            phases: PhaseList::new(alloc),
        }),
        _ => Draft::Limit(start, limit),
    }
}

fn with_base(alloc: Global, mut script: Script, entry: Entry) -> Result<Draft, NoMemory>
    ensures { IfOk result (λ new. new ≡ with_entry (drafts.Base script) entry) }
{
    match entry {
        Entry::Bases(line, act) => {
            script.base.push((line, act))?;
            Ok(Draft::Base(script))
        }
        Entry::NewPhase => Ok(Draft::Phase(script, LineList::new(alloc))),
        _ => Ok(Draft::Base(script)),
    }
}

fn with_line(
    alloc: Global,
    mut script: Script,
    mut lines: LineList,
    entry: Entry,
) -> Result<Draft, NoMemory>
    ensures { IfOk result (λ new. new ≡ with_entry (drafts.Phase script lines) entry) }
{
    match entry {
        Entry::NewPhase => {
            script.phases.push(lines)?;
            Ok(Draft::Phase(script, LineList::new(alloc)))
        }
        Entry::Does(line) => {
            lines.push(line)?;
            Ok(Draft::Phase(script, lines))
        }
        _ => Ok(Draft::Phase(script, lines)),
    }
}

/// The script, once its callers are known.
fn finish(draft: Draft) -> Result<Option<Script>, NoMemory>
    ensures { IfOk result (λ found. found ≡ finished draft) }
{
    match draft {
        Draft::Base(script) => Ok(Some(script)),
        Draft::Phase(mut script, lines) => {
            script.phases.push(lines)?;
            Ok(Some(script))
        }
        _ => Ok(None),
    }
}

/// One line more: the draft and the stage behind it.
fn read_next(
    alloc: Global,
    draft: Draft,
    stage: Stage,
    number: u64,
    line: &[u8],
) -> Result<(Draft, Stage), ScriptFault>
    requires { IsStage stage }
    ensures behind { IfOk result (λ x. IsBehind draft stage number line.now x.0 x.1) }
    ensures fault { IfErr result (λ fault. IsBadLine stage number line.now fault) }
{
    if !all_allowed(line) {
        return Err(ScriptFault::Byte { line: number });
    }
    if is_skipped(line) {
        return Ok((draft, stage));
    }
    match read_entry(alloc, stage, number, line) {
        Ok(entry) => {
            let place = behind(stage, &entry);
            let next = with_entry(alloc, draft, entry)?;
            Ok((next, place))
        }
        Err(ReadFault::Memory) => Err(ScriptFault::NoMemory),
        Err(ReadFault::Left(left)) => Err(ScriptFault::Word {
            line: number,
            word: (count(line) - left) as u64,
        }),
    }
}

/// Reads all lines, skipped ones too: the draft, and the number of the line behind the last.
#[tactic(auto, using(crate::proofs::ScriptLaws::begun))]
fn read_lines(alloc: Global, bytes: &[u8]) -> Result<(Draft, u64), ScriptFault>
    ensures found { IfOk result (λ x. (stage : TheStage) × AreEntries Opening 1 (lines bytes.now) (draft_entries x.0) stage × IsAt x.0 stage × (x.1 ≡ length (lines bytes.now) + 1)) }
    ensures fault { IfErr result (λ fault. IsScriptFault (lines bytes.now) fault) }
{
    let mut draft = Draft::Nothing;
    let mut stage = Stage::Opening;
    let mut rest = bytes;
    let mut number = 1;
    while let Some((line, more)) = next_line(rest) {
        match read_next(alloc, draft, stage, number, line) {
            Ok((next, place)) => {
                draft = next;
                stage = place;
            }
            Err(fault) => return Err(fault),
        }
        rest = more;
        number += 1;
    }
    Ok((draft, number))
}

/// The script of all lines.
fn read_whole(alloc: Global, bytes: &[u8]) -> Result<Script, ScriptFault>
    ensures script { IfOk result (λ script. IsScript bytes.now script) }
    ensures fault { IfErr result (λ fault. IsScriptFault (lines bytes.now) fault) }
{
    let (draft, number) = match read_lines(alloc, bytes) {
        Ok(read) => read,
        Err(fault) => return Err(fault),
    };
    match finish(draft)? {
        Some(script) => Ok(script),
        None => Err(ScriptFault::Word {
            line: number,
            word: 0,
        }),
    }
}

/// Reads a script, or the place of its first fault, in one pass.
pub fn read_script(alloc: Global, bytes: &[u8]) -> Result<Script, ScriptFault>
    // what is read is the script of the bytes
    ensures script { IfOk result (λ script. IsScript bytes.now script) }
    // a script is read, unless memory runs out
    ensures only { (script : TheScript) → IsScript bytes.now script → MatchResult result (λ found. found ≡ script) (λ fault. fault ≡ Refused) }
    // its numbers are in their ranges
    ensures ranges { IfOk result (λ script. IsInRange script) }
    // a fault is that of the first bad line
    ensures fault { IfErr result (λ fault. IsScriptFault (lines bytes.now) fault) }
{
    read_whole(alloc, bytes)
}
