// The lines of a script, by their places.
ghost use Rattle.std.specs.Prelude.{◌≡◌, IfOk, IfErr};
ghost use Rattle.script_words.specs.Words.{words};
ghost use Rattle.script_words.specs.Faults.{IsFault};
ghost use Rattle.script_words.specs.Reading.{Gives, turned};
ghost use Rattle.script_text.specs.Script.{IsEntry, IsAllowed, IsStage, behind, is_cold};
ghost use Rattle.script_text.specs.Reading.{caps_at, start_at, limit_at, callers_at, phase_or, base_at, entry_at, line_at};
ghost use Rattle.script_text.specs.declared.entries.Entry.TheVariants.{Starts, Limits, Calls, Does};
ghost use Rattle.script_text.specs.declared.entries.Stage.TheVariants.{InPhase};

use crate::acts::read_act;
use crate::jobs::read_line;
use crate::{Line, Start};
use net_types::Caps;
use script_words::{Cursor, ReadFault};
use std::alloc::Global;
use switch_model::Act;

/// The most rows of the l2, host and route table.
const MOST_ROWS: u64 = 65_536;

/// The most rows of the group table.
const MOST_GROUPS: u64 = 4_096;

/// The highest limit.
const MOST_UPDATES: u64 = 1_000_000;

/// The most callers.
const MOST_CALLERS: u64 = 16;

/// What a line says that isn't skipped.
#[derive(Debug, Drop)]
pub enum Entry {
    Starts(Start),
    Limits(u64),
    Calls(u32),
    /// An act of the base, with the number of its line.
    Bases(u64, Act),
    NewPhase,
    Does(Line),
}

/// What stands before a line: nothing, the start, the limit, the callers and no phase yet, or a
/// phase.
#[derive(Clone, Copy, Debug)]
pub enum Stage {
    Opening,
    Started(bool),
    Limited(bool),
    /// Whether the start is cold, and how many callers there are.
    Called(bool, u32),
    InPhase(u32),
}

/// What the line of that number says, where such a line may stand at the stage.
pub fn read_entry(alloc: Global, stage: Stage, number: u64, line: &[u8]) -> Result<Entry, ReadFault>
    requires { IsStage stage }
    ensures found { IfOk result (λ entry. IsEntry stage number entry (words line.now)) }
    ensures fault { IfErr result (λ fault. IsFault (IsAllowed stage number) (words line.now) fault) }
{
    entry_of(alloc, stage, number, &mut Cursor::new(line))
}

#[tactic(auto, unfolding(crate::specs::Reading::entry_at))]
fn entry_of(
    alloc: Global,
    stage: Stage,
    number: u64,
    cursor: &mut Cursor,
) -> Result<Entry, ReadFault>
    requires { IsStage stage }
    ensures { Gives (λ entry. entry) result (entry_at stage number cursor.old) }
{
    match stage {
        Stage::Opening => opening(alloc, cursor),
        Stage::Started(_) => limit(cursor),
        Stage::Limited(_) => callers(cursor),
        Stage::Called(cold, _) => called(alloc, cold, number, cursor),
        Stage::InPhase(callers) => in_phase(alloc, callers, number, cursor),
    }
}

#[tactic(auto, unfolding(script_words::specs::Reading::turned))]
fn opening(alloc: Global, cursor: &mut Cursor) -> Result<Entry, ReadFault>
    ensures { Gives (λ entry. entry) result (turned Starts start_at cursor.old) }
{
    let start = read_start(alloc, cursor)?;
    Ok(Entry::Starts(start))
}

/// The first line.
#[tactic(auto, unfolding(crate::specs::Reading::start_at, script_words::specs::Reading::choose, script_words::specs::Reading::one, script_words::specs::Reading::turned))]
fn read_start(alloc: Global, cursor: &mut Cursor) -> Result<Start, ReadFault>
    ensures { Gives (λ start. start) result (start_at cursor.old) }
{
    if !cursor.take(b"start") {
        return Err(cursor.bad().into());
    }
    if cursor.take(b"cold") {
        let caps = read_caps(cursor)?;
        return Ok(Start::Cold(caps));
    }
    if cursor.take(b"warm") {
        let name = cursor.name(alloc)?;
        cursor.end()?;
        return Ok(Start::Warm(name));
    }
    Err(cursor.bad().into())
}

/// The capacities, to the end of the line.
#[tactic(auto, unfolding(crate::specs::Reading::caps_at, script_words::specs::Reading::one))]
fn read_caps(cursor: &mut Cursor) -> Result<Caps, ReadFault>
    ensures { Gives (λ caps. caps) result (caps_at cursor.old) }
{
    let l2 = cursor.number(0, MOST_ROWS)? as u32;
    let host = cursor.number(0, MOST_ROWS)? as u32;
    let group = cursor.number(0, MOST_GROUPS)? as u32;
    let route = cursor.number(0, MOST_ROWS)? as u32;
    cursor.end()?;
    Ok(Caps {
        l2,
        host,
        group,
        route,
    })
}

/// The second line.
#[tactic(auto, unfolding(crate::specs::Reading::limit_at, script_words::specs::Reading::choose, script_words::specs::Reading::one, script_words::specs::Reading::turned))]
fn limit(cursor: &mut Cursor) -> Result<Entry, ReadFault>
    ensures { Gives (λ entry. entry) result (turned Limits limit_at cursor.old) }
{
    if !cursor.take(b"limit") {
        return Err(cursor.bad().into());
    }
    let limit = cursor.number(1, MOST_UPDATES)?;
    cursor.end()?;
    Ok(Entry::Limits(limit))
}

/// The third line.
#[tactic(auto, unfolding(crate::specs::Reading::callers_at, script_words::specs::Reading::choose, script_words::specs::Reading::one, script_words::specs::Reading::turned))]
fn callers(cursor: &mut Cursor) -> Result<Entry, ReadFault>
    ensures { Gives (λ entry. entry) result (turned Calls callers_at cursor.old) }
{
    if !cursor.take(b"callers") {
        return Err(cursor.bad().into());
    }
    let callers = cursor.number(1, MOST_CALLERS)?;
    cursor.end()?;
    Ok(Entry::Calls(callers as u32))
}

/// A base line, which stands behind a cold start alone, or the first line of a phase.
#[tactic(auto, unfolding(crate::specs::Reading::phase_or, script_words::specs::Reading::choose))]
fn called(alloc: Global, cold: bool, number: u64, cursor: &mut Cursor) -> Result<Entry, ReadFault>
    ensures { Gives (λ entry. entry) result (phase_or (base_at cold number) cursor.old) }
{
    if cursor.take(b"phase") {
        cursor.end()?;
        return Ok(Entry::NewPhase);
    }
    base(alloc, cold, number, cursor)
}

#[tactic(auto, unfolding(crate::specs::Reading::base_at, script_words::specs::Reading::choose, script_words::specs::Reading::turned))]
fn base(alloc: Global, cold: bool, number: u64, cursor: &mut Cursor) -> Result<Entry, ReadFault>
    ensures { Gives (λ entry. entry) result (base_at cold number cursor.old) }
{
    if cold {
        if cursor.take(b"base") {
            let act = read_act(alloc, cursor)?;
            return Ok(Entry::Bases(number, act));
        }
        return Err(cursor.bad().into());
    }
    Err(cursor.bad().into())
}

/// The first line of a phase, or a caller's line.
#[tactic(auto, unfolding(crate::specs::Reading::phase_or, script_words::specs::Reading::choose, script_words::specs::Reading::turned))]
fn in_phase(
    alloc: Global,
    callers: u32,
    number: u64,
    cursor: &mut Cursor,
) -> Result<Entry, ReadFault>
    requires { IsStage (InPhase callers) }
    ensures { Gives (λ entry. entry) result (phase_or (turned Does (line_at callers number)) cursor.old) }
{
    if cursor.take(b"phase") {
        cursor.end()?;
        return Ok(Entry::NewPhase);
    }
    let line = read_line(alloc, callers, number, cursor)?;
    Ok(Entry::Does(line))
}

/// Where the script stands behind an entry.
pub fn behind(stage: Stage, entry: &Entry) -> Stage
    ensures { result ≡ behind stage entry.now }
{
    match (stage, entry) {
        (Stage::Opening, Entry::Starts(start)) => Stage::Started(is_cold(start)),
        (Stage::Started(cold), Entry::Limits(_)) => Stage::Limited(cold),
        (Stage::Limited(cold), Entry::Calls(callers)) => Stage::Called(cold, *callers),
        (Stage::Called(_, callers), Entry::NewPhase) => Stage::InPhase(callers),
        _ => stage,
    }
}

fn is_cold(start: &Start) -> bool
    ensures { result ≡ is_cold start.now }
{
    match start {
        Start::Cold(_) => true,
        Start::Warm(_) => false,
    }
}
