// The readers of what a caller does.
ghost use Rattle.std.specs.Prelude.{◌≡◌, ◌≤◌};
ghost use Rattle.script_words.specs.Reading.{Gives, ended};
ghost use Rattle.script_text.specs.Reading.{update_at, query_at, job_at, line_at};

use crate::acts::read_act;
use crate::{Job, Line};
use script_words::{Cursor, ReadFault};
use std::alloc::Global;
use switch_model::{Query, Update};

/// A line of a phase: a caller's number, and what the caller does.
#[tactic(auto, unfolding(crate::specs::Reading::line_at, script_words::specs::Reading::one, script_words::specs::Reading::turned))]
pub fn read_line(
    alloc: Global,
    callers: u32,
    number: u64,
    cursor: &mut Cursor,
) -> Result<Line, ReadFault>
    requires some { 1 ≤ callers }
    ensures { Gives (λ line. line) result (line_at callers number cursor.old) }
{
    let caller = cursor.number(0, u64::from(callers) - 1)?;
    let job = read_job(alloc, cursor)?;
    Ok(Line {
        line: number,
        caller: caller as u32,
        job,
    })
}

/// What a caller does, to the end of the line.
#[tactic(auto, unfolding(crate::specs::Reading::job_at, script_words::specs::Reading::choose, script_words::specs::Reading::turned))]
fn read_job(alloc: Global, cursor: &mut Cursor) -> Result<Job, ReadFault>
    ensures { Gives (λ job. job) result (job_at cursor.old) }
{
    if cursor.take(b"settle") {
        return ended(Job::Settle, cursor);
    }
    if cursor.take(b"pump") {
        return ended(Job::Pump, cursor);
    }
    if cursor.take(b"peek") {
        return ended(Job::Peek, cursor);
    }
    if cursor.take(b"tables") {
        return ended(Job::Tables, cursor);
    }
    if cursor.take(b"show") {
        let query = read_query(cursor)?;
        return Ok(Job::Show(query));
    }
    let queue = cursor.take(b"queue");
    let update = read_update(alloc, cursor)?;
    Ok(Job::Submit { queue, update })
}

/// An update, marked or not, to the end of the line.
#[tactic(auto, unfolding(crate::specs::Reading::update_at, script_words::specs::Reading::choose, script_words::specs::Reading::turned))]
fn read_update(alloc: Global, cursor: &mut Cursor) -> Result<Update, ReadFault>
    ensures { Gives (λ update. update) result (update_at cursor.old) }
{
    let alone = cursor.take(b"alone");
    let act = read_act(alloc, cursor)?;
    Ok(Update { alone, act })
}

/// A question about the state, to the end of the line.
#[tactic(auto, unfolding(crate::specs::Reading::query_at, script_words::specs::Reading::choose, script_words::specs::Reading::one))]
fn read_query(cursor: &mut Cursor) -> Result<Query, ReadFault>
    ensures { Gives (λ query. query) result (query_at cursor.old) }
{
    if cursor.take(b"version") {
        cursor.end()?;
        return Ok(Query::Version);
    }
    if cursor.take(b"counts") {
        cursor.end()?;
        return Ok(Query::Counts);
    }
    if cursor.take(b"port") {
        let port = cursor.port()?;
        cursor.end()?;
        return Ok(Query::Port(port));
    }
    if cursor.take(b"route") {
        let vrf = cursor.vrf()?;
        let ip = cursor.ip()?;
        cursor.end()?;
        return Ok(Query::Route(vrf, ip));
    }
    Err(cursor.bad().into())
}

/// The job, where the line ends here.
fn ended(job: Job, cursor: &Cursor) -> Result<Job, ReadFault>
    ensures { Gives (λ job. job) result (ended job cursor.now) }
{
    cursor.end()?;
    Ok(job)
}
