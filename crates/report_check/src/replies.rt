// Replies, and where observers stand.
use net_types::{ItemList, NoMemory, Table, Text};
use report_text::{StandingList, write_observers, write_replies};
use script_text::Page;
use std::alloc::Global;
use std::test::Fail;
use switch_model::{Reason, Reply, ReplyList, Totals, Verdict};

fn settled(position: u64, verdict: Verdict, version: u64, front: u64) -> Reply {
    Reply::Settled {
        position,
        verdict,
        version,
        front,
    }
}

fn answer(alloc: Global) -> Result<Reply, NoMemory> {
    let text = Vec::from_slice(alloc, b"front 3 version 2")?;
    Ok(Reply::Answer {
        front: 3,
        text: Text::from_vec(text),
    })
}

fn reply_of(alloc: Global, line: u64) -> Result<Reply, NoMemory> {
    match line {
        12 => Ok(settled(7, Verdict::Full(Table::Group), 10, 11)),
        14 => Ok(Reply::HistoryFull),
        15 => Ok(settled(0, Verdict::Full(Table::Route), 11, u64::MAX)),
        16 => Ok(Reply::Settle(2)),
        17 => Ok(Reply::Pump(u32::MAX)),
        18 => answer(alloc),
        19 => Ok(settled(8, Verdict::Accepted, 12, 9)),
        _ => Ok(settled(9, Verdict::Invalid(Reason::NoVlan), 12, 10)),
    }
}

fn push_replies(replies: &mut ReplyList, alloc: Global) -> Result<(), NoMemory> {
    for line in [12, 14, 15, 16, 17, 18, 19, 20] {
        replies.push((line, reply_of(alloc, line)?))?;
    }
    Ok(())
}

/// A reply of each kind.
pub fn write_one_of_each(page: &mut Page, alloc: Global) -> Result<(), Fail> {
    let mut replies = ReplyList::new(alloc);
    let pushed = push_replies(&mut replies, alloc);
    let written = write_replies(page, &replies);
    drop(replies);
    pushed?;
    written?;
    Ok(())
}

/// Counts that all differ.
pub fn some_totals() -> Totals {
    Totals {
        ports: 1,
        up: 2,
        vlans: 3,
        intfs: 4,
        macs: 5,
        neighbors: 6,
        routes: 7,
        fib: u64::MAX,
    }
}

fn no_totals() -> Totals {
    Totals {
        ports: 0,
        up: 0,
        vlans: 0,
        intfs: 0,
        macs: 0,
        neighbors: 0,
        routes: 0,
        fib: 0,
    }
}

fn push_standings(standings: &mut StandingList) -> Result<(), NoMemory> {
    standings.push((12, some_totals()))?;
    standings.push((0, no_totals()))
}

/// No observers, and then two.
pub fn write_totals_of_two(page: &mut Page, alloc: Global) -> Result<(), Fail> {
    let mut standings = ItemList::new(alloc);
    let none = write_observers(page, &standings);
    let pushed = push_standings(&mut standings);
    let two = write_observers(page, &standings);
    drop(standings);
    none?;
    pushed?;
    two?;
    Ok(())
}
