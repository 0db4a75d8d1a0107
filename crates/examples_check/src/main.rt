//! Runs each script of the examples, and says of each whether the program writes the report that
//! lies beside it.
#![tactic(auto)]

use agent_run::{Status, agent_main};
use io_edge::{MemSink, MemSource, MemStore, OpenGate};
use net_types::{NoMemory, NumList};
use observer_kinds::TotalsObserver;
use observers::Observers;
use std::alloc::Global;
use std::rt::Files;
use std::sync::Wait;
use std::thread::Threads;
use std::{fs, io};

/// The names of the scripts, without their ending, in order.
fn names<R: Files + AllocGlobal + Clone + Drop>(rt: &R) -> io::Result<Vec<String>> {
    let mut names = Vec::new(rt.alloc());
    for entry in fs::read_dir(rt, ".")? {
        let entry = entry?;
        if let Some(name) = entry.file_name().strip_suffix(".script") {
            names.push(String::from_str(rt.alloc(), name)?)?;
        }
    }
    names.sort()?;
    Ok(names)
}

/// What the program writes for the script: nothing where it refuses it.
fn report_of<R: Threads + Wait + Sync>(
    rt: &R,
    alloc: Global,
    script: Vec<u8>,
) -> Result<Option<Vec<u8>>, NoMemory> {
    let mut words = Vec::new(alloc);
    words.push(String::from_str(alloc, "run")?)?;
    let observers: Observers<TotalsObserver> = Observers::new(Vec::new(alloc));
    let mut source = MemSource::new(script, 4096, NumList::new(alloc));
    let mut sink = MemSink::new(alloc, 4096, NumList::new(alloc));
    let mut store = MemStore::new(alloc, NumList::new(alloc));
    let status = agent_main(
        rt,
        alloc,
        &words,
        &mut source,
        &mut sink,
        &mut store,
        &OpenGate,
        observers,
    );
    match status {
        Status::Done => Ok(Some(sink.bytes().to_vec(alloc)?)),
        _ => Ok(None),
    }
}

fn main(rt: HostRuntime) -> io::Result<()> {
    let alloc = rt.alloc();
    for name in names(&rt)? {
        let script = fs::read(&rt, format!(in alloc; "{name}.script")?)?;
        let report = fs::read(&rt, format!(in alloc; "{name}.report")?)?;
        let is_same = match report_of(&rt, alloc, script)? {
            Some(written) => written == report,
            None => false,
        };
        let answer = if is_same { "as its report" } else { "differs" };
        println!(rt; "{name}: {answer}")?;
    }
    Ok(())
}
