//! The switch agent's program: its words come from the command line, its script from standard
//! input, and its report goes to standard output.
#![tactic(auto)]

use agent_run::{Status, agent_main};
use io_edge::{MemStore, OpenGate, StdSink, StdSource};
use net_types::{NoMemory, NumList};
use observer_kinds::TotalsObserver;
use observers::Observers;
use std::alloc::Global;
use std::process::ExitCode;
use std::rt::Env;
use std::{env, io};

/// The words of the command line, without the program's name.
fn words_of<R: Env + AllocGlobal>(rt: &R, alloc: Global) -> io::Result<Vec<String>> {
    let mut words = Vec::new(alloc);
    for word in env::args(rt)?.skip(1) {
        words.push(word)?;
    }
    Ok(words)
}

/// One observer, which counts what is published.
fn one_observer(alloc: Global) -> Result<Observers<TotalsObserver>, NoMemory> {
    let mut list = Vec::new(alloc);
    list.push(TotalsObserver::new())?;
    Ok(Observers::new(list))
}

fn main(rt: HostRuntime) -> ExitCode {
    let alloc = rt.alloc();
    let words = match words_of(&rt, alloc) {
        Ok(words) => words,
        Err(error) if error.kind() == io::ErrorKind::OutOfMemory => {
            return ExitCode::from(Status::NoMemory.code());
        }
        // A word that isn't UTF-8 is no command, and neither is an empty list of words.
        Err(_) => Vec::new(alloc),
    };
    let Ok(observers) = one_observer(alloc) else {
        return ExitCode::from(Status::NoMemory.code());
    };
    let mut source = StdSource::new(rt.stdin());
    let mut sink = StdSink::new(rt.stdout());
    let mut store = MemStore::new(alloc, NumList::new(alloc));
    let status = agent_main(
        &rt,
        alloc,
        &words,
        &mut source,
        &mut sink,
        &mut store,
        &OpenGate,
        observers,
    );
    ExitCode::from(status.code())
}
