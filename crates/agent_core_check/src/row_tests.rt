// Each script is settled as its case says.
use crate::cases::{CASES, END, HEAD, REPEATED, RISES, TIMES, WANTED, WATCHED};
use crate::opening::{caps_of, core_of, script_of, state_of};
use crate::print::{print_core, print_fault};
use crate::settling::do_phases;
use agent_core::Core;
use chip_core::SimChip;
use net_types::{Caps, NoMemory, NumList};
use observer_kinds::FussyObserver;
use observers::{Observers, StateObserver};
use script_text::{BaseList, PhaseList, Script};
use std::alloc::Global;
use std::process::Abort;
use std::test::Fail;

#[test]
fn each_script_is_settled_as_it_says(rt: HostRuntime) -> Result<(), Fail> {
    for case in CASES {
        let given = settled_alone(rt.alloc(), case.script)?;
        is_as_wanted(&rt, given.as_slice(), case.wanted);
        drop(given);
    }
    Ok(())
}

#[test]
fn a_run_has_64_at_most(rt: HostRuntime) -> Result<(), Fail> {
    let script = repeated(rt.alloc())?;
    let given = settled_alone(rt.alloc(), script.as_slice());
    drop(script);
    let given = given?;
    is_as_wanted(&rt, given.as_slice(), WANTED);
    drop(given);
    Ok(())
}

#[test]
fn observers_that_refused_are_told_again(rt: HostRuntime) -> Result<(), Fail> {
    for case in WATCHED {
        let given = settled_under(rt.alloc(), case.refused)?;
        is_as_wanted(&rt, given.as_slice(), case.wanted);
        drop(given);
    }
    Ok(())
}

fn is_as_wanted(rt: &impl Abort, given: &[u8], wanted: &[u8]) {
    assert!(rt; given == wanted);
}

fn repeated(alloc: Global) -> Result<Vec<u8>, NoMemory> {
    let mut bytes = Vec::from_slice(alloc, HEAD)?;
    match repeat(&mut bytes) {
        Ok(()) => Ok(bytes),
        Err(fault) => {
            drop(bytes);
            Err(fault)
        }
    }
}

fn repeat(bytes: &mut Vec<u8>) -> Result<(), NoMemory> {
    for _ in 0..TIMES {
        bytes.extend_from_slice(REPEATED)?;
    }
    bytes.extend_from_slice(END)
}

// With no observers.
fn settled_alone(alloc: Global, text: &[u8]) -> Result<Vec<u8>, Fail> {
    let none: Vec<Box<dyn StateObserver + Send>> = Vec::new(alloc);
    settled(alloc, text, Observers::new(none))
}

// With an observer that refuses when it is told for these times.
fn settled_under(alloc: Global, refused: &[u64]) -> Result<Vec<u8>, Fail> {
    let refused = NumList::from_vec(Vec::from_slice(alloc, refused)?);
    let mut list = Vec::new(alloc);
    match list.push(FussyObserver::new(refused)) {
        Ok(()) => settled(alloc, RISES, Observers::new(list)),
        Err(fault) => {
            drop(list);
            Err(Fail::from(fault))
        }
    }
}

fn settled<O: StateObserver>(
    alloc: Global,
    text: &[u8],
    observers: Observers<O>,
) -> Result<Vec<u8>, Fail> {
    match script_of(alloc, text) {
        Ok(script) => done(alloc, script, observers),
        Err(fault) => {
            drop(observers);
            Err(fault)
        }
    }
}

fn done<O: StateObserver>(
    alloc: Global,
    script: Script,
    observers: Observers<O>,
) -> Result<Vec<u8>, Fail> {
    let Script {
        start,
        limit: _,
        callers: _,
        base,
        phases,
    } = script;
    let caps = caps_of(&start);
    drop(start);
    match caps {
        Ok(caps) => done_from(alloc, caps, base, phases, observers),
        Err(fault) => {
            drop(base);
            drop(phases);
            drop(observers);
            Err(fault)
        }
    }
}

fn done_from<O: StateObserver>(
    alloc: Global,
    caps: Caps,
    base: BaseList,
    phases: PhaseList,
    observers: Observers<O>,
) -> Result<Vec<u8>, Fail> {
    match state_of(alloc, base) {
        Ok(state) => match core_of(alloc, caps, state, observers) {
            Ok(core) => done_on(alloc, core, phases),
            Err(fault) => {
                drop(phases);
                print_fault(alloc, fault)
            }
        },
        Err(fault) => {
            drop(phases);
            drop(observers);
            Err(fault)
        }
    }
}

fn done_on<O: StateObserver>(
    alloc: Global,
    core: Core<SimChip, O>,
    phases: PhaseList,
) -> Result<Vec<u8>, Fail> {
    let mut core = core;
    match do_phases(&mut core, alloc, phases) {
        Ok(()) => {
            let printed = print_core(alloc, core);
            Ok(printed?)
        }
        Err(fault) => {
            drop(core);
            Err(fault)
        }
    }
}
