// Scripts of updates, done on an edit.
use net_types::NoMemory;
use script_text::{BaseList, Job, LineList, PhaseList, Script, read_script};
use state_update::apply;
use std::alloc::Global;
use std::test::Fail;
use switch_model::{Act, Update};
use switch_state::StateEdit;

// Interface 1 of VRF 0 has 10.0.0.0/24, and interface 3 of VRF 1 has no address.
const BASE: &[u8] =
    b"start cold 0 8 1 8\nlimit 20\ncallers 1\nbase vlan add 10 a\nbase vlan add 11 b\nbase intf add 1 10 0 02:00:00:00:01:01\nbase intf add 3 11 1 02:00:00:00:01:03\nbase addr add 1 10.0.0.1/24\nphase\n";

/// Does what a script says that begins with the base.
pub fn submit(alloc: Global, edit: &mut StateEdit, lines: &[u8]) -> Result<(), Fail> {
    let Script {
        start,
        limit: _,
        callers: _,
        base,
        phases,
    } = script_of(alloc, lines)?;
    drop(start);
    match do_base(alloc, edit, base) {
        Ok(()) => do_phases(alloc, edit, phases),
        Err(fault) => {
            drop(phases);
            Err(fault)
        }
    }
}

/// The script of the base and those lines.
pub fn script_of(alloc: Global, lines: &[u8]) -> Result<Script, Fail> {
    let bytes = bytes_of(alloc, lines)?;
    let script = read_script(alloc, bytes.as_slice());
    drop(bytes);
    Ok(script.ok().ok_or("no script")?)
}

fn bytes_of(alloc: Global, lines: &[u8]) -> Result<Vec<u8>, NoMemory> {
    let mut bytes = Vec::from_slice(alloc, BASE)?;
    match bytes.extend_from_slice(lines) {
        Ok(()) => Ok(bytes),
        Err(fault) => {
            drop(bytes);
            Err(fault)
        }
    }
}

fn do_base(alloc: Global, edit: &mut StateEdit, base: BaseList) -> Result<(), Fail> {
    for (_, act) in base.into_vec() {
        do_act(alloc, edit, act)?;
    }
    Ok(())
}

fn do_act(alloc: Global, edit: &mut StateEdit, act: Act) -> Result<(), Fail> {
    let update = Update { alone: false, act };
    let applied = apply(alloc, edit, &update);
    drop(update);
    applied?;
    Ok(())
}

fn do_phases(alloc: Global, edit: &mut StateEdit, phases: PhaseList) -> Result<(), Fail> {
    for lines in phases.into_vec() {
        do_lines(alloc, edit, lines)?;
    }
    Ok(())
}

fn do_lines(alloc: Global, edit: &mut StateEdit, lines: LineList) -> Result<(), Fail> {
    for line in lines.into_vec() {
        do_job(alloc, edit, line.job)?;
    }
    Ok(())
}

fn do_job(alloc: Global, edit: &mut StateEdit, job: Job) -> Result<(), Fail> {
    if let Job::Submit { update, .. } = job {
        let applied = apply(alloc, edit, &update);
        drop(update);
        applied?;
    }
    Ok(())
}
