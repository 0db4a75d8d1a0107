//! Scripts of seeds, compared with those of another program.
use net_types::{NoMemory, Text};
use script_text::{BaseList, Job, Line, LineList, Script, Start, print_update};
use std::alloc::Global;
use std::test::Fail;
use switch_model::Update;
use work_gen::make_script;

/// Acts of the base, with their lines.
const BASE: [(u64, &str); 10] = [
    (4, "vlan add 1 g"),
    (11, "vlan add 8 g"),
    (12, "port add 1 1"),
    (13, "port up 1"),
    (74, "port add 32 8"),
    (75, "port up 32"),
    (76, "intf add 1 1 0 02:00:00:00:00:01"),
    (77, "addr add 1 10.1.0.1/16"),
    (90, "intf add 8 8 0 02:00:00:00:00:08"),
    (91, "addr add 8 10.8.0.1/16"),
];

/// Updates of seed 1, with their places in the phase.
const OF_ONE: [(u32, &str); 13] = [
    (
        0,
        "route set 0 20.53.0.0/16 openr via 10.3.0.76 10.3.0.77 10.3.0.78",
    ),
    (1, "neighbor set 1 10.1.0.197 02:00:00:02:0f:fa 1"),
    (2, "route del 0 20.36.0.0/16 ebgp"),
    (3, "route del 0 20.232.0.0/16 openr"),
    (4, "mac set 4 02:00:00:01:0b:56 28"),
    (5, "neighbor set 8 10.8.0.198 02:00:00:02:0a:e2 32"),
    (6, "port down 20"),
    (7, "neighbor set 7 10.7.0.189 02:00:00:02:0c:65 7"),
    (8, "port down 10"),
    (15, "neighbor del 7 10.7.0.42"),
    (30, "mac del 6 02:00:00:01:05:93"),
    (38, "route del 0 20.185.0.0/16 openr"),
    (39, "neighbor del 3 10.3.0.58"),
];

/// Updates of the greatest seed, with their places in the phase.
const OF_GREATEST: [(u32, &str); 4] = [
    (0, "mac set 1 02:00:00:01:05:16 25"),
    (1, "neighbor set 5 10.5.0.144 02:00:00:02:0a:2d 21"),
    (2, "neighbor set 6 10.6.0.51 02:00:00:02:0a:3b 6"),
    (19999, "port up 8"),
];

/// The text of an update.
fn printed(alloc: Global, update: &Update) -> Result<Text, NoMemory> {
    let mut text = Text::new(alloc);
    match print_update(alloc, &mut text, update) {
        Ok(()) => Ok(text),
        Err(fault) => {
            drop(text);
            Err(fault)
        }
    }
}

/// Whether the update is printed so.
fn is_printed(alloc: Global, update: &Update, wanted: &str) -> Result<bool, NoMemory> {
    let text = printed(alloc, update)?;
    let is_wanted = text.as_slice() == wanted.as_bytes();
    drop(text);
    Ok(is_wanted)
}

/// Whether the line is of caller 0, and queues the update that is printed so.
fn is_queued(alloc: Global, line: &Line, number: u64, wanted: &str) -> Result<bool, NoMemory> {
    match &line.job {
        Job::Submit { queue, update } => {
            let is_wanted = is_printed(alloc, update, wanted)?;
            Ok(is_wanted && *queue && line.caller == 0 && line.line == number)
        }
        _ => Ok(false),
    }
}

/// Whether these updates stand at their places in the phase, whose first line is line 93.
fn has_updates(alloc: Global, phase: &LineList, wanted: &[(u32, &str)]) -> Result<bool, NoMemory> {
    for (place, text) in wanted {
        let is_here = match phase.at(*place as usize) {
            Some(line) => is_queued(alloc, line, 93 + u64::from(*place), text)?,
            None => false,
        };
        if !is_here {
            return Ok(false);
        }
    }
    Ok(true)
}

/// Whether the script has the fixed head and base, and so many updates in one phase.
fn is_shaped(script: &Script, count: u32) -> bool {
    let Start::Cold(caps) = &script.start else {
        return false;
    };
    let is_head = caps.l2 == 1024 && caps.host == 512 && caps.group == 32 && caps.route == 256;
    let is_one = script.phases.len() == 1 && script.base.len() == 88 && script.callers == 1;
    is_head && is_one && script.limit == u64::from(count)
}

/// Whether the script of so many updates of the seed has these at their places.
fn is_made(alloc: Global, seed: u64, count: u32, wanted: &[(u32, &str)]) -> Result<bool, NoMemory> {
    let script = make_script(alloc, seed, count)?;
    let is_shaped = is_shaped(&script, count);
    let has_updates = match script.phases.at(0) {
        Some(phase) => match has_updates(alloc, phase, wanted) {
            Ok(has_updates) => has_updates && phase.len() == count as usize,
            Err(_) => false,
        },
        None => false,
    };
    drop(script);
    Ok(is_shaped && has_updates)
}

/// Whether the table has the update at that line, printed so.
fn is_wanted(alloc: Global, line: u64, update: &Update) -> Result<bool, NoMemory> {
    for (number, text) in BASE {
        if number == line {
            return is_printed(alloc, update, text);
        }
    }
    Ok(false)
}

/// How many acts of the base stand in the table.
fn count_base(alloc: Global, base: BaseList) -> Result<usize, NoMemory> {
    let mut count = 0usize;
    for (line, act) in base.into_vec() {
        let update = Update { alone: false, act };
        let found = is_wanted(alloc, line, &update);
        drop(update);
        if found? {
            count = count.saturating_add(1);
        }
    }
    Ok(count)
}

#[test]
fn updates_are_those_of_another_program(rt: HostRuntime) -> Result<(), Fail> {
    let alloc = rt.alloc();
    let of_one = is_made(alloc, 1, 40, &OF_ONE)?;
    assert!(rt; of_one);
    let of_greatest = is_made(alloc, u64::MAX, 20_000, &OF_GREATEST)?;
    assert!(rt; of_greatest);
    Ok(())
}

#[test]
fn the_base_is_that_of_another_program(rt: HostRuntime) -> Result<(), Fail> {
    let alloc = rt.alloc();
    let Script {
        base,
        phases,
        start,
        ..
    } = make_script(alloc, 0, 0)?;
    drop(phases);
    drop(start);
    let count = count_base(alloc, base)?;
    assert!(rt; count == BASE.len());
    Ok(())
}
