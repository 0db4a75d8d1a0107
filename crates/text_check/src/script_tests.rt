//! Scripts and the places of their faults.
use net_types::{Client, NoMemory};
use script_text::{Job, Line, Script, ScriptFault, Start, read_script};
use std::alloc::Global;
use std::process::Abort;
use std::test::Fail;
use switch_model::{Act, Query, RouteList, Update, Via};

/// The lines before the first phase of a small script with one caller.
const HEAD: &[u8] = b"start cold 4 4 4 4\nlimit 10\ncallers 1\n";

const WARM: &[u8] = b"start warm kept.1\nlimit 1\ncallers 16\n";

const WHOLE: &[u8] =
    b"# a comment\n\n start  cold 4 3 2 1 \nlimit 10\ncallers 2\nbase vlan add 10 web\nphase\n1 port up 7\n\n0 settle\nphase\n0 pump";

/// The first lines of scripts, with the line and the word of their fault.
const FIRST_LINES: &[(&[u8], u64, u64)] = &[
    (b"", 1, 0),
    (b"# nothing else\n\n", 3, 0),
    (b"start cold 4 4", 1, 4),
    (b"start cold 65537 4 4 4\n", 1, 2),
    (b"start cold 4 4 4097 4\n", 1, 4),
    (b"start cold 4 4 4 4 4\n", 1, 6),
    (b"start warm A\n", 1, 2),
    (b"start cold 4 4 4 4\nlimit 10\n", 3, 0),
    (b"start cold 4 4 4 4\nlimit 0\n", 2, 1),
    (b"start cold 4 4 4 4\nlimit 1000001\n", 2, 1),
    (b"start cold 4 4 4 4\nlimit 10\ncallers 17\n", 3, 1),
    (b"start cold 4 4 4 4\nlimit 10\ncallers 01\n", 3, 1),
];

/// What stands behind the head, with the line and the word of its fault.
const BEHIND_THE_HEAD: &[(&[u8], u64, u64)] = &[
    (b"phase x\n", 4, 1),
    (b"0 settle\n", 4, 0),
    (b"phase\nbase vlan add 1 a\n", 5, 0),
    (b"base phase\n", 4, 1),
    (b"phase\n0 vlan add 4095 x", 5, 3),
    (b"phase\n1 vlan add 10 web", 5, 0),
    (b"phase\n00 vlan add 10 web", 5, 0),
    (b"phase\n0 vlan add 10", 5, 4),
    (b"phase\n0 vlan add 10 web web", 5, 5),
    (b"phase\n0 queue settle", 5, 2),
    (b"phase\n0 alone queue port up 1", 5, 2),
    (b"phase\n0 port up 1025", 5, 3),
    (b"phase\n0 show", 5, 2),
    (b"phase\n0", 5, 1),
];

/// Lines that name routes, with the word of their fault.
const ROUTES: &[(&[u8], u64)] = &[
    (b"0 route set 0 20.0.0.1/8 ebgp drop", 4),
    (b"0 route set 0 20.0.0.0/8 bgp drop", 5),
    (b"0 route set 0 20.0.0.0/8 ebgp via ;", 7),
    (b"0 route set 0 20.0.0.0/8 ebgp", 6),
    (b"0 client sync 0 ebgp ;", 5),
    (b"0 client sync 0 ebgp 20.0.0.0/8 drop ;", 8),
    (b"0 client sync 0 ebgp 20.0.0.0/8 drop drop", 7),
    (b"0 client sync 0 ebgp 20.0.0.0/8 via x", 7),
];

/// What may stand behind the head.
const GOOD: &[&[u8]] = &[
    b"",
    b"phase\nphase\n",
    b"phase\n0 vlan add 4094 x",
    b"phase\n#~",
    b"phase\n0 route set 0 20.0.0.0/8 ebgp via",
    b"phase\n0 client sync 0 ebgp",
];

/// The fault of the script that these parts are.
fn fault_of(alloc: Global, parts: &[&[u8]]) -> Result<Option<ScriptFault>, NoMemory> {
    let mut bytes = Vec::new(alloc);
    for part in parts {
        bytes.extend_from_slice(part)?;
    }
    match read_script(alloc, bytes.as_slice()) {
        Ok(_) => Ok(None),
        Err(fault) => Ok(Some(fault)),
    }
}

/// A script that is one.
fn script_of(alloc: Global, bytes: &[u8]) -> Result<Script, Fail> {
    match read_script(alloc, bytes) {
        Ok(script) => Ok(script),
        Err(_) => Err(Fail::new("it is no script")),
    }
}

/// The only line of the only phase of a script whose fifth line is that one.
fn only_line(alloc: Global, line: &[u8]) -> Result<Line, Fail> {
    let mut bytes = Vec::new(alloc);
    bytes.extend_from_slice(HEAD)?;
    bytes.extend_from_slice(b"phase\n")?;
    bytes.extend_from_slice(line)?;
    let script = script_of(alloc, bytes.as_slice())?;
    match line_of(script) {
        Some(line) => Ok(line),
        None => Err(Fail::new("it has no line")),
    }
}

fn line_of(script: Script) -> Option<Line> {
    match script.phases.into_vec().pop() {
        Some(phase) => phase.into_vec().pop(),
        None => None,
    }
}

fn update_name(queue: bool, update: &Update) -> &'static str {
    match (queue, update.alone) {
        (false, false) => "at once",
        (true, false) => "queued",
        (false, true) => "alone",
        (true, true) => "queued alone",
    }
}

fn query_name(query: &Query) -> &'static str {
    match query {
        Query::Version => "version",
        Query::Counts => "counts",
        Query::Port(_) => "port",
        Query::Route(_, _) => "route",
    }
}

fn job_name(job: &Job) -> &'static str {
    match job {
        Job::Submit { queue, update } => update_name(*queue, update),
        Job::Settle => "settle",
        Job::Pump => "pump",
        Job::Peek => "peek",
        Job::Tables => "tables",
        Job::Show(query) => query_name(query),
    }
}

/// What a line asks.
fn name_of(alloc: Global, line: &[u8]) -> Result<&'static str, Fail> {
    let line = only_line(alloc, line)?;
    Ok(job_name(&line.job))
}

fn via_name(route: Option<&(net_types::Prefix, Via)>) -> &'static str {
    match route {
        Some((_, Via::Hops(hops))) => match hops.len() {
            0 => "no hop",
            1 => "a hop",
            _ => "hops",
        },
        Some((_, Via::ToCpu)) => "cpu",
        Some((_, Via::Discard)) => "drop",
        None => "nothing",
    }
}

/// The name of the item at that place of a sync.
fn item_of(line: &Line, at: usize) -> &'static str {
    match &line.job {
        Job::Submit { update, .. } => match &update.act {
            Act::ClientSync { routes, .. } => via_at(routes, at),
            _ => "another act",
        },
        _ => "no update",
    }
}

fn via_at(routes: &RouteList, at: usize) -> &'static str {
    via_name(routes.at(at))
}

/// The capacities of a cold start, as the start line has them.
fn capacities(script: &Script) -> Option<(u32, u32, u32, u32)> {
    match &script.start {
        Start::Cold(caps) => Some((caps.l2, caps.host, caps.group, caps.route)),
        Start::Warm(_) => None,
    }
}

fn starts_warm_as(script: &Script, kept: &[u8]) -> bool {
    match &script.start {
        Start::Cold(_) => false,
        Start::Warm(name) => name.bytes() == kept,
    }
}

/// The number of the line of an act of the base.
fn base_line(script: &Script) -> Option<u64> {
    match script.base.at(0) {
        Some((line, _)) => Some(*line),
        None => None,
    }
}

/// The number and the caller of the last line of the first phase.
fn last_of_the_first(script: &Script) -> Option<(u64, u32)> {
    match script.phases.at(0) {
        Some(phase) => match phase.at(1) {
            Some(line) => Some((line.line, line.caller)),
            None => None,
        },
        None => None,
    }
}

fn check_whole(rt: &impl Abort, script: &Script) {
    assert_eq!(rt; capacities(script), Some((4, 3, 2, 1)));
    assert_eq!(rt; script.limit, 10);
    assert_eq!(rt; script.callers, 2);
    assert_eq!(rt; base_line(script), Some(6));
    assert_eq!(rt; script.phases.len(), 2);
    assert_eq!(rt; last_of_the_first(script), Some((10, 0)));
}

#[test]
fn a_whole_script_is_read(rt: HostRuntime) -> Result<(), Fail> {
    let script = script_of(rt.alloc(), WHOLE)?;
    check_whole(&rt, &script);
    Ok(())
}

#[test]
fn marks_stand_before_an_update(rt: HostRuntime) -> Result<(), Fail> {
    let alloc = rt.alloc();
    let plain = name_of(alloc, b"0 port up 7")?;
    assert_eq!(rt; plain, "at once");
    let queued = name_of(alloc, b"0 queue port up 7")?;
    assert_eq!(rt; queued, "queued");
    let alone = name_of(alloc, b"0 alone port up 7")?;
    assert_eq!(rt; alone, "alone");
    let both = name_of(alloc, b"0 queue alone port up 7")?;
    assert_eq!(rt; both, "queued alone");
    Ok(())
}

#[test]
fn each_question_is_read(rt: HostRuntime) -> Result<(), Fail> {
    let alloc = rt.alloc();
    let version = name_of(alloc, b"0 show version")?;
    assert_eq!(rt; version, "version");
    let counts = name_of(alloc, b"0 show counts")?;
    assert_eq!(rt; counts, "counts");
    let port = name_of(alloc, b"0 show port 1024")?;
    assert_eq!(rt; port, "port");
    let route = name_of(alloc, b"0 show route 65535 fe80::1")?;
    assert_eq!(rt; route, "route");
    let peek = name_of(alloc, b"0 peek")?;
    assert_eq!(rt; peek, "peek");
    let tables = name_of(alloc, b"0 tables")?;
    assert_eq!(rt; tables, "tables");
    Ok(())
}

/// The VRF and the client of a sync.
fn owner_of(line: &Line) -> Option<(u16, Client)> {
    match &line.job {
        Job::Submit { update, .. } => match &update.act {
            Act::ClientSync { vrf, client, .. } => Some((vrf.get(), *client)),
            _ => None,
        },
        _ => None,
    }
}

fn check_items(rt: &impl Abort, line: &Line) {
    assert_eq!(rt; owner_of(line), Some((7, Client::Ebgp)));
    assert_eq!(rt; item_of(line, 0), "no hop");
    assert_eq!(rt; item_of(line, 1), "cpu");
    assert_eq!(rt; item_of(line, 2), "hops");
    assert_eq!(rt; item_of(line, 3), "nothing");
}

#[test]
fn items_of_a_sync_stand_between_semicolons(rt: HostRuntime) -> Result<(), Fail> {
    let text =
        b"0 client sync 7 ebgp 20.0.0.0/8 via ; ::/0 cpu ; 30.0.0.0/8 via 10.0.0.1 10.0.0.2@3";
    let line = only_line(rt.alloc(), text)?;
    check_items(&rt, &line);
    Ok(())
}

#[test]
fn a_warm_start_has_no_base(rt: HostRuntime) -> Result<(), Fail> {
    let alloc = rt.alloc();
    let base = fault_of(alloc, &[WARM, b"base vlan add 1 a\n"])?;
    assert_eq!(rt; base, Some(ScriptFault::Word { line: 4, word: 0 }));
    let script = script_of(alloc, WARM)?;
    assert!(rt; starts_warm_as(&script, b"kept.1"));
    Ok(())
}

#[test]
fn faults_of_the_first_lines(rt: HostRuntime) -> Result<(), Fail> {
    for &(text, line, word) in FIRST_LINES {
        let found = fault_of(rt.alloc(), &[text])?;
        assert_eq!(rt; found, Some(ScriptFault::Word { line, word }));
    }
    Ok(())
}

#[test]
fn faults_behind_the_head(rt: HostRuntime) -> Result<(), Fail> {
    for &(text, line, word) in BEHIND_THE_HEAD {
        let found = fault_of(rt.alloc(), &[HEAD, text])?;
        assert_eq!(rt; found, Some(ScriptFault::Word { line, word }));
    }
    Ok(())
}

#[test]
fn faults_of_routes(rt: HostRuntime) -> Result<(), Fail> {
    for &(text, word) in ROUTES {
        let found = fault_of(rt.alloc(), &[HEAD, b"phase\n", text])?;
        assert_eq!(rt; found, Some(ScriptFault::Word { line: 5, word }));
    }
    Ok(())
}

#[test]
fn a_byte_is_tested_before_the_words(rt: HostRuntime) -> Result<(), Fail> {
    let alloc = rt.alloc();
    let first = fault_of(alloc, &[b"start\tcold 4 4 4 4\n"])?;
    assert_eq!(rt; first, Some(ScriptFault::Byte { line: 1 }));
    let comment = fault_of(alloc, &[HEAD, b"phase\n#\0"])?;
    assert_eq!(rt; comment, Some(ScriptFault::Byte { line: 5 }));
    Ok(())
}

#[test]
fn good_lines_have_no_fault(rt: HostRuntime) -> Result<(), Fail> {
    for &text in GOOD {
        let found = fault_of(rt.alloc(), &[HEAD, text])?;
        assert_eq!(rt; found, None);
    }
    let greatest = fault_of(
        rt.alloc(),
        &[b"start cold 4 4 4 4\nlimit 1000000\ncallers 16"],
    )?;
    assert_eq!(rt; greatest, None);
    Ok(())
}

// Each allocation of this test is refused in turn outside the gate, the test's own among them,
// which it lets pass: no other answer may come in the place of the script.
#[test]
fn refused_memory_is_told_as_such(rt: HostRuntime) -> Result<(), Fail> {
    let lines =
        b"base vlan add 10 web\nphase\n0 client sync 0 ebgp 20.0.0.0/8 via 10.0.0.1 ; ::/0 drop\n0 settle\n";
    match fault_of(rt.alloc(), &[HEAD, lines]) {
        Ok(found) => assert!(rt; found.is_none() || found == Some(ScriptFault::NoMemory)),
        Err(_) => {}
    }
    Ok(())
}
