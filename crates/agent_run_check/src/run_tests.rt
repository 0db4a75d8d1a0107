//! What calls of the program answer: whole runs, refused scripts with their lines, and an outside that
//! fails. The runs of `examples_check` are longer.
use crate::runs::{
    NO_LINES, PORT_FLAPS, QUEUE_RUNS, RACK, RACK_REPORT, ROUTE_RUNS, Run, STATION_RUNS,
};
use agent_run::agent_main;
use io_edge::{MemSink, MemSource, MemStore, OpenGate};
use net_types::{NoMemory, NumList};
use observer_kinds::TotalsObserver;
use observers::Observers;
use std::alloc::Global;
use std::sync::Wait;
use std::test::Fail;
use std::thread::Threads;

/// The lines of a script with one port.
const LINES: [&[u8]; 9] = [
    b"start cold 4 4 4 4",
    b"limit 10",
    b"callers 1",
    b"phase",
    b"0 vlan add 10 web",
    b"0 port add 1 10",
    b"0 port up 1",
    b"0 mac set 10 02:00:00:00:00:0a 1",
    b"0 port down 1",
];

/// The number of a line of that script, what stands in its place, and what is answered.
const REPLACED: [(usize, &[u8], &[u8]); 20] = [
    (
        1,
        b"start cold 65537 4 4 4",
        b"error: script line 1 word 2\n",
    ),
    (
        1,
        b"start cold 4 4 4097 4",
        b"error: script line 1 word 4\n",
    ),
    (1, b"start\tcold 4 4 4 4", b"error: script line 1 byte\n"),
    (2, b"limit 0", b"error: script line 2 word 1\n"),
    (2, b"limit 1000001", b"error: script line 2 word 1\n"),
    (2, b"\nlimit 0", b"error: script line 3 word 1\n"),
    (3, b"callers 17", b"error: script line 3 word 1\n"),
    (3, b"callers 01", b"error: script line 3 word 1\n"),
    (3, b"callers 2", b"error: script not built\n"),
    (4, b"phase x", b"error: script line 4 word 1\n"),
    (5, b"0 vlan add 4095 x", b"error: script line 5 word 3\n"),
    (5, b"1 vlan add 10 web", b"error: script line 5 word 0\n"),
    (5, b"0 vlan add 10", b"error: script line 5 word 4\n"),
    (
        5,
        b"0 vlan add 10 web # x",
        b"error: script line 5 word 5\n",
    ),
    (5, b"0 queue settle", b"error: script line 5 word 2\n"),
    (
        5,
        b"0 route set 0 20.0.0.1/8 ebgp drop",
        b"error: script line 5 word 4\n",
    ),
    (
        5,
        b"0 route set 0 20.0.0.0/8 bgp drop",
        b"error: script line 5 word 5\n",
    ),
    (
        5,
        b"0 client sync 0 ebgp ;",
        b"error: script line 5 word 5\n",
    ),
    (
        5,
        b"0 client sync 0 ebgp 20.0.0.0/8 drop ;",
        b"error: script line 5 word 8\n",
    ),
    (5, b"#\0", b"error: script line 5 byte\n"),
];

const NOT_BUILT: &[u8] = b"error: script not built\n";

/// A script that isn't run, the exit status and the line that is written.
const REFUSED: [(&[u8], u8, &[u8]); 11] = [
    (b"", 3, b"error: script line 1 word 0\n"),
    (b"start cold 4 4", 3, b"error: script line 1 word 4\n"),
    (
        b"start cold 4 4 4 4\nlimit 10\n",
        3,
        b"error: script line 3 word 0\n",
    ),
    (b"start warm kept\nlimit 10\ncallers 1\n", 3, NOT_BUILT),
    (b"start cold 0 0 0 0\nlimit 1\ncallers 2\n", 3, NOT_BUILT),
    // That a script isn't built is told before its base is tried.
    (
        b"start cold 4 4 4 4\nlimit 1\ncallers 2\nbase port add 1 1\n",
        3,
        NOT_BUILT,
    ),
    (
        b"start cold 1 0 0 0\nlimit 100\ncallers 1\nbase port add 1 10\nphase\n",
        3,
        b"error: script line 4 base NoVlan\n",
    ),
    (ONE_STATION, 10, b"error: opening full l2\n"),
    // An invalid line of the base comes before the chip's room.
    (
        ONE_STATION_AND_MORE,
        3,
        b"error: script line 8 base VlanExists\n",
    ),
    (ONE_SUBNET, 10, b"error: opening full route\n"),
    (ONE_NEIGHBOR, 10, b"error: opening full host\n"),
];

const ONE_STATION: &[u8] = b"start cold 0 0 0 0
limit 1
callers 1
base vlan add 1 a
base port add 1 1
base mac set 1 02:00:00:00:00:01 1
";

const ONE_STATION_AND_MORE: &[u8] = b"start cold 0 0 0 0
limit 1
callers 1
base vlan add 1 a
base port add 1 1
base mac set 1 02:00:00:00:00:01 1
# skipped, and counted
base vlan add 1 a
";

const ONE_SUBNET: &[u8] = b"start cold 0 0 0 0
limit 20
callers 1
base vlan add 10 web
base intf add 1 10 0 02:00:00:00:01:01
base addr add 1 10.0.0.1/24
phase
";

const ONE_NEIGHBOR: &[u8] = b"start cold 0 0 0 0
limit 20
callers 1
base vlan add 10 web
base intf add 1 10 0 02:00:00:00:01:01
base addr add 1 10.0.0.1/24
base neighbor pending 1 10.0.0.2
";

/// How the report of a port that flaps ends with two observers.
const OBSERVED: &[u8] = b"observers 2
observer 0 version 5 ports 1 up 0 vlans 1 intfs 0 macs 1 neighbors 0 routes 0 fib 0
observer 1 version 5 ports 1 up 0 vlans 1 intfs 0 macs 1 neighbors 0 routes 0 fib 0
end
";

/// Lists of words that are no command.
const WORDS: [&[&str]; 6] = [
    &[],
    &[""],
    &["Run"],
    &["run", "run"],
    &["run", "a", "b"],
    &["help"],
];

/// The most bytes that a call moves, and the numbers of the calls that fail.
type Outside<'a> = (usize, &'a [u64]);

/// All at once, without a failure.
const WELL: Outside = (65_536, &[]);

fn numbers(alloc: Global, items: &[u64]) -> Result<NumList, NoMemory> {
    Ok(NumList::from_vec(items.to_vec(alloc)?))
}

/// So many observers.
fn observers_of(alloc: Global, count: usize) -> Result<Observers<TotalsObserver>, NoMemory> {
    let mut list = Vec::new(alloc);
    for _ in 0..count {
        list.push(TotalsObserver::new())?;
    }
    Ok(Observers::new(list))
}

fn words_of(alloc: Global, words: &[&str]) -> Result<Vec<String>, NoMemory> {
    let mut list = Vec::new(alloc);
    for word in words {
        list.push(String::from_str(alloc, *word)?)?;
    }
    Ok(list)
}

/// The exit status of the call with these words and no observers, and what was written.
fn call<R: Threads + Wait + Sync>(
    rt: &R,
    alloc: Global,
    words: &[&str],
    script: Vec<u8>,
    reads: Outside,
    writes: Outside,
) -> Result<(u8, Vec<u8>), NoMemory> {
    observed(rt, alloc, words, script, reads, writes, 0)
}

/// The exit status of the call with these words and so many observers, and what was written.
fn observed<R: Threads + Wait + Sync>(
    rt: &R,
    alloc: Global,
    words: &[&str],
    script: Vec<u8>,
    reads: Outside,
    writes: Outside,
    count: usize,
) -> Result<(u8, Vec<u8>), NoMemory> {
    let list = words_of(alloc, words)?;
    let mut source = MemSource::new(script, reads.0.max(1), numbers(alloc, reads.1)?);
    let mut sink = MemSink::new(alloc, writes.0.max(1), numbers(alloc, writes.1)?);
    let mut store = MemStore::new(alloc, NumList::new(alloc));
    let status = agent_main(
        rt,
        alloc,
        &list,
        &mut source,
        &mut sink,
        &mut store,
        &OpenGate,
        observers_of(alloc, count)?,
    );
    Ok((status.code(), sink.bytes().to_vec(alloc)?))
}

/// The exit status of the command `run`, and what was written.
fn run<R: Threads + Wait + Sync>(
    rt: &R,
    alloc: Global,
    script: &[u8],
    reads: Outside,
    writes: Outside,
) -> Result<(u8, Vec<u8>), NoMemory> {
    call(rt, alloc, &["run"], script.to_vec(alloc)?, reads, writes)
}

/// The script with one port, with another text for the line of that number.
fn with_line(alloc: Global, number: usize, text: &[u8]) -> Result<Vec<u8>, NoMemory> {
    let mut script = Vec::new(alloc);
    for (at, line) in LINES.iter().enumerate() {
        script.extend_from_slice(if at + 1 == number { text } else { *line })?;
        script.push(b'\n')?;
    }
    Ok(script)
}

#[test]
fn says_which_line_is_bad(rt: HostRuntime) -> Result<(), Fail> {
    let alloc = rt.alloc();
    for (number, text, line) in REPLACED {
        let script = with_line(alloc, number, text)?;
        let (status, written) = call(&rt, alloc, &["run"], script, WELL, WELL)?;
        assert_eq!(rt; status, 3);
        assert_eq!(rt; written.as_slice(), line);
    }
    Ok(())
}

#[test]
fn says_why_a_script_is_not_run(rt: HostRuntime) -> Result<(), Fail> {
    let alloc = rt.alloc();
    for (script, code, text) in REFUSED {
        let (status, written) = run(&rt, alloc, script, WELL, WELL)?;
        assert_eq!(rt; status, code);
        assert_eq!(rt; written.as_slice(), text);
    }
    Ok(())
}

/// Each of these scripts has this report.
fn are_reported<R: Threads + Wait + Sync>(
    rt: &R,
    alloc: Global,
    runs: &[Run],
) -> Result<bool, NoMemory> {
    for (script, report) in runs {
        let (status, written) = run(rt, alloc, script, WELL, WELL)?;
        if status != 0 || written.as_slice() != *report {
            return Ok(false);
        }
    }
    Ok(true)
}

#[test]
fn reports_whole_runs(rt: HostRuntime) -> Result<(), Fail> {
    let alloc = rt.alloc();
    let stations = are_reported(&rt, alloc, &STATION_RUNS)?;
    assert!(rt; stations);
    let queues = are_reported(&rt, alloc, &QUEUE_RUNS)?;
    assert!(rt; queues);
    let routes = are_reported(&rt, alloc, &ROUTE_RUNS)?;
    assert!(rt; routes);
    let rack = are_reported(&rt, alloc, &[(RACK, RACK_REPORT)])?;
    assert!(rt; rack);
    Ok(())
}

#[test]
fn reports_where_observers_stand(rt: HostRuntime) -> Result<(), Fail> {
    let alloc = rt.alloc();
    let script = PORT_FLAPS.to_vec(alloc)?;
    let (status, written) = observed(&rt, alloc, &["run"], script, WELL, WELL, 2)?;
    assert_eq!(rt; status, 0);
    assert!(rt; written.ends_with(OBSERVED));
    Ok(())
}

#[test]
fn says_that_the_words_are_no_command(rt: HostRuntime) -> Result<(), Fail> {
    let alloc = rt.alloc();
    for words in WORDS {
        let script = NO_LINES.to_vec(alloc)?;
        let (status, written) = call(&rt, alloc, words, script, WELL, (4, &[]))?;
        assert_eq!(rt; status, 2);
        assert_eq!(rt; written.as_slice(), b"error: words\n".as_slice());
    }
    Ok(())
}

#[test]
fn reads_up_to_the_longest_script(rt: HostRuntime) -> Result<(), Fail> {
    let alloc = rt.alloc();
    let text = b"error: script line 2 word 0\n".as_slice();
    for (length, code, line) in [(16_777_216, 3, text), (16_777_217, 9, b"")] {
        let script = vec![in alloc; b'#'; length]?;
        let (status, written) = call(&rt, alloc, &["run"], script, WELL, WELL)?;
        assert_eq!(rt; status, code);
        assert_eq!(rt; written.as_slice(), line);
    }
    Ok(())
}

#[test]
fn each_failing_read_is_told(rt: HostRuntime) -> Result<(), Fail> {
    let alloc = rt.alloc();
    for piece in [7, 64, 1024] {
        let reads = RACK.len().div_ceil(piece) + 1;
        for call in 0..=reads {
            let failing = [call as u64];
            let (status, written) = run(&rt, alloc, RACK, (piece, &failing), WELL)?;
            let (code, text) = if call < reads {
                (4, b"".as_slice())
            } else {
                (0, RACK_REPORT)
            };
            assert_eq!(rt; status, code, "at read {call} of {piece}");
            assert_eq!(rt; written.as_slice(), text);
        }
    }
    Ok(())
}

#[test]
fn each_failing_write_leaves_a_prefix(rt: HostRuntime) -> Result<(), Fail> {
    let alloc = rt.alloc();
    for piece in [7, 64, 1024] {
        let writes = RACK_REPORT.len().div_ceil(piece);
        for call in 0..=writes {
            let failing = [call as u64];
            let (status, written) = run(&rt, alloc, RACK, WELL, (piece, &failing))?;
            let code = if call < writes { 5 } else { 0 };
            let moved = call.saturating_mul(piece).min(RACK_REPORT.len());
            assert_eq!(rt; status, code, "at write {call} of {piece}");
            assert_eq!(rt; written.as_slice(), &RACK_REPORT[..moved]);
        }
    }
    let (status, written) = run(&rt, alloc, b"limit 1\n", WELL, (5, &[1]))?;
    assert_eq!(rt; status, 3);
    assert_eq!(rt; written.as_slice(), b"error".as_slice());
    Ok(())
}

// Where memory is refused, the answer is that, or the fault of a sink that could not grow. With
// ample memory the whole report is written: each allocation of this test is refused in turn
// outside the gate, the test's own among them, which it lets pass.
#[test]
fn refused_memory_is_told_as_such(rt: HostRuntime) -> Result<(), Fail> {
    let alloc = rt.alloc();
    let Ok(script) = RACK.to_vec(alloc) else {
        return Ok(());
    };
    let Ok((status, written)) = call(&rt, alloc, &["run"], script, WELL, (16, &[])) else {
        return Ok(());
    };
    let is_whole = written.ends_with(b"\nend\n");
    match status {
        0 => assert!(rt; is_whole),
        5 => assert!(rt; !is_whole),
        8 => assert!(rt; written.is_empty()),
        _ => assert!(rt; false, "an answer that want of memory does not explain"),
    }
    Ok(())
}
