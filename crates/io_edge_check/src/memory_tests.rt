//! Sources, sinks and stores in memory.
use io_edge::{
    Failed, MemSink, MemSource, MemStore, ReadFault, Store, StoreFault, read_all, write_all,
};
use net_types::{Name, NoMemory, NumList};
use std::alloc::Global;
use std::test::Fail;

const TEXT: &[u8; 20] = b"port add 1 vlan 100\n";

fn numbers(alloc: Global, items: &[u64]) -> Result<NumList, NoMemory> {
    Ok(NumList::from_vec(items.to_vec(alloc)?))
}

/// The text in pieces of that size, where the calls of those numbers fail, read up to the limit:
/// what a first reading gives, or its fault, and what a second one gives.
struct Reading {
    piece: usize,
    failing: &'static [u64],
    limit: usize,
    fault: Option<ReadFault>,
    first: &'static [u8],
    second: &'static [u8],
}

const READINGS: [Reading; 5] = [
    Reading {
        piece: 1,
        failing: &[],
        limit: 20,
        fault: None,
        first: TEXT,
        second: b"",
    },
    Reading {
        piece: 7,
        failing: &[],
        limit: 20,
        fault: None,
        first: TEXT,
        second: b"",
    },
    Reading {
        piece: 16,
        failing: &[],
        limit: 20,
        fault: None,
        first: TEXT,
        second: b"",
    },
    Reading {
        piece: 7,
        failing: &[],
        limit: 18,
        fault: Some(ReadFault::TooLong),
        first: b"",
        second: b"\n",
    },
    Reading {
        piece: 7,
        failing: &[2],
        limit: 20,
        fault: Some(ReadFault::Failed),
        first: b"",
        second: b"n 100\n",
    },
];

fn source_of(alloc: Global, reading: &Reading) -> Result<MemSource, NoMemory> {
    let failing = numbers(alloc, reading.failing)?;
    match TEXT.to_vec(alloc) {
        Ok(text) => Ok(MemSource::new(text, reading.piece.max(1), failing)),
        Err(fault) => {
            drop(failing);
            Err(fault)
        }
    }
}

/// Whether a reading up to the limit gives those bytes, or that fault.
fn gives(
    alloc: Global,
    source: &mut MemSource,
    limit: usize,
    wanted: Result<&[u8], ReadFault>,
) -> bool {
    match read_all(alloc, source, limit) {
        Ok(bytes) => {
            let is_wanted = wanted == Ok(bytes.as_slice());
            drop(bytes);
            is_wanted
        }
        Err(fault) => wanted == Err(fault),
    }
}

fn wanted_first(reading: &Reading) -> Result<&[u8], ReadFault> {
    match reading.fault {
        Some(fault) => Err(fault),
        None => Ok(reading.first),
    }
}

#[test]
fn sources_are_read_to_their_ends(rt: HostRuntime) -> Result<(), Fail> {
    let alloc = rt.alloc();
    for (at, reading) in READINGS.iter().enumerate() {
        let mut source = source_of(alloc, reading)?;
        let is_first = gives(alloc, &mut source, reading.limit, wanted_first(reading));
        let is_second = gives(alloc, &mut source, 20, Ok(reading.second));
        drop(source);
        assert!(rt; is_first, "first of reading {at}");
        assert!(rt; is_second, "second of reading {at}");
    }
    Ok(())
}

fn length_read(alloc: Global, source: &mut MemSource) -> Option<usize> {
    match read_all(alloc, source, 16_777_216) {
        Ok(bytes) => {
            let len = bytes.len();
            drop(bytes);
            Some(len)
        }
        Err(_) => None,
    }
}

#[test]
fn a_long_input_is_read_whole(rt: HostRuntime) -> Result<(), Fail> {
    let alloc = rt.alloc();
    let long = vec![in alloc; 7u8; 16_777_216]?;
    let mut source = MemSource::new(long, 65_536, NumList::new(alloc));
    let len = length_read(alloc, &mut source);
    drop(source);
    assert!(rt; len == Some(16_777_216));
    Ok(())
}

/// The text written in pieces of that size, where the calls of those numbers fail: whether that
/// is a fault, and what is there then.
const WRITINGS: [(usize, &[u64], Result<(), Failed>, &[u8]); 4] = [
    (1, &[], Ok(()), TEXT),
    (7, &[], Ok(()), TEXT),
    (64, &[], Ok(()), TEXT),
    (8, &[1], Err(Failed), b"port add"),
];

#[test]
fn sinks_take_all_or_a_prefix(rt: HostRuntime) -> Result<(), Fail> {
    let alloc = rt.alloc();
    for (piece, failing, wanted, there) in WRITINGS {
        let mut sink = MemSink::new(alloc, piece, numbers(alloc, failing)?);
        let result = write_all(&mut sink, TEXT);
        let is_there = sink.bytes() == there;
        drop(sink);
        assert_eq!(rt; result, wanted, "in pieces of {piece}");
        assert!(rt; is_there, "in pieces of {piece}");
    }
    Ok(())
}

/// What is asked of a store, with what it must answer.
#[derive(Clone, Copy)]
enum Asked {
    Puts(&'static [u8], &'static [u8]),
    Keeps(&'static [u8], &'static [u8], Result<(), Failed>),
    Loads(&'static [u8], usize, Result<&'static [u8], StoreFault>),
    Shows(&'static [u8], Option<&'static [u8]>),
}

const QUESTIONS: [Asked; 10] = [
    Asked::Puts(b"state", b"one"),
    Asked::Keeps(b"state.old", b"two", Ok(())),
    Asked::Keeps(b"state", b"three", Ok(())),
    Asked::Loads(b"state", 5, Ok(b"three")),
    Asked::Keeps(b"state", b"four", Err(Failed)),
    Asked::Loads(b"state", 4, Err(StoreFault::TooLong)),
    Asked::Loads(b"other", 4, Err(StoreFault::Failed)),
    Asked::Keeps(b"state", b"on", Ok(())),
    Asked::Shows(b"state", Some(b"on")),
    Asked::Shows(b"state.old", Some(b"two")),
];

fn is_put(alloc: Global, store: &mut MemStore, name: Name, text: &[u8]) -> bool {
    match text.to_vec(alloc) {
        Ok(bytes) => store.put(name, bytes).is_ok(),
        Err(_) => {
            drop(name);
            false
        }
    }
}

fn is_loaded(
    alloc: Global,
    store: &mut MemStore,
    name: &Name,
    limit: usize,
    wanted: Result<&[u8], StoreFault>,
) -> bool {
    match store.load(alloc, name, limit) {
        Ok(bytes) => {
            let is_wanted = wanted == Ok(bytes.as_slice());
            drop(bytes);
            is_wanted
        }
        Err(fault) => wanted == Err(fault),
    }
}

fn is_shown(store: &MemStore, name: &Name, wanted: Option<&[u8]>) -> bool {
    match store.text(name) {
        Some(text) => is_text(text, wanted),
        None => wanted.is_none(),
    }
}

fn is_text(text: &[u8], wanted: Option<&[u8]>) -> bool {
    match wanted {
        Some(wanted) => text == wanted,
        None => false,
    }
}

fn answers(alloc: Global, store: &mut MemStore, asked: &Asked, name: &Name) -> bool {
    match asked {
        Asked::Puts(_, _) => true,
        Asked::Keeps(_, text, wanted) => store.keep(name, text) == *wanted,
        Asked::Loads(_, limit, wanted) => is_loaded(alloc, store, name, *limit, *wanted),
        Asked::Shows(_, wanted) => is_shown(store, name, *wanted),
    }
}

fn name_of(asked: &Asked) -> &'static [u8] {
    match asked {
        Asked::Puts(name, _) => name,
        Asked::Keeps(name, _, _) => name,
        Asked::Loads(name, _, _) => name,
        Asked::Shows(name, _) => name,
    }
}

fn is_answered(alloc: Global, store: &mut MemStore, asked: &Asked) -> Result<bool, NoMemory> {
    let Some(name) = Name::of(alloc, name_of(asked))? else {
        return Ok(false);
    };
    if let Asked::Puts(_, text) = asked {
        return Ok(is_put(alloc, store, name, text));
    }
    let is_wanted = answers(alloc, store, asked, &name);
    drop(name);
    Ok(is_wanted)
}

fn first_wrong(alloc: Global, store: &mut MemStore) -> Result<Option<usize>, NoMemory> {
    for at in 0..QUESTIONS.len() {
        if !is_answered(alloc, store, &QUESTIONS[at])? {
            return Ok(Some(at));
        }
    }
    Ok(None)
}

#[test]
fn a_store_keeps_texts_by_name(rt: HostRuntime) -> Result<(), Fail> {
    let alloc = rt.alloc();
    let mut store = MemStore::new(alloc, numbers(alloc, &[3])?);
    let wrong = first_wrong(alloc, &mut store);
    drop(store);
    assert_eq!(rt; wrong, Ok(None));
    Ok(())
}

#[test]
fn faults_are_printed(rt: HostRuntime) -> Result<(), Fail> {
    let alloc = rt.alloc();
    let failed = Failed;
    assert_eq!(rt;
        format!(in alloc; "{failed}")?.as_str(),
        "the outside failed"
    );
    for (fault, text) in [
        (ReadFault::Failed, "the source failed"),
        (ReadFault::TooLong, "the input is too long"),
        (ReadFault::NoMemory, "no memory is left"),
    ] {
        assert_eq!(rt; format!(in alloc; "{fault}")?.as_str(), text);
    }
    for (fault, text) in [
        (StoreFault::Failed, "the store failed"),
        (StoreFault::TooLong, "the text is too long"),
        (StoreFault::NoMemory, "no memory is left"),
    ] {
        assert_eq!(rt; format!(in alloc; "{fault}")?.as_str(), text);
    }
    Ok(())
}
