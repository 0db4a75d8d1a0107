//! Readers and writers of std as sources and sinks.
use io_edge::{Failed, ReadFault, Source, StdSink, StdSource, read_all, write_all};
use std::alloc::Global;
use std::io::{Error, ErrorKind, Read, Write};
use std::test::Fail;

const TEXT: &[u8; 20] = b"port add 1 vlan 100\n";

/// Whether a reading gives those bytes, or that fault.
fn gives<S: Source>(alloc: Global, source: &mut S, wanted: Result<&[u8], ReadFault>) -> bool {
    match read_all(alloc, source, 20) {
        Ok(bytes) => {
            let is_wanted = wanted == Ok(bytes.as_slice());
            drop(bytes);
            is_wanted
        }
        Err(fault) => wanted == Err(fault),
    }
}

/// A reader that gives one byte, then fails, and then is at its end.
#[derive(Drop)]
struct Faulty {
    turn: u64,
}

impl Read for Faulty {
    fn read(&mut self, buf: &mut [u8]) -> std::io::Result<usize> {
        self.turn = self.turn.saturating_add(1);
        if self.turn == 2 {
            return Err(Error::from(ErrorKind::Other));
        }
        if self.turn > 2 || buf.is_empty() {
            return Ok(0);
        }
        buf[0] = b'x';
        Ok(1)
    }
}

#[test]
fn a_reader_of_std_is_a_source(rt: HostRuntime) {
    let alloc = rt.alloc();
    let mut source = StdSource::new(TEXT.as_slice());
    let is_whole = gives(alloc, &mut source, Ok(TEXT.as_slice()));
    assert!(rt; is_whole);
    let mut faulty = StdSource::new(Faulty { turn: 0 });
    let is_fault = gives(alloc, &mut faulty, Err(ReadFault::Failed));
    assert!(rt; is_fault);
    let is_end = gives(alloc, &mut faulty, Ok(b""));
    assert!(rt; is_end);
}

/// A writer that takes two bytes at a call, but at its second one fails, or takes none.
#[derive(Drop)]
struct Halting {
    turn: u64,
    second: Option<ErrorKind>,
}

impl Write for Halting {
    fn write(&mut self, buf: &[u8]) -> std::io::Result<usize> {
        self.turn = self.turn.saturating_add(1);
        if self.turn != 2 {
            return Ok(buf.len().min(2));
        }
        match self.second {
            Some(kind) => Err(Error::from(kind)),
            None => Ok(0),
        }
    }

    fn flush(&mut self) -> std::io::Result<()> {
        Ok(())
    }
}

#[test]
fn a_writer_of_std_is_a_sink(rt: HostRuntime) -> Result<(), Fail> {
    let alloc = rt.alloc();
    let mut text = Vec::<u8>::new(alloc);
    let written = write_all(&mut StdSink::new(&mut text), TEXT);
    let is_whole = text.as_slice() == TEXT.as_slice();
    drop(text);
    assert_eq!(rt; written, Ok(()));
    assert!(rt; is_whole);
    for second in [None, Some(ErrorKind::Other)] {
        let mut sink = StdSink::new(Halting { turn: 0, second });
        assert_eq!(rt; write_all(&mut sink, TEXT), Err(Failed));
        assert_eq!(rt; write_all(&mut sink, TEXT), Ok(()));
    }
    Ok(())
}
