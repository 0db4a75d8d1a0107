// The program as one call.
ghost use Rattle.std.specs.Prelude.{◌≡◌, ◌≢◌, ◌+◌, ◌↔◌, Decides, map};
ghost use Rattle.std.specs.String.{string_bytes};
ghost use Rattle.agent_run.specs.Standing.{sures_of};
ghost use Rattle.io_edge.specs.Causes.{Rose, ReadsPrefix};
ghost use Rattle.run_outcome.specs.Top.{Answered, CutShort, Declined, IsComplete, IsRunCommand, Misused, Refused, Reported, Served, SinkStands, WritesNothing, outside};

use crate::report::report_of;
use io_edge::{Gate, ReadFault, Sink, Source, Store, read_all, write_all};
use observers::{Observers, StateObserver};
use run_outcome::{Refusal, RunFault, Status, refusal_line, status_of};
use std::alloc::Global;
use std::sync::Wait;
use std::thread::Threads;

/// The longest script that is read, in bytes.
pub const LONGEST_SCRIPT: usize = 16_777_216;

/// Does what the words ask, and says how that ended. The one command is `run`: the source's bytes
/// are a script, and the report of its run goes to the sink. The tests come in this order: the
/// words, the reading, the script, the base, the chip's room for it; then the script is run, with the
/// observers told of each state that it leads to, and the report is written.
///
/// The store and the gate are for later commands: the store is left as it is, and no caller is held.
pub fn agent_main<
    Rt: Threads + Wait + Sync,
    S: Source,
    K: Sink,
    F: Store,
    G: Gate + Sync,
    O: StateObserver,
>(
    _rt: &Rt,
    alloc: Global,
    words: &Vec<String>,
    source: &mut S,
    sink: &mut K,
    store: &mut F,
    _gate: &G,
    observers: Observers<O>,
) -> Status
    // The whole input is a script, and the report of its run was written, and nothing else.
    ensures done { result ≡ Status.Done → Reported (sures_of (map O.watch observers.list.items)) (outside S.left S.faults K.written K.faults source.old sink.old) (outside S.left S.faults K.written K.faults source.new sink.new) }

    // Exactly where the words aren't the one word `run`; nothing was read then.
    ensures words { (result ≡ Status.Words) ↔ (IsRunCommand (map string_bytes words.now.items) → ⊥) }
    ensures misused { result ≡ Status.Words → Misused (map string_bytes words.now.items) (outside S.left S.faults K.written K.faults source.old sink.old) (outside S.left S.faults K.written K.faults source.new sink.new) }

    // The whole input is no script, or one that isn't run, for the reason that the error line says.
    ensures script { result ≡ Status.Script → Refused Status.Script (outside S.left S.faults K.written K.faults source.old sink.old) (outside S.left S.faults K.written K.faults source.new sink.new) }

    // The rows of the base's state are over the capacity of the table that the error line names.
    ensures opening_full { result ≡ Status.OpeningFull → Refused Status.OpeningFull (outside S.left S.faults K.written K.faults source.old sink.old) (outside S.left S.faults K.written K.faults source.new sink.new) }

    // Faults come only from the outside: its count of faults rose.
    ensures read_fault { result ≡ Status.ReadFault → Rose (S.faults source.old) (S.faults source.new) }
    ensures write_fault { result ≡ Status.WriteFault → Rose (K.faults sink.old) (K.faults sink.new) }
    ensures cut_short { result ≡ Status.WriteFault → CutShort (sures_of (map O.watch observers.list.items)) (outside S.left S.faults K.written K.faults source.old sink.old) (outside S.left S.faults K.written K.faults source.new sink.new) }

    // One byte more than the longest script came. Where another status tells of a whole input, it isn't longer.
    ensures too_long { result ≡ Status.TooLong → ReadsPrefix (S.left source.old) (S.left source.new) (LONGEST_SCRIPT + 1) }
    ensures nothing_written { WritesNothing result (outside S.left S.faults K.written K.faults source.old sink.old) (outside S.left S.faults K.written K.faults source.new sink.new) }

    // No fault is swallowed: a count that rose has its status, or cut the error line short.
    ensures source_stands { result ≢ Status.ReadFault → S.faults source.new ≡ S.faults source.old }
    ensures sink_stands { SinkStands result (K.faults sink.old) (K.faults sink.new) }

    // A whole script that is run, with no fault on the way, is reported, but for want of memory.
    ensures complete { IsComplete (map string_bytes words.now.items) (outside S.left S.faults K.written K.faults source.old sink.old) (outside S.left S.faults K.written K.faults source.new sink.new) result }
    ensures store { F.texts store.new ≡ F.texts store.old }
    ensures store_stands { F.faults store.new ≡ F.faults store.old }
{
    let _ = store;
    serve(alloc, words, source, sink, observers)
}

/// Does what the words ask, with no store and no gate.
fn serve<S: Source, K: Sink, O: StateObserver>(
    alloc: Global,
    words: &Vec<String>,
    source: &mut S,
    sink: &mut K,
    observers: Observers<O>,
) -> Status
    ensures served { Served (sures_of (map O.watch observers.list.items)) (map string_bytes words.now.items) (outside S.left S.faults K.written K.faults source.old sink.old) (outside S.left S.faults K.written K.faults source.new sink.new) result }
    ensures source_stands { result ≢ Status.ReadFault → S.faults source.new ≡ S.faults source.old }
    ensures sink_stands { SinkStands result (K.faults sink.old) (K.faults sink.new) }
{
    if !is_run_command(words) {
        drop(observers);
        let _ = write_all(sink, b"error: words\n");
        return Status::Words;
    }
    match read_all(alloc, source, LONGEST_SCRIPT) {
        Ok(bytes) => answer(alloc, &bytes, sink, observers),
        Err(ReadFault::Failed) => Status::ReadFault,
        Err(ReadFault::TooLong) => Status::TooLong,
        Err(ReadFault::NoMemory) => Status::NoMemory,
    }
}

fn is_run_command(words: &Vec<String>) -> bool
    ensures { Decides result (IsRunCommand (map string_bytes words.now.items)) }
{
    words.len() == 1 && words[0].as_str() == "run"
}

/// Writes the report of the run of a script, or the line that says why there is none.
fn answer<K: Sink, O: StateObserver>(
    alloc: Global,
    bytes: &[u8],
    sink: &mut K,
    observers: Observers<O>,
) -> Status
    ensures answered { Answered (sures_of (map O.watch observers.list.items)) bytes.now (K.written sink.old) (K.written sink.new) (K.faults sink.old) (K.faults sink.new) result }
    ensures sink_stands { SinkStands result (K.faults sink.old) (K.faults sink.new) }
{
    let report = match report_of(alloc, bytes, observers) {
        Ok(report) => report,
        Err(RunFault::Refused(refusal)) => return refuse(alloc, refusal, sink),
        Err(RunFault::NoMemory) => return Status::NoMemory,
    };
    match write_all(sink, report.as_slice()) {
        Ok(()) => Status::Done,
        Err(_) => Status::WriteFault,
    }
}

/// Writes the line that says why a script isn't run.
fn refuse<K: Sink>(alloc: Global, refusal: Refusal, sink: &mut K) -> Status
    ensures declined { Declined refusal (K.written sink.old) (K.written sink.new) (K.faults sink.old) (K.faults sink.new) result }
    ensures sink_stands { SinkStands result (K.faults sink.old) (K.faults sink.new) }
{
    let Ok(line) = refusal_line(alloc, refusal) else {
        return Status::NoMemory;
    };
    let _ = write_all(sink, line.as_slice());
    status_of(refusal)
}
