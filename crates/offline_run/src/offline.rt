// The commands that wait for nobody, as one call.
ghost use Rattle.std.specs.Prelude.{◌≡◌, ◌≢◌, ℕ, IfOk, List, MatchOption, map};
ghost use Rattle.std.specs.String.{string_bytes};
ghost use Rattle.offline_run.specs.Offline.{AnsweredText, CheckedAs, IsCheckOf, IsCompleteCheck, ServedOffline, TellsOfLength, TellsOfRefusal, TellsOfWords, edges};
ghost use Rattle.run_outcome.specs.Top.{Declined, SinkStands};

use crate::check::{CheckFault, check_text};
use agent_words::{Command, WordsFault, read_words};
use io_edge::{Sink, Store, StoreFault, write_all};
use net_types::{Name, NoMemory};
use run_outcome::{Refusal, Status, refusal_line, status_of};
use std::alloc::{AllocError, Global};

/// The longest saved text that is read, in bytes.
pub const LONGEST_SAVED: usize = 67_108_864;

/// Does what the words ask, with no waiting, and says how that ended. The one command is `check NAME`: what
/// the store keeps under the name is tested as a warm start would test it, and a line that tells of the state
/// goes to the sink. The tests come in this order: the words, the load, the saved text, the chip's tables, the
/// chip's rows. It always returns, and the store's texts stay as they are.
pub fn offline_main<K: Sink, F: Store>(
    alloc: Global,
    words: &Vec<String>,
    sink: &mut K,
    store: &mut F,
) -> Status
    // What was done and written, by the status.
    ensures served { ServedOffline (map string_bytes words.now.items) (edges F.texts F.faults K.written K.faults store.old sink.old) (edges F.texts F.faults K.written K.faults store.new sink.new) result }

    // Each status but that of want of memory comes exactly where its cause is the first.
    ensures words { TellsOfWords (map string_bytes words.now.items) result }
    ensures too_long { TellsOfLength (map string_bytes words.now.items) (edges F.texts F.faults K.written K.faults store.old sink.old) (edges F.texts F.faults K.written K.faults store.new sink.new) result }
    ensures saved { TellsOfRefusal (map string_bytes words.now.items) (edges F.texts F.faults K.written K.faults store.old sink.old) (edges F.texts F.faults K.written K.faults store.new sink.new) result }
    ensures complete { IsCompleteCheck (map string_bytes words.now.items) (edges F.texts F.faults K.written K.faults store.old sink.old) (edges F.texts F.faults K.written K.faults store.new sink.new) result }

    // No fault is swallowed: a count that rose has its status, or cut the error line short.
    ensures store_stands { result ≢ Status.StoreFault → F.faults store.new ≡ F.faults store.old }
    ensures sink_stands { SinkStands result (K.faults sink.old) (K.faults sink.new) }
    ensures texts { F.texts store.new ≡ F.texts store.old }
{
    serve(alloc, words, sink, store)
}

/// The same, with one clause for all statuses.
fn serve<K: Sink, F: Store>(
    alloc: Global,
    words: &Vec<String>,
    sink: &mut K,
    store: &mut F,
) -> Status
    ensures served { ServedOffline (map string_bytes words.now.items) (edges F.texts F.faults K.written K.faults store.old sink.old) (edges F.texts F.faults K.written K.faults store.new sink.new) result }
    ensures store_stands { result ≢ Status.StoreFault → F.faults store.new ≡ F.faults store.old }
    ensures sink_stands { SinkStands result (K.faults sink.old) (K.faults sink.new) }
    ensures texts { F.texts store.new ≡ F.texts store.old }
{
    match name_of(alloc, words) {
        Ok(Some(name)) => {
            let status = check(alloc, &name, sink, store);
            drop(name);
            status
        }
        Ok(None) => {
            let _ = write_all(sink, b"error: words\n");
            Status::Words
        }
        Err(_) => Status::NoMemory,
    }
}

/// The name whose text the words ask to check, where they do.
fn name_of(alloc: Global, words: &Vec<String>) -> Result<Option<Name>, NoMemory>
    ensures name { IfOk result (λ name. MatchOption name ((n : List ℕ) → IsCheckOf n (map string_bytes words.now.items) → ⊥) (λ n. IsCheckOf n (map string_bytes words.now.items))) }
{
    match read_words(alloc, words) {
        Ok(Command::Check { name }) => Ok(Some(name)),
        Ok(Command::Run { save }) => {
            drop(save);
            Ok(None)
        }
        Ok(Command::Gen { seed: _, count: _ }) => Ok(None),
        Err(WordsFault::Refused) => Ok(None),
        Err(WordsFault::NoMemory) => Err(AllocError),
    }
}

/// Checks what is kept under a name.
fn check<K: Sink, F: Store>(alloc: Global, name: &Name, sink: &mut K, store: &mut F) -> Status
    ensures checked { CheckedAs name.now (edges F.texts F.faults K.written K.faults store.old sink.old) (edges F.texts F.faults K.written K.faults store.new sink.new) result }
    ensures store_stands { result ≢ Status.StoreFault → F.faults store.new ≡ F.faults store.old }
    ensures sink_stands { SinkStands result (K.faults sink.old) (K.faults sink.new) }
    ensures texts { F.texts store.new ≡ F.texts store.old }
{
    match store.load(alloc, name, LONGEST_SAVED) {
        Ok(bytes) => {
            let status = answer(alloc, bytes.as_slice(), sink);
            drop(bytes);
            status
        }
        Err(StoreFault::Failed) => Status::StoreFault,
        Err(StoreFault::TooLong) => Status::TooLong,
        Err(StoreFault::NoMemory) => Status::NoMemory,
    }
}

/// Writes the line that tells of a saved text, or the one that says why it isn't taken over.
fn answer<K: Sink>(alloc: Global, bytes: &[u8], sink: &mut K) -> Status
    ensures answered { AnsweredText bytes.now (K.written sink.old) (K.written sink.new) (K.faults sink.old) (K.faults sink.new) result }
    ensures sink_stands { SinkStands result (K.faults sink.old) (K.faults sink.new) }
{
    let line = match check_text(alloc, bytes) {
        Ok(line) => line,
        Err(CheckFault::Refused(why)) => return refuse(alloc, Refusal::Saved(why), sink),
        Err(CheckFault::NoMemory) => return Status::NoMemory,
    };
    match write_all(sink, line.as_slice()) {
        Ok(()) => Status::Done,
        Err(_) => Status::WriteFault,
    }
}

/// Writes the line that says why a saved text isn't taken over.
fn refuse<K: Sink>(alloc: Global, refusal: Refusal, sink: &mut K) -> Status
    ensures declined { Declined refusal (K.written sink.old) (K.written sink.new) (K.faults sink.old) (K.faults sink.new) result }
    ensures sink_stands { SinkStands result (K.faults sink.old) (K.faults sink.new) }
{
    let Ok(line) = refusal_line(alloc, refusal) else {
        return Status::NoMemory;
    };
    let _ = write_all(sink, line.as_slice());
    status_of(refusal)
}
