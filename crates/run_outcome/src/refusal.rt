// Why a script isn't run, or a saved text isn't taken over, and the line that says so.
ghost use Rattle.std.specs.Prelude.{◌≡◌, ◌++◌, IfOk, OnOk};
ghost use Rattle.run_outcome.specs.Refusal.{refusal_line, saved_words, status_of, unread};

use crate::status::Status;
use net_types::{NoMemory, Table};
use report_text::{reason_word, table_word};
use script_text::{Page, ScriptFault};
use std::alloc::{AllocError, Global};
use switch_model::Reason;

/// Why a saved text isn't taken over: the first test that fails, in this order.
#[derive(Clone, Copy, Debug, PartialEq, Eq)]
pub enum SavedRefusal {
    /// The bytes are no text of JSON.
    NotJson,
    /// The value isn't of the form of a saved text.
    BadShape,
    /// The digest isn't that of the body.
    BadDigest,
    /// An act that builds the state is invalid, and the first one is for this reason.
    BadState(Reason),
    /// The saved tables break a rule of the chip's tables.
    BadRows,
    /// The rows of that table, the first such, aren't those of the state.
    ChipDiffers(Table),
}

/// Why a script isn't run, or a saved text isn't taken over. Lines count from 1, skipped ones included.
#[derive(Clone, Copy, Debug, PartialEq, Eq)]
pub enum Refusal {
    /// The first bad line has a byte that isn't allowed.
    Byte { line: u64 },
    /// The first bad word of the first bad line, counted from 0.
    Word { line: u64, word: u64 },
    /// The script is well formed, and asks for what isn't built.
    NotBuilt,
    /// The first line of the base whose act is invalid.
    Base { line: u64, reason: Reason },
    /// The rows of the base's state are over the capacity of that table.
    Opening(Table),
    /// The saved text isn't taken over.
    Saved(SavedRefusal),
}

/// Why there is no report.
#[derive(Clone, Copy, Debug, PartialEq, Eq)]
pub enum RunFault {
    Refused(Refusal),
    NoMemory,
}

impl From<AllocError> for RunFault {
    ghost use Rattle.std.specs.Prelude.{◌≡◌};
    ghost use Rattle.run_outcome.specs.declared.refusal.RunFault.TheVariants.{NoMemory};

    ghost from_gives = { λ _ fault. fault ≡ NoMemory };

    fn from(_: AllocError) -> RunFault {
        RunFault::NoMemory
    }
}

/// What a fault of reading a script means for its run.
pub fn unread(fault: ScriptFault) -> RunFault
    ensures { result ≡ unread fault }
{
    match fault {
        ScriptFault::Byte { line } => RunFault::Refused(Refusal::Byte { line }),
        ScriptFault::Word { line, word } => RunFault::Refused(Refusal::Word { line, word }),
        ScriptFault::NoMemory => RunFault::NoMemory,
    }
}

/// The error line.
pub fn refusal_line(alloc: Global, refusal: Refusal) -> Result<Vec<u8>, NoMemory>
    ensures { IfOk result (λ line. line.items ≡ refusal_line refusal) }
{
    let mut page = Page::new(alloc);
    match refusal {
        Refusal::Byte { line } => writeln!(page, "error: script line {line} byte")?,
        Refusal::Word { line, word } => writeln!(page, "error: script line {line} word {word}")?,
        Refusal::NotBuilt => writeln!(page, "error: script not built")?,
        Refusal::Base { line, reason } => {
            let reason = reason_word(reason);
            writeln!(page, "error: script line {line} base {reason}")?;
        }
        Refusal::Opening(table) => {
            let table = table_word(table);
            writeln!(page, "error: opening full {table}")?;
        }
        Refusal::Saved(saved) => {
            page.push_bytes(b"error: saved ")?;
            write_saved(&mut page, saved)?;
            page.push_bytes(b"\n")?;
        }
    }
    Ok(page.into_bytes())
}

// Why a saved text isn't taken over, in words.
fn write_saved(page: &mut Page, saved: SavedRefusal) -> Result<(), NoMemory>
    ensures { OnOk result (page.new ≡ page.old ++ saved_words saved) }
{
    match saved {
        SavedRefusal::NotJson => page.push_bytes(b"not json"),
        SavedRefusal::BadShape => page.push_bytes(b"bad shape"),
        SavedRefusal::BadDigest => page.push_bytes(b"bad digest"),
        SavedRefusal::BadState(reason) => {
            let reason = reason_word(reason);
            write!(page, "bad state {reason}")
        }
        SavedRefusal::BadRows => page.push_bytes(b"bad rows"),
        SavedRefusal::ChipDiffers(table) => {
            let word = table_word(table);
            write!(page, "chip differs {word}")
        }
    }
}

/// How a call of the program ends at a refusal.
pub fn status_of(refusal: Refusal) -> Status
    ensures { result ≡ status_of refusal }
{
    match refusal {
        Refusal::Opening(_) => Status::OpeningFull,
        Refusal::Saved(_) => Status::Saved,
        _ => Status::Script,
    }
}
