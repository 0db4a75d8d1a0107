// The journal's lines: one for each round, and below it one for each of its entries.
ghost use Rattle.std.specs.Prelude.{◌≡◌, ◌++◌, OnOk};
ghost use Rattle.report_text.specs.EntryText.{entry_text, round_line};
ghost use Rattle.report_text.specs.Report.{journal_line};

use crate::words::{VerdictText, kind_word};
use net_types::NoMemory;
use script_text::{Page, write_update};
use switch_model::{Entry, RoundKind};

/// How many entries and rounds a journal has, and the version after them, as a line.
pub fn write_journal_line(
    out: &mut Page,
    entries: u64,
    rounds: u64,
    version: u64,
) -> Result<(), NoMemory>
    ensures { OnOk result (out.new ≡ out.old ++ journal_line entries rounds version) }
{
    writeln!(
        out,
        "journal entries {entries} rounds {rounds} version {version}"
    )
}

/// The line with which a round begins: its number, its kind, and the version after it.
pub fn write_round_line(
    out: &mut Page,
    number: u64,
    kind: RoundKind,
    version: u64,
) -> Result<(), NoMemory>
    ensures { OnOk result (out.new ≡ out.old ++ round_line number kind version) }
{
    let kind = kind_word(kind);
    writeln!(out, "round {number} {kind} version {version}")
}

/// The line of an entry, which stands at that position of the journal.
pub fn write_entry(out: &mut Page, position: u64, entry: &Entry) -> Result<(), NoMemory>
    ensures { OnOk result (out.new ≡ out.old ++ entry_text position entry.now) }
{
    let caller = entry.caller;
    let seq = entry.seq;
    let verdict = VerdictText(entry.verdict);
    write!(out, "{position} caller {caller} seq {seq} {verdict} ")?;
    write_update(out, entry.update.get())?;
    out.push_bytes(b"\n")
}
