// The journal as it is published: a line for each round, and below it one for each of its entries.
ghost use Rattle.std.specs.Prelude.{◌≡◌, ◌<◌, ◌≤◌, ◌+◌, ◌^◌, ◌++◌, OnOk, IfOk, drop, length, take};
ghost use Rattle.std.specs.List.{between};
ghost use Rattle.core_laws.specs.Published.{journal_of};
ghost use Rattle.journal_report.specs.Written.{IsWritten, kind_of};
ghost use Rattle.report_text.specs.EntryText.{entries_text, round_text, rounds_text};
ghost use Rattle.report_text.specs.Report.{journal_part};
ghost use Rattle.switch_model.specs.Journal.{entries, entries_of, version_after};

use core_published::Published;
use net_types::NoMemory;
use report_text::{write_entry, write_journal_line, write_round_line};
use script_text::Page;
use switch_model::RoundKind;

/// How far a journal is written: how many rounds and entries, and the version after them.
#[derive(Clone, Copy, Debug, PartialEq, Eq)]
pub struct Written {
    pub rounds: u64,
    pub entries: u64,
    pub version: u64,
}

/// The journal of what is published.
pub fn write_journal(out: &mut Page, published: &Published) -> Result<(), NoMemory>
    ensures { OnOk result (out.new ≡ out.old ++ journal_part published.now.base.version published.now.rounds) }
{
    published.shape();
    let version = published.state().version();
    write_journal_line(out, published.front(), published.rounds(), version)?;
    write_rounds(out, published)
}

fn write_rounds(out: &mut Page, published: &Published) -> Result<(), NoMemory>
    ensures { OnOk result (out.new ≡ out.old ++ rounds_text 0 0 published.now.base.version published.now.rounds) }
{
    let mut written = Written {
        rounds: 0,
        entries: 0,
        version: published.base().version(),
    };
    for _ in 0..published.rounds() {
        written = write_next(out, published, written)?;
    }
    Ok(())
}

/// The first round that isn't written yet: its line, and those of its entries. It answers how far the
/// journal is written then.
pub fn write_next(
    out: &mut Page,
    published: &Published,
    written: Written,
) -> Result<Written, NoMemory>
    requires there { written.rounds < length published.now.rounds }
    requires room { written.rounds + 1 < 2 ^ 64 }
    requires written { IsWritten published.now.base.version published.now.rounds written }
    ensures one { IfOk result (λ w. w.rounds ≡ written.rounds + 1) }
    ensures written { IfOk result (IsWritten published.now.base.version published.now.rounds) }
    ensures text { IfOk result (λ w. out.new ≡ out.old
        ++ rounds_text written.rounds written.entries written.version (take 1 (drop written.rounds published.now.rounds))) }
{
    match published.round_end(written.rounds) {
        Some((end, whole)) => write_round(out, published, written, end, kind_of(whole)),
        None => Ok(written),
    }
}

/// The next round, which has the entries up to a position and is of that kind.
fn write_round(
    out: &mut Page,
    published: &Published,
    written: Written,
    end: u64,
    kind: RoundKind,
) -> Result<Written, NoMemory>
    requires room { written.rounds + 1 < 2 ^ 64 }
    requires order { written.entries ≤ end }
    requires within { end ≤ length (entries (journal_of published.now)) }
    ensures next { IfOk result (λ w. w ≡ record {
      rounds = written.rounds + 1;
      entries = end;
      version = version_after written.version (between written.entries end (entries (journal_of published.now)));
    }) }
    ensures text { IfOk result (λ w. out.new ≡ out.old
        ++ round_text written.rounds written.entries w.version (record { kind = kind; entries = between written.entries end (entries (journal_of published.now)) })) }
{
    let version = version_after(published, written, end);
    write_round_line(out, written.rounds, kind, version)?;
    write_entries(out, published, written.entries, end)?;
    Ok(Written {
        rounds: written.rounds + 1,
        entries: end,
        version,
    })
}

/// The version after the entries up to a position: that of the last of them, or the one before.
fn version_after(published: &Published, written: Written, end: u64) -> u64
    requires within { end ≤ length (entries (journal_of published.now)) }
    ensures { result ≡ version_after written.version (between written.entries end (entries (journal_of published.now))) }
{
    if end <= written.entries {
        return written.version;
    }
    match published.entry(end - 1) {
        Some(entry) => entry.version,
        None => written.version,
    }
}

/// The entries from a position up to another one, a line each.
fn write_entries(
    out: &mut Page,
    published: &Published,
    first: u64,
    end: u64,
) -> Result<(), NoMemory>
    requires order { first ≤ end }
    requires within { end ≤ length (entries (journal_of published.now)) }
    ensures { OnOk result (out.new ≡ out.old ++ entries_text first (between first end (entries (journal_of published.now)))) }
{
    for position in first..end {
        write_at(out, published, position)?;
    }
    Ok(())
}

/// The entry at a position.
fn write_at(out: &mut Page, published: &Published, position: u64) -> Result<(), NoMemory>
    requires there { position < length (entries (journal_of published.now)) }
    ensures { OnOk result (out.new ≡ out.old ++ entries_text position (take 1 (drop position (entries (journal_of published.now))))) }
{
    match published.entry(position) {
        Some(entry) => write_entry(out, position, entry),
        None => Ok(()),
    }
}

/// The kind of a round that is whole, or isn't.
fn kind_of(whole: bool) -> RoundKind
    ensures { result ≡ kind_of whole }
{
    if whole {
        RoundKind::Whole
    } else {
        RoundKind::One
    }
}
