// The summary of generated work.
ghost use Rattle.std.specs.Prelude.{◌≡◌, ◌++◌, ℕ, List, IfOk, OnOk, string_bytes};
ghost use Rattle.work_summary.specs.Digest.{HasTaken};
ghost use Rattle.work_summary.specs.Summary.{work_line, entries_line, rounds_line, tables_line, summary_text};

use crate::LineDigest;
use net_types::NoMemory;
use std::alloc::Global;

/// How many entries a journal has, and how many of each verdict.
#[derive(Clone, Copy, Debug, PartialEq, Eq)]
pub struct VerdictCounts {
    pub entries: u64,
    pub accepted: u64,
    pub invalid: u64,
    pub full: u64,
}

/// How many rows the tables of a chip have.
#[derive(Clone, Copy, Debug, PartialEq, Eq)]
pub struct RowCounts {
    pub l2: u64,
    pub host: u64,
    pub group: u64,
    pub route: u64,
}

/// What generated work came to: what it was drawn from, the entries of its journal, how many
/// rounds there were, the version after them, and the rows of the chip's tables.
#[derive(Clone, Copy, Debug, PartialEq, Eq)]
pub struct Outcome {
    pub seed: u64,
    pub count: u32,
    pub verdicts: VerdictCounts,
    pub rounds: u64,
    pub version: u64,
    pub rows: RowCounts,
}

fn write_work(out: &mut String, seed: u64, count: u32) -> Result<(), NoMemory>
    ensures { OnOk result (string_bytes out.new ≡ string_bytes out.old ++ work_line seed count) }
{
    writeln!(out, "gen {seed} {count}")
}

fn write_entries(out: &mut String, verdicts: VerdictCounts) -> Result<(), NoMemory>
    ensures { OnOk result (string_bytes out.new ≡ string_bytes out.old ++ entries_line verdicts) }
{
    let entries = verdicts.entries;
    let accepted = verdicts.accepted;
    let invalid = verdicts.invalid;
    let full = verdicts.full;
    writeln!(
        out,
        "entries {entries} accepted {accepted} invalid {invalid} full {full}"
    )
}

fn write_rounds(out: &mut String, rounds: u64, version: u64) -> Result<(), NoMemory>
    ensures { OnOk result (string_bytes out.new ≡ string_bytes out.old ++ rounds_line rounds version) }
{
    writeln!(out, "rounds {rounds} version {version}")
}

fn write_tables(out: &mut String, rows: RowCounts) -> Result<(), NoMemory>
    ensures { OnOk result (string_bytes out.new ≡ string_bytes out.old ++ tables_line rows) }
{
    let l2 = rows.l2;
    let host = rows.host;
    let group = rows.group;
    let route = rows.route;
    writeln!(
        out,
        "tables l2 {l2} host {host} group {group} route {route}"
    )
}

/// The summary of work, in six lines. The digest has taken the journal's lines of rounds and
/// entries, as a report prints them, line feeds included.
pub fn summary_bytes(
    alloc: Global,
    outcome: &Outcome,
    digest: LineDigest,
) -> Result<Vec<u8>, NoMemory>
    ensures { (journal : List ℕ) → HasTaken digest journal
        → IfOk result (λ text. text.items ≡ summary_text outcome.now journal) }
{
    let digest = digest.finish(alloc)?;
    let mut out = String::new(alloc);
    write_work(&mut out, outcome.seed, outcome.count)?;
    write_entries(&mut out, outcome.verdicts)?;
    write_rounds(&mut out, outcome.rounds, outcome.version)?;
    write_tables(&mut out, outcome.rows)?;
    writeln!(out, "digest {digest}\nend")?;
    Ok(out.into_bytes())
}
