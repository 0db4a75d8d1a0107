// What a journal and a chip are counted to have.
ghost use Rattle.std.specs.Prelude.{◌≡◌, ◌≤◌, ◌<◌, ◌+◌, ◌^◌, IfOk, length, take};
ghost use Rattle.chip_core.specs.Chip.{view_of};
ghost use Rattle.core_laws.specs.Published.{journal_of};
ghost use Rattle.switch_model.specs.Journal.{entries};
ghost use Rattle.work_laws.specs.Summary.{row_counts, verdict_counts};
ghost use Rattle.work_run.specs.Counted.{AreWithin, counted};

use agent_core::{Core, Published};
use chip_core::HwSwitch;
use chip_rows::rows_of;
use net_types::NoMemory;
use observers::StateObserver;
use std::alloc::Global;
use switch_model::Verdict;
use work_summary::{RowCounts, VerdictCounts};

/// How many entries a journal has, and how many of each verdict.
pub(crate) fn count_verdicts(published: &Published) -> VerdictCounts
    ensures { result ≡ verdict_counts (entries (journal_of published.now)) }
{
    let mut counts = VerdictCounts {
        entries: 0,
        accepted: 0,
        invalid: 0,
        full: 0,
    };
    for position in 0..published.front() {
        counts = count_at(published, position, counts);
    }
    counts
}

/// The counts with the entry at a position, where the entries before it are counted.
fn count_at(published: &Published, position: u64, counts: VerdictCounts) -> VerdictCounts
    requires there { position < length (entries (journal_of published.now)) }
    requires room { position + 1 < 2 ^ 64 }
    requires before { counts ≡ verdict_counts (take position (entries (journal_of published.now))) }
    ensures { result ≡ verdict_counts (take (position + 1) (entries (journal_of published.now))) }
{
    match published.entry(position) {
        Some(entry) => counted(counts, entry.verdict),
        None => counts,
    }
}

/// The counts with one more entry, of that verdict.
fn counted(counts: VerdictCounts, verdict: Verdict) -> VerdictCounts
    requires within { AreWithin counts }
    requires room { counts.entries + 1 < 2 ^ 64 }
    ensures { result ≡ counted counts verdict }
{
    let entries = counts.entries + 1;
    match verdict {
        Verdict::Accepted => VerdictCounts {
            entries,
            accepted: counts.accepted + 1,
            invalid: counts.invalid,
            full: counts.full,
        },
        Verdict::Invalid(_) => VerdictCounts {
            entries,
            accepted: counts.accepted,
            invalid: counts.invalid + 1,
            full: counts.full,
        },
        Verdict::Full(_) => VerdictCounts {
            entries,
            accepted: counts.accepted,
            invalid: counts.invalid,
            full: counts.full + 1,
        },
    }
}

/// How many rows each table of a core's chip has.
pub(crate) fn count_rows<C: HwSwitch, O: StateObserver>(
    alloc: Global,
    core: &Core<C, O>,
) -> Result<RowCounts, NoMemory>
    ensures { IfOk result (λ counts. counts ≡ row_counts (view_of core.now.raw)) }
{
    core.shape();
    let tables = core.copy_tables(alloc)?;
    let rows = match rows_of(alloc, &tables) {
        Ok(rows) => rows,
        Err(fault) => {
            drop(tables);
            return Err(fault);
        }
    };
    let counts = RowCounts {
        l2: rows.l2().len() as u64,
        host: rows.host().len() as u64,
        group: rows.group().len() as u64,
        route: rows.route().len() as u64,
    };
    drop(rows);
    drop(tables);
    Ok(counts)
}
