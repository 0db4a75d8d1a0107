// The summary of what is published.
ghost use Rattle.std.specs.Prelude.{◌≡◌, IfOk};
ghost use Rattle.core_laws.specs.Published.{journal_of};
ghost use Rattle.work_laws.specs.Summary.{journal_text, outcome_of};
ghost use Rattle.work_summary.specs.Digest.{HasTaken};
ghost use Rattle.work_summary.specs.Summary.{summary_text};

use crate::counts::{count_rows, count_verdicts};
use agent_core::{Core, Published};
use chip_core::HwSwitch;
use journal_report::{Written, write_next};
use net_types::NoMemory;
use observers::StateObserver;
use script_text::Page;
use std::alloc::Global;
use work_summary::{LineDigest, Outcome, summary_bytes};

/// The summary of a core's journal, which so many updates of a seed have led to.
pub(crate) fn sum_up<C: HwSwitch, O: StateObserver>(
    alloc: Global,
    seed: u64,
    count: u32,
    core: &Core<C, O>,
) -> Result<Vec<u8>, NoMemory>
    ensures summary { IfOk result (λ text. text.items ≡ summary_text (outcome_of seed count (journal_of core.now.published)) (journal_text (journal_of core.now.published))) }
{
    core.shape();
    let published = core.published();
    published.shape();
    let rows = count_rows(alloc, core)?;
    let outcome = Outcome {
        seed,
        count,
        verdicts: count_verdicts(published),
        rounds: published.rounds(),
        version: published.state().version(),
        rows,
    };
    let digest = digest_journal(alloc, published)?;
    summary_bytes(alloc, &outcome, digest)
}

/// The digest of the journal's lines of rounds and entries.
fn digest_journal(alloc: Global, published: &Published) -> Result<LineDigest, NoMemory>
    ensures taken { IfOk result (λ digest. HasTaken digest (journal_text (journal_of published.now))) }
{
    let mut digest = LineDigest::new();
    let mut written = Written {
        rounds: 0,
        entries: 0,
        version: published.base().version(),
    };
    for _ in 0..published.rounds() {
        let mut page = Page::new(alloc);
        written = write_next(&mut page, published, written)?;
        digest.add(page.into_bytes().as_slice());
    }
    Ok(digest)
}
