// A round of updates that were judged.
ghost use Rattle.std.specs.Prelude.{◌≡◌, IfOk, map};
ghost use Rattle.switch_model.specs.Round.{entry_of};

use net_types::NoMemory;
use std::alloc::Global;
use switch_model::{Entry, EntryList, Round, RoundKind, Submission, Verdict};

/// The round of submissions with these verdicts, in their order. The version is that of the state after
/// the round.
pub fn round_with(
    alloc: Global,
    kind: RoundKind,
    version: u64,
    judged: Vec<(Submission, Verdict)>,
) -> Result<Round, NoMemory>
    ensures round { IfOk result (λ r. r ≡ record { kind = kind; entries = map (entry_of version) judged.items }) }
{
    let entries = entries_with(alloc, version, judged)?;
    Ok(Round { kind, entries })
}

fn entries_with(
    alloc: Global,
    version: u64,
    judged: Vec<(Submission, Verdict)>,
) -> Result<EntryList, NoMemory>
    ensures { IfOk result (λ list. list ≡ map (entry_of version) judged.items) }
{
    let mut entries = EntryList::new(alloc);
    for item in judged {
        entries.push(entry_with(version, item))?;
    }
    Ok(entries)
}

fn entry_with(version: u64, item: (Submission, Verdict)) -> Entry
    ensures { result ≡ entry_of version item }
{
    let (submission, verdict) = item;
    let Submission {
        caller,
        seq,
        update,
    } = submission;
    Entry {
        caller,
        seq,
        update,
        verdict,
        version,
    }
}
