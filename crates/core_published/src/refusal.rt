// What is published where an update finds a table full.
ghost use Rattle.std.specs.Prelude.{◌≡◌, ◌≤◌, ◌<◌, ◌+◌, ◌^◌, IfOk, length, List};
ghost use Rattle.core_laws.specs.Published.{PublishedView, journal_of};
ghost use Rattle.core_laws.specs.Rounds.{IsRefusal, refused_first};
ghost use Rattle.core_published.specs.Refusals.{AreRefusals};
ghost use Rattle.switch_model.specs.declared.act.Submission.{Submission};
ghost use Rattle.switch_model.specs.Journal.{len};

use crate::published::Published;
use net_types::{NoMemory, Table};
use std::alloc::Global;
use switch_model::{RoundKind, Submission, Verdict};

/// What is published where an update is refused for one table, and a share of it.
#[derive(Drop)]
pub struct Refusal {
    pub next: Published,
    pub share: Published,
}

/// What is published where an update is refused, for each of the tables: which one is known only once
/// the chip has refused it, and memory is taken before.
#[derive(Drop)]
pub struct Refusals {
    pub l2: Refusal,
    pub host: Refusal,
    pub group: Refusal,
    pub route: Refusal,
}

impl Refusals {
    /// The one for that table.
    pub fn pick(self, table: Table) -> Refusal
        ensures picked { (q : List Submission) (old : PublishedView) → AreRefusals q old self → IsRefusal table q old result.next result.share }
    {
        let Refusals {
            l2,
            host,
            group,
            route,
        } = self;
        match table {
            Table::L2 => l2,
            Table::Host => host,
            Table::Group => group,
            Table::Route => route,
        }
    }
}

impl Published {
    /// What is published where the first of a run is refused, for each of the tables. It takes all
    /// memory, and changes nothing.
    pub fn refusals(&self, alloc: Global, run: &[Submission]) -> Result<Refusals, NoMemory>
        requires some { 1 ≤ length run.now }
        requires room { len (journal_of self.now) + 1 < 2 ^ 64 }
        ensures refusals { IfOk result (λ r. AreRefusals run.now self.now r) }
    {
        let l2 = self.refused(alloc, run, Table::L2)?;
        let host = self.refused(alloc, run, Table::Host)?;
        let group = self.refused(alloc, run, Table::Group)?;
        let route = self.refused(alloc, run, Table::Route)?;
        Ok(Refusals {
            l2,
            host,
            group,
            route,
        })
    }

    // The first of a run refused for that table.
    fn refused(&self, alloc: Global, run: &[Submission], table: Table) -> Result<Refusal, NoMemory>
        requires some { 1 ≤ length run.now }
        requires room { len (journal_of self.now) + 1 < 2 ^ 64 }
        ensures refusal { IfOk result (λ r. IsRefusal table run.now self.now r.next r.share) }
    {
        self.shape();
        let judged = refused_alone(alloc, run, table)?;
        let state = self.state().share()?;
        let next = self.extended(alloc, RoundKind::One, judged, state)?;
        let share = next.share()?;
        Ok(Refusal { next, share })
    }
}

// The first of a run with that verdict.
fn refused_alone(
    alloc: Global,
    run: &[Submission],
    table: Table,
) -> Result<Vec<(Submission, Verdict)>, NoMemory>
    requires some { 1 ≤ length run.now }
    ensures first { IfOk result (λ xs. xs.items ≡ refused_first table run.now) }
{
    let first = run[0].copy()?;
    let mut list = Vec::new(alloc);
    list.push((first, Verdict::Full(table)))?;
    Ok(list)
}
