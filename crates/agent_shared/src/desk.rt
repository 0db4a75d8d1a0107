// The desk: the updates that wait, and what was published last.
ghost use Rattle.std.specs.Prelude.{◌≡◌, ◌↔◌, ◌≤◌, ◌<◌, ◌+◌, ◌^◌, ◌++◌, ◌∷◌, [], Some, true, length, slice_get, IfErr, IfOk, IfSome, OnErr, OnOk};
ghost use Rattle.agent_shared.specs.Refusals.{IsRefused};
ghost use Rattle.agent_shared.specs.Views.{IsNextPublished, IsReadOf, ground_of, sure_of};
ghost use Rattle.shared_laws.specs.Calls.{IsLoaded};
ghost use Rattle.shared_laws.specs.Ground.{IsDesk, journal_at, with_sent};
ghost use Rattle.switch_model.specs.declared.journal.Entry.{Entry};
ghost use Rattle.switch_model.specs.Journal.{entries, len, strip};

use crate::ground::{Ground, SureMarks};
use agent_core::{Core, Pending, Published, PushFault, Run, Snapshot};
use chip_core::HwSwitch;
use net_types::{NoMemory, Shared};
use observers::StateObserver;
use std::alloc::Global;
use std::marker::Model;
use switch_model::{Round, Submission, Update, Verdict};
use turn_book::{Settles, Stands};

/// The updates that wait, in the order in which they were submitted, and a share of what was published last. Contracts
/// see all submissions so far, and the rounds that settled the first of them.
#[derive(Drop)]
pub struct Desk {
    published: Published,
    pending: Pending,
    limit: u64,
    sure: SureMarks,
}

impl Model for Desk {
    ghost use Rattle.agent_shared.specs.Views.{desk_of};
    ghost use Rattle.shared_laws.specs.Ground.{DeskView, IsDesk};

    ghost Value = { DeskView };

    ghost view = { λ d. desk_of d.published d.pending d.limit d.sure };

    ghost invariant = { λ d. IsDesk (desk_of d.published d.pending d.limit d.sure) };
}

impl Settles for Desk {
    ghost use Rattle.shared_laws.specs.Ground.{submissions_of};

    type Ground = Ground;

    type Sub = Submission;

    type Round = Round;

    ghost opening = { λ d. d.basis };

    ghost done = { λ d. d.rounds };

    ghost caller = { λ s. s.caller };

    ghost sequence = { λ s. s.seq };

    ghost subs = { submissions_of };
}

impl Stands for Desk {
    ghost sent = { λ d. d.sent };
}

/// Why an update wasn't submitted, with the update.
#[derive(Debug, Drop)]
pub enum SubmitFault {
    /// There are as many submissions as the limit allows.
    HistoryFull(Shared<Update>),
    NoMemory(Shared<Update>),
}

impl Desk {
    /// The desk of a core that has settled nothing.
    pub(crate) fn of<C: HwSwitch, O: StateObserver>(
        alloc: Global,
        core: &Core<C, O>,
        limit: u64,
    ) -> Result<Desk, NoMemory>
        requires new { core.now.published.rounds ≡ [] }
        requires room { core.now.published.base.version + limit < 2 ^ 64 }
        ensures basis { IfOk result (λ d. d.basis ≡ ground_of core.now.published limit (sure_of core.now.audience.watches)) }
        ensures sent { IfOk result (λ d. d.sent ≡ []) }
        ensures rounds { IfOk result (λ d. d.rounds ≡ []) }
    {
        core.shape();
        let published = core.published().share()?;
        Ok(Desk {
            published,
            pending: Pending::new(alloc),
            limit,
            sure: SureMarks::of(core),
        })
    }

    /// How many submissions there are.
    pub(crate) fn sent(&self) -> u64
        ensures { result ≡ length self.now.sent }
    {
        self.published.front() + self.pending.len()
    }

    /// What holds of every desk. It does nothing when it runs.
    pub(crate) fn shape(&self)
        ensures { IsDesk self.now }
    {
        let _ = &self.limit;
    }

    /// How many of them are settled.
    pub(crate) fn front(&self) -> u64
        ensures { result ≡ len (journal_at self.now.basis self.now.rounds) }
    {
        self.published.front()
    }

    /// Whether any waits.
    pub(crate) fn waits(&self) -> bool
        ensures { (result ≡ true) ↔ (len (journal_at self.now.basis self.now.rounds) < length self.now.sent) }
    {
        self.pending.len() > 0
    }

    /// How the submission at that position was settled: its verdict, and the version after it.
    pub(crate) fn settled_at(&self, position: u64) -> Option<(Verdict, u64)>
        ensures { IfSome result (λ a. (e : Entry) × (slice_get (entries (journal_at self.now.basis self.now.rounds)) position ≡ Some e) × (a.0 ≡ e.verdict) × (a.1 ≡ e.version)) }
    {
        let entry = self.published.entry(position)?;
        Some((entry.verdict, entry.version))
    }

    /// What is published, for a reader.
    pub(crate) fn snapshot(&self) -> Result<Snapshot, NoMemory>
        ensures { IfOk result (IsReadOf self.now.basis self.now.rounds) }
    {
        self.published.shape();
        Snapshot::of(&self.published)
    }

    /// One submission more. After a refusal the desk is as before, and the update is handed back.
    pub(crate) fn push(&mut self, submission: Submission) -> Result<(), SubmitFault>
        ensures ok { OnOk result (self.new ≡ with_sent self.old submission) }
        ensures below { OnOk result (length self.old.sent < self.old.basis.limit) }
        ensures err { OnErr result (self.new ≡ self.old) }
        ensures refused { IfErr result (IsRefused submission.update self.old.basis.limit self.old.sent) }
    {
        if self.sent() >= self.limit {
            return Err(SubmitFault::HistoryFull(submission.update));
        }
        match self.pending.push(submission) {
            Ok(()) => Ok(()),
            Err(PushFault::NoMemory(back)) => Err(SubmitFault::NoMemory(back.update)),
        }
    }

    /// Loads the run of what waits, which stays as it is.
    pub(crate) fn load(&self, run: &mut Run) -> Result<(), NoMemory>
        ensures { OnOk result (IsLoaded self.now.sent (journal_at self.now.basis self.now.rounds) run.new) }
    {
        run.load(&self.pending)
    }

    /// What was settled leaves, and what is published after it comes in.
    pub(crate) fn settle(&mut self, published: Published, settled: u32)
        requires next { IsNextPublished self.old published settled }
        ensures { self.new ≡ record self.old { rounds = published.rounds } }
    {
        self.pending.drop_front(settled);
        self.published = published;
    }

    /// What waits.
    pub(crate) fn into_pending(self) -> Pending
        ensures sent { self.sent ≡ strip (journal_at self.basis self.rounds) ++ result }
        ensures desk { IsDesk self }
    {
        let Desk {
            published,
            pending,
            limit: _,
            sure,
        } = self;
        drop(published);
        drop(sure);
        pending
    }
}
