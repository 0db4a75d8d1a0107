// A core with the submissions of one caller that wait for it.
ghost use Rattle.std.specs.Prelude.{◌≡◌, ◌≤◌, ◌<◌, ◌+◌, ◌^◌, ◌++◌, ◌∷◌, [], IfOk, OnErr, OnOk, length};
ghost use Rattle.core_laws.specs.Published.{IsCore, journal_of};
ghost use Rattle.solo_agent.specs.Views.{Stays, journal, sent};
ghost use Rattle.solo_laws.proofs.WaitingLaws.{IsMore, IsNext, until};
ghost use Rattle.solo_laws.specs.Waiting.{IsWaiting, pumped};
ghost use Rattle.switch_model.specs.Journal.{version_of};
ghost use Rattle.told_laws.specs.Course.{reply_at};

use agent_core::{Core, Pending, Published, Run};
use chip_core::HwSwitch;
use net_types::{NoMemory, Shared};
use observers::StateObserver;
use std::alloc::{AllocError, Global};
use std::marker::Model;
use switch_model::{Reply, Submission, Update};
use update_copy::copy_update;

/// A core with the submissions that wait for it, in their order, all of caller 0, and how many may be
/// submitted.
#[derive(Drop)]
pub(crate) struct Desk<C: HwSwitch, O: StateObserver> {
    core: Core<C, O>,
    pending: Pending,
    run: Run,
    limit: u64,
}

impl<C: HwSwitch, O: StateObserver> Model for Desk<C, O> {
    ghost use Rattle.core_laws.specs.Published.{journal_of};
    ghost use Rattle.solo_agent.specs.Views.{DeskView};
    ghost use Rattle.solo_laws.specs.Waiting.{IsWaiting};

    ghost Value = { DeskView };

    ghost view = { λ d. record { core = d.core; waiting = d.pending; limit = d.limit } };

    ghost invariant = { λ d. IsWaiting d.limit (journal_of d.core.published) d.pending };
}

impl<C: HwSwitch, O: StateObserver> Desk<C, O> {
    /// A core whose journal is empty. Nothing waits for it.
    pub(crate) fn open(alloc: Global, core: Core<C, O>, limit: u64) -> Result<Desk<C, O>, NoMemory>
        requires rounds { core.published.rounds ≡ [] }
        requires room { version_of (journal_of core.published) + limit < 2 ^ 64 }
        ensures opened { IfOk result (λ d. d ≡ record { core = core; waiting = []; limit = limit }) }
    {
        core.shape();
        match Run::room(alloc) {
            Ok(run) => Ok(Desk {
                core,
                pending: Pending::new(alloc),
                run,
                limit,
            }),
            Err(fault) => {
                drop(core);
                Err(fault)
            }
        }
    }

    /// The core.
    pub(crate) fn core(&self) -> &Core<C, O>
        ensures { result.now ≡ self.now.core }
    {
        &self.core
    }

    /// The core, without what waits for it.
    pub(crate) fn into_core(self) -> Core<C, O>
        ensures { result ≡ self.core }
    {
        let Desk {
            core,
            pending,
            run,
            limit: _,
        } = self;
        drop(pending);
        drop(run);
        core
    }

    /// What was published last.
    pub(crate) fn published(&self) -> &Published
        ensures { result.now ≡ self.now.core.published }
    {
        self.core.published()
    }

    /// How many may be submitted.
    pub(crate) fn limit(&self) -> u64
        ensures { result ≡ self.now.limit }
    {
        self.limit
    }

    /// What holds of every desk. It does nothing when it runs.
    pub(crate) fn shape(&self)
        ensures waiting { IsWaiting self.now.limit (journal self.now) self.now.waiting }
    {
        let _ = &self.limit;
    }

    /// How many were submitted.
    pub(crate) fn sent(&self) -> u64
        ensures { result ≡ length (sent self.now) }
    {
        self.core.published().front() + self.pending.len()
    }

    /// One round of what waits: how many it settles.
    fn round(&mut self, alloc: Global) -> Result<u32, NoMemory>
        requires some { 1 ≤ length self.old.waiting }
        ensures stays { Stays self.old self.new }
        ensures next { OnOk result (IsNext self.old.limit (journal self.old) self.old.waiting (journal self.new) self.new.waiting) }
        ensures journal { OnOk result (journal self.new ≡ (pumped self.old.waiting (journal self.old)).1) }
        ensures count { IfOk result (λ n. n ≡ (pumped self.old.waiting (journal self.old)).0) }
    {
        self.run.load(&self.pending)?;
        self.core.published().shape();
        let done = self.core.round(alloc, &self.run)?;
        let settled = done.settled;
        drop(done);
        self.pending.drop_front(settled);
        Ok(settled)
    }

    /// Rounds until the submission at that place is settled: none where it is.
    pub(crate) fn settle(&mut self, alloc: Global, position: u64) -> Result<(), NoMemory>
        requires there { position < length (sent self.old) }
        ensures stays { Stays self.old self.new }
        ensures ok { OnOk result (journal self.new ≡ until position (journal self.old) self.old.waiting) }
    {
        while self.core.published().front() <= position {
            self.round(alloc)?;
        }
        Ok(())
    }

    /// One round, where something waits: how many it settled.
    pub(crate) fn pump(&mut self, alloc: Global) -> Result<u32, NoMemory>
        ensures stays { Stays self.old self.new }
        ensures journal { OnOk result (journal self.new ≡ (pumped self.old.waiting (journal self.old)).1) }
        ensures count { IfOk result (λ n. n ≡ (pumped self.old.waiting (journal self.old)).0) }
    {
        if self.pending.len() == 0 {
            return Ok(0);
        }
        self.round(alloc)
    }

    /// Submits a copy of an update: its place among all that was submitted.
    pub(crate) fn submit(&mut self, alloc: Global, update: &Update) -> Result<u64, NoMemory>
        requires room { length (sent self.old) < self.old.limit }
        ensures core { self.new.core ≡ self.old.core }
        ensures limit { self.new.limit ≡ self.old.limit }
        ensures position { IfOk result (λ n. n ≡ length (sent self.old)) }
        ensures more { OnOk result (IsMore self.old.limit (journal self.old) self.old.waiting self.new.waiting update.now) }
        ensures err { OnErr result (self.new ≡ self.old) }
    {
        let seq = self.sent();
        let update = copy_update(alloc, update)?;
        let update = Shared::of(alloc, update)?;
        let submission = Submission {
            caller: 0,
            seq,
            update,
        };
        push_last(&mut self.pending, submission)?;
        Ok(seq)
    }

    /// The reply on the submission at that place, which was settled.
    pub(crate) fn reply_at(&self, position: u64) -> Reply
        ensures { result ≡ reply_at (journal self.now) position }
    {
        let published = self.core.published();
        let front = published.front();
        match published.entry(position) {
            Some(entry) => Reply::Settled {
                position,
                verdict: entry.verdict,
                version: entry.version,
                front,
            },
            None => Reply::HistoryFull,
        }
    }
}

// Puts a submission last. After a refusal the queue is as before, and the submission is dropped.
fn push_last(pending: &mut Pending, submission: Submission) -> Result<(), NoMemory>
    ensures ok { OnOk result (pending.new ≡ pending.old ++ submission ∷ []) }
    ensures err { OnErr result (pending.new ≡ pending.old) }
{
    match pending.push(submission) {
        Ok(()) => Ok(()),
        Err(fault) => {
            drop(fault);
            Err(AllocError)
        }
    }
}
