// Rounds of a core.
ghost use Rattle.std.specs.Prelude.{◌≡◌, ◌≤◌, ◌<◌, ◌+◌, ◌^◌, IfOk, IfSome, IfNone, OnErr, OnOk, Some, length, take};
ghost use Rattle.core_laws.specs.Published.{journal_of};
ghost use Rattle.core_laws.specs.Rounds.{IsAttempt, IsOne, IsSettled, IsTooMuch, IsWhole, tried_round};
ghost use Rattle.switch_model.specs.declared.journal.RoundKind.TheVariants.{One, Whole};
ghost use Rattle.switch_model.specs.Journal.{len};
ghost use Rattle.switch_model.specs.Legal.{IsRun};

use crate::switch_core::Core;
use crate::write::write;
use chip_core::{HwSwitch, RowChanges};
use core_published::{Attempt, Published, Refusal};
use net_types::NoMemory;
use observers::StateObserver;
use run_queue::Run;
use std::alloc::Global;
use std::mem;
use switch_model::{RoundKind, Submission};

/// What a round answers.
#[derive(Drop)]
pub struct RoundDone {
    /// How many entries the round has.
    pub settled: u32,
    /// The version after it.
    pub version: u64,
    /// A share of what is published after it.
    pub published: Published,
}

impl<C: HwSwitch, O: StateObserver> Core<C, O> {
    /// Settles a run in one round: the whole run where the rows that it gives fit, else its first update by
    /// itself. The journal has that round then, and its state follows the one before. Where nothing was
    /// accepted, state, chip and observers are as before; else each observer is told of the new state, from
    /// the state at which it stood.
    ///
    /// All memory of an attempt is taken before its first chip write, and an attempt that doesn't fit is
    /// undone before memory is taken for the next. After a refusal of memory all but the count of chip
    /// writes is as before.
    pub fn round(&mut self, alloc: Global, run: &Run) -> Result<RoundDone, NoMemory>
        requires run { IsRun run.now }
        requires room { len (journal_of self.old.published) + length run.now < 2 ^ 64 }
        requires version { self.old.published.state.version + 1 < 2 ^ 64 }

        // On Ok the run is settled by the round that comes next in the journal.
        ensures settled { OnOk result (IsSettled run.now self.old self.new) }
        ensures entries { IfOk result (λ done. len (journal_of self.old.published) + done.settled ≡ len (journal_of self.new.published)) }
        ensures version { IfOk result (λ done. done.version ≡ self.new.published.state.version) }
        ensures published { IfOk result (λ done. done.published ≡ self.new.published) }

        // After a refusal of memory chip, state, journal and observers are as before.
        ensures raw_kept { OnErr result (self.new.raw ≡ self.old.raw) }
        ensures published_kept { OnErr result (self.new.published ≡ self.old.published) }
        ensures audience_kept { OnErr result (self.new.audience ≡ self.old.audience) }
        ensures caps { self.new.caps ≡ self.old.caps }
    {
        self.shape();
        let before = self.published().front();
        let published = self.settle(alloc, run.as_slice())?;
        let version = published.state().version();
        let settled = entries_since(before, &published);
        Ok(RoundDone {
            settled,
            version,
            published,
        })
    }

    // The round, and a share of what is published after it.
    fn settle(&mut self, alloc: Global, run: &[Submission]) -> Result<Published, NoMemory>
        requires run { IsRun run.now }
        requires room { len (journal_of self.old.published) + length run.now < 2 ^ 64 }
        requires version { self.old.published.state.version + 1 < 2 ^ 64 }
        ensures settled { OnOk result (IsSettled run.now self.old self.new) }
        ensures published { IfOk result (λ p. p ≡ self.new.published) }
        ensures raw_kept { OnErr result (self.new.raw ≡ self.old.raw) }
        ensures published_kept { OnErr result (self.new.published ≡ self.old.published) }
        ensures audience_kept { OnErr result (self.new.audience ≡ self.old.audience) }
        ensures caps { self.new.caps ≡ self.old.caps }
    {
        self.shape();
        self.published().shape();
        match self.whole(alloc, run)? {
            Some(published) => Ok(published),
            None => {
                let published = self.one(alloc, first_of(run))?;
                Ok(published)
            }
        }
    }

    // The whole run, or nothing where it doesn't fit.
    fn whole(&mut self, alloc: Global, run: &[Submission]) -> Result<Option<Published>, NoMemory>
        requires run { IsRun run.now }
        requires room { len (journal_of self.old.published) + length run.now < 2 ^ 64 }
        requires version { self.old.published.state.version + 1 < 2 ^ 64 }
        ensures done { IfOk result (λ o. IfSome o (λ p. IsWhole run.now self.old self.new × (p ≡ self.new.published))) }
        ensures full { IfOk result (λ o. IfNone o (IsTooMuch run.now self.old self.new)) }
        ensures err { OnErr result (self.new ≡ self.old) }
    {
        self.published.shape();
        let attempt = self.published.attempt(alloc, RoundKind::Whole, run)?;
        let Attempt {
            next,
            share,
            changes,
        } = attempt;
        match changes {
            None => {
                publish(&mut self.published, next);
                Ok(Some(share))
            }
            Some(changes) => self.whole_written(alloc, run, next, share, changes),
        }
    }

    // The whole run, where something was accepted.
    fn whole_written(
        &mut self,
        alloc: Global,
        run: &[Submission],
        next: Published,
        share: Published,
        changes: RowChanges,
    ) -> Result<Option<Published>, NoMemory>
        requires run { IsRun run.now }
        requires attempt { IsAttempt (tried_round Whole self.old.published run.now) self.old.published next share (Some changes) }
        ensures done { IfOk result (λ o. IfSome o (λ p. IsWhole run.now self.old self.new × (p ≡ self.new.published))) }
        ensures full { IfOk result (λ o. IfNone o (IsTooMuch run.now self.old self.new)) }
        ensures err { OnErr result (self.new ≡ self.old) }
    {
        self.published.shape();
        next.shape();
        let full = write(
            alloc,
            &mut self.chip,
            &mut self.log,
            &mut self.audience,
            changes,
            next.state(),
        )?;
        match full {
            None => {
                publish(&mut self.published, next);
                Ok(Some(share))
            }
            Some(_) => {
                drop(next);
                drop(share);
                Ok(None)
            }
        }
    }

    // The first of a run by itself.
    fn one(&mut self, alloc: Global, first: &[Submission]) -> Result<Published, NoMemory>
        requires single { length first.now ≡ 1 }
        requires room { len (journal_of self.old.published) + 1 < 2 ^ 64 }
        requires version { self.old.published.state.version + 1 < 2 ^ 64 }
        ensures done { IfOk result (λ p. IsOne first.now self.old self.new × (p ≡ self.new.published)) }
        ensures err { OnErr result (self.new ≡ self.old) }
    {
        self.published.shape();
        let attempt = self.published.attempt(alloc, RoundKind::One, first)?;
        let Attempt {
            next,
            share,
            changes,
        } = attempt;
        match changes {
            None => {
                publish(&mut self.published, next);
                Ok(share)
            }
            Some(changes) => self.one_written(alloc, first, next, share, changes),
        }
    }

    // The first of a run by itself, where it was accepted.
    fn one_written(
        &mut self,
        alloc: Global,
        first: &[Submission],
        next: Published,
        share: Published,
        changes: RowChanges,
    ) -> Result<Published, NoMemory>
        requires single { length first.now ≡ 1 }
        requires room { len (journal_of self.old.published) + 1 < 2 ^ 64 }
        requires attempt { IsAttempt (tried_round One self.old.published first.now) self.old.published next share (Some changes) }
        ensures done { IfOk result (λ p. IsOne first.now self.old self.new × (p ≡ self.new.published)) }
        ensures err { OnErr result (self.new ≡ self.old) }
    {
        self.published.shape();
        next.shape();
        let refusals = self.published.refusals(alloc, first)?;
        let full = write(
            alloc,
            &mut self.chip,
            &mut self.log,
            &mut self.audience,
            changes,
            next.state(),
        )?;
        match full {
            None => {
                drop(refusals);
                publish(&mut self.published, next);
                Ok(share)
            }
            Some(table) => {
                drop(next);
                drop(share);
                let Refusal {
                    next: refused,
                    share: other,
                } = refusals.pick(table);
                publish(&mut self.published, refused);
                Ok(other)
            }
        }
    }
}

// Publishes what comes next, and lets go of what was published before.
fn publish(published: &mut Published, next: Published)
    ensures next { published.new ≡ next }
{
    let before = mem::replace(published, next);
    drop(before);
}

// The first of a run.
fn first_of(run: &[Submission]) -> &[Submission]
    requires some { 1 ≤ length run.now }
    ensures first { result.now ≡ take 1 run.now }
    ensures single { length result.now ≡ 1 }
{
    &run[..1]
}

// How many entries there are past a position, of which there are few.
fn entries_since(before: u64, published: &Published) -> u32
    requires past { before ≤ len (journal_of published.now) }
    requires few { len (journal_of published.now) < before + 2 ^ 32 }
    ensures { before + result ≡ len (journal_of published.now) }
{
    (published.front() - before) as u32
}
