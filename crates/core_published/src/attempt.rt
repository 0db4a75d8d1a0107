// What a run would make of what is published.
ghost use Rattle.std.specs.Prelude.{◌≡◌, ◌≤◌, ◌<◌, ◌+◌, ◌^◌, true, false, IfOk, length};
ghost use Rattle.core_laws.specs.Judged.{accepts, after_judged};
ghost use Rattle.core_laws.specs.Published.{journal_of};
ghost use Rattle.core_laws.specs.Rounds.{IsAttempt, tried_round};
ghost use Rattle.switch_model.specs.Journal.{len};
ghost use Rattle.switch_model.specs.Round.{round_of};
ghost use Rattle.switch_state.specs.Plain.{plain};

use crate::parts::{renew_fib_of, rows_changed};
use crate::published::Published;
use chip_core::RowChanges;
use net_types::NoMemory;
use run_judge::{any_accepted, judge_all};
use std::alloc::Global;
use switch_model::{RoundKind, Submission, Verdict};
use switch_state::StateEdit;

/// What is published after a run, a share of it, and the rows that change where an update was accepted.
#[derive(Drop)]
pub struct Attempt {
    pub next: Published,
    pub share: Published,
    pub changes: Option<RowChanges>,
}

impl Published {
    /// What a run would make of it if no table could be full. It takes all memory, and changes nothing.
    pub fn attempt(
        &self,
        alloc: Global,
        kind: RoundKind,
        run: &[Submission],
    ) -> Result<Attempt, NoMemory>
        requires some { 1 ≤ length run.now }
        requires room { len (journal_of self.now) + length run.now < 2 ^ 64 }
        requires version { self.now.state.version + 1 < 2 ^ 64 }
        ensures attempt { IfOk result (λ a. IsAttempt (tried_round kind self.now run.now) self.now a.next a.share a.changes) }
    {
        let state = self.state();
        let mut edit = StateEdit::of(alloc, state, state.version() + 1)?;
        let judged = judge_all(alloc, &mut edit, run)?;
        let attempt = self.tried(alloc, kind, judged, edit)?;
        Ok(attempt)
    }

    // After updates that were judged, with the edit that they led to.
    fn tried(
        &self,
        alloc: Global,
        kind: RoundKind,
        judged: Vec<(Submission, Verdict)>,
        edit: StateEdit,
    ) -> Result<Attempt, NoMemory>
        requires there { 1 ≤ length judged.items }
        requires room { len (journal_of self.now) + length judged.items < 2 ^ 64 }
        requires base { edit.base ≡ self.now.state }
        requires version { edit.state.version ≡ self.now.state.version + 1 }
        requires fibs { edit.state.fibs ≡ self.now.state.fibs }
        requires plain { plain edit.state ≡ after_judged (plain self.now.state) judged.items }
        ensures attempt { IfOk result (λ a. IsAttempt (round_of kind self.now.state.version judged.items) self.now a.next a.share a.changes) }
    {
        if any_accepted(&judged) {
            return self.accepted(alloc, kind, judged, edit);
        }
        drop(edit);
        self.unaccepted(alloc, kind, judged)
    }

    // After updates of which some were accepted.
    fn accepted(
        &self,
        alloc: Global,
        kind: RoundKind,
        judged: Vec<(Submission, Verdict)>,
        edit: StateEdit,
    ) -> Result<Attempt, NoMemory>
        requires there { 1 ≤ length judged.items }
        requires room { len (journal_of self.now) + length judged.items < 2 ^ 64 }
        requires base { edit.base ≡ self.now.state }
        requires version { edit.state.version ≡ self.now.state.version + 1 }
        requires fibs { edit.state.fibs ≡ self.now.state.fibs }
        requires some { accepts judged.items ≡ true }
        requires plain { plain edit.state ≡ after_judged (plain self.now.state) judged.items }
        ensures attempt { IfOk result (λ a. IsAttempt (round_of kind self.now.state.version judged.items) self.now a.next a.share a.changes) }
    {
        self.shape();
        let mut edit = edit;
        renew_fib_of(alloc, self.state(), &mut edit)?;
        let state = edit.finish();
        let changes = rows_changed(alloc, self.state(), &state)?;
        let next = self.extended(alloc, kind, judged, state)?;
        let share = next.share()?;
        Ok(Attempt {
            next,
            share,
            changes: Some(changes),
        })
    }

    // After updates of which none was.
    fn unaccepted(
        &self,
        alloc: Global,
        kind: RoundKind,
        judged: Vec<(Submission, Verdict)>,
    ) -> Result<Attempt, NoMemory>
        requires there { 1 ≤ length judged.items }
        requires room { len (journal_of self.now) + length judged.items < 2 ^ 64 }
        requires none { accepts judged.items ≡ false }
        ensures attempt { IfOk result (λ a. IsAttempt (round_of kind self.now.state.version judged.items) self.now a.next a.share a.changes) }
    {
        self.shape();
        let state = self.state().share()?;
        let next = self.extended(alloc, kind, judged, state)?;
        let share = next.share()?;
        Ok(Attempt {
            next,
            share,
            changes: None,
        })
    }
}
