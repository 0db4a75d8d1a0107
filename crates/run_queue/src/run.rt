// The run that is settled next.
ghost use Rattle.std.specs.Prelude.{◌≡◌, ◌≤◌, ◌++◌, ◌∷◌, [], IfOk, OnErr, OnOk, length};
ghost use Rattle.switch_model.specs.Round.{run, unmarked};
ghost use Rattle.std.specs.Prelude.{take};

use crate::pending::Pending;
use net_types::NoMemory;
use std::alloc::Global;
use std::marker::Model;
use switch_model::Submission;

/// The most submissions that a run has.
const MOST: usize = 64;

/// A run of submissions, at most 64 of them. It keeps its room when another run is loaded.
#[derive(Drop)]
pub struct Run {
    list: Vec<Submission>,
}

impl Model for Run {
    ghost use Rattle.std.specs.Prelude.{List};
    ghost use Rattle.switch_model.specs.declared.act.Submission.{Submission};

    ghost Value = { List Submission };

    ghost view = { λ r. r.list.items };
}

impl Run {
    /// No submissions, with room for a run.
    pub fn room(alloc: Global) -> Result<Run, NoMemory>
        ensures list { IfOk result (λ r. r ≡ []) }
    {
        let list = Vec::with_capacity(alloc, MOST)?;
        Ok(Run { list })
    }

    /// The submissions, in their order.
    pub fn as_slice(&self) -> &[Submission]
        ensures list { result.now ≡ self.now }
    {
        self.list.as_slice()
    }

    /// Takes the run of what waits, each submission by one more link to its update: the first by
    /// itself where it is to be alone, else the first up to the next such, at most 64. The queue stays as
    /// it is. After a refusal of memory the run is empty.
    pub fn load(&mut self, pending: &Pending) -> Result<(), NoMemory>
        ensures run { OnOk result (self.new ≡ run pending.now) }
        ensures err { OnErr result (self.new ≡ []) }
    {
        self.list.clear();
        match self.fill(pending) {
            Ok(()) => Ok(()),
            Err(fault) => {
                self.list.clear();
                Err(fault)
            }
        }
    }

    // Takes the run into an empty list.
    fn fill(&mut self, pending: &Pending) -> Result<(), NoMemory>
        requires { self.old ≡ [] }
        ensures { OnOk result (self.new ≡ run pending.now) }
    {
        if pending.count() == 0 {
            return Ok(());
        }
        let first = pending.nth(0);
        if first.update.alone {
            return self.put(first);
        }
        self.fill_unmarked(pending)
    }

    // Takes the submissions before the first that is to be alone, at most 64.
    fn fill_unmarked(&mut self, pending: &Pending) -> Result<(), NoMemory>
        requires { self.old ≡ [] }
        ensures { OnOk result (self.new ≡ take 64 (unmarked pending.now)) }
    {
        for n in 0..MOST.min(pending.count()) {
            let next = pending.nth(n);
            if next.update.alone {
                return Ok(());
            }
            self.put(next)?;
        }
        Ok(())
    }

    fn put(&mut self, submission: &Submission) -> Result<(), NoMemory>
        ensures { OnOk result (self.new ≡ self.old ++ submission.now ∷ []) }
    {
        self.list.push(submission.copy()?)?;
        Ok(())
    }
}
