// Submissions that wait to be settled.
ghost use Rattle.std.specs.Prelude.{◌≡◌, ◌≤◌, ◌<◌, ◌++◌, ◌∷◌, [], IfErr, OnErr, OnOk, drop, length, slice_index_or};

use net_types::NoMemory;
use std::alloc::{AllocFailed, Global};
use std::collections::VecDeque;
use std::marker::Model;
use switch_model::Submission;

/// Submissions in the order in which they were made: the first one waits longest.
#[derive(Drop)]
pub struct Pending {
    queue: VecDeque<Submission>,
}

/// Why a submission wasn't put into the queue, with the submission.
#[derive(Debug, Drop)]
pub enum PushFault {
    NoMemory(Submission),
}

impl Model for Pending {
    ghost use Rattle.std.specs.Prelude.{List};
    ghost use Rattle.switch_model.specs.declared.act.Submission.{Submission};

    ghost Value = { List Submission };

    ghost view = { λ p. p.queue.items };
}

impl Pending {
    /// A queue in which nothing waits.
    pub fn new(alloc: Global) -> Pending
        ensures list { result ≡ [] }
    {
        Pending {
            queue: VecDeque::new(alloc),
        }
    }

    /// Takes room for so many submissions more. The queue stays as it is.
    pub fn reserve(&mut self, n: usize) -> Result<(), NoMemory>
        ensures same { self.new ≡ self.old }
    {
        self.queue.reserve(n)
    }

    /// Puts a submission last. Where memory is refused, the queue is as before and the submission is
    /// handed back.
    pub fn push(&mut self, submission: Submission) -> Result<(), PushFault>
        ensures ok { OnOk result (self.new ≡ self.old ++ submission ∷ []) }
        ensures err { OnErr result (self.new ≡ self.old) }
        ensures back { IfErr result (λ fault. fault ≡ PushFault.NoMemory submission) }
    {
        match self.queue.push_back(submission) {
            Ok(()) => Ok(()),
            Err(AllocFailed { value }) => Err(PushFault::NoMemory(value)),
        }
    }

    /// Drops the first so many. It costs what it drops, however long the queue is.
    pub fn drop_front(&mut self, n: u32)
        requires there { n ≤ length self.old }
        ensures list { self.new ≡ drop n self.old }
    {
        for _ in 0..n {
            self.drop_first();
        }
    }

    fn drop_first(&mut self)
        ensures { self.new ≡ drop 1 self.old }
    {
        let first = self.queue.pop_front();
        drop(first);
    }

    /// How many wait.
    pub fn len(&self) -> u64
        ensures length { result ≡ length self.now }
    {
        self.count() as u64
    }

    /// The same, as a size.
    pub(crate) fn count(&self) -> usize
        ensures { result ≡ length self.now }
    {
        self.queue.len()
    }

    /// The n-th, counted from 0.
    pub(crate) fn nth(&self, n: usize) -> &Submission
        requires { n < length self.now }
        ensures { result.now ≡ slice_index_or self.now n result.now }
    {
        &self.queue[n]
    }
}
