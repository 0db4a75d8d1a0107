// The log of a commit's writes.
ghost use Rattle.std.specs.Prelude.{◌≡◌, ◌+◌, ◌<◌, ◌≤◌, ◌++◌, ◌∷◌, [], OnErr, OnOk, vec_capacity, vec_len};

use crate::write::Write;
use net_types::NoMemory;
use std::alloc::{AllocError, Global};
use std::marker::Model;

/// The log that a commit undoes its writes by, if it must. It is empty between commits, and keeps
/// its room. Contracts see it as the number of writes that it has room for.
#[derive(Debug, Drop)]
pub struct UndoLog {
    pub(crate) writes: Vec<Write>,
}

impl Model for UndoLog {
    ghost use Rattle.std.specs.Prelude.{◌≡◌, ℕ, [], vec_capacity};

    ghost Value = { ℕ };

    ghost view = { λ log. vec_capacity log.writes };

    ghost invariant = { λ log. log.writes.items ≡ [] };
}

impl UndoLog {
    /// A log without room.
    pub fn new(alloc: Global) -> Self
        ensures { result ≡ 0 }
    {
        UndoLog {
            writes: Vec::new(alloc),
        }
    }

    /// Takes room for that many writes, so that a commit of no more takes no memory. It serves any
    /// number of commits, one after another. More writes than a `usize` counts are refused.
    pub fn reserve(&mut self, n: u128) -> Result<(), NoMemory>
        ensures ok { OnOk result (n ≤ self.new) }
        ensures err { OnErr result (self.new ≡ self.old) }
        ensures kept { self.old ≤ self.new }
        ensures refused { OnErr result (self.old < n) }
    {
        match usize::try_from(n) {
            Ok(count) => self.writes.reserve(count),
            Err(_) => Err(AllocError),
        }
    }
}

/// Notes a write last, where the log has room.
pub(crate) fn note<T: Drop>(log: &mut Vec<T>, write: T)
    requires { vec_len log.old < vec_capacity log.old }
    ensures items { log.new.items ≡ log.old.items ++ write ∷ [] }
    ensures len { vec_len log.new ≡ vec_len log.old + 1 }
    ensures room { vec_capacity log.old ≤ vec_capacity log.new }
{
    match log.push(write) {
        Ok(()) => {}
        Err(_) => unreachable!(),
    }
}
