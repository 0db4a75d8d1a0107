//! A desk and a chip side of plain lists.
ghost use Rattle.std.specs.Prelude.{◌≡◌, ◌+◌, ◌<◌, ◌++◌, ◌∷◌, [], length, IfSome, IfNone};
ghost use Rattle.keyed.specs.Prefix.{IsPrefix};
ghost use Rattle.turn_book.specs.Lists.{strip};
ghost use Rattle.turn_book_client.specs.Pairs.{subs_of};

use std::alloc::Global;
use turn_book::{Settles, Stands};

/// What a caller submits.
#[derive(Clone, Copy, PartialEq, Eq, Debug, Drop)]
pub struct Submission {
    pub caller: u32,
    /// How many this caller had submitted before.
    pub sequence: u64,
}

/// A round, which settles two submissions.
#[derive(Clone, Copy, PartialEq, Eq, Debug, Drop)]
pub struct Pair {
    pub first: Submission,
    pub second: Submission,
}

/// The submissions, and the rounds that settled them.
#[derive(Drop)]
pub struct Desk {
    pub opening: u8,
    pub sent: Vec<Submission>,
    pub rounds: Vec<Pair>,
}

/// The rounds.
#[derive(Drop)]
pub struct Chip {
    pub opening: u8,
    pub rounds: Vec<Pair>,
}

impl Settles for Desk {
    ghost use Rattle.turn_book_client.specs.Pairs.{subs_of};

    type Ground = u8;

    type Sub = Submission;

    type Round = Pair;

    ghost opening = { λ d. d.opening };

    ghost done = { λ d. d.rounds.items };

    ghost caller = { λ s. s.caller };

    ghost sequence = { λ s. s.sequence };

    ghost subs = { subs_of };
}

impl Stands for Desk {
    ghost sent = { λ d. d.sent.items };
}

impl Settles for Chip {
    ghost use Rattle.turn_book_client.specs.Pairs.{subs_of};

    type Ground = u8;

    type Sub = Submission;

    type Round = Pair;

    ghost opening = { λ c. c.opening };

    ghost done = { λ c. c.rounds.items };

    ghost caller = { λ s. s.caller };

    ghost sequence = { λ s. s.sequence };

    ghost subs = { subs_of };
}

impl Desk {
    /// A desk with nothing on it.
    pub fn new(alloc: Global, opening: u8) -> Desk
        ensures opening { result.opening ≡ opening }
        ensures sent { result.sent.items ≡ [] }
        ensures rounds { result.rounds.items ≡ [] }
    {
        Desk {
            opening,
            sent: Vec::new(alloc),
            rounds: Vec::new(alloc),
        }
    }

    /// The round of the next two submissions that no round has settled, where there are two.
    pub fn next_pair(&self) -> Option<Pair>
        requires { IsPrefix (strip subs_of self.now.rounds.items) self.now.sent.items }
        ensures next { IfSome result (λ r. IsPrefix (strip subs_of (self.now.rounds.items ++ r ∷ [])) self.now.sent.items) }
        ensures none { IfNone result (length self.now.sent.items < length (strip subs_of self.now.rounds.items) + 2) }
    {
        let at = 2 * self.rounds.len();
        if at + 1 >= self.sent.len() {
            return None;
        }
        Some(Pair {
            first: self.sent[at],
            second: self.sent[at + 1],
        })
    }
}

impl Chip {
    /// A chip side with no rounds.
    pub fn new(alloc: Global, opening: u8) -> Chip
        ensures opening { result.opening ≡ opening }
        ensures rounds { result.rounds.items ≡ [] }
    {
        Chip {
            opening,
            rounds: Vec::new(alloc),
        }
    }
}
