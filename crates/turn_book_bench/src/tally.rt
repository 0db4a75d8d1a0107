//! A desk that counts turns and stands for empty lists, and a chip side with nothing in it.
use turn_book::{Settles, Stands};

/// How many turns there were.
#[derive(Drop)]
pub struct Tally {
    pub turns: u64,
}

/// A chip side that nobody takes.
#[derive(Drop)]
pub struct Idle;

impl Settles for Tally {
    ghost use Rattle.std.specs.Prelude.{[]};

    type Ground = u8;

    type Sub = u64;

    type Round = u64;

    ghost opening = { λ _. 0 };

    ghost done = { λ _. [] };

    ghost caller = { λ _. 0 };

    ghost sequence = { λ _. 0 };

    ghost subs = { λ _. [] };
}

impl Stands for Tally {
    ghost use Rattle.std.specs.Prelude.{[]};

    ghost sent = { λ _. [] };
}

impl Settles for Idle {
    ghost use Rattle.std.specs.Prelude.{[]};

    type Ground = u8;

    type Sub = u64;

    type Round = u64;

    ghost opening = { λ _. 0 };

    ghost done = { λ _. [] };

    ghost caller = { λ _. 0 };

    ghost sequence = { λ _. 0 };

    ghost subs = { λ _. [] };
}
