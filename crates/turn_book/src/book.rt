//! The book and its passes.
ghost use Rattle.std.specs.Prelude.{◌≡◌, length};

use crate::rule::TurnRule;
use crate::value::{Settles, Stands};
use crate::view::{About, Held, View};
use atomic_table::{Seat, Table};
use std::alloc::{AllocError, Global};
use std::marker::Model;

mod calls;
mod closes;
mod opens;

/// Memory was refused.
pub type NoMemory = AllocError;

/// The desk and the chip side, with the counts of submissions and of settled ones, shared by its callers.
///
/// Contracts see which book it is, how many callers it has, and what its values rest on.
#[derive(Drop)]
pub struct TurnBook<V: Stands, W: Settles<Ground = V::Ground, Sub = V::Sub, Round = V::Round>> {
    table: Table<Held<V, W>, View<V::Ground, V::Sub, V::Round>, About<V>, TurnRule, Global>,
}

impl<V: Stands, W: Settles<Ground = V::Ground, Sub = V::Sub, Round = V::Round>> Model
    for TurnBook<V, W> {
    ghost use Rattle.std.specs.Prelude.{◌<◌};
    ghost use Rattle.turn_book.specs.Passes.{Book};

    ghost Value = { Book V.Ground };

    ghost use Rattle.turn_book.specs.Steps.{IsBookTable};

    ghost view = { λ b. record {
      id = b.table.shared.table_id;
      callers = b.table.shared.key.callers;
      opening = V.opening b.table.shared.key.desk.value;
    } };

    ghost invariant = { λ b. IsBookTable b.table.shared.table_id × (0 < b.table.shared.key.callers) };
}

/// What one caller has seen and done. At run time it knows its number and how many submissions it has counted; the rest
/// of what it tells exists in proofs alone.
///
/// Contracts see its book, its number among the callers, and:
///
/// - `seen` and `jseen`, the submissions and the rounds that it has seen, each a beginning of what there is;
/// - `mine`, its own submissions, and `rounds`, the numbers of the rounds that it counted;
/// - `takes` and `misses`, how often it found the desk and found it away, and `tries`, how many of these times were
///   `try_take`'s;
/// - `holds_desk` and `holds_chip`.
#[derive(Drop)]
pub struct CallerPass<V: Stands, W: Settles<Ground = V::Ground, Sub = V::Sub, Round = V::Round>> {
    seat: Seat<Held<V, W>, View<V::Ground, V::Sub, V::Round>>,
    number: u32,
    submitted: u64,
}

impl<V: Stands, W: Settles<Ground = V::Ground, Sub = V::Sub, Round = V::Round>> Model
    for CallerPass<V, W> {
    ghost use Rattle.turn_book.specs.Passes.{Pass};

    ghost Value = { Pass V.Ground V.Sub V.Round };

    ghost use Rattle.turn_book.specs.Steps.{pass_of, IsPassSeat};

    ghost view = { λ p. pass_of p.seat.table_id p.seat.me.0 };

    ghost invariant = { λ p. IsPassSeat V.caller V.sequence p.number p.submitted p.seat.me };
}

impl<V: Stands, W: Settles<Ground = V::Ground, Sub = V::Sub, Round = V::Round>> CallerPass<V, W> {
    /// Its number among the callers, from 0 on.
    pub fn number(&self) -> u32
        ensures { result ≡ self.now.number }
    {
        self.number
    }

    /// How many submissions its caller has counted: the sequence number of the next one.
    pub fn submitted(&self) -> u64
        ensures { result ≡ length self.now.mine }
    {
        self.submitted
    }
}
