//! What one caller does.
ghost use Rattle.std.specs.Prelude.{◌≡◌, ◌⊎◌, ◌+◌, ◌<◌, ◌++◌, ◌∷◌, [], true, length, OnErr, OnOk, IfOk};
ghost use Rattle.keyed.specs.Prefix.{IsPrefix};
ghost use Rattle.turn_book.specs.Lists.{strip};
ghost use Rattle.turn_book.specs.Passes.{IsPassOf, IsSameCaller};
ghost use Rattle.turn_book.specs.Closing.{HoldsNothing};
ghost use Rattle.turn_book_client.specs.Pairs.{subs_of};
ghost use Rattle.turn_book_client.specs.Settling.{next_of, SettledOne, LeftFewerThanTwo};

use crate::values::{Chip, Desk, Submission};
use std::alloc::AllocError;
use std::sync::Wait;
use turn_book::{CallerPass, NoMemory, TurnBook};

/// Submits the caller's next submission. After an error nothing was submitted.
pub fn submit<R: Wait>(
    rt: &R,
    book: &TurnBook<Desk, Chip>,
    pass: &mut CallerPass<Desk, Chip>,
) -> Result<(), NoMemory>
    requires book { IsPassOf book.now pass.old }
    requires free { HoldsNothing pass.old }
    ensures book { IsPassOf book.now pass.new }
    ensures caller { IsSameCaller pass.old pass.new }
    ensures free { HoldsNothing pass.new }
    ensures ok { OnOk result (pass.new.mine ≡ pass.old.mine ++ next_of pass.old ∷ []) }
    ensures err { OnErr result (pass.new.mine ≡ pass.old.mine) }
    ensures rounds { pass.new.rounds ≡ pass.old.rounds }
{
    let mut desk = book.take(rt, pass);
    if desk.sent.reserve(1).is_err() {
        book.put(pass, desk);
        return Err(AllocError);
    }
    desk.sent.push_reserved(Submission {
        caller: pass.number(),
        sequence: pass.submitted(),
    });
    book.count_submission(pass, &desk);
    book.put(pass, desk);
    Ok(())
}

/// Settles the next two submissions in one round, where there are two, and answers how many rounds the journal has.
/// After an error nothing was settled.
pub fn settle<R: Wait>(
    rt: &R,
    book: &TurnBook<Desk, Chip>,
    pass: &mut CallerPass<Desk, Chip>,
) -> Result<usize, NoMemory>
    requires book { IsPassOf book.now pass.old }
    requires free { HoldsNothing pass.old }
    ensures book { IsPassOf book.now pass.new }
    ensures caller { IsSameCaller pass.old pass.new }
    ensures free { HoldsNothing pass.new }
    ensures mine { pass.new.mine ≡ pass.old.mine }
    ensures ok { IfOk result (λ n. n ≡ length pass.new.jseen) }
    ensures settled { OnOk result (SettledOne pass.old pass.new ⊎ LeftFewerThanTwo pass.old pass.new) }
    ensures err { OnErr result (pass.new.rounds ≡ pass.old.rounds) }
{
    let mut chip = book.take_chip(rt, pass);
    let mut desk = book.take(rt, pass);
    let settled = settle_next(book, pass, &mut desk, &mut chip);
    let rounds = desk.rounds.len();
    book.put(pass, desk);
    book.put_chip(pass, chip);
    settled?;
    Ok(rounds)
}

// With both values in hand. After an error, or where fewer than two are left, both are as before.
fn settle_next(
    book: &TurnBook<Desk, Chip>,
    pass: &mut CallerPass<Desk, Chip>,
    desk: &mut Desk,
    chip: &mut Chip,
) -> Result<(), NoMemory>
    requires book { IsPassOf book.now pass.old }
    requires holds { pass.old.holds_desk ≡ true }
    requires holds_chip { pass.old.holds_chip ≡ true }
    requires sent { desk.old.sent.items ≡ pass.old.seen }
    requires done { desk.old.rounds.items ≡ pass.old.jseen }
    requires chip { chip.old.rounds.items ≡ pass.old.jseen }
    requires settled { IsPrefix (strip subs_of desk.old.rounds.items) desk.old.sent.items }
    ensures book { IsPassOf book.now pass.new }
    ensures caller { IsSameCaller pass.old pass.new }
    ensures holds { pass.new.holds_desk ≡ true }
    ensures holds_chip { pass.new.holds_chip ≡ true }
    ensures mine { pass.new.mine ≡ pass.old.mine }
    ensures sent { desk.new.sent.items ≡ pass.new.seen }
    ensures done { desk.new.rounds.items ≡ pass.new.jseen }
    ensures chip { chip.new.rounds.items ≡ pass.new.jseen }
    ensures desk_opening { desk.new.opening ≡ desk.old.opening }
    ensures chip_opening { chip.new.opening ≡ chip.old.opening }
    ensures ok { OnOk result (SettledOne pass.old pass.new ⊎ LeftFewerThanTwo pass.old pass.new) }
    ensures err { OnErr result (pass.new.rounds ≡ pass.old.rounds) }
{
    let Some(pair) = desk.next_pair() else {
        return Ok(());
    };
    desk.rounds.reserve(1)?;
    chip.rounds.reserve(1)?;
    desk.rounds.push_reserved(pair);
    chip.rounds.push_reserved(pair);
    book.count_round(pass, desk, chip, 2);
    Ok(())
}
