//! Callers on threads of their own.
ghost use Rattle.std.specs.Prelude.{◌≡◌, ◌+◌, ◌≤◌, length, IfOk};
ghost use Rattle.turn_book.specs.Passes.{IsPassOf, IsSameCaller};
ghost use Rattle.turn_book.specs.Closing.{HoldsNothing};

use crate::callers::{settle, submit};
use crate::values::{Chip, Desk};
use std::sync::Wait;
use std::thread;
use std::thread::{Threads, join};
use turn_book::{CallerPass, NoMemory, TurnBook};

/// Submits that many submissions, one after another.
pub fn submit_all<R: Wait>(
    rt: &R,
    book: &TurnBook<Desk, Chip>,
    mut pass: CallerPass<Desk, Chip>,
    count: u64,
) -> Result<CallerPass<Desk, Chip>, NoMemory>
    requires book { IsPassOf book.now pass }
    requires free { HoldsNothing pass }
    ensures book { IfOk result (λ p. IsPassOf book.now p) }
    ensures caller { IfOk result (λ p. IsSameCaller pass p) }
    ensures free { IfOk result (λ p. HoldsNothing p) }
    ensures count { IfOk result (λ p. length p.mine ≡ length pass.mine + count) }
{
    for _number in 0..count {
        submit(rt, book, &mut pass)?;
    }
    Ok(pass)
}

/// Settles until the journal has that many rounds.
pub fn settle_all<R: Wait>(
    rt: &R,
    book: &TurnBook<Desk, Chip>,
    mut pass: CallerPass<Desk, Chip>,
    rounds: usize,
) -> Result<CallerPass<Desk, Chip>, NoMemory>
    requires book { IsPassOf book.now pass }
    requires free { HoldsNothing pass }
    ensures book { IfOk result (λ p. IsPassOf book.now p) }
    ensures caller { IfOk result (λ p. IsSameCaller pass p) }
    ensures free { IfOk result (λ p. HoldsNothing p) }
    ensures mine { IfOk result (λ p. p.mine ≡ pass.mine) }
    ensures done { IfOk result (λ p. rounds ≤ length p.jseen) }
{
    for _ in rt.forever() {
        if settle(rt, book, &mut pass)? >= rounds {
            return Ok(pass);
        }
        thread::yield_now();
    }
    unreachable!()
}

/// Two callers submit that many each, at the same time.
pub fn submit_from_two<R: Threads + Wait + Sync>(
    rt: &R,
    book: &TurnBook<Desk, Chip>,
    one: CallerPass<Desk, Chip>,
    two: CallerPass<Desk, Chip>,
    count: u64,
) -> Result<(CallerPass<Desk, Chip>, CallerPass<Desk, Chip>), NoMemory>
    requires one { IsPassOf book.now one }
    requires two { IsPassOf book.now two }
    requires one_free { HoldsNothing one }
    requires two_free { HoldsNothing two }
    ensures books { IfOk result (λ r. IsPassOf book.now r.0 × IsPassOf book.now r.1) }
    ensures callers { IfOk result (λ r. IsSameCaller one r.0 × IsSameCaller two r.1) }
    ensures free { IfOk result (λ r. HoldsNothing r.0 × HoldsNothing r.1) }
    ensures counts { IfOk result (λ r. (length r.0.mine ≡ length one.mine + count) × (length r.1.mine ≡ length two.mine + count)) }
{
    let (first, second) = join(
        rt,
        || submit_all(rt, book, one, count),
        || submit_all(rt, book, two, count),
    );
    Ok((first?, second?))
}

/// Two callers settle at the same time, until the journal has that many rounds.
pub fn settle_from_two<R: Threads + Wait + Sync>(
    rt: &R,
    book: &TurnBook<Desk, Chip>,
    one: CallerPass<Desk, Chip>,
    two: CallerPass<Desk, Chip>,
    rounds: usize,
) -> Result<(CallerPass<Desk, Chip>, CallerPass<Desk, Chip>), NoMemory>
    requires one { IsPassOf book.now one }
    requires two { IsPassOf book.now two }
    requires one_free { HoldsNothing one }
    requires two_free { HoldsNothing two }
    ensures books { IfOk result (λ r. IsPassOf book.now r.0 × IsPassOf book.now r.1) }
    ensures callers { IfOk result (λ r. IsSameCaller one r.0 × IsSameCaller two r.1) }
    ensures free { IfOk result (λ r. HoldsNothing r.0 × HoldsNothing r.1) }
{
    let (first, second) = join(
        rt,
        || settle_all(rt, book, one, rounds),
        || settle_all(rt, book, two, rounds),
    );
    Ok((first?, second?))
}
