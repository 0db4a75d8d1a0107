// Rounds, on a seat of the book.
ghost use Rattle.std.specs.Prelude.{◌≡◌, ◌+◌, ◌<◌, ◌≤◌, true, false, length, IfOk, OnErr};
ghost use Rattle.keyed.specs.Prefix.{IsPrefix};
ghost use Rattle.shared_laws.specs.Callers.{Agrees, AtRest, Grew};
ghost use Rattle.shared_laws.specs.Calls.{IsTaken, Tried};
ghost use Rattle.shared_laws.specs.Ground.{HasRoom, IsSoFar, journal_at};
ghost use Rattle.switch_model.specs.Journal.{len};
ghost use Rattle.turn_book.specs.Passes.{IsPassOf, IsSameCaller};

use crate::seats::{Book, Seat};
use crate::side::Side;
use chip_core::HwSwitch;
use io_edge::Gate;
use net_types::NoMemory;
use observers::StateObserver;
use std::alloc::Global;
use std::sync::Wait;

// Loads the next run beside the core, where something waits and the journal has at most that many entries. The desk is
// held for that alone.
fn load<C: HwSwitch, O: StateObserver, R: Wait>(
    rt: &R,
    book: &Book<C, O>,
    seat: &mut Seat<C, O>,
    side: &mut Side<C, O>,
    most: u64,
) -> Result<bool, NoMemory>
    requires book { IsPassOf book.now seat.old }
    requires free { seat.old.holds_desk ≡ false }
    requires holds { seat.old.holds_chip ≡ true }
    ensures book { IsPassOf book.now seat.new }
    ensures caller { IsSameCaller seat.old seat.new }
    ensures seat { seat.new ≡ record seat.old { seen = seat.new.seen; takes = seat.old.takes + 1; misses = seat.new.misses } }
    ensures seen { IsPrefix seat.old.seen seat.new.seen }
    ensures lists { Agrees seat.new }
    ensures so_far { IsSoFar book.now.opening seat.new.seen seat.new.jseen }
    ensures room { HasRoom book.now.opening }
    ensures side { side.new ≡ record side.old { run = side.new.run } }
    ensures ok { IfOk result (IsTaken seat.new.seen (journal_at book.now.opening seat.new.jseen) most side.new.run) }
    ensures few { OnErr result (len (journal_at book.now.opening seat.new.jseen) ≤ most) }
    ensures waits { OnErr result (len (journal_at book.now.opening seat.new.jseen) < length seat.new.seen) }
{
    let desk = book.take(rt, seat);
    desk.shape();
    if desk.front() > most {
        book.put(seat, desk);
        return Ok(false);
    }
    if !desk.waits() {
        book.put(seat, desk);
        return Ok(false);
    }
    let loaded = side.load(&desk);
    book.put(seat, desk);
    loaded?;
    Ok(true)
}

// Settles the loaded run, and then publishes what it led to. The desk is held for the second alone.
fn settle_loaded<C: HwSwitch, O: StateObserver, G: Gate, R: Wait>(
    rt: &R,
    alloc: Global,
    book: &Book<C, O>,
    gate: &G,
    seat: &mut Seat<C, O>,
    side: &mut Side<C, O>,
    most: u64,
) -> Result<u32, NoMemory>
    requires book { IsPassOf book.now seat.old }
    requires free { seat.old.holds_desk ≡ false }
    requires holds { seat.old.holds_chip ≡ true }
    requires lists { Agrees seat.old }
    requires so_far { IsSoFar book.now.opening seat.old.seen seat.old.jseen }
    requires room { HasRoom book.now.opening }
    requires side { side.old.rounds ≡ seat.old.jseen }
    requires basis { side.old.basis ≡ book.now.opening }
    requires taken { IsTaken seat.old.seen (journal_at book.now.opening seat.old.jseen) most side.old.run true }
    ensures book { IsPassOf book.now seat.new }
    ensures caller { IsSameCaller seat.old seat.new }
    ensures free { seat.new.holds_desk ≡ false }
    ensures holds { seat.new.holds_chip ≡ true }
    ensures lists { Agrees seat.new }
    ensures so_far { IsSoFar book.now.opening seat.new.seen seat.new.jseen }
    ensures grew { Grew seat.old seat.new }
    ensures mine { seat.new.mine ≡ seat.old.mine }
    ensures takes { seat.old.takes ≤ seat.new.takes }
    ensures tries { seat.new.tries ≡ seat.old.tries }
    ensures side { side.new.rounds ≡ seat.new.jseen }
    ensures basis { side.new.basis ≡ side.old.basis }
    ensures ok { IfOk result (λ k. Tried book.now.opening seat.old seat.new most k) }
    ensures err { OnErr result (seat.new ≡ seat.old) }
{
    gate.before_chip(rt, side.rounds());
    let done = side.round(alloc)?;
    let settled = done.settled;
    let mut desk = book.take(rt, seat);
    desk.settle(done.published, settled);
    desk.shape();
    book.count_round(seat, &desk, side, settled);
    book.put(seat, desk);
    Ok(settled)
}

// A round with the chip side in hand.
fn round_under<C: HwSwitch, O: StateObserver, G: Gate, R: Wait>(
    rt: &R,
    alloc: Global,
    book: &Book<C, O>,
    gate: &G,
    seat: &mut Seat<C, O>,
    side: &mut Side<C, O>,
    most: u64,
) -> Result<u32, NoMemory>
    requires book { IsPassOf book.now seat.old }
    requires free { seat.old.holds_desk ≡ false }
    requires holds { seat.old.holds_chip ≡ true }
    requires side { side.old.rounds ≡ seat.old.jseen }
    requires basis { side.old.basis ≡ book.now.opening }
    ensures book { IsPassOf book.now seat.new }
    ensures caller { IsSameCaller seat.old seat.new }
    ensures free { seat.new.holds_desk ≡ false }
    ensures holds { seat.new.holds_chip ≡ true }
    ensures lists { Agrees seat.new }
    ensures so_far { IsSoFar book.now.opening seat.new.seen seat.new.jseen }
    ensures room { HasRoom book.now.opening }
    ensures grew { Grew seat.old seat.new }
    ensures mine { seat.new.mine ≡ seat.old.mine }
    ensures takes { seat.old.takes < seat.new.takes }
    ensures tries { seat.new.tries ≡ seat.old.tries }
    ensures side { side.new.rounds ≡ seat.new.jseen }
    ensures basis { side.new.basis ≡ side.old.basis }
    ensures ok { IfOk result (λ k. Tried book.now.opening seat.old seat.new most k) }
    ensures err { OnErr result (seat.new.rounds ≡ seat.old.rounds) }
    ensures few { OnErr result (len (journal_at book.now.opening seat.new.jseen) ≤ most) }
    ensures waits { OnErr result (len (journal_at book.now.opening seat.new.jseen) < length seat.new.seen) }
{
    if load(rt, book, seat, side, most)? {
        let settled = settle_loaded(rt, alloc, book, gate, seat, side, most)?;
        return Ok(settled);
    }
    Ok(0)
}

/// One round, where something waits and the journal has at most that many entries, and how many it settled. Memory is
/// refused only there.
pub(crate) fn round<C: HwSwitch, O: StateObserver, G: Gate, R: Wait>(
    rt: &R,
    alloc: Global,
    book: &Book<C, O>,
    gate: &G,
    seat: &mut Seat<C, O>,
    most: u64,
) -> Result<u32, NoMemory>
    requires book { IsPassOf book.now seat.old }
    requires rest { AtRest book.now.opening seat.old }
    ensures book { IsPassOf book.now seat.new }
    ensures caller { IsSameCaller seat.old seat.new }
    ensures rest { AtRest book.now.opening seat.new }
    ensures room { HasRoom book.now.opening }
    ensures grew { Grew seat.old seat.new }
    ensures mine { seat.new.mine ≡ seat.old.mine }
    ensures takes { seat.old.takes < seat.new.takes }
    ensures tries { seat.new.tries ≡ seat.old.tries }
    ensures ok { IfOk result (λ k. Tried book.now.opening seat.old seat.new most k) }
    ensures err { OnErr result (seat.new.rounds ≡ seat.old.rounds) }
    ensures few { OnErr result (len (journal_at book.now.opening seat.new.jseen) ≤ most) }
    ensures waits { OnErr result (len (journal_at book.now.opening seat.new.jseen) < length seat.new.seen) }
{
    let mut side = book.take_chip(rt, seat);
    let settled = round_under(rt, alloc, book, gate, seat, &mut side, most);
    book.put_chip(seat, side);
    settled
}
