// The calls of an agent, on a seat of its book.
ghost use Rattle.std.specs.Prelude.{◌≡◌, ◌+◌, ◌<◌, ◌≤◌, true, length, IfErr, IfNone, IfOk, IfSome, OnErr};
ghost use Rattle.agent_shared.specs.Refusals.{IsRefused};
ghost use Rattle.agent_shared.specs.Views.{AreTablesOf, IsReadOf};
ghost use Rattle.shared_laws.specs.Callers.{AtRest, Grew};
ghost use Rattle.shared_laws.specs.Calls.{IsAnswer, Pumped, RoundsAdded, Submitted};
ghost use Rattle.shared_laws.specs.Ground.{journal_at};
ghost use Rattle.switch_model.specs.Journal.{len};
ghost use Rattle.turn_book.specs.Passes.{IsPassOf, IsSameCaller};

use crate::desk::{Desk, SubmitFault};
use crate::rounds::round;
use crate::side::Side;
use agent_core::Snapshot;
use chip_core::HwSwitch;
use io_edge::Gate;
use net_types::{NoMemory, Shared, Tables};
use observers::StateObserver;
use std::alloc::Global;
use std::sync::Wait;
use switch_model::{Submission, Update, Verdict};
use turn_book::{CallerPass, TurnBook};

pub(crate) type Book<C, O> = TurnBook<Desk, Side<C, O>>;

pub(crate) type Seat<C, O> = CallerPass<Desk, Side<C, O>>;

/// Submits an update as the caller's next one, and answers its position.
pub(crate) fn submit<C: HwSwitch, O: StateObserver, R: Wait>(
    rt: &R,
    book: &Book<C, O>,
    seat: &mut Seat<C, O>,
    update: Shared<Update>,
) -> Result<u64, SubmitFault>
    requires book { IsPassOf book.now seat.old }
    requires rest { AtRest book.now.opening seat.old }
    ensures book { IsPassOf book.now seat.new }
    ensures caller { IsSameCaller seat.old seat.new }
    ensures rest { AtRest book.now.opening seat.new }
    ensures grew { Grew seat.old seat.new }
    ensures ok { IfOk result (Submitted seat.old seat.new update) }
    ensures refused { IfErr result (IsRefused update book.now.opening.limit seat.new.seen) }
    ensures tries { seat.new.tries ≡ seat.old.tries }
    ensures err { OnErr result ((seat.new.mine ≡ seat.old.mine) × (seat.new.rounds ≡ seat.old.rounds)) }
{
    let submission = Submission {
        caller: seat.number(),
        seq: seat.submitted(),
        update,
    };
    let mut desk = book.take(rt, seat);
    desk.shape();
    let position = desk.sent();
    if let Err(fault) = desk.push(submission) {
        book.put(seat, desk);
        return Err(fault);
    }
    desk.shape();
    book.count_submission(seat, &desk);
    book.put(seat, desk);
    Ok(position)
}

// How the submission at that position was settled, and the front, where it is.
fn look<C: HwSwitch, O: StateObserver, R: Wait>(
    rt: &R,
    book: &Book<C, O>,
    seat: &mut Seat<C, O>,
    position: u64,
) -> Option<(Verdict, u64, u64)>
    requires book { IsPassOf book.now seat.old }
    requires rest { AtRest book.now.opening seat.old }
    requires ticket { position < length seat.old.seen }
    ensures book { IsPassOf book.now seat.new }
    ensures caller { IsSameCaller seat.old seat.new }
    ensures rest { AtRest book.now.opening seat.new }
    ensures grew { Grew seat.old seat.new }
    ensures mine { (seat.new.mine ≡ seat.old.mine) × (seat.new.rounds ≡ seat.old.rounds) }
    ensures tries { seat.new.tries ≡ seat.old.tries }
    ensures found { IfSome result (λ a. IsAnswer seat.old.seen (journal_at book.now.opening seat.new.jseen) position a.0 a.1 a.2) }
{
    let desk = book.take(rt, seat);
    desk.shape();
    let settled = desk.settled_at(position);
    let front = desk.front();
    book.put(seat, desk);
    let Some((verdict, version)) = settled else {
        return None;
    };
    Some((verdict, version, front))
}

/// Runs rounds until the submission at that position is settled, and answers its verdict, the version after it, and the
/// front.
pub(crate) fn settle<C: HwSwitch, O: StateObserver, G: Gate, R: Wait>(
    rt: &R,
    alloc: Global,
    book: &Book<C, O>,
    gate: &G,
    seat: &mut Seat<C, O>,
    position: u64,
) -> Result<(Verdict, u64, u64), NoMemory>
    requires book { IsPassOf book.now seat.old }
    requires rest { AtRest book.now.opening seat.old }
    requires ticket { position < length seat.old.seen }
    ensures book { IsPassOf book.now seat.new }
    ensures caller { IsSameCaller seat.old seat.new }
    ensures rest { AtRest book.now.opening seat.new }
    ensures grew { Grew seat.old seat.new }
    ensures mine { seat.new.mine ≡ seat.old.mine }
    ensures tries { seat.new.tries ≡ seat.old.tries }
    ensures rounds { RoundsAdded book.now.opening seat.old seat.new position }
    ensures ok { IfOk result (λ a. IsAnswer seat.old.seen (journal_at book.now.opening seat.new.jseen) position a.0 a.1 a.2) }
    ensures unsettled { OnErr result (len (journal_at book.now.opening seat.new.jseen) ≤ position) }
{
    for _ in rt.forever() {
        if let Some((verdict, version, front)) = look(rt, book, seat, position) {
            return Ok((verdict, version, front));
        }
        round(rt, alloc, book, gate, seat, position)?;
    }
    unreachable!()
}

/// One round, where something waits, and how many it settled.
pub(crate) fn pump<C: HwSwitch, O: StateObserver, G: Gate, R: Wait>(
    rt: &R,
    alloc: Global,
    book: &Book<C, O>,
    gate: &G,
    seat: &mut Seat<C, O>,
) -> Result<u32, NoMemory>
    requires book { IsPassOf book.now seat.old }
    requires rest { AtRest book.now.opening seat.old }
    ensures book { IsPassOf book.now seat.new }
    ensures caller { IsSameCaller seat.old seat.new }
    ensures rest { AtRest book.now.opening seat.new }
    ensures grew { Grew seat.old seat.new }
    ensures mine { seat.new.mine ≡ seat.old.mine }
    ensures takes { seat.old.takes < seat.new.takes }
    ensures tries { seat.new.tries ≡ seat.old.tries }
    ensures ok { IfOk result (Pumped book.now.opening seat.old seat.new) }
    ensures err { OnErr result (seat.new.rounds ≡ seat.old.rounds) }
    ensures waits { OnErr result (len (journal_at book.now.opening seat.new.jseen) < length seat.new.seen) }
{
    round(rt, alloc, book, gate, seat, u64::MAX)
}

/// What is published.
pub(crate) fn read<C: HwSwitch, O: StateObserver, R: Wait>(
    rt: &R,
    book: &Book<C, O>,
    seat: &mut Seat<C, O>,
) -> Result<Snapshot, NoMemory>
    requires book { IsPassOf book.now seat.old }
    requires rest { AtRest book.now.opening seat.old }
    ensures book { IsPassOf book.now seat.new }
    ensures caller { IsSameCaller seat.old seat.new }
    ensures rest { AtRest book.now.opening seat.new }
    ensures grew { Grew seat.old seat.new }
    ensures mine { (seat.new.mine ≡ seat.old.mine) × (seat.new.rounds ≡ seat.old.rounds) }
    ensures takes { seat.old.takes < seat.new.takes }
    ensures tries { seat.new.tries ≡ seat.old.tries }
    ensures ok { IfOk result (IsReadOf book.now.opening seat.new.jseen) }
{
    let desk = book.take(rt, seat);
    desk.shape();
    let snapshot = desk.snapshot();
    book.put(seat, desk);
    Ok(snapshot?)
}

/// What is published, or nothing where the desk is out.
pub(crate) fn try_read<C: HwSwitch, O: StateObserver>(
    book: &Book<C, O>,
    seat: &mut Seat<C, O>,
) -> Result<Option<Snapshot>, NoMemory>
    requires book { IsPassOf book.now seat.old }
    requires rest { AtRest book.now.opening seat.old }
    ensures book { IsPassOf book.now seat.new }
    ensures caller { IsSameCaller seat.old seat.new }
    ensures rest { AtRest book.now.opening seat.new }
    ensures grew { Grew seat.old seat.new }
    ensures mine { (seat.new.mine ≡ seat.old.mine) × (seat.new.rounds ≡ seat.old.rounds) }
    ensures tries { seat.new.tries ≡ seat.old.tries + 1 }
    ensures found { IfOk result (λ o. IfSome o (λ s. IsReadOf book.now.opening seat.new.jseen s × (seat.old.takes < seat.new.takes))) }
    ensures away { IfOk result (λ o. IfNone o ((1 < book.now.callers) × (seat.old.misses < seat.new.misses) × (seat.new.takes ≡ seat.old.takes))) }
{
    let Some(desk) = book.try_take(seat) else {
        return Ok(None);
    };
    desk.shape();
    let snapshot = desk.snapshot();
    book.put(seat, desk);
    Ok(Some(snapshot?))
}

/// What is published and the chip's tables, both of one moment.
pub(crate) fn tables<C: HwSwitch, O: StateObserver, R: Wait>(
    rt: &R,
    alloc: Global,
    book: &Book<C, O>,
    seat: &mut Seat<C, O>,
) -> Result<(Snapshot, Tables), NoMemory>
    requires book { IsPassOf book.now seat.old }
    requires rest { AtRest book.now.opening seat.old }
    ensures book { IsPassOf book.now seat.new }
    ensures caller { IsSameCaller seat.old seat.new }
    ensures rest { AtRest book.now.opening seat.new }
    ensures grew { Grew seat.old seat.new }
    ensures mine { (seat.new.mine ≡ seat.old.mine) × (seat.new.rounds ≡ seat.old.rounds) }
    ensures takes { seat.old.takes < seat.new.takes }
    ensures tries { seat.new.tries ≡ seat.old.tries }
    ensures ok { IfOk result (λ t. IsReadOf book.now.opening seat.new.jseen t.0 × AreTablesOf book.now.opening seat.new.jseen t.1) }
{
    let side = book.take_chip(rt, seat);
    let desk = book.take(rt, seat);
    desk.shape();
    let snapshot = desk.snapshot();
    book.put(seat, desk);
    let tables = side.copy_tables(alloc);
    book.put_chip(seat, side);
    Ok((snapshot?, tables?))
}
