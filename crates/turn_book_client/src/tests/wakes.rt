// Sleepers on both words: one caller holds both values until two others have found the desk away and two more are at
// the chip side, and then puts them back. A wake that is lost leaves a sleeper, and the test never ends.
ghost use Rattle.std.specs.Prelude.{◌≡◌, IfOk};
ghost use Rattle.turn_book.specs.Passes.{IsPassOf};
ghost use Rattle.turn_book.specs.Closing.{HoldsNothing};

use super::{Book, Pass, find};
use crate::{Chip, Desk};
use std::alloc::Global;
use std::sync::Wait;
use std::sync::atomic::AtomicU64;
use std::sync::atomic::Ordering::SeqCst;
use std::test::Fail;
use std::thread;
use std::thread::Threads;
use turn_book::{NoMemory, TurnBook};

// How often all four have been met by both values away, how often one of them has found that, and how often one of
// them has had its value since.
#[derive(Drop)]
struct Counts {
    held: AtomicU64,
    missed: AtomicU64,
    served: AtomicU64,
}

fn wait_for<R: Wait>(rt: &R, count: &AtomicU64, least: u64) {
    for _ in rt.forever() {
        if count.load(SeqCst) >= least {
            return;
        }
        thread::yield_now();
    }
    unreachable!()
}

// Longer and longer pauses from round to round, and then short ones again: the others are asleep, or just about to be.
fn pause(round: u64) {
    for _step in 0..round % 32 {
        thread::yield_now();
    }
}

fn hold_both<R: Wait>(rt: &R, book: &Book, pass: &mut Pass, counts: &Counts, round: u64)
    requires book { IsPassOf book.now pass.old }
    requires free { HoldsNothing pass.old }
    ensures book { IsPassOf book.now pass.new }
    ensures free { HoldsNothing pass.new }
{
    let chip = book.take_chip(rt, pass);
    let desk = book.take(rt, pass);
    counts.held.fetch_add(1, SeqCst);
    wait_for(rt, &counts.missed, round.saturating_mul(4));
    pause(round);
    book.put(pass, desk);
    book.put_chip(pass, chip);
    wait_for(rt, &counts.served, round.saturating_mul(4));
}

fn want_desk<R: Wait>(rt: &R, book: &Book, pass: &mut Pass)
    requires book { IsPassOf book.now pass.old }
    requires free { HoldsNothing pass.old }
    ensures book { IsPassOf book.now pass.new }
    ensures free { HoldsNothing pass.new }
{
    let desk = book.take(rt, pass);
    book.put(pass, desk);
}

fn want_chip<R: Wait>(rt: &R, book: &Book, pass: &mut Pass)
    requires book { IsPassOf book.now pass.old }
    requires free { HoldsNothing pass.old }
    ensures book { IsPassOf book.now pass.new }
    ensures free { HoldsNothing pass.new }
{
    let chip = book.take_chip(rt, pass);
    book.put_chip(pass, chip);
}

// One round of a caller that wants the desk, where its number is odd, or the chip side.
fn want<R: Wait>(rt: &R, book: &Book, pass: &mut Pass, counts: &Counts, round: u64)
    requires book { IsPassOf book.now pass.old }
    requires free { HoldsNothing pass.old }
    ensures book { IsPassOf book.now pass.new }
    ensures free { HoldsNothing pass.new }
{
    wait_for(rt, &counts.held, round);
    find(book, pass);
    counts.missed.fetch_add(1, SeqCst);
    if pass.number() % 2 == 1 {
        want_desk(rt, book, pass);
    } else {
        want_chip(rt, book, pass);
    }
    counts.served.fetch_add(1, SeqCst);
}

// One round of a caller: the first one holds both values, and the others want one.
fn take_part<R: Wait>(rt: &R, book: &Book, pass: &mut Pass, counts: &Counts, round: u64)
    requires book { IsPassOf book.now pass.old }
    requires free { HoldsNothing pass.old }
    ensures book { IsPassOf book.now pass.new }
    ensures free { HoldsNothing pass.new }
{
    if pass.number() == 0 {
        hold_both(rt, book, pass, counts, round);
    } else {
        want(rt, book, pass, counts, round);
    }
}

fn play<R: Wait>(rt: &R, book: &Book, mut pass: Pass, counts: &Counts, rounds: u64)
    requires book { IsPassOf book.now pass }
    requires free { HoldsNothing pass }
{
    for before in 0..rounds {
        take_part(rt, book, &mut pass, counts, before + 1);
    }
}

// How often one of four sleepers had its value.
fn run<R: Threads + Wait + Sync>(rt: &R, alloc: Global, rounds: u64) -> Result<u64, NoMemory> {
    let (book, passes) = TurnBook::open(alloc, Desk::new(alloc, 7), Chip::new(alloc, 7), 5)?;
    let counts = Counts {
        held: AtomicU64::new(0),
        missed: AtomicU64::new(0),
        served: AtomicU64::new(0),
    };
    let shared = &book;
    let counted = &counts;
    let work = move |pass: Pass| -> ()
        requires { IsPassOf shared.now pass × HoldsNothing pass }
    { play(rt, shared, pass, counted, rounds) };
    thread::map_vec(rt, passes, &work)?;
    Ok(counts.served.load(SeqCst))
}

#[test]
fn each_sleeper_on_either_word_is_woken(rt: HostRuntime) -> Result<(), Fail> {
    let served = run(&rt, rt.alloc(), 5_000)?;
    assert_eq!(rt; served, 20_000);
    Ok(())
}
