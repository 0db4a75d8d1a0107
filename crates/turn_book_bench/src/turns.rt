//! Threads that take turns, at a book and at a mutex.
ghost use Rattle.std.specs.Prelude.{◌≡◌, ◌≤◌, length};
ghost use Rattle.turn_book.specs.Passes.{IsPassOf, IsSameCaller};
ghost use Rattle.turn_book.specs.Closing.{HoldsNothing};

use crate::tally::{Idle, Tally};
use std::alloc::Global;
use std::sync::{Mutex, Wait};
use std::thread;
use std::thread::Threads;
use turn_book::{CallerPass, NoMemory, TurnBook};

// Takes the desk and puts it back, and answers how many turns there were.
fn turn<R: Wait>(rt: &R, book: &TurnBook<Tally, Idle>, pass: &mut CallerPass<Tally, Idle>) -> u64
    requires book { IsPassOf book.now pass.old }
    requires free { HoldsNothing pass.old }
    ensures book { IsPassOf book.now pass.new }
    ensures free { HoldsNothing pass.new }
{
    let mut desk = book.take(rt, pass);
    let turns = desk.turns.wrapping_add(1);
    desk.turns = turns;
    book.put(pass, desk);
    turns
}

fn take_turns<R: Wait>(
    rt: &R,
    book: &TurnBook<Tally, Idle>,
    mut pass: CallerPass<Tally, Idle>,
    turns: u64,
) -> u64
    requires book { IsPassOf book.now pass }
    requires free { HoldsNothing pass }
{
    let mut last = 0;
    for _time in 0..turns {
        last = turn(rt, book, &mut pass);
    }
    last
}

/// Each of so many callers takes the desk and puts it back so often. The answer is how many turns the last one counted.
pub fn turns_of_book<R: Threads + Wait + Sync>(
    rt: &R,
    alloc: Global,
    threads: u32,
    turns: u64,
) -> Result<u64, NoMemory>
    requires { 1 ≤ threads }
{
    let (book, passes) = TurnBook::open(alloc, Tally { turns: 0 }, Idle, threads)?;
    let shared = &book;
    let work = move |pass: CallerPass<Tally, Idle>| -> u64
        requires { IsPassOf shared.now pass × HoldsNothing pass }
    { take_turns(rt, shared, pass, turns) };
    let last = thread::map_vec(rt, passes, &work)?;
    Ok(last.iter().copied().max().unwrap_or(0))
}

fn lock_turns<R: Wait>(rt: &R, tally: &Mutex<u64>, turns: u64) -> u64 {
    let mut last = 0;
    for _ in 0..turns {
        let mut guard = tally.lock(rt);
        last = guard.wrapping_add(1);
        *guard = last;
    }
    last
}

/// The same with a mutex round a number.
pub fn turns_of_mutex<R: Threads + Wait + Sync>(
    rt: &R,
    alloc: Global,
    threads: u32,
    turns: u64,
) -> Result<u64, NoMemory> {
    let tally = Mutex::new(0);
    let shared = &tally;
    let work = move |_place: usize| -> u64 { lock_turns(rt, shared, turns) };
    let last = thread::map_indices(rt, alloc, threads as usize, &work)?;
    Ok(last.iter().copied().max().unwrap_or(0))
}
