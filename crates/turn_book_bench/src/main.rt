//! Takes and puts a second: a book of turns beside std's `Mutex`.
//!
//! Its words are how many threads there are and how many turns each takes. How many turns there were goes to standard
//! output, and what they took to standard error.
#![tactic(auto)]

mod tally;
mod turns;

use crate::turns::{turns_of_book, turns_of_mutex};
use std::process::ExitCode;
use std::rt::Env;
use std::time::{Duration, Instant};
use std::{env, io};

#[derive(Clone, Copy, Drop)]
struct Sizes {
    threads: u32,
    turns: u64,
}

// The two numbers, where these are the words.
fn sizes_of<R: Env + AllocGlobal>(rt: &R) -> io::Result<Option<Sizes>> {
    let mut words = env::args(rt)?.skip(1);
    let (Some(threads), Some(turns)) = (words.next(), words.next()) else {
        return Ok(None);
    };
    let (Ok(threads), Ok(turns)) = (threads.parse::<u32>(), turns.parse::<u64>()) else {
        return Ok(None);
    };
    Ok(Some(Sizes { threads, turns }))
}

// Turns a second, rounded down.
fn rate(turns: u64, took: Duration) -> u128 {
    (turns as u128 * 1_000_000_000)
        .checked_div(took.as_nanos())
        .unwrap_or(0)
}

fn main(rt: HostRuntime) -> io::Result<ExitCode> {
    let Some(sizes) = sizes_of(&rt)? else {
        eprintln!(rt; "usage: turn_book_bench THREADS TURNS")?;
        return Ok(ExitCode::from(2));
    };
    if sizes.threads == 0 {
        eprintln!(rt; "no threads")?;
        return Ok(ExitCode::from(2));
    }
    let start = Instant::now(&rt)?;
    let book = turns_of_book(&rt, rt.alloc(), sizes.threads, sizes.turns)?;
    let took = start.elapsed(&rt)?;
    println!(rt; "book {} threads {book} turns", sizes.threads)?;
    eprintln!(rt; "book {} turns a second", rate(book, took))?;
    let start = Instant::now(&rt)?;
    let mutex = turns_of_mutex(&rt, rt.alloc(), sizes.threads, sizes.turns)?;
    let took = start.elapsed(&rt)?;
    println!(rt; "mutex {} threads {mutex} turns", sizes.threads)?;
    eprintln!(rt; "mutex {} turns a second", rate(mutex, took))?;
    Ok(ExitCode::from(0))
}
