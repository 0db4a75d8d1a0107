// Whole runs, each from opening to closing.
ghost use Rattle.std.specs.Prelude.{◌≡◌, [], length, IfOk};
ghost use Rattle.turn_book.specs.Passes.{IsPassOf, IsSameCaller, new_pass};
ghost use Rattle.std.specs.Thread.{IsSync};
ghost use Rattle.turn_book.specs.Closing.{HoldsNothing};

use crate::{Chip, Desk, Submission, settle, settle_from_two, submit, submit_from_two};
use std::alloc::Global;
use std::sync::Wait;
use std::test::Fail;
use std::thread::{Threads, join};
use turn_book::{CallerPass, NoMemory, TurnBook};

mod wakes;

type Book = TurnBook<Desk, Chip>;

type Pass = CallerPass<Desk, Chip>;

fn open_two(alloc: Global) -> Result<(Book, Pass, Pass), NoMemory>
    ensures callers { IfOk result (λ r. r.0.callers ≡ 2) }
    ensures one { IfOk result (λ r. r.1 ≡ new_pass r.0 0) }
    ensures two { IfOk result (λ r. r.2 ≡ new_pass r.0 1) }
{
    let (book, mut passes) = TurnBook::open(alloc, Desk::new(alloc, 7), Chip::new(alloc, 7), 2)?;
    let two = passes.remove(1);
    let one = passes.remove(0);
    Ok((book, one, two))
}

// The passes stand in the other order.
fn close_two(alloc: Global, book: Book, one: Pass, two: Pass) -> Result<(Desk, Chip), NoMemory>
    requires callers { book.callers ≡ 2 }
    requires one { IsPassOf book one }
    requires two { IsPassOf book two }
    requires one_free { HoldsNothing one }
    requires two_free { HoldsNothing two }
    requires one_number { one.number ≡ 0 }
    requires two_number { two.number ≡ 1 }
    ensures journal { IfOk result (λ r. r.1.rounds.items ≡ r.0.rounds.items) }
{
    let mut passes = Vec::new(alloc);
    passes.push(two)?;
    passes.push(one)?;
    Ok(book.close(passes))
}

fn open_four(alloc: Global) -> Result<(Book, Pass, Pass, Pass, Pass), NoMemory>
    ensures callers { IfOk result (λ r. r.0.callers ≡ 4) }
    ensures one { IfOk result (λ r. r.1 ≡ new_pass r.0 0) }
    ensures two { IfOk result (λ r. r.2 ≡ new_pass r.0 1) }
    ensures three { IfOk result (λ r. r.3 ≡ new_pass r.0 2) }
    ensures four { IfOk result (λ r. r.4 ≡ new_pass r.0 3) }
{
    let (book, mut passes) = TurnBook::open(alloc, Desk::new(alloc, 7), Chip::new(alloc, 7), 4)?;
    let four = passes.remove(3);
    let three = passes.remove(2);
    let two = passes.remove(1);
    let one = passes.remove(0);
    Ok((book, one, two, three, four))
}

fn close_four(
    alloc: Global,
    book: Book,
    one: Pass,
    two: Pass,
    three: Pass,
    four: Pass,
) -> Result<(Desk, Chip), NoMemory>
    requires callers { book.callers ≡ 4 }
    requires one { IsPassOf book one }
    requires two { IsPassOf book two }
    requires three { IsPassOf book three }
    requires four { IsPassOf book four }
    requires one_free { HoldsNothing one }
    requires two_free { HoldsNothing two }
    requires three_free { HoldsNothing three }
    requires four_free { HoldsNothing four }
    requires one_number { one.number ≡ 0 }
    requires two_number { two.number ≡ 1 }
    requires three_number { three.number ≡ 2 }
    requires four_number { four.number ≡ 3 }
    ensures journal { IfOk result (λ r. r.1.rounds.items ≡ r.0.rounds.items) }
{
    let mut passes = Vec::new(alloc);
    passes.push(one)?;
    passes.push(two)?;
    passes.push(three)?;
    passes.push(four)?;
    Ok(book.close(passes))
}

fn run_two<R: Threads + Wait + Sync>(rt: &R, alloc: Global) -> Result<(Desk, Chip), NoMemory> {
    let (book, one, two) = open_two(alloc)?;
    let (one, two) = submit_from_two(rt, &book, one, two, 100)?;
    close_two(alloc, book, one, two)
}

// Two callers submit a hundred each, and two settle them.
fn work_from_four<R: Threads + Wait + Sync>(
    rt: &R,
    book: &Book,
    one: Pass,
    two: Pass,
    three: Pass,
    four: Pass,
) -> Result<((Pass, Pass), (Pass, Pass)), NoMemory>
    requires one { one ≡ new_pass book.now 0 }
    requires two { two ≡ new_pass book.now 1 }
    requires three { three ≡ new_pass book.now 2 }
    requires four { four ≡ new_pass book.now 3 }
    ensures one { IfOk result (λ r. IsPassOf book.now r.0.0 × HoldsNothing r.0.0 × (r.0.0.number ≡ 0)) }
    ensures two { IfOk result (λ r. IsPassOf book.now r.0.1 × HoldsNothing r.0.1 × (r.0.1.number ≡ 1)) }
    ensures three { IfOk result (λ r. IsPassOf book.now r.1.0 × HoldsNothing r.1.0 × (r.1.0.number ≡ 2)) }
    ensures four { IfOk result (λ r. IsPassOf book.now r.1.1 × HoldsNothing r.1.1 × (r.1.1.number ≡ 3)) }
{
    let (sent, settled) = join(
        rt,
        || -> Result<(Pass, Pass), NoMemory>
            requires { IsSync R.row × (one ≡ new_pass book.now 0) × (two ≡ new_pass book.now 1) }
            ensures one { IfOk result (λ r. IsPassOf book.entry.now r.0 × HoldsNothing r.0 × (r.0.number ≡ 0)) }
            ensures two { IfOk result (λ r. IsPassOf book.entry.now r.1 × HoldsNothing r.1 × (r.1.number ≡ 1)) }
        { submit_from_two(rt, book, one, two, 100) },
        || -> Result<(Pass, Pass), NoMemory>
            requires { IsSync R.row × (three ≡ new_pass book.now 2) × (four ≡ new_pass book.now 3) }
            ensures three { IfOk result (λ r. IsPassOf book.entry.now r.0 × HoldsNothing r.0 × (r.0.number ≡ 2)) }
            ensures four { IfOk result (λ r. IsPassOf book.entry.now r.1 × HoldsNothing r.1 × (r.1.number ≡ 3)) }
        { settle_from_two(rt, book, three, four, 100) },
    );
    Ok((sent?, settled?))
}

fn run_four<R: Threads + Wait + Sync>(rt: &R, alloc: Global) -> Result<(Desk, Chip), NoMemory> {
    let (book, one, two, three, four) = open_four(alloc)?;
    let ((one, two), (three, four)) = work_from_four(rt, &book, one, two, three, four)?;
    close_four(alloc, book, one, two, three, four)
}

// Whether the submissions of that caller are so many, in the order in which it made them.
fn are_in_order(sent: &[Submission], caller: u32, count: usize) -> bool {
    let mut own = sent
        .iter()
        .filter(|submission| submission.caller == caller)
        .enumerate();
    own.all(|(place, submission)| submission.sequence == place as u64)
        && sent
            .iter()
            .filter(|submission| submission.caller == caller)
            .count()
            == count
}

#[test]
fn two_threads_submit_a_hundred_each(rt: HostRuntime) -> Result<(), Fail> {
    let (desk, chip) = run_two(&rt, rt.alloc())?;
    assert_eq!(rt; desk.sent.len(), 200);
    assert!(rt; are_in_order(&desk.sent, 0, 100) && are_in_order(&desk.sent, 1, 100));
    assert!(rt; desk.rounds.is_empty() && chip.rounds.is_empty());
    assert_eq!(rt; (desk.opening, chip.opening), (7, 7));
    Ok(())
}

#[test]
fn two_threads_submit_and_two_settle(rt: HostRuntime) -> Result<(), Fail> {
    let (desk, chip) = run_four(&rt, rt.alloc())?;
    assert_eq!(rt; desk.sent.len(), 200);
    assert!(rt; are_in_order(&desk.sent, 0, 100) && are_in_order(&desk.sent, 1, 100));
    assert_eq!(rt; (desk.rounds.len(), chip.rounds.len()), (100, 100));
    for (place, round) in desk.rounds.iter().enumerate() {
        assert_eq!(rt; Some(&round.first), desk.sent.get(2 * place));
        assert_eq!(rt; Some(&round.second), desk.sent.get(2 * place + 1));
    }
    Ok(())
}

// What a caller without others finds is its own, and it finds the desk each time.
fn look_alone(book: &Book, pass: &mut Pass) -> usize
    requires alone { book.now.callers ≡ 1 }
    requires book { IsPassOf book.now pass.old }
    requires free { HoldsNothing pass.old }
    ensures book { IsPassOf book.now pass.new }
    ensures caller { IsSameCaller pass.old pass.new }
    ensures free { HoldsNothing pass.new }
    ensures mine { pass.new.seen ≡ pass.new.mine }
    ensures sent { result ≡ length pass.new.mine }
{
    let Some(desk) = book.try_take(pass) else {
        unreachable!();
    };
    let sent = desk.sent.len();
    book.put(pass, desk);
    sent
}

fn run_alone<R: Wait>(rt: &R, alloc: Global) -> Result<(Desk, Chip, usize), NoMemory> {
    let (book, mut passes) = TurnBook::open(alloc, Desk::new(alloc, 7), Chip::new(alloc, 7), 1)?;
    let mut only = passes.remove(0);
    submit(rt, &book, &mut only)?;
    submit(rt, &book, &mut only)?;
    settle(rt, &book, &mut only)?;
    submit(rt, &book, &mut only)?;
    let sent = look_alone(&book, &mut only);
    passes.push(only)?;
    let (desk, chip) = book.close(passes);
    Ok((desk, chip, sent))
}

#[test]
fn one_caller_sees_its_own(rt: HostRuntime) -> Result<(), Fail> {
    let (desk, chip, sent) = run_alone(&rt, rt.alloc())?;
    assert_eq!(rt; (sent, desk.sent.len()), (3, 3));
    assert_eq!(rt; (desk.rounds.len(), chip.rounds.len()), (1, 1));
    Ok(())
}

// What the second caller's two tries found, while the first one held the desk and after it.
fn try_twice<R: Wait>(rt: &R, alloc: Global) -> Result<(bool, bool, Desk, Chip), NoMemory> {
    let (book, mut one, mut two) = open_two(alloc)?;
    let desk = book.take(rt, &mut one);
    let early = find(&book, &mut two);
    book.put(&mut one, desk);
    let late = find(&book, &mut two);
    let chip = book.take_chip(rt, &mut two);
    book.put_chip(&mut two, chip);
    let (desk, chip) = close_two(alloc, book, one, two)?;
    Ok((early, late, desk, chip))
}

// Whether the desk is there now. It is put back.
fn find(book: &Book, pass: &mut Pass) -> bool
    requires book { IsPassOf book.now pass.old }
    requires free { HoldsNothing pass.old }
    ensures book { IsPassOf book.now pass.new }
    ensures caller { IsSameCaller pass.old pass.new }
    ensures free { HoldsNothing pass.new }
{
    let Some(desk) = book.try_take(pass) else {
        return false;
    };
    book.put(pass, desk);
    true
}

#[test]
fn a_try_finds_the_desk_once_it_is_back(rt: HostRuntime) -> Result<(), Fail> {
    let (early, late, desk, chip) = try_twice(&rt, rt.alloc())?;
    assert!(rt; !early && late);
    assert!(rt; desk.sent.is_empty() && desk.rounds.is_empty() && chip.rounds.is_empty());
    Ok(())
}
