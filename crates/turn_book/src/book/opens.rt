//! Opening a book.
ghost use Rattle.std.specs.Prelude.{◌≡◌, ◌<◌, ◌≤◌, ℕ, Some, true, false, [], IfOk};
ghost use Rattle.turn_book.specs.Passes.{new_passes};
ghost use Rattle.turn_book.specs.Rule.{newcomer};
ghost use Rattle.turn_book.specs.Steps.{split_off, pass_of};

use super::{CallerPass, NoMemory, TurnBook};
use crate::plays::Next;
use crate::rule::HOME;
use crate::value::{Settles, Stands};
use crate::view::{About, Held, View};
use atomic_table::{Seat, Table};
use std::alloc::{AllocError, Global};
use std::snapshot::Snapshot;

// The book, and the seat that makes the others.
fn start<V: Stands, W: Settles<Ground = V::Ground, Sub = V::Sub, Round = V::Round>>(
    alloc: Global,
    desk: V,
    chip: W,
    callers: u32,
) -> Result<
    (
        TurnBook<V, W>,
        Seat<Held<V, W>, View<V::Ground, V::Sub, V::Round>>,
    ),
    NoMemory,
>
    requires callers { 1 ≤ callers }
    requires sent { V.sent desk ≡ [] }
    requires done { V.done desk ≡ [] }
    requires chip { W.done chip ≡ [] }
    requires opening { W.opening chip ≡ V.opening desk }
    ensures callers { IfOk result (λ t. t.0.callers ≡ callers) }
    ensures opening { IfOk result (λ t. t.0.opening ≡ V.opening desk) }
    ensures table { IfOk result (λ t. t.1.table_id ≡ t.0.id) }
    ensures seat { IfOk result (λ t. t.1.me ≡ (newcomer (Some (V.opening desk)) callers 0 true 1, [])) }
{
    let about = About {
        desk: Snapshot::of(&desk),
        callers,
    };
    let mut slots = Vec::new(alloc);
    slots.push(Held::Desk(desk))?;
    slots.push(Held::Chip(chip))?;
    match Table::new(alloc, &[0, 0, HOME, HOME], slots, &about) {
        Ok((table, seat)) => Ok((TurnBook { table }, seat)),
        Err(_) => Err(AllocError),
    }
}

impl<V: Stands, W: Settles<Ground = V::Ground, Sub = V::Sub, Round = V::Round>> CallerPass<V, W> {
    // The pass of the first caller, which has made the others.
    fn first(seat: Seat<Held<V, W>, View<V::Ground, V::Sub, V::Round>>) -> CallerPass<V, W>
        requires { (b : V.Ground) × (callers : ℕ) × (made : ℕ) × (seat.me ≡ (newcomer (Some b) callers 0 true made, [])) }
        ensures { result ≡ pass_of seat.table_id seat.me.0 }
    {
        CallerPass {
            seat,
            number: 0,
            submitted: 0,
        }
    }
}

impl<V: Stands, W: Settles<Ground = V::Ground, Sub = V::Sub, Round = V::Round>> TurnBook<V, W> {
    // A pass with the next number.
    fn next(
        &self,
        maker: &mut Seat<Held<V, W>, View<V::Ground, V::Sub, V::Round>>,
        number: u32,
    ) -> CallerPass<V, W>
        requires number { maker.old.me.0.made ≡ number }
        requires book { maker.old.table_id ≡ self.now.id }
        requires unspent { maker.old.me.0.spent ≡ false }
        requires makes { maker.old.me.0.makes ≡ true }
        requires few { maker.old.me.0.made < maker.old.me.0.callers }
        ensures book { maker.new.table_id ≡ self.now.id }
        ensures maker { maker.new.me ≡ (split_off maker.old.me.0, maker.old.me.1) }
        ensures pass { result ≡ pass_of self.now.id (newcomer maker.old.me.0.opening maker.old.me.0.callers maker.old.me.0.made false 0) }
    {
        CallerPass {
            seat: self.table.shared.split_seat::<Next>(maker),
            number,
            submitted: 0,
        }
    }

    /// A book with both values home, and a pass for each caller, in the order of their numbers. Where memory is
    /// refused both values are dropped.
    pub fn open(
        alloc: Global,
        desk: V,
        chip: W,
        callers: u32,
    ) -> Result<(TurnBook<V, W>, Vec<CallerPass<V, W>>), NoMemory>
        requires callers { 1 ≤ callers }
        requires sent { V.sent desk ≡ [] }
        requires done { V.done desk ≡ [] }
        requires chip { W.done chip ≡ [] }
        requires opening { W.opening chip ≡ V.opening desk }
        ensures callers { IfOk result (λ t. t.0.callers ≡ callers) }
        ensures opening { IfOk result (λ t. t.0.opening ≡ V.opening desk) }
        ensures passes { IfOk result (λ t. t.1.items ≡ new_passes t.0 0 callers) }
    {
        let (book, mut first) = start(alloc, desk, chip, callers)?;
        let mut passes = Vec::new(alloc);
        for i in 1..callers {
            passes.push(book.next(&mut first, i))?;
        }
        passes.insert(0, CallerPass::first(first))?;
        Ok((book, passes))
    }
}
