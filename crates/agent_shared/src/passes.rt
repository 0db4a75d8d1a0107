// Passes, and the seats in them.
ghost use Rattle.std.specs.Prelude.{◌≡◌, ◌+◌, ◌<◌, ◌≤◌, [], ◌∷◌, All, IfOk, length, map, vec_capacity, vec_len};
ghost use Rattle.shared_laws.specs.Ground.{IsSoFar};
ghost use Rattle.turn_book.specs.Closing.{HoldsNothing};
ghost use Rattle.turn_book.specs.Passes.{IsPassOf, new_pass, new_passes};

use crate::seats::{Book, Seat};
use chip_core::HwSwitch;
use net_types::NoMemory;
use observers::StateObserver;
use std::alloc::Global;
use std::marker::Model;

/// What a caller calls with. It knows its caller's number and how many updates that caller has submitted; contracts see
/// all that the caller has seen and done.
#[derive(Drop)]
pub struct Pass<C: HwSwitch + Send, O: StateObserver + Send> {
    pub(crate) seat: Seat<C, O>,
    // Room for the seats of all passes, so that closing takes no memory.
    pub(crate) room: Vec<Seat<C, O>>,
}

impl<C: HwSwitch + Send, O: StateObserver + Send> Model for Pass<C, O> {
    ghost use Rattle.std.specs.Prelude.{◌≡◌, ◌≤◌, [], vec_capacity};
    ghost use Rattle.shared_laws.specs.Callers.{IsPass, Seen};

    ghost Value = { Seen };

    ghost view = { λ p. p.seat };

    ghost invariant = { λ p. IsPass p.seat × (p.room.items ≡ []) × (p.seat.callers ≤ vec_capacity p.room) };
}

impl<C: HwSwitch + Send, O: StateObserver + Send> Pass<C, O> {
    /// The caller's number, from 0 on.
    pub fn number(&self) -> u32
        ensures number { result ≡ self.now.number }
    {
        self.seat.number()
    }

    /// How many updates the caller has submitted.
    pub fn submitted(&self) -> u64
        ensures submitted { result ≡ length self.now.mine }
    {
        self.seat.submitted()
    }

    // The first pass with that number.
    fn first(
        alloc: Global,
        book: &Book<C, O>,
        number: u32,
        seat: Seat<C, O>,
        callers: u32,
    ) -> Result<Pass<C, O>, NoMemory>
        requires new { seat ≡ new_pass book.now number }
        requires callers { book.now.callers ≡ callers }
        requires begins { IsSoFar book.now.opening [] [] }
        ensures { IfOk result (λ p. p ≡ new_pass book.now number) }
    {
        let _ = book;
        let mut room = Vec::new(alloc);
        room.reserve(callers as usize)?;
        Ok(Pass { seat, room })
    }
}

/// The passes of the seats, which are numbered from 0 on.
pub(crate) fn passes_of<C: HwSwitch + Send, O: StateObserver + Send>(
    alloc: Global,
    book: &Book<C, O>,
    seats: Vec<Seat<C, O>>,
    callers: u32,
) -> Result<Vec<Pass<C, O>>, NoMemory>
    requires new { seats.items ≡ new_passes book.now 0 callers }
    requires callers { book.now.callers ≡ callers }
    requires begins { IsSoFar book.now.opening [] [] }
    ensures { IfOk result (λ v. v.items ≡ new_passes book.now 0 callers) }
{
    let mut seats = seats;
    let mut passes = Vec::new(alloc);
    for number in 0..callers {
        passes.push(Pass::first(alloc, book, number, seats.remove(0), callers)?)?;
    }
    drop(seats);
    Ok(passes)
}

fn room_of<C: HwSwitch + Send, O: StateObserver + Send>(pass: Pass<C, O>) -> Vec<Seat<C, O>>
    requires some { 0 < pass.callers }
    ensures one { result.items ≡ pass ∷ [] }
    ensures free { HoldsNothing pass }
    ensures room { pass.callers ≤ vec_capacity result }
{
    let Pass { seat, room } = pass;
    let mut seats = room;
    seats.push_reserved(seat);
    seats
}

fn seat_of<C: HwSwitch + Send, O: StateObserver + Send>(pass: Pass<C, O>) -> Seat<C, O>
    ensures same { result ≡ pass }
    ensures free { HoldsNothing pass }
{
    let Pass { seat, room } = pass;
    drop(room);
    seat
}

/// The seats of the passes, in the room that the first of them has. It takes no memory.
pub(crate) fn seats_of<C: HwSwitch + Send, O: StateObserver + Send>(
    mut passes: Vec<Pass<C, O>>,
) -> Vec<Seat<C, O>>
    requires some { 0 < vec_len passes }
    requires callers { All (λ p. p.callers ≡ vec_len passes) passes.items }
    ensures same { result.items ≡ passes.items }
    ensures free { All (λ p. HoldsNothing p) result.items }
{
    let mut seats = room_of(passes.remove(0));
    while !passes.is_empty() {
        seats.push_reserved(seat_of(passes.remove(0)));
    }
    seats
}
