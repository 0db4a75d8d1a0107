//! What each step on the table tells its caller.
ghost use Rattle.std.specs.Prelude.{ℕ, List, [], false};
ghost use Rattle.turn_book.specs.Means.{means};
ghost use Rattle.turn_book.specs.Rule.{newcomer, nobody};
ghost use Rattle.turn_book.specs.Steps.{Takes, Puts, Counts, CountsRound, TakesChip, PutsChip, split_off, took_in};

use crate::value::{Settles, Stands};
use crate::view::{Held, View};
use atomic_table::{Join, Play, Split};
use std::marker::{Brand, PhantomData};

/// How much an attempt adds to the tries.
pub(crate) trait Tries {
    ghost tried: { ℕ };
}

/// An attempt of a call that waits.
pub(crate) struct Waiting;

impl Tries for Waiting {
    ghost tried = { 0 };
}

/// An attempt of a call that doesn't.
pub(crate) struct Trying;

impl Tries for Trying {
    ghost tried = { 1 };
}

/// The desk is taken out, or is found away.
pub(crate) struct TakeDesk<T> {
    of: PhantomData<T>,
}

impl<V: Stands, W: Settles<Ground = V::Ground, Sub = V::Sub, Round = V::Round>, T: Tries> Play<
    Held<V, W>,
    View<V::Ground, V::Sub, V::Round>,
> for TakeDesk<T> {
    ghost then = { Takes (means V.opening V.sent V.done V.caller V.sequence V.subs W.opening W.done) T.tried };
}

/// The desk is put back.
pub(crate) struct PutDesk;

impl<V: Stands, W: Settles<Ground = V::Ground, Sub = V::Sub, Round = V::Round>> Play<
    Held<V, W>,
    View<V::Ground, V::Sub, V::Round>,
> for PutDesk {
    ghost then = { Puts };
}

/// What a count says that it counts. Each call picks it.
pub(crate) trait Told<S, R> {
    ghost log: { List S };

    ghost journal: { List R };
}

impl<S, R> Told<S, R> for Brand {
    ghost log = { [] };

    ghost journal = { [] };
}

/// A submission is counted.
pub(crate) struct Submit<J> {
    of: PhantomData<J>,
}

impl<
    V: Stands,
    W: Settles<Ground = V::Ground, Sub = V::Sub, Round = V::Round>,
    J: Told<V::Sub, V::Round>,
> Play<Held<V, W>, View<V::Ground, V::Sub, V::Round>> for Submit<J> {
    ghost then = { Counts (means V.opening V.sent V.done V.caller V.sequence V.subs W.opening W.done) J.log };
}

/// A round is counted.
pub(crate) struct Settle<J> {
    of: PhantomData<J>,
}

impl<
    V: Stands,
    W: Settles<Ground = V::Ground, Sub = V::Sub, Round = V::Round>,
    J: Told<V::Sub, V::Round>,
> Play<Held<V, W>, View<V::Ground, V::Sub, V::Round>> for Settle<J> {
    ghost then = { CountsRound (means V.opening V.sent V.done V.caller V.sequence V.subs W.opening W.done) J.journal };
}

/// The chip side is taken out, or is found away.
pub(crate) struct TakeChip;

impl<V: Stands, W: Settles<Ground = V::Ground, Sub = V::Sub, Round = V::Round>> Play<
    Held<V, W>,
    View<V::Ground, V::Sub, V::Round>,
> for TakeChip {
    ghost then = { TakesChip (means V.opening V.sent V.done V.caller V.sequence V.subs W.opening W.done) };
}

/// The chip side is put back.
pub(crate) struct PutChip;

impl<V: Stands, W: Settles<Ground = V::Ground, Sub = V::Sub, Round = V::Round>> Play<
    Held<V, W>,
    View<V::Ground, V::Sub, V::Round>,
> for PutChip {
    ghost then = { PutsChip };
}

/// A seat for the next caller.
pub(crate) struct Next;

impl<G, S, R> Split<View<G, S, R>> for Next {
    ghost left = { split_off };

    ghost right = { λ d. newcomer d.opening d.callers d.made false 0 };
}

/// A caller that has ended.
pub(crate) struct End;

impl<G, S, R> Join<View<G, S, R>> for End {
    ghost both = { took_in };

    ghost spent = { nobody };
}
