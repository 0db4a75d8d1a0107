//! The steps of a seat on the table.
ghost use Rattle.std.specs.Prelude.{◌≡◌, ℕ, ◌+◌, ◌^◌, ◌<◌, true, false, Some, ◌++◌, ◌∷◌, [], length, MatchOption};
ghost use Rattle.keyed.specs.Prefix.{IsPrefix};
ghost use mathlib.Core.Option.{none};
ghost use Rattle.atomic_table.specs.Table.{step, Allows};
ghost use Rattle.turn_book.specs.Lists.{strip};
ghost use Rattle.turn_book.specs.Passes.{ListsAgree};
ghost use Rattle.turn_book.specs.Means.{means};
ghost use Rattle.turn_book.specs.Rule.{Kept};
ghost use Rattle.turn_book.specs.Steps.{Agree, Taken, Found, Missed, IsBookTable, IsChip, hand_of, gave, counted, settled, took_chip, gave_chip};

use crate::plays::{PutChip, PutDesk, Settle, Submit, TakeChip, TakeDesk, Told, Tries, Waiting};
use crate::rule::{
    AWAY, CHIP_SLOT, CHIP_WORD, DESK_SLOT, DESK_WORD, HOME, SETTLED, SUBMISSIONS, TurnRule,
};
use crate::value::{Settles, Stands};
use crate::view::{About, Held, View};
use atomic_table::{Play, Seat, Shared};
use std::marker::Brand;
use std::sync::Wait;

/// Sleeps while the word says that its value is away, until a `come_home` at that word. It may also return for no reason.
fn sleep<V: Stands, W: Settles<Ground = V::Ground, Sub = V::Sub, Round = V::Round>, R: Wait>(
    board: &Shared<Held<V, W>, View<V::Ground, V::Sub, V::Round>, About<V>, TurnRule>,
    rt: &R,
    word: usize,
)
    requires { word < board.now.table_id.words }
{
    board.park(rt, word, AWAY as u32);
}

/// Says in the word that its value, which the seat's hand gives back by this step, is home, and then wakes one that
/// sleeps on the word. In this order: who finds the value away after the wake would sleep on.
fn come_home<
    V: Stands,
    W: Settles<Ground = V::Ground, Sub = V::Sub, Round = V::Round>,
    P: Play<Held<V, W>, View<V::Ground, V::Sub, V::Round>>,
>(
    board: &Shared<Held<V, W>, View<V::Ground, V::Sub, V::Round>, About<V>, TurnRule>,
    seat: &mut Seat<Held<V, W>, View<V::Ground, V::Sub, V::Round>>,
    word: usize,
)
    requires table { seat.old.table_id ≡ board.now.table_id }
    requires word { word < board.now.table_id.words }
    requires rule { Allows (Kept (means V.opening V.sent V.done V.caller V.sequence V.subs W.opening W.done) (V.opening board.now.key.desk.value) board.now.key.callers) board.now.table_id.slots seat.old.id seat.old.me word (λ _. 1) (λ _. P.then (step board.now.table_id.slots word 1 0 none) seat.old.me 1) }
    ensures table { seat.new.table_id ≡ seat.old.table_id }
    ensures home { P.then (step board.now.table_id.slots word 1 0 none) seat.old.me 1 seat.new.me }
{
    board.store::<P>(seat, word, HOME);
    board.wake_one(word);
}

/// Takes the desk out, or finds it away. One exchange of the desk's word.
pub(crate) fn attempt<
    V: Stands,
    W: Settles<Ground = V::Ground, Sub = V::Sub, Round = V::Round>,
    T: Tries,
>(
    board: &Shared<Held<V, W>, View<V::Ground, V::Sub, V::Round>, About<V>, TurnRule>,
    seat: &mut Seat<Held<V, W>, View<V::Ground, V::Sub, V::Round>>,
) -> Option<V>
    requires table { seat.old.table_id ≡ board.now.table_id }
    requires size { IsBookTable board.now.table_id }
    requires unspent { seat.old.me.0.spent ≡ false }
    requires free { seat.old.me.0.desk_turn ≡ false }
    requires hand { seat.old.me.1 ≡ hand_of false seat.old.me.0.chip_turn }
    ensures table { seat.new.table_id ≡ seat.old.table_id }
    ensures hand { seat.new.me.1 ≡ hand_of seat.new.me.0.desk_turn seat.new.me.0.chip_turn }
    ensures lists { Agree V.caller V.sequence seat.new.me.0 }
    ensures desk { MatchOption result (Missed T.tried seat.old.me.0 seat.new.me.0) (λ v. Found (means V.opening V.sent V.done V.caller V.sequence V.subs W.opening W.done) T.tried seat.old.me.0 v seat.new.me.0) }
{
    let found = board.swap::<TakeDesk<T>>(seat, DESK_WORD, AWAY);
    if found != HOME {
        return None;
    }
    match board.exchange(seat, DESK_SLOT, Held::Away) {
        Held::Desk(v) => Some(v),
        _ => unreachable!(),
    }
}

/// Tries until the desk is there, and sleeps in between. Who sleeps is woken by the next `give_desk_back`.
pub(crate) fn wait_for_desk<
    V: Stands,
    W: Settles<Ground = V::Ground, Sub = V::Sub, Round = V::Round>,
    R: Wait,
>(
    rt: &R,
    board: &Shared<Held<V, W>, View<V::Ground, V::Sub, V::Round>, About<V>, TurnRule>,
    seat: &mut Seat<Held<V, W>, View<V::Ground, V::Sub, V::Round>>,
) -> V
    requires table { seat.old.table_id ≡ board.now.table_id }
    requires size { IsBookTable board.now.table_id }
    requires unspent { seat.old.me.0.spent ≡ false }
    requires free { seat.old.me.0.desk_turn ≡ false }
    requires hand { seat.old.me.1 ≡ hand_of false seat.old.me.0.chip_turn }
    ensures table { seat.new.table_id ≡ seat.old.table_id }
    ensures hand { seat.new.me.1 ≡ hand_of seat.new.me.0.desk_turn seat.new.me.0.chip_turn }
    ensures lists { Agree V.caller V.sequence seat.new.me.0 }
    ensures desk { Taken (means V.opening V.sent V.done V.caller V.sequence V.subs W.opening W.done) seat.old.me.0 result seat.new.me.0 }
{
    for _ in rt.forever() {
        if let Some(v) = attempt::<V, W, Waiting>(board, seat) {
            return v;
        }
        sleep(board, rt, DESK_WORD);
    }
    unreachable!()
}

/// Puts the desk back, and wakes one that waits for it.
pub(crate) fn give_desk_back<
    V: Stands,
    W: Settles<Ground = V::Ground, Sub = V::Sub, Round = V::Round>,
>(
    board: &Shared<Held<V, W>, View<V::Ground, V::Sub, V::Round>, About<V>, TurnRule>,
    seat: &mut Seat<Held<V, W>, View<V::Ground, V::Sub, V::Round>>,
    v: V,
)
    requires table { seat.old.table_id ≡ board.now.table_id }
    requires size { IsBookTable board.now.table_id }
    requires unspent { seat.old.me.0.spent ≡ false }
    requires turn { seat.old.me.0.desk_turn ≡ true }
    requires hand { seat.old.me.1 ≡ hand_of true seat.old.me.0.chip_turn }
    requires sent { V.sent v ≡ seat.old.me.0.seen }
    requires done { V.done v ≡ seat.old.me.0.jseen }
    requires opening { Some (V.opening v) ≡ seat.old.me.0.opening }
    ensures table { seat.new.table_id ≡ seat.old.table_id }
    ensures view { seat.new.me ≡ (gave seat.old.me.0, hand_of false seat.old.me.0.chip_turn) }
{
    board.exchange(seat, DESK_SLOT, Held::Desk(v));
    come_home::<V, W, PutDesk>(board, seat, DESK_WORD);
}

// `v` says what is counted, by `J`.
fn count_told_submission<
    V: Stands,
    W: Settles<Ground = V::Ground, Sub = V::Sub, Round = V::Round>,
    J: Told<V::Sub, V::Round>,
>(
    board: &Shared<Held<V, W>, View<V::Ground, V::Sub, V::Round>, About<V>, TurnRule>,
    seat: &mut Seat<Held<V, W>, View<V::Ground, V::Sub, V::Round>>,
    v: &V,
)
    requires table { seat.old.table_id ≡ board.now.table_id }
    requires size { IsBookTable board.now.table_id }
    requires unspent { seat.old.me.0.spent ≡ false }
    requires turn { seat.old.me.0.desk_turn ≡ true }
    requires next { (s : V.Sub) × (V.sent v.now ≡ seat.old.me.0.seen ++ s ∷ []) × (V.caller s ≡ seat.old.me.0.number) × (V.sequence s ≡ length seat.old.me.0.mine) }
    requires told { J.log ≡ V.sent v.now }
    requires room { length seat.old.me.0.seen + 1 < 2 ^ 64 }
    ensures table { seat.new.table_id ≡ seat.old.table_id }
    ensures view { seat.new.me ≡ (counted V.caller J.log seat.old.me.0, seat.old.me.1) }
    ensures lists { Agree V.caller V.sequence seat.new.me.0 }
{
    let _ = v;
    board.fetch_add::<Submit<J>>(seat, SUBMISSIONS, 1);
}

/// Counts one submission. One `fetch_add` on the word of submissions.
pub(crate) fn count_one_submission<
    V: Stands,
    W: Settles<Ground = V::Ground, Sub = V::Sub, Round = V::Round>,
>(
    board: &Shared<Held<V, W>, View<V::Ground, V::Sub, V::Round>, About<V>, TurnRule>,
    seat: &mut Seat<Held<V, W>, View<V::Ground, V::Sub, V::Round>>,
    v: &V,
)
    requires table { seat.old.table_id ≡ board.now.table_id }
    requires size { IsBookTable board.now.table_id }
    requires unspent { seat.old.me.0.spent ≡ false }
    requires turn { seat.old.me.0.desk_turn ≡ true }
    requires next { (s : V.Sub) × (V.sent v.now ≡ seat.old.me.0.seen ++ s ∷ []) × (V.caller s ≡ seat.old.me.0.number) × (V.sequence s ≡ length seat.old.me.0.mine) }
    requires room { length seat.old.me.0.seen + 1 < 2 ^ 64 }
    ensures table { seat.new.table_id ≡ seat.old.table_id }
    ensures view { seat.new.me ≡ (counted V.caller (V.sent v.now) seat.old.me.0, seat.old.me.1) }
    ensures lists { Agree V.caller V.sequence seat.new.me.0 }
{
    count_told_submission::<V, W, Brand>(board, seat, v);
}

// `v` says what is counted, by `J`.
fn count_told_round<
    V: Stands,
    W: Settles<Ground = V::Ground, Sub = V::Sub, Round = V::Round>,
    J: Told<V::Sub, V::Round>,
>(
    board: &Shared<Held<V, W>, View<V::Ground, V::Sub, V::Round>, About<V>, TurnRule>,
    seat: &mut Seat<Held<V, W>, View<V::Ground, V::Sub, V::Round>>,
    v: &V,
    k: u32,
)
    requires table { seat.old.table_id ≡ board.now.table_id }
    requires size { IsBookTable board.now.table_id }
    requires unspent { seat.old.me.0.spent ≡ false }
    requires turn { seat.old.me.0.desk_turn ≡ true }
    requires chip_turn { seat.old.me.0.chip_turn ≡ true }
    requires next { (r : V.Round) × (V.done v.now ≡ seat.old.me.0.jseen ++ r ∷ []) × (length (V.subs r) ≡ k) }
    requires settled { IsPrefix (strip V.subs (V.done v.now)) seat.old.me.0.seen }
    requires told { J.journal ≡ V.done v.now }
    ensures table { seat.new.table_id ≡ seat.old.table_id }
    ensures view { seat.new.me ≡ (settled J.journal seat.old.me.0, seat.old.me.1) }
    ensures lists { Agree V.caller V.sequence seat.new.me.0 }
{
    let _ = v;
    board.fetch_add::<Settle<J>>(seat, SETTLED, k as u64);
}

/// Counts one round of `k` submissions. One `fetch_add` on the word of settled submissions.
pub(crate) fn count_one_round<
    V: Stands,
    W: Settles<Ground = V::Ground, Sub = V::Sub, Round = V::Round>,
>(
    board: &Shared<Held<V, W>, View<V::Ground, V::Sub, V::Round>, About<V>, TurnRule>,
    seat: &mut Seat<Held<V, W>, View<V::Ground, V::Sub, V::Round>>,
    v: &V,
    k: u32,
)
    requires table { seat.old.table_id ≡ board.now.table_id }
    requires size { IsBookTable board.now.table_id }
    requires unspent { seat.old.me.0.spent ≡ false }
    requires turn { seat.old.me.0.desk_turn ≡ true }
    requires chip_turn { seat.old.me.0.chip_turn ≡ true }
    requires next { (r : V.Round) × (V.done v.now ≡ seat.old.me.0.jseen ++ r ∷ []) × (length (V.subs r) ≡ k) }
    requires settled { IsPrefix (strip V.subs (V.done v.now)) seat.old.me.0.seen }
    ensures table { seat.new.table_id ≡ seat.old.table_id }
    ensures view { seat.new.me ≡ (settled (V.done v.now) seat.old.me.0, seat.old.me.1) }
    ensures lists { Agree V.caller V.sequence seat.new.me.0 }
{
    count_told_round::<V, W, Brand>(board, seat, v, k);
}

/// Tries until the chip side is there, and sleeps in between. Who sleeps is woken by the next `give_chip_back`.
pub(crate) fn wait_for_chip<
    V: Stands,
    W: Settles<Ground = V::Ground, Sub = V::Sub, Round = V::Round>,
    R: Wait,
>(
    rt: &R,
    board: &Shared<Held<V, W>, View<V::Ground, V::Sub, V::Round>, About<V>, TurnRule>,
    seat: &mut Seat<Held<V, W>, View<V::Ground, V::Sub, V::Round>>,
) -> W
    requires table { seat.old.table_id ≡ board.now.table_id }
    requires size { IsBookTable board.now.table_id }
    requires unspent { seat.old.me.0.spent ≡ false }
    requires free { seat.old.me.0.desk_turn ≡ false }
    requires chip_free { seat.old.me.0.chip_turn ≡ false }
    requires hand { seat.old.me.1 ≡ [] }
    ensures table { seat.new.table_id ≡ seat.old.table_id }
    ensures view { seat.new.me ≡ (took_chip (W.done result) seat.old.me.0, hand_of false true) }
    ensures lists { Agree V.caller V.sequence seat.new.me.0 }
    ensures chip { IsChip (means V.opening V.sent V.done V.caller V.sequence V.subs W.opening W.done) seat.old.me.0 result }
{
    for _ in rt.forever() {
        if board.swap::<TakeChip>(seat, CHIP_WORD, AWAY) == HOME {
            match board.exchange(seat, CHIP_SLOT, Held::Away) {
                Held::Chip(w) => return w,
                _ => unreachable!(),
            }
        }
        sleep(board, rt, CHIP_WORD);
    }
    unreachable!()
}

/// Puts the chip side back, and wakes one that waits for it.
pub(crate) fn give_chip_back<
    V: Stands,
    W: Settles<Ground = V::Ground, Sub = V::Sub, Round = V::Round>,
>(
    board: &Shared<Held<V, W>, View<V::Ground, V::Sub, V::Round>, About<V>, TurnRule>,
    seat: &mut Seat<Held<V, W>, View<V::Ground, V::Sub, V::Round>>,
    w: W,
)
    requires table { seat.old.table_id ≡ board.now.table_id }
    requires size { IsBookTable board.now.table_id }
    requires unspent { seat.old.me.0.spent ≡ false }
    requires turn { seat.old.me.0.chip_turn ≡ true }
    requires hand { seat.old.me.1 ≡ hand_of false true }
    requires done { W.done w ≡ seat.old.me.0.jseen }
    requires opening { Some (W.opening w) ≡ seat.old.me.0.opening }
    ensures table { seat.new.table_id ≡ seat.old.table_id }
    ensures view { seat.new.me ≡ (gave_chip seat.old.me.0, []) }
{
    board.exchange(seat, CHIP_SLOT, Held::Chip(w));
    come_home::<V, W, PutChip>(board, seat, CHIP_WORD);
}
