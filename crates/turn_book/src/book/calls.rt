//! The calls of a caller, each with its pass. Each takes one atomic step of its kind.
ghost use Rattle.std.specs.Prelude.{◌≡◌, ◌+◌, ◌<◌, ◌≤◌, ◌++◌, ◌∷◌, [], true, false, length, IfSome, IfNone};
ghost use Rattle.keyed.specs.Prefix.{IsPrefix};
ghost use Rattle.turn_book.specs.Lists.{own, strip};
ghost use Rattle.turn_book.specs.Passes.{IsPassOf, IsSameCaller, IsConsistent, IsNextSubmission, IsNextRound};

use super::{CallerPass, TurnBook};
use crate::plays::Trying;
use crate::steps::{
    attempt, count_one_round, count_one_submission, give_chip_back, give_desk_back, wait_for_chip,
    wait_for_desk,
};
use crate::value::{Settles, Stands};
use std::sync::Wait;

impl<V: Stands, W: Settles<Ground = V::Ground, Sub = V::Sub, Round = V::Round>> TurnBook<V, W> {
    /// Takes the desk, and sleeps while it is away.
    ///
    /// It stands for lists that begin with what the pass had seen, and the pass has seen all of them now. Under the
    /// chip side its journal is the one that the pass knows.
    pub fn take<R: Wait>(&self, rt: &R, pass: &mut CallerPass<V, W>) -> V
        requires book { IsPassOf self.now pass.old }
        requires free { pass.old.holds_desk ≡ false }
        ensures pass { pass.new ≡ record pass.old {
          seen = V.sent result;
          jseen = V.done result;
          holds_desk = true;
          takes = pass.old.takes + 1;
          misses = pass.new.misses;
        } }
        ensures misses { pass.old.misses ≤ pass.new.misses }
        ensures opening { V.opening result ≡ self.now.opening }
        ensures seen { IsPrefix pass.old.seen (V.sent result) }
        ensures jseen { IsPrefix pass.old.jseen (V.done result) }
        ensures settled { IsPrefix (strip V.subs (V.done result)) (V.sent result) }
        ensures under_chip { pass.old.holds_chip ≡ true → V.done result ≡ pass.old.jseen }
        ensures book { IsPassOf self.now pass.new }
        ensures caller { IsSameCaller pass.old pass.new }
        ensures lists { IsConsistent V.caller V.sequence pass.new }
    {
        wait_for_desk(rt, &self.table.shared, &mut pass.seat)
    }

    /// Takes the desk as `take` does, or finds it away and doesn't wait. Only another caller can have it then.
    pub fn try_take(&self, pass: &mut CallerPass<V, W>) -> Option<V>
        requires book { IsPassOf self.now pass.old }
        requires free { pass.old.holds_desk ≡ false }
        ensures found { IfSome result (λ v. pass.new ≡ record pass.old {
          seen = V.sent v;
          jseen = V.done v;
          holds_desk = true;
          takes = pass.old.takes + 1;
          tries = pass.old.tries + 1;
        }) }
        ensures away { IfNone result (pass.new ≡ record pass.old { misses = pass.old.misses + 1; tries = pass.old.tries + 1 }) }
        ensures shared { IfNone result (1 < self.now.callers) }
        ensures opening { IfSome result (λ v. V.opening v ≡ self.now.opening) }
        ensures seen { IfSome result (λ v. IsPrefix pass.old.seen (V.sent v)) }
        ensures jseen { IfSome result (λ v. IsPrefix pass.old.jseen (V.done v)) }
        ensures settled { IfSome result (λ v. IsPrefix (strip V.subs (V.done v)) (V.sent v)) }
        ensures under_chip { IfSome result (λ v. pass.old.holds_chip ≡ true → V.done v ≡ pass.old.jseen) }
        ensures book { IsPassOf self.now pass.new }
        ensures caller { IsSameCaller pass.old pass.new }
        ensures lists { IsConsistent V.caller V.sequence pass.new }
    {
        attempt::<V, W, Trying>(&self.table.shared, &mut pass.seat)
    }

    /// Puts the desk back, and wakes one that waits for it.
    pub fn put(&self, pass: &mut CallerPass<V, W>, v: V)
        requires book { IsPassOf self.now pass.old }
        requires holds { pass.old.holds_desk ≡ true }
        requires opening { V.opening v ≡ self.now.opening }
        requires sent { V.sent v ≡ pass.old.seen }
        requires done { V.done v ≡ pass.old.jseen }
        ensures pass { pass.new ≡ record pass.old { holds_desk = false } }
        ensures book { IsPassOf self.now pass.new }
        ensures caller { IsSameCaller pass.old pass.new }
        ensures lists { IsConsistent V.caller V.sequence pass.new }
    {
        give_desk_back(&self.table.shared, &mut pass.seat, v)
    }

    /// Counts one submission, for which the desk stands already. This is the moment at which it is submitted.
    pub fn count_submission(&self, pass: &mut CallerPass<V, W>, v: &V)
        requires book { IsPassOf self.now pass.old }
        requires holds { pass.old.holds_desk ≡ true }
        requires next { IsNextSubmission V.caller V.sequence pass.old (V.sent v.now) }
        requires room { length pass.old.seen < 18446744073709551615 }
        ensures pass { pass.new ≡ record pass.old { seen = V.sent v.now; mine = own V.caller pass.old.number (V.sent v.now) } }
        ensures mine { (s : V.Sub) → V.sent v.now ≡ pass.old.seen ++ s ∷ [] → pass.new.mine ≡ pass.old.mine ++ s ∷ [] }
        ensures book { IsPassOf self.now pass.new }
        ensures caller { IsSameCaller pass.old pass.new }
        ensures lists { IsConsistent V.caller V.sequence pass.new }
    {
        count_one_submission(&self.table.shared, &mut pass.seat, v);
        pass.submitted += 1;
    }

    /// Counts one round, which settles the next `k` submissions and for which desk and chip side stand already. This
    /// is the moment at which they are settled.
    pub fn count_round(&self, pass: &mut CallerPass<V, W>, v: &V, w: &W, k: u32)
        requires book { IsPassOf self.now pass.old }
        requires holds { pass.old.holds_desk ≡ true }
        requires holds_chip { pass.old.holds_chip ≡ true }
        requires some { 1 ≤ k }
        requires next { IsNextRound V.subs k pass.old (V.done v.now) }
        requires sent { V.sent v.now ≡ pass.old.seen }
        requires settled { IsPrefix (strip V.subs (V.done v.now)) (V.sent v.now) }
        requires chip { W.done w.now ≡ V.done v.now }
        ensures pass { pass.new ≡ record pass.old { jseen = V.done v.now; rounds = pass.old.rounds ++ length pass.old.jseen ∷ [] } }
        ensures book { IsPassOf self.now pass.new }
        ensures caller { IsSameCaller pass.old pass.new }
        ensures lists { IsConsistent V.caller V.sequence pass.new }
    {
        let _ = w;
        count_one_round(&self.table.shared, &mut pass.seat, v, k)
    }

    /// Takes the chip side, and sleeps while it is away. Its journal is the one of that moment.
    ///
    /// From then on until `put_chip` only this caller's `count_round` adds to the journal.
    pub fn take_chip<R: Wait>(&self, rt: &R, pass: &mut CallerPass<V, W>) -> W
        requires book { IsPassOf self.now pass.old }
        requires free { pass.old.holds_desk ≡ false }
        requires chip_free { pass.old.holds_chip ≡ false }
        ensures pass { pass.new ≡ record pass.old { jseen = W.done result; holds_chip = true } }
        ensures opening { W.opening result ≡ self.now.opening }
        ensures jseen { IsPrefix pass.old.jseen (W.done result) }
        ensures book { IsPassOf self.now pass.new }
        ensures caller { IsSameCaller pass.old pass.new }
        ensures lists { IsConsistent V.caller V.sequence pass.new }
    {
        wait_for_chip(rt, &self.table.shared, &mut pass.seat)
    }

    /// Puts the chip side back, and wakes one that waits for it.
    pub fn put_chip(&self, pass: &mut CallerPass<V, W>, w: W)
        requires book { IsPassOf self.now pass.old }
        requires holds { pass.old.holds_chip ≡ true }
        requires free { pass.old.holds_desk ≡ false }
        requires opening { W.opening w ≡ self.now.opening }
        requires done { W.done w ≡ pass.old.jseen }
        ensures pass { pass.new ≡ record pass.old { holds_chip = false } }
        ensures book { IsPassOf self.now pass.new }
        ensures caller { IsSameCaller pass.old pass.new }
        ensures lists { IsConsistent V.caller V.sequence pass.new }
    {
        give_chip_back(&self.table.shared, &mut pass.seat, w)
    }
}
