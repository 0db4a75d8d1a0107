//! Closing a book.
ghost use Rattle.std.specs.Prelude.{◌≡◌, ℕ, ◌<◌, ◌≤◌, true, false, [], length, All, EachIndex};
ghost use Rattle.keyed.specs.Prefix.{IsPrefix};
ghost use Rattle.turn_book.specs.Lists.{own, strip, AreNumbered};
ghost use Rattle.turn_book.specs.Passes.{IsPassOf};
ghost use Rattle.turn_book.specs.Closing.{HoldsNothing, HasEachCaller, IsCountedOnce};
ghost use Rattle.turn_book.specs.Means.{means};
ghost use Rattle.turn_book.specs.Steps.{Ends, HasAll};

use super::{CallerPass, TurnBook};
use crate::plays::End;
use crate::rule::{CHIP_SLOT, DESK_SLOT};
use crate::value::{Settles, Stands};
use crate::view::{Held, View};
use atomic_table::Seat;

fn desk_of<V: Drop, W: Drop>(held: Held<V, W>) -> V
    requires { (v : V) × (held ≡ Held.Desk v) }
    ensures { held ≡ Held.Desk result }
{
    match held {
        Held::Desk(v) => v,
        _ => unreachable!(),
    }
}

fn chip_of<V: Drop, W: Drop>(held: Held<V, W>) -> W
    requires { (w : W) × (held ≡ Held.Chip w) }
    ensures { held ≡ Held.Chip result }
{
    match held {
        Held::Chip(w) => w,
        _ => unreachable!(),
    }
}

impl<V: Stands, W: Settles<Ground = V::Ground, Sub = V::Sub, Round = V::Round>> TurnBook<V, W> {
    // The last seat has taken in all others.
    fn finish(self, last: Seat<Held<V, W>, View<V::Ground, V::Sub, V::Round>>) -> (V, W)
        requires book { last.table_id ≡ self.id }
        requires unspent { last.me.0.spent ≡ false }
        requires free { last.me.0.desk_turn ≡ false }
        requires chip_free { last.me.0.chip_turn ≡ false }
        requires all { HasAll last.me.0 }
        ensures { Ends (means V.opening V.sent V.done V.caller V.sequence V.subs W.opening W.done) last.me.0 result.0 result.1 }
    {
        let TurnBook { table } = self;
        let mut closed = table.close_with(last);
        let desk = closed.take(DESK_SLOT);
        let chip = closed.take(CHIP_SLOT);
        closed.free();
        (desk_of(desk), chip_of(chip))
    }

    /// Ends the book, and gives both values back. The passes are those of all its callers, in any order.
    pub fn close(self, passes: Vec<CallerPass<V, W>>) -> (V, W)
        requires book { All (λ p. IsPassOf self p) passes.items }
        requires free { All (λ p. HoldsNothing p) passes.items }
        requires all { HasEachCaller self passes.items }
        ensures opening { V.opening result.0 ≡ self.opening }
        ensures chip_opening { W.opening result.1 ≡ self.opening }
        ensures journal { W.done result.1 ≡ V.done result.0 }
        ensures settled { IsPrefix (strip V.subs (V.done result.0)) (V.sent result.0) }
        ensures seen { All (λ p. IsPrefix p.seen (V.sent result.0)) passes.items }
        ensures jseen { All (λ p. IsPrefix p.jseen (V.done result.0)) passes.items }
        ensures mine { All (λ p. p.mine ≡ own V.caller p.number (V.sent result.0)) passes.items }
        ensures numbered { (i : ℕ) → AreNumbered V.sequence (own V.caller i (V.sent result.0)) }
        ensures no_others { (i : ℕ) → self.callers ≤ i → own V.caller i (V.sent result.0) ≡ [] }
        ensures counted_once { EachIndex (V.done result.0) (λ n. IsCountedOnce passes.items n) }
    {
        let mut rest = passes;
        let Some(pass) = rest.pop() else {
            unreachable!();
        };
        let CallerPass {
            seat: mut last,
            number: _,
            submitted: _,
        } = pass;
        while let Some(pass) = rest.pop() {
            let CallerPass {
                seat,
                number: _,
                submitted: _,
            } = pass;
            self.table.shared.join_seat::<End>(&mut last, seat);
        }
        self.finish(last)
    }
}
