//! The rule of the table. It has four words and two slots.
use crate::value::{Settles, Stands};
use crate::view::{About, Held, View};
use atomic_table::TableRule;

/// The word that counts the submissions.
pub(crate) const SUBMISSIONS: usize = 0;

/// The word that counts the settled submissions.
pub(crate) const SETTLED: usize = 1;

/// The word that tells whether the desk is home, and the chip side's.
pub(crate) const DESK_WORD: usize = 2;

pub(crate) const CHIP_WORD: usize = 3;

/// The slots of the two values.
pub(crate) const DESK_SLOT: usize = 0;

pub(crate) const CHIP_SLOT: usize = 1;

/// What a value's word says.
pub(crate) const AWAY: u64 = 0;

pub(crate) const HOME: u64 = 1;

pub struct TurnRule;

impl<V: Stands, W: Settles<Ground = V::Ground, Sub = V::Sub, Round = V::Round>> TableRule<
    Held<V, W>,
    View<V::Ground, V::Sub, V::Round>,
    About<V>,
> for TurnRule {
    ghost use Rattle.std.specs.Prelude.{true, Some};
    ghost use Rattle.turn_book.specs.Means.{means};
    ghost use Rattle.turn_book.specs.Rule.{Kept, newcomer};

    ghost holds = { λ key. Kept (means V.opening V.sent V.done V.caller V.sequence V.subs W.opening W.done) (V.opening key.desk.value) key.callers };

    ghost first = { λ key. newcomer (Some (V.opening key.desk.value)) key.callers 0 true 1 };
}
