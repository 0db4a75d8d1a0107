//! Laws of a core: what a round makes of what is published, of the chip and of the observers, and
//! how a core begins. The definitions of what is published and of a core stand here too.
//!
//! Each law is the contract of a function without a body: a caller has it by the call.
#![tactic(auto)]

mod changes;
mod cores;
mod rounds;

pub use changes::changes_between_states_are_changes;
pub use cores::{
    chips_hold_what_fits, chips_that_show_the_rows_are_adopted, cores_stand_for_their_journals,
};
pub use rounds::{rounds_in_turn_are_one_journal, rounds_settle_runs};
