//! Laws of the plain model: soundness, the order of parts, and rows that lead to rows that are
//! there. Each is the contract of a function that does nothing.
#![tactic(auto)]

mod order;
mod rows;
mod sound;

pub use order::parts_stay_in_order;
pub use rows::{
    only_other_rows_differ, rows_are_closed, rows_that_differ_are_counted, tests_of_rows_are_exact,
};
pub use sound::{
    a_subnet_is_one_interfaces, acts_build_sound_states, empty_is_sound, legal_journals_keep_sound,
    sound_states_are_linked, valid_acts_keep_sound,
};
