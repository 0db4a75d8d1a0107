//! Laws of changes of chip rows: what the changes from one list of rows to another are, how many there
//! are, and how they are made of the keys that a change of the state can touch.
//!
//! Each law is the contract of a function without a body: a caller has it by the call.
#![tactic(auto)]

mod between;
mod made;

pub use between::{
    changes_are_counted, changes_lead_to_the_new_rows, changes_of_states_are_closed,
    one_list_has_the_changes,
};
pub use made::{added_rows_are_changes, plain_changes_are_changes, touched_changes_are_changes};
