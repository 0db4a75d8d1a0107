//! Laws of journals: how runs of submissions are settled, which journals may come of it, and what
//! callers may do with them. Each is the contract of a function that does nothing.
#![tactic(auto)]

mod ends;
mod journals;
mod legal;
mod runs;
mod settle;
mod world;

pub use ends::{round_ends_are_beginnings, what_stood_at_an_end_stays};
pub use journals::{
    each_submission_is_settled, journals_come_step_by_step, what_journals_hold,
    what_journals_rest_on,
};
pub use legal::{
    legal_journals_are_sound_throughout, one_round_more, right_rounds_keep_legal,
    runs_are_settled_legally,
};
pub use runs::runs_are_runs;
pub use settle::{
    right_rounds_are_given, rounds_of_one_tell_each_case, runs_are_settled_right,
    what_is_not_accepted_changes_nothing,
};
pub use world::{
    any_steps_lead_to_a_true_world, callers_are_told_in_order, callers_submit_in_their_order,
    each_journal_is_some_worlds,
};
