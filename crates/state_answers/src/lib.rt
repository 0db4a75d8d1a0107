//! What a state has for a question.
#![tactic(auto)]

mod finding;

pub use finding::find;
