//! Tests of `work_summary`: whole summaries, with digests that another program computed. They stand
//! by themselves, so that a change of a test proves nothing above `work_summary` again.
#![tactic(auto)]

#[cfg(test)]
mod summary_tests;
