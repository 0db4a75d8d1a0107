//! Tests of `work_gen`: whole scripts, line by line, as another program writes them. They stand by
//! themselves, so that a change of a test proves nothing above `work_gen` again.
#![tactic(auto)]

#[cfg(test)]
mod script_tests;
