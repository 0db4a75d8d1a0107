//! Tests of `agent_words`: the words of each command, and words of none. They stand by themselves,
//! so that a change of a test proves nothing above `agent_words` again.
#![tactic(auto)]

#[cfg(test)]
mod word_tests;
