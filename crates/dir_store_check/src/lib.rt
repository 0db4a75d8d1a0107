//! Tests of a store over the files of a folder, on a real one. They stand by themselves, so that a
//! change of a test proves nothing above `io_edge` again.
#![tactic(auto)]

#[cfg(test)]
mod folder_tests;
