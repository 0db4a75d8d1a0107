//! Laws of one caller: what has been submitted and waits, line by line.
#![tactic(auto)]
