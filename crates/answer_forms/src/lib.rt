//! What callers are answered, as definitions: the words of each answer, by the state, its version and
//! the front on which the answer rests.
#![tactic(auto)]
