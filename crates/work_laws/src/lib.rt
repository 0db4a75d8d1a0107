//! Generated work: what its summary says, and that its base is one that a switch can begin with.
//!
//! `specs/Work.antt` says how the lines that a seed gives are run, `specs/Summary.antt` what the summary
//! says of that, and `specs/BaseLaws.antt` that the base is valid and its rows fit.
#![tactic(auto)]
