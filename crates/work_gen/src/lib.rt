//! Generated work: a script whose updates are drawn from a seed.
//!
//! `specs/Draws.antt` says what each draw gives, `specs/Base.antt` what the switch begins with, and
//! `specs/Generated.antt` which script a seed gives. The draws are those of a published generator,
//! so the same seed gives the same script everywhere.
#![tactic(auto)]

mod base;
mod draws;
mod hops;
mod script;
mod values;

pub use script::make_script;
