//! A core of a chip that was left running: the chip's rows are compared with those of a state, and
//! nothing is written to it.
#![tactic(auto)]

mod compared;
mod fault;
mod warm;

pub use fault::WarmFault;
pub use warm::open_warm;
