//! One caller's agent: a core, what the caller has submitted to it, and what the caller was told.
#![tactic(auto)]

mod agent;
mod answering;
mod desk;
mod jobs;
mod ticket;

pub use agent::SoloAgent;
