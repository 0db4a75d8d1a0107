//! Next hops followed to their ends with a list of the routes on the way: slow and simple, a
//! yardstick for faster resolvers.
#![tactic(auto)]

mod gather;
mod resolver;

pub use resolver::PlainResolver;
