//! The edge to the outside: a source of bytes, a sink and a store of named texts, each with a
//! count of its faults, and the moments at which a caller may be held.
#![tactic(auto)]

mod calls;
mod dir_store;
mod faults;
mod gate;
mod mem_sink;
mod mem_source;
mod mem_store;
mod outside;
mod standard;
mod texts;
mod transfer;

pub use dir_store::DirStore;
pub use gate::{Gate, OpenGate};
pub use mem_sink::MemSink;
pub use mem_source::MemSource;
pub use mem_store::MemStore;
pub use outside::{Failed, Sink, Source, Store, StoreFault};
pub use standard::{StdSink, StdSource};
pub use transfer::{ReadFault, read_all, write_all};
