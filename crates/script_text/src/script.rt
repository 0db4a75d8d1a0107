// A script that was read.
use net_types::{Caps, ItemList, Name};
use switch_model::{Act, Query, Update};

/// What a run starts on.
#[derive(Debug, Drop)]
pub enum Start {
    /// An empty switch, with the capacities of its chip's tables.
    Cold(Caps),
    /// What was kept under that name.
    Warm(Name),
}

/// What a caller does in a line.
#[derive(Debug, Drop)]
pub enum Job {
    /// Submits an update. One that is queued is left to a later round, the others are settled at
    /// once.
    Submit { queue: bool, update: Update },
    /// Has all of its outstanding updates settled.
    Settle,
    /// Has one round run.
    Pump,
    /// Asks how far the journal has come.
    Peek,
    /// Asks for the chip's tables.
    Tables,
    /// Asks about the state.
    Show(Query),
}

/// A line of a phase: its number in the script, its caller, and what the caller does.
#[derive(Debug, Drop)]
pub struct Line {
    pub line: u64,
    pub caller: u32,
    pub job: Job,
}

/// The lines of a phase, in the order of the script.
pub type LineList = ItemList<Line>;

/// Phases, one after another. The callers of a phase go on side by side.
pub type PhaseList = ItemList<LineList>;

/// Acts that the empty switch is filled with, each with the number of its line.
pub type BaseList = ItemList<(u64, Act)>;

/// A script: what the run starts on, how many updates may be submitted (1 to 1,000,000), how many
/// callers there are (1 to 16), the base of a cold start, and the phases.
#[derive(Debug, Drop)]
pub struct Script {
    pub start: Start,
    pub limit: u64,
    pub callers: u32,
    pub base: BaseList,
    pub phases: PhaseList,
}
