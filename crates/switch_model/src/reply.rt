// What callers are told.
use crate::verdict::Verdict;
use net_types::{ItemList, Text};

/// The answer to one line of a script. A front is the number of journal entries that the answer
/// rests on.
#[derive(Debug, Drop)]
pub enum Reply {
    /// The update's place in the journal, counted from 0, its verdict and the version after its
    /// round.
    Settled {
        position: u64,
        verdict: Verdict,
        version: u64,
        front: u64,
    },
    /// As many updates as the limit allows were submitted before.
    HistoryFull,
    /// How many outstanding tickets the line settled.
    Settle(u64),
    /// How many updates the line's round settled: 0 where none were pending.
    Pump(u32),
    /// All words of the answer to a question.
    Answer {
        front: u64,
        text: Text,
    },
}

/// Replies, each with the number of its line.
pub type ReplyList = ItemList<(u64, Reply)>;
