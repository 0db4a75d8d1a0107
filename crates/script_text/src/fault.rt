// Why no script was read.
use net_types::NoMemory;
use thiserror::Error;

/// Why no script was read: the first bad line, and what is wrong with it. Lines count from 1,
/// skipped ones included.
#[derive(Clone, Copy, Debug, PartialEq, Eq, Error)]
pub enum ScriptFault {
    /// A byte of the line is neither a space nor a printed sign of ASCII.
    #[error("line {line} has a byte that isn't allowed")]
    Byte { line: u64 },
    /// The word, counted from 0, is the first such that no line that may stand here begins with the
    /// words up to and including it. Where the line only ends too early, it is the number of its
    /// words, and where the script ends before the line of its callers, it is 0 at the line behind
    /// the last one.
    #[error("line {line} is bad at word {word}")]
    Word { line: u64, word: u64 },
    /// Memory was refused.
    #[error("no memory is left")]
    NoMemory,
}

impl From<NoMemory> for ScriptFault {
    ghost use Rattle.std.specs.Prelude.{◌≡◌};
    ghost use Rattle.script_text.specs.declared.fault.ScriptFault.TheVariants.{NoMemory};

    ghost from_gives = { λ _ fault. fault ≡ NoMemory };

    fn from(_: NoMemory) -> Self {
        ScriptFault::NoMemory
    }
}
