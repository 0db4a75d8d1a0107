// Why a line could not be read.
ghost use Rattle.std.specs.Prelude.{◌≡◌};
ghost use Rattle.script_words.specs.declared.fault.ReadFault.TheVariants.{Memory, Left};

use std::alloc::{AllocError, AllocFailed};
use thiserror::Error;

/// A word that may not stand where it does, or a line that ends too early.
#[derive(Clone, Copy, Debug, PartialEq, Eq, Error)]
#[error("a bad word with {left} words left")]
pub struct BadWord {
    /// How many words are left where the bad one stands, itself included.
    pub left: usize,
}

/// Why a line could not be read, where memory is taken.
#[derive(Clone, Copy, Debug, PartialEq, Eq, Error)]
pub enum ReadFault {
    /// Memory was refused.
    #[error("no memory is left")]
    Memory,
    /// How many words are left where the first bad one stands, itself included.
    #[error("a bad word with {0} words left")]
    Left(usize),
}

impl From<BadWord> for ReadFault {
    ghost from_gives = { λ bad fault. fault ≡ Left bad.left };

    fn from(bad: BadWord) -> ReadFault {
        ReadFault::Left(bad.left)
    }
}

impl From<AllocError> for ReadFault {
    ghost from_gives = { λ _ fault. fault ≡ Memory };

    fn from(_: AllocError) -> ReadFault {
        ReadFault::Memory
    }
}

impl<T: Drop> From<AllocFailed<T>> for ReadFault {
    ghost from_gives = { λ _ fault. fault ≡ Memory };

    fn from(_: AllocFailed<T>) -> ReadFault {
        ReadFault::Memory
    }
}
