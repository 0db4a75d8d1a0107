// Why tables make no chip.

/// Why tables make no chip.
#[derive(Clone, Copy, Debug, PartialEq, Eq, thiserror::Error)]
pub enum RowsFault {
    /// They break a rule of the chip's tables.
    #[error("the rows are no chip's tables")]
    BadRows,
    #[error("memory was refused")]
    NoMemory,
}
