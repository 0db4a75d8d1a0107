// Why no core was made of a chip that was left running.
use net_types::{NoMemory, Table};
use thiserror::Error;

/// Why no core was made of a chip that was left running.
#[derive(Clone, Copy, Debug, PartialEq, Eq, Error)]
pub enum WarmFault {
    /// The chip's rows in that table, the first such, aren't the state's.
    #[error("the chip's rows differ from the state's")]
    ChipDiffers(Table),
    /// Memory was refused.
    #[error("no memory is left")]
    NoMemory,
}

impl From<NoMemory> for WarmFault {
    ghost use Rattle.std.specs.Prelude.{◌≡◌};
    ghost use Rattle.warm_boot.specs.declared.fault.WarmFault.TheVariants as warm_faults;

    ghost from_gives = { λ _ fault. fault ≡ warm_faults.NoMemory };

    fn from(_: NoMemory) -> WarmFault {
        WarmFault::NoMemory
    }
}
