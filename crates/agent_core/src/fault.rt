// Why no core was opened.
use net_types::{NoMemory, Table};

/// Why no core was opened.
#[derive(Clone, Copy, Debug, PartialEq, Eq)]
pub enum OpenFault {
    /// The rows of the opening state don't fit that table, the first such.
    Full(Table),
    NoMemory,
}

impl From<NoMemory> for OpenFault {
    ghost use Rattle.std.specs.Prelude.{◌≡◌};
    ghost use Rattle.agent_core.specs.declared.fault.OpenFault.TheVariants as fault;

    ghost from_gives = { λ _ e. e ≡ fault.NoMemory };

    fn from(_: NoMemory) -> OpenFault {
        OpenFault::NoMemory
    }
}
