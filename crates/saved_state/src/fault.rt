// Why a saved text isn't read.
use net_types::NoMemory;
use switch_model::Reason;

/// Why a saved text isn't read: the first test that fails.
#[derive(Clone, Copy, Debug, PartialEq, Eq)]
pub enum SavedFault {
    /// The bytes are no text of JSON.
    NotJson,
    /// The value isn't of the form of a saved text.
    BadShape,
    /// The digest isn't that of the body.
    BadDigest,
    /// An act that builds the state is invalid, and the first one is for this reason.
    BadState(Reason),
    NoMemory,
}

impl From<NoMemory> for SavedFault {
    ghost use Rattle.std.specs.Prelude.{◌≡◌};
    ghost use Rattle.saved_state.specs.declared.fault.SavedFault.TheVariants as fault;

    ghost from_gives = { λ _ e. e ≡ fault.NoMemory };

    fn from(_: NoMemory) -> SavedFault {
        SavedFault::NoMemory
    }
}
