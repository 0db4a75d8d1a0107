// The mark of what a forge made.
ghost use Rattle.std.specs.Prelude.{◌≡◌};

use std::marker::Model;

/// The version of the forge that made what carries it, seen as that number. It has no `Clone` and no
/// public fields, and only a forge makes one, of its own version: so what is made once more carries
/// the version at which that was done.
#[derive(Debug, Drop)]
pub struct Stamp {
    version: u64,
}

impl Model for Stamp {
    ghost use Rattle.std.specs.Prelude.{ℕ};

    ghost Value = { ℕ };

    ghost view = { λ s. s.version };
}

impl Stamp {
    // Only a forge calls this.
    pub(crate) fn new(version: u64) -> Stamp
        ensures { result ≡ version }
    {
        Stamp { version }
    }

    /// The version of the forge that made it.
    pub fn version(&self) -> u64
        ensures { result ≡ self.now }
    {
        self.version
    }
}
