// The digest of lines that are taken one by one.
ghost use Rattle.std.specs.Prelude.{◌≡◌, ◌++◌, [], ℕ, List, IfOk, length, string_bytes};
ghost use Rattle.work_summary.specs.Digest.{HasTaken, hex_digest};

use net_types::NoMemory;
use sha2::{Digest, Sha256};
use std::alloc::Global;

/// The SHA-256 (FIPS 180-4) of lines one after another, which keeps none of their text. Contracts
/// speak of the bytes that it has taken.
#[derive(Drop)]
pub struct LineDigest {
    hasher: Sha256,
}

impl LineDigest {
    /// A digest that has taken nothing.
    pub fn new() -> Self
        ensures { HasTaken result [] }
    {
        LineDigest {
            hasher: Sha256::new(),
        }
    }

    /// Takes a line, or several of them, as the bytes stand: a line feed is taken where it is given.
    pub fn add(&mut self, line: &[u8])
        ensures { (taken : List ℕ) → HasTaken self.old taken → HasTaken self.new (taken ++ line.now) }
    {
        self.hasher.update(line);
    }

    /// The digest of all that was taken, as 64 hexadecimal digits in lower case.
    pub fn finish(self, alloc: Global) -> Result<String, NoMemory>
        ensures digest { (taken : List ℕ) → HasTaken self taken
            → IfOk result (λ text. string_bytes text ≡ hex_digest taken) }
    {
        let digest = self.hasher.finalize();
        hex::encode(alloc, digest)
    }
}
