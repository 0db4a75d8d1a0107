// A key of 192 bits, seen as one number.
ghost use Rattle.std.specs.Prelude.{◌≡◌, ◌+◌, ◌*◌, ◌/◌, ◌%◌, ◌^◌, ◌<◌, ◌≤◌, ◌==◌, nat_lt};
ghost use Rattle.node_key.specs.Place.{floor};

use std::marker::Model;

/// A string of 192 bits, ordered by its upper 64 bits and then by its lower 128. Contracts see it as
/// one number.
#[derive(Clone, Copy, Debug)]
pub struct NodeKey {
    high: u64,
    middle: u64,
    low: u64,
}

impl Model for NodeKey {
    ghost use Rattle.std.specs.Prelude.{ℕ};
    ghost use Rattle.std.proofs.Common.{ap};
    ghost use Rattle.node_key.specs.Key.{number, WordsFit, words, words_of_number};

    ghost Value = { ℕ };

    ghost view = { λ k. number k.high k.middle k.low };

    ghost invariant = { λ k. WordsFit k.middle k.low };

    ghost inverse = { λ n. record { high = (words n).0; middle = (words n).1; low = (words n).2 } };

    ghost inverse_ok = { λ a h. ap (λ w. record { high = w.0; middle = w.1; low = w.2 }) (words_of_number a.high a.middle a.low h) };
}

impl NodeKey {
    /// The key with these upper 64 and lower 128 bits.
    pub fn new(hi: u64, lo: u128) -> NodeKey
        ensures { result ≡ hi * 2 ^ 128 + lo }
    {
        NodeKey {
            high: hi,
            middle: (lo >> 64) as u64,
            low: (lo % (1 << 64)) as u64,
        }
    }

    /// The upper 64 bits.
    pub fn hi(&self) -> u64
        ensures { result ≡ self.now / 2 ^ 128 }
    {
        self.high
    }

    /// The lower 128 bits.
    pub fn lo(&self) -> u128
        ensures { result ≡ self.now % 2 ^ 128 }
    {
        u128::from(self.middle) * (1 << 64) + u128::from(self.low)
    }

    pub fn is_before(&self, other: &NodeKey) -> bool
        ensures { result ≡ nat_lt self.now other.now }
    {
        if self.high != other.high {
            return self.high < other.high;
        }
        if self.middle != other.middle {
            return self.middle < other.middle;
        }
        self.low < other.low
    }

    pub fn is_same(&self, other: &NodeKey) -> bool
        ensures { result ≡ (self.now == other.now) }
    {
        self.low == other.low && self.middle == other.middle && self.high == other.high
    }

    /// The key with its lowest bits cleared, `width` of them.
    pub fn floor(&self, width: u8) -> NodeKey
        requires { width ≤ 192 }
        ensures { result ≡ floor width self.now }
    {
        if width < 64 {
            let by = u32::from(width);
            return NodeKey {
                high: self.high,
                middle: self.middle,
                low: self.low >> by << by,
            };
        }
        if width < 128 {
            let by = u32::from(width - 64);
            return NodeKey {
                high: self.high,
                middle: self.middle >> by << by,
                low: 0,
            };
        }
        if width < 192 {
            let by = u32::from(width - 128);
            return NodeKey {
                high: self.high >> by << by,
                middle: 0,
                low: 0,
            };
        }
        let _ = &self.high;
        NodeKey {
            high: 0,
            middle: 0,
            low: 0,
        }
    }

    /// A key is below 2 ^ 192.
    pub fn is_bounded(&self)
        ensures { self.now + 1 ≤ 2 ^ 192 }
    {
        let _high = self.high;
        let _middle = self.middle;
        let _low = self.low;
    }
}
