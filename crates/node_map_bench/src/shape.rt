// Keys as maps of a switch have them.
use node_map::NodeKey;

#[derive(Clone, Copy, Debug)]
pub enum Shape {
    /// IPv4 routes of one VRF with 24 bits each, in no order.
    Routes,
    /// Keys that differ in their first bits.
    Spread,
    /// Keys that count up from 0.
    Consecutive,
}

// A number that looks random, another one for each number.
fn mixed(number: u64) -> u64 {
    let a = (number ^ number >> 33).wrapping_mul(0xff51_afd7_ed55_8ccd);
    let b = (a ^ a >> 33).wrapping_mul(0xc4ce_b9fe_1a85_ec53);
    b ^ b >> 33
}

// From the highest bit: 16 bits of VRF, 1 of family, 128 of address, 8 of length, 3 of client, zeros.
// The 65,536 addresses are 24 bits long, and spread over the 16,777,216 of that length.
fn route(number: u64) -> NodeKey {
    let address = number.wrapping_mul(0x9e_3779) % (1 << 24) << 8;
    let prefix = u128::from(address) << 47 | 24 << 39 | 1 << 36;
    NodeKey::new(1 << 48, prefix)
}

impl Shape {
    /// The key of that number.
    pub fn key(self, number: u64) -> NodeKey {
        match self {
            Shape::Routes => route(number),
            Shape::Spread => NodeKey::new(mixed(number), u128::from(number)),
            Shape::Consecutive => NodeKey::new(0, u128::from(number)),
        }
    }

    /// The order in which keys are met: one that has nothing to do with theirs, but for those that
    /// count up.
    pub fn number(self, step: u64, count: u64) -> u64 {
        match self {
            Shape::Consecutive => step,
            _ => step.wrapping_mul(0x9e37_79b1) % count.max(1),
        }
    }
}
