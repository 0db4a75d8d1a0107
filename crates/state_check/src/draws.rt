// Small numbers, keys and addresses, the same in each run.
ghost use Rattle.std.specs.Prelude.{◌<◌};

use net_types::{Addr, Intf, Ip, Mac, Port, Prefix, Vlan, Vrf};

// Lengths of addresses, so that many prefixes stand within one another.
const LENGTHS_OF_V4: [u8; 8] = [0, 8, 16, 22, 24, 26, 30, 32];

const LENGTHS_OF_V6: [u8; 8] = [0, 10, 32, 47, 48, 64, 127, 128];

/// Draws by a linear congruence.
#[derive(Clone, Copy, Debug)]
pub struct Draws {
    seed: u64,
}

impl Draws {
    pub fn of(seed: u64) -> Draws {
        Draws { seed }
    }

    /// A number below the count.
    pub fn below(&mut self, count: u32) -> u32
        requires { 0 < count }
        ensures { result < count }
    {
        let seed = self.seed.wrapping_mul(6_364_136_223_846_793_005);
        self.seed = seed.wrapping_add(1_442_695_040_888_963_407);
        (self.seed >> 33) as u32 % count
    }

    pub fn vlan(&mut self) -> Option<Vlan> {
        Vlan::new(10 + self.below(6) as u16)
    }

    pub fn port(&mut self) -> Option<Port> {
        Port::new(1 + self.below(5) as u16)
    }

    pub fn intf(&mut self) -> Option<Intf> {
        Intf::new(1 + self.below(7))
    }

    pub fn vrf(&mut self) -> Option<Vrf> {
        Vrf::new(self.below(2) as u16)
    }

    pub fn mac(&mut self) -> Option<Mac> {
        Mac::new(0x0200_0000_0000 + u64::from(self.below(4)))
    }

    /// One of 192 addresses of 10.0.0.0/15.
    pub fn v4(&mut self) -> u32 {
        let high = self.below(2) << 16;
        let middle = self.below(8) << 8;
        0x0a00_0000 + high + middle + (self.below(4) << 6) + self.below(3)
    }

    /// A link-local address, or one of 2001:db8::/32.
    pub fn v6(&mut self) -> u128 {
        let low = u128::from(self.below(3));
        match self.below(4) {
            0 => (0xfe80 << 112) + low,
            n => (0x2001_0db8 << 96) + (u128::from(n) << 79) + low,
        }
    }

    pub fn ip(&mut self) -> Ip {
        if self.below(3) == 0 {
            Ip::V6(self.v6())
        } else {
            Ip::V4(self.v4())
        }
    }

    pub fn addr(&mut self) -> Option<Addr> {
        let ip = self.ip();
        let place = self.below(8) as usize;
        let len = match ip {
            Ip::V4(_) => LENGTHS_OF_V4[place],
            Ip::V6(_) => LENGTHS_OF_V6[place],
        };
        Addr::new(ip, len).ok()
    }

    pub fn prefix(&mut self) -> Option<Prefix> {
        match self.addr() {
            Some(addr) => Some(addr.subnet()),
            None => None,
        }
    }
}
