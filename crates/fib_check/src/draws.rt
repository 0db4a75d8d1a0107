// Random updates of routes, interfaces and addresses over a few keys.
use net_types::{Addr, Client, Hop, HopList, Intf, Ip, Mac, NoMemory, Prefix, Vlan, Vrf};
use std::alloc::Global;
use switch_model::{Act, Update, Via};

/// Numbers that look random (splitmix64).
#[derive(Drop)]
pub struct Draws {
    state: u64,
}

/// The prefixes that routes are drawn of, by their ips and lengths.
pub const PREFIXES: [(u32, u8); 10] = [
    (0, 0),
    (0x0a00_0000, 8),
    (0x0a00_0000, 24),
    (0x0a00_0100, 24),
    (0x1400_0000, 8),
    (0x1401_0000, 16),
    (0x1e00_0000, 8),
    (0x1e00_0000, 9),
    (0x2800_0000, 8),
    (0x2800_0001, 32),
];

/// The ips that hops are drawn of.
const HOPS: [u32; 8] = [
    0x0a00_0002,
    0x0a00_0009,
    0x0a00_0102,
    0x1400_0001,
    0x1401_0001,
    0x1e00_0001,
    0x2800_0001,
    0x3200_0001,
];

impl Draws {
    pub fn of(state: u64) -> Draws {
        Draws { state }
    }

    fn next(&mut self) -> u64 {
        self.state = self.state.wrapping_add(0x9e37_79b9_7f4a_7c15);
        let a = (self.state ^ self.state >> 30).wrapping_mul(0xbf58_476d_1ce4_e5b9);
        let b = (a ^ a >> 27).wrapping_mul(0x94d0_49bb_1331_11eb);
        b ^ b >> 31
    }

    fn below(&mut self, bound: u64) -> u64 {
        match bound {
            0 => 0,
            _ => self.next() % bound,
        }
    }

    fn vrf(&mut self) -> Option<Vrf> {
        match self.below(2) {
            0 => Vrf::new(0),
            _ => Vrf::new(1),
        }
    }

    fn prefix(&mut self) -> Option<Prefix> {
        prefix_at(self.below(10) as usize)
    }

    fn intf(&mut self) -> Option<Intf> {
        match self.below(3) {
            0 => Intf::new(1),
            1 => Intf::new(2),
            _ => Intf::new(3),
        }
    }

    fn client(&mut self) -> Client {
        match self.below(4) {
            0 => Client::Static,
            1 => Client::Openr,
            2 => Client::Ebgp,
            _ => Client::Ibgp,
        }
    }

    fn hop(&mut self) -> Hop {
        let ip = HOPS[(self.below(8) % 8) as usize];
        let intf = match self.below(4) {
            0 => self.intf(),
            _ => None,
        };
        Hop {
            ip: Ip::V4(ip),
            intf,
        }
    }

    fn via(&mut self, alloc: Global) -> Result<Via, NoMemory> {
        match self.below(8) {
            0 => Ok(Via::ToCpu),
            1 => Ok(Via::Discard),
            _ => self.via_hops(alloc),
        }
    }

    fn via_hops(&mut self, alloc: Global) -> Result<Via, NoMemory> {
        let first = self.hop();
        let second = self.hop();
        let hops = [first, second].to_vec(alloc)?;
        Ok(Via::Hops(HopList::from_vec(hops)))
    }

    fn act(&mut self, alloc: Global) -> Result<Option<Act>, NoMemory> {
        match self.below(12) {
            0 => Ok(self.intf_del()),
            1 => Ok(self.intf_add()),
            2 => Ok(self.addr_add()),
            3 => Ok(self.addr_del()),
            4 | 5 | 6 => Ok(self.route_del()),
            _ => self.route_set(alloc),
        }
    }

    fn route_set(&mut self, alloc: Global) -> Result<Option<Act>, NoMemory> {
        match (self.vrf(), self.prefix()) {
            (Some(vrf), Some(prefix)) => {
                let client = self.client();
                let via = self.via(alloc)?;
                Ok(Some(Act::RouteSet {
                    vrf,
                    prefix,
                    client,
                    via,
                }))
            }
            _ => Ok(None),
        }
    }

    fn route_del(&mut self) -> Option<Act> {
        let vrf = self.vrf()?;
        let prefix = self.prefix()?;
        let client = self.client();
        Some(Act::RouteDel {
            vrf,
            prefix,
            client,
        })
    }

    fn intf_add(&mut self) -> Option<Act> {
        let intf = self.intf()?;
        let vlan = self.vlan()?;
        let vrf = self.vrf()?;
        let mac = Mac::new(0x0200_0000_0001)?;
        Some(Act::IntfAdd {
            intf,
            vlan,
            vrf,
            mac,
        })
    }

    fn vlan(&mut self) -> Option<Vlan> {
        match self.below(3) {
            0 => Vlan::new(10),
            1 => Vlan::new(11),
            _ => Vlan::new(12),
        }
    }

    fn intf_del(&mut self) -> Option<Act> {
        let intf = self.intf()?;
        Some(Act::IntfDel { intf })
    }

    fn addr_add(&mut self) -> Option<Act> {
        let intf = self.intf()?;
        let addr = self.addr()?;
        Some(Act::AddrAdd { intf, addr })
    }

    fn addr_del(&mut self) -> Option<Act> {
        let intf = self.intf()?;
        let addr = self.addr()?;
        Some(Act::AddrDel { intf, addr })
    }

    /// 10.0.0.1/24 or 10.0.1.1/24
    fn addr(&mut self) -> Option<Addr> {
        let ip = match self.below(2) {
            0 => 0x0a00_0001,
            _ => 0x0a00_0101,
        };
        Addr::new(Ip::V4(ip), 24).ok()
    }
}

/// The prefix at that place of the list.
pub fn prefix_at(place: usize) -> Option<Prefix> {
    let (ip, len) = *PREFIXES.get(place)?;
    Prefix::new(Ip::V4(ip), len).ok()
}

/// A random update: none where a draw was out of a range.
pub fn draw_update(alloc: Global, draws: &mut Draws) -> Result<Option<Update>, NoMemory> {
    match draws.act(alloc)? {
        Some(act) => Ok(Some(Update { alone: false, act })),
        None => Ok(None),
    }
}
