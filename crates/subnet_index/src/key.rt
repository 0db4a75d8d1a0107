// Keys of subnets.
ghost use Rattle.std.specs.Prelude.{◌≡◌, ◌==◌, ◌/◌, ◌^◌, [], ◌∷◌};
ghost use Rattle.net_types.specs.Address.{ip_number};
ghost use Rattle.state_keys.specs.Bits.{field, filled};
ghost use Rattle.state_keys.specs.PartKeys.{family};
ghost use Rattle.subnet_index.specs.SubnetKey.{IsSubnet, IsSubnetNumber, subnet_at, subnet_number};

use net_types::{Intf, Prefix, Vrf};
use node_key::NodeKey;
use state_keys::{family, prefix_of, vrf_of};

/// A prefix that an address of an interface lies in, with the interface and its VRF.
#[derive(Clone, Copy, Debug)]
pub struct Subnet {
    pub vrf: Vrf,
    pub prefix: Prefix,
    pub intf: Intf,
}

/// The key of a subnet: 16 bits of VRF, 1 of family, 128 of ip, 8 of length, 32 of interface.
pub fn subnet_key(subnet: &Subnet) -> NodeKey
    ensures key { result ≡ subnet_number subnet.now }
    ensures range { IsSubnet subnet.now }
{
    let ip = subnet.prefix.ip().number();
    let vrf = u64::from(subnet.vrf.get()) << 48;
    let family = family(subnet.prefix.ip()) << 47;
    let len = u128::from(subnet.prefix.len()) << 39;
    let intf = u128::from(subnet.intf.get()) << 7;
    NodeKey::new(vrf + family + (ip >> 81) as u64, (ip << 47) + len + intf)
}

/// The subnet whose key it is.
pub fn subnet_at(key: &NodeKey) -> Subnet
    requires { IsSubnetNumber key.now }
    ensures { result ≡ subnet_at key.now }
{
    match Intf::new(((key.lo() >> 7) % (1 << 32)) as u32) {
        Some(intf) => Subnet {
            vrf: vrf_of(key),
            prefix: prefix_of(key),
            intf,
        },
        None => unreachable!(),
    }
}

/// Whether the subnet whose key it is is the interface's.
pub(crate) fn is_of_intf(key: &NodeKey, intf: Intf) -> bool
    ensures { result ≡ (field 153 32 key.now == intf) }
{
    (key.lo() >> 7) % (1 << 32) == u128::from(intf.get())
}

/// Whether both keys have one VRF and one prefix.
pub(crate) fn has_prefix_of(key: &NodeKey, other: &NodeKey) -> bool
    ensures { result ≡ (key.now / 2 ^ 39 == other.now / 2 ^ 39) }
{
    key.hi() == other.hi() && key.lo() >> 39 == other.lo() >> 39
}
