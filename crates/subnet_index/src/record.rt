// What a record of an interface has of another one's addresses.
ghost use Rattle.std.specs.Prelude.{◌≡◌};
ghost use Rattle.std.specs.Option.{option_copied};
ghost use Rattle.subnet_index.specs.SubnetList.{has_addr, keeps_addr, keeps_subnet};

use net_types::{Addr, Vrf};
use switch_model::IntfRec;

/// Whether the record, where there is one, is in the VRF and has that very address.
pub(crate) fn has_addr(rec: Option<&IntfRec>, vrf: Vrf, addr: &Addr) -> bool
    ensures { result ≡ has_addr (option_copied rec.entry) vrf addr.now }
{
    match rec {
        Some(rec) => rec.vrf == vrf && rec.addrs.has_addr(addr),
        None => false,
    }
}

/// Whether the record, where there is one, is in the VRF and has the address's subnet.
pub(crate) fn keeps_subnet(rec: Option<&IntfRec>, vrf: Vrf, addr: &Addr) -> bool
    ensures { result ≡ keeps_subnet (option_copied rec.entry) vrf addr.now }
{
    match rec {
        Some(rec) => rec.vrf == vrf && keeps(rec, addr),
        None => false,
    }
}

// An address that stays is found before the subnets are compared.
fn keeps(rec: &IntfRec, addr: &Addr) -> bool
    ensures { result ≡ keeps_addr rec.now.addrs addr.now }
{
    rec.addrs.has_addr(addr) || rec.addrs.has_subnet(&addr.subnet())
}
