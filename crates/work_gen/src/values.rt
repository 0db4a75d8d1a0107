// Values by number.
ghost use Rattle.std.specs.Prelude.{◌≡◌, ◌≤◌};
ghost use Rattle.net_types.specs.Range.{IsIntf, IsMac, IsPort, IsVlan};
ghost use Rattle.work_gen.specs.Values.{quad, client_of};

use net_types::{Client, Intf, Ip, Mac, Port, Prefix, Vlan, Vrf};

pub(crate) fn vlan(number: u32) -> Vlan
    requires { IsVlan number }
    ensures { result ≡ number }
{
    match Vlan::new(number as u16) {
        Some(vlan) => vlan,
        None => unreachable!(),
    }
}

pub(crate) fn port(number: u32) -> Port
    requires { IsPort number }
    ensures { result ≡ number }
{
    match Port::new(number as u16) {
        Some(port) => port,
        None => unreachable!(),
    }
}

pub(crate) fn intf(number: u32) -> Intf
    requires { IsIntf number }
    ensures { result ≡ number }
{
    match Intf::new(number) {
        Some(intf) => intf,
        None => unreachable!(),
    }
}

pub(crate) fn mac(number: u64) -> Mac
    requires { IsMac number }
    ensures { result ≡ number }
{
    match Mac::new(number) {
        Some(mac) => mac,
        None => unreachable!(),
    }
}

/// The VRF of all generated work, which is 0.
pub(crate) fn only_vrf() -> Vrf
    ensures { result ≡ 0 }
{
    match Vrf::new(0) {
        Some(vrf) => vrf,
        None => unreachable!(),
    }
}

/// The client of a number from 1 to 4.
pub(crate) fn client(number: u32) -> Client
    ensures { result ≡ client_of number }
{
    match number {
        1 => Client::Static,
        2 => Client::Openr,
        3 => Client::Ebgp,
        _ => Client::Ibgp,
    }
}

/// The address that is written `a.b.c.d`.
pub(crate) fn quad(a: u8, b: u8, c: u8, d: u8) -> Ip
    ensures { result ≡ quad a b c d }
{
    let front = u32::from(a) * 256 + u32::from(b);
    Ip::V4((front * 256 + u32::from(c)) * 256 + u32::from(d))
}

/// The prefix `20.b.0.0/16`.
pub(crate) fn far_prefix(b: u8) -> Prefix
    ensures { result ≡ record { ip = quad 20 b 0 0; len = 16 } }
{
    match Prefix::new(quad(20, b, 0, 0), 16) {
        Ok(prefix) => prefix,
        Err(_) => unreachable!(),
    }
}
