// Texts with an ip in front.
ghost use Rattle.std.specs.Prelude.{◌≡◌, ◌<◌, ◌≤◌, ◌^◌, option_map, IfSome, Some};
ghost use Rattle.net_types.specs.declared.hop.Hop.{Hop};
ghost use Rattle.net_types.specs.Address.{ip_width};
ghost use Rattle.net_types.specs.Cidr.{Cidr};
ghost use Rattle.ip_text.specs.AddressText.{IsIp, IsAddr, IsHop};
ghost use Rattle.ip_text.specs.Scans.{Scans};

use crate::digits::{after, number};
use crate::ipv6::read_ipv6;
use crate::rows::{Part, read_row};
use net_types::{Addr, Hop, Intf, Ip};

/// The IPv4 address of a dotted quad.
fn v4_of(quad: Option<u64>) -> Option<Ip>
    requires { IfSome quad (λ n. n < 2 ^ 32) }
    ensures { result ≡ option_map Ip.V4 quad }
{
    match quad {
        Some(number) => Some(Ip::V4(number as u32)),
        None => None,
    }
}

fn v6_of(number: Option<u128>) -> Option<Ip>
    ensures { result ≡ option_map Ip.V6 number }
{
    match number {
        Some(number) => Some(Ip::V6(number)),
        None => None,
    }
}

/// The ip at the front, of either family, and what follows it. Both readers begin at the front,
/// and the one that goes further decides.
pub(crate) fn scan_ip(bytes: &[u8]) -> (Option<Ip>, &[u8])
    ensures { Scans IsIp bytes.entry.now result.0 result.1.now }
{
    let (quad, quad_rest) = read_row(bytes, Part::Octet, 4);
    let (number, rest) = read_ipv6(bytes);
    if quad_rest.len() < rest.len() {
        return (v4_of(quad), quad_rest);
    }
    (v6_of(number), rest)
}

fn addr_of(ip: Ip, len: Option<u64>) -> Option<Addr>
    requires { IfSome len (λ n. n ≤ ip_width ip) }
    ensures { result ≡ option_map (λ n. let addr : Cidr = record { ip = ip; len = n } in addr) len }
{
    match len {
        Some(len) => Addr::new(ip, len as u8).ok(),
        None => None,
    }
}

/// The ip and the length at the front, and what follows them.
pub(crate) fn scan_addr(bytes: &[u8]) -> (Option<Addr>, &[u8])
    ensures { Scans IsAddr bytes.entry.now result.0 result.1.now }
{
    let (ip, more) = scan_ip(bytes);
    let Some(ip) = ip else {
        return (None, more);
    };
    let Some(next) = after(more, b'/') else {
        return (None, more);
    };
    let (len, rest) = number(next, 0, u64::from(ip.width()));
    (addr_of(ip, len), rest)
}

fn hop_by(ip: Ip, intf: Option<u64>) -> Option<Hop>
    requires { IfSome intf (λ n. (1 ≤ n) × (n ≤ 4294967295)) }
    ensures { result ≡ option_map (λ n. let hop : Hop = record { ip = ip; intf = Some n } in hop) intf }
{
    match intf {
        Some(number) => {
            let intf = Intf::new(number as u32)?;
            Some(Hop {
                ip,
                intf: Some(intf),
            })
        }
        None => None,
    }
}

/// The next hop at the front, and what follows it.
pub(crate) fn scan_hop(bytes: &[u8]) -> (Option<Hop>, &[u8])
    ensures { Scans IsHop bytes.entry.now result.0 result.1.now }
{
    let (ip, more) = scan_ip(bytes);
    let Some(ip) = ip else {
        return (None, more);
    };
    let Some(next) = after(more, b'@') else {
        return (Some(Hop { ip, intf: None }), more);
    };
    let (intf, rest) = number(next, 1, u64::from(u32::MAX));
    (hop_by(ip, intf), rest)
}
