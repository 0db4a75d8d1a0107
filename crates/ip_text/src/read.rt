// The public readers.
ghost use Rattle.std.specs.Prelude.{◌≡◌, ◌≤◌, ◌<◌, ◌+◌, ◌^◌, ℕ, length, Some, None, IfSome, MatchResult};
ghost use Rattle.std.specs.Result.{result_ok};
ghost use Rattle.ip_text.specs.AddressText.{IsIp, IsPrefix, IsAddr, IsMac, IsHop};
ghost use Rattle.ip_text.specs.Reads.{Reads, ReadsWithin};
ghost use Rattle.ip_text.specs.Values.{ip_of, prefix_of, addr_of, mac_of, hop_of};

use crate::TextFault;
use crate::ip::{scan_addr, scan_hop, scan_ip};
use crate::rows::{Part, read_row};
use net_types::{Addr, Hop, Ip, Mac, Prefix};

/// The value, where it was read and nothing follows it; else where reading stopped.
fn whole<T: Copy>(text: &[u8], value: Option<T>, rest: &[u8]) -> Result<T, TextFault>
    requires { length rest.now ≤ length text.now }
    ensures { MatchResult result
        (λ found. (value ≡ Some found) × (length rest.now ≡ 0))
        (λ fault. (length rest.now ≡ 0 → value ≡ None) × (fault.at + length rest.now ≡ length text.now)) }
{
    match value {
        Some(found) if rest.is_empty() => Ok(found),
        _ => Err(TextFault {
            at: text.len() - rest.len(),
        }),
    }
}

/// The IP address that the text spells: a dotted quad without leading zeros, or an IPv6 text of
/// RFC 4291, section 2.2, of either case and without a zone.
pub fn read_ip(text: &[u8]) -> Result<Ip, TextFault>
    ensures reads { Reads IsIp text.now result }
    ensures value { result_ok result ≡ ip_of text.now }
{
    let (ip, rest) = scan_ip(text);
    whole(text, ip, rest)
}

/// The address of an interface that the text spells: an ip, `/` and a length up to its width.
pub fn read_addr(text: &[u8]) -> Result<Addr, TextFault>
    ensures reads { Reads IsAddr text.now result }
    ensures value { result_ok result ≡ addr_of text.now }
{
    let (addr, rest) = scan_addr(text);
    whole(text, addr, rest)
}

/// The prefix that the text spells: the text of an address, with no bit set past the length.
/// Where only such a bit is wrong, the fault is at the end of the text.
pub fn read_prefix(text: &[u8]) -> Result<Prefix, TextFault>
    ensures reads { ReadsWithin IsAddr IsPrefix text.now result }
    ensures value { result_ok result ≡ prefix_of text.now }
{
    let addr = match read_addr(text) {
        Ok(addr) => addr,
        Err(fault) => return Err(fault),
    };
    match Prefix::new(addr.ip(), addr.len()) {
        Ok(prefix) => Ok(prefix),
        Err(_) => Err(TextFault { at: text.len() }),
    }
}

fn mac_of(number: Option<u64>) -> Option<Mac>
    requires { IfSome number (λ n. n < 2 ^ 48) }
    ensures { result ≡ number }
{
    match number {
        Some(number) => Mac::new(number),
        None => None,
    }
}

/// The MAC address that the text spells: six pairs of hexadecimal digits of either case, with `:`
/// between two. Every number of 48 bits has such a text.
pub fn read_mac(text: &[u8]) -> Result<Mac, TextFault>
    ensures reads { Reads IsMac text.now result }
    ensures value { result_ok result ≡ mac_of text.now }
{
    let (number, rest) = read_row(text, Part::Pair, 6);
    whole(text, mac_of(number), rest)
}

/// The next hop that the text spells: an ip, or an ip, `@` and the number of an interface.
pub fn read_hop(text: &[u8]) -> Result<Hop, TextFault>
    ensures reads { Reads IsHop text.now result }
    ensures value { result_ok result ≡ hop_of text.now }
{
    let (hop, rest) = scan_hop(text);
    whole(text, hop, rest)
}
