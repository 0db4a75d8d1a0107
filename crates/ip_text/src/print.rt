// The public printers.
ghost use Rattle.std.specs.Prelude.{◌≡◌, ◌++◌, [], length, take, OnOk, OnErr};
ghost use Rattle.ip_text.specs.Extends.{Extends};
ghost use Rattle.ip_text.specs.Printed.{ip_text, prefix_text, addr_text, mac_text, hop_text};

use crate::write::{write_addr, write_hop, write_ip, write_mac};
use net_types::{Addr, Hop, Ip, Mac, NoMemory, Prefix, Text};
use std::alloc::Global;
use std::mem;

/// The bytes of the text, which is left empty.
fn bytes_of(alloc: Global, out: &mut Text) -> Vec<u8>
    ensures { result.items ≡ out.old }
{
    mem::replace(out, Text::new(alloc)).into_vec()
}

/// Gives a text its bytes back: after a refusal only the first `count` of them.
fn put_back(
    out: &mut Text,
    bytes: Vec<u8>,
    count: usize,
    written: Result<(), NoMemory>,
) -> Result<(), NoMemory>
    ensures same { result ≡ written }
    ensures ok { OnOk result (out.new ≡ bytes.items) }
    ensures err { OnErr result (out.new ≡ take count bytes.items) }
{
    let mut bytes = bytes;
    if written.is_err() {
        bytes.truncate(count);
    }
    *out = Text::from_vec(bytes);
    written
}

/// Appends the ip in its printed form: an IPv6 address as RFC 5952, section 4, has it, and never
/// with a dotted quad. Where memory is refused, the text is as before.
pub fn print_ip(alloc: Global, out: &mut Text, ip: &Ip) -> Result<(), NoMemory>
    ensures printed { OnOk result (out.new ≡ out.old ++ ip_text ip.now) }
    ensures kept { OnErr result (out.new ≡ out.old) }
{
    let mut bytes = bytes_of(alloc, out);
    let count = bytes.len();
    let written = write_ip(&mut bytes, *ip);
    put_back(out, bytes, count, written)
}

/// Appends the prefix: its ip, `/` and its length. Where memory is refused, the text is as before.
pub fn print_prefix(alloc: Global, out: &mut Text, prefix: &Prefix) -> Result<(), NoMemory>
    ensures printed { OnOk result (out.new ≡ out.old ++ prefix_text prefix.now) }
    ensures kept { OnErr result (out.new ≡ out.old) }
{
    let mut bytes = bytes_of(alloc, out);
    let count = bytes.len();
    let written = write_addr(&mut bytes, prefix.ip(), prefix.len());
    put_back(out, bytes, count, written)
}

/// Appends the address: its ip, `/` and its length. Where memory is refused, the text is as
/// before.
pub fn print_addr(alloc: Global, out: &mut Text, addr: &Addr) -> Result<(), NoMemory>
    ensures printed { OnOk result (out.new ≡ out.old ++ addr_text addr.now) }
    ensures kept { OnErr result (out.new ≡ out.old) }
{
    let mut bytes = bytes_of(alloc, out);
    let count = bytes.len();
    let written = write_addr(&mut bytes, addr.ip(), addr.len());
    put_back(out, bytes, count, written)
}

/// Appends the MAC address: six octets in lower case, with `:` between two. Where memory is
/// refused, the text is as before.
pub fn print_mac(alloc: Global, out: &mut Text, mac: &Mac) -> Result<(), NoMemory>
    ensures printed { OnOk result (out.new ≡ out.old ++ mac_text mac.now) }
    ensures kept { OnErr result (out.new ≡ out.old) }
{
    let mut bytes = bytes_of(alloc, out);
    let count = bytes.len();
    let written = write_mac(&mut bytes, mac.get());
    put_back(out, bytes, count, written)
}

/// Appends the next hop: its ip, and `@` and the interface where it has one. Where memory is
/// refused, the text is as before.
pub fn print_hop(alloc: Global, out: &mut Text, hop: &Hop) -> Result<(), NoMemory>
    ensures printed { OnOk result (out.new ≡ out.old ++ hop_text hop.now) }
    ensures kept { OnErr result (out.new ≡ out.old) }
{
    let mut bytes = bytes_of(alloc, out);
    let count = bytes.len();
    let written = write_hop(&mut bytes, hop);
    put_back(out, bytes, count, written)
}
