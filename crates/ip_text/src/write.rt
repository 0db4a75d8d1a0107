// Writers of the parts of a text. Where memory is refused, what was there before is still in front.
ghost use Rattle.std.specs.Prelude.{◌≡◌, ◌<◌, ◌^◌, ◌++◌, [], ◌∷◌, false, OnOk, OnErr};
ghost use Rattle.std.specs.Fmt.{decimal, digit_glyph};
ghost use Rattle.net_types.specs.Cidr.{Cidr};
ghost use Rattle.ip_text.specs.Extends.{Extends};
ghost use Rattle.ip_text.specs.Rows.{joint, octet_text, behind, row_text};
ghost use Rattle.ip_text.specs.Printed.{ip_text, addr_text, mac_text, intf_text, hop_text, pair_text, group_text, groups_text, compressed_text, longest_run, places};

use crate::runs::longest_run;
use net_types::{Hop, Intf, Ip, NoMemory};

/// How octets are written: as the pairs of a MAC address, or as the numbers of a dotted quad.
#[derive(Clone, Copy)]
pub(crate) enum Style {
    Pairs,
    Numbers,
}

/// The byte between two octets.
fn joint(style: Style) -> u8
    ensures { result ≡ joint style }
{
    match style {
        Style::Pairs => b':',
        Style::Numbers => b'.',
    }
}

/// A digit below 16, in lower case.
fn glyph(digit: u8) -> u8
    requires { digit < 16 }
    ensures { result ≡ digit_glyph false digit }
{
    if digit < 10 {
        b'0' + digit
    } else {
        b'a' + (digit - 10)
    }
}

/// A byte.
fn write_byte(text: &mut Vec<u8>, byte: u8) -> Result<(), NoMemory>
    ensures ok { OnOk result (text.new.items ≡ text.old.items ++ byte ∷ []) }
    ensures err { OnErr result (Extends text.old.items text.new.items) }
{
    text.push(byte)?;
    Ok(())
}

/// A number in decimal digits, without zeros before it.
pub(crate) fn write_decimal(text: &mut Vec<u8>, number: u32) -> Result<(), NoMemory>
    ensures ok { OnOk result (text.new.items ≡ text.old.items ++ decimal number) }
    ensures err { OnErr result (Extends text.old.items text.new.items) }
{
    if number < 10 {
        return write_byte(text, b'0' + number as u8);
    }
    write_decimal(text, number / 10)?;
    write_byte(text, b'0' + (number % 10) as u8)
}

/// A group in hexadecimal digits of lower case, without zeros before it.
fn write_group(text: &mut Vec<u8>, group: u16) -> Result<(), NoMemory>
    ensures ok { OnOk result (text.new.items ≡ text.old.items ++ group_text group) }
    ensures err { OnErr result (Extends text.old.items text.new.items) }
{
    if group < 16 {
        return write_byte(text, glyph(group as u8));
    }
    write_group(text, group / 16)?;
    write_byte(text, glyph((group % 16) as u8))
}

fn write_pair(text: &mut Vec<u8>, octet: u8) -> Result<(), NoMemory>
    ensures ok { OnOk result (text.new.items ≡ text.old.items ++ pair_text octet) }
    ensures err { OnErr result (Extends text.old.items text.new.items) }
{
    write_byte(text, glyph(octet / 16))?;
    write_byte(text, glyph(octet % 16))
}

fn write_octet(text: &mut Vec<u8>, style: Style, octet: u8) -> Result<(), NoMemory>
    ensures ok { OnOk result (text.new.items ≡ text.old.items ++ octet_text style octet) }
    ensures err { OnErr result (Extends text.old.items text.new.items) }
{
    match style {
        Style::Pairs => write_pair(text, octet),
        Style::Numbers => write_decimal(text, u32::from(octet)),
    }
}

/// An octet, behind the byte between two where one stands before it.
fn write_next_octet(
    text: &mut Vec<u8>,
    style: Style,
    follows: bool,
    octet: u8,
) -> Result<(), NoMemory>
    ensures ok { OnOk result (text.new.items ≡ text.old.items ++ behind (joint style) follows (octet_text style octet)) }
    ensures err { OnErr result (Extends text.old.items text.new.items) }
{
    if !follows {
        return write_octet(text, style, octet);
    }
    write_byte(text, joint(style))?;
    write_octet(text, style, octet)
}

fn write_octets(text: &mut Vec<u8>, style: Style, octets: &[u8]) -> Result<(), NoMemory>
    ensures ok { OnOk result (text.new.items ≡ text.old.items ++ row_text (joint style) (octet_text style) octets.now) }
    ensures err { OnErr result (Extends text.old.items text.new.items) }
{
    for (at, octet) in octets.iter().enumerate() {
        write_next_octet(text, style, at > 0, *octet)?;
    }
    Ok(())
}

/// A group, behind a colon where one stands before it.
fn write_next_group(text: &mut Vec<u8>, follows: bool, group: u16) -> Result<(), NoMemory>
    ensures ok { OnOk result (text.new.items ≡ text.old.items ++ behind 58 follows (group_text group)) }
    ensures err { OnErr result (Extends text.old.items text.new.items) }
{
    if !follows {
        return write_group(text, group);
    }
    write_byte(text, b':')?;
    write_group(text, group)
}

fn write_groups(text: &mut Vec<u8>, groups: &[u16]) -> Result<(), NoMemory>
    ensures ok { OnOk result (text.new.items ≡ text.old.items ++ groups_text groups.now) }
    ensures err { OnErr result (Extends text.old.items text.new.items) }
{
    for (at, group) in groups.iter().enumerate() {
        write_next_group(text, at > 0, *group)?;
    }
    Ok(())
}

/// A single zero group is written out (RFC 5952, section 4.2.2).
const SHORTEST_RUN: usize = 2;

/// Groups, the longest run of zero groups as two colons.
fn write_compressed(text: &mut Vec<u8>, groups: &[u16]) -> Result<(), NoMemory>
    ensures ok { OnOk result (text.new.items ≡ text.old.items ++ compressed_text groups.now (longest_run groups.now)) }
    ensures err { OnErr result (Extends text.old.items text.new.items) }
{
    let (start, count) = longest_run(groups);
    if count < SHORTEST_RUN {
        return write_groups(text, groups);
    }
    write_groups(text, &groups[..start])?;
    write_byte(text, b':')?;
    write_byte(text, b':')?;
    write_groups(text, &groups[start + count..])
}

/// The octets of an IPv4 address.
fn quad_octets(number: u32) -> [u8; 4]
    ensures { result ≡ places 256 4 number }
{
    [
        (number >> 24) as u8,
        ((number >> 16) % 256) as u8,
        ((number >> 8) % 256) as u8,
        (number % 256) as u8,
    ]
}

/// The octets of a MAC address.
fn mac_octets(number: u64) -> [u8; 6]
    requires { number < 2 ^ 48 }
    ensures { result ≡ places 256 6 number }
{
    [
        (number >> 40) as u8,
        ((number >> 32) % 256) as u8,
        ((number >> 24) % 256) as u8,
        ((number >> 16) % 256) as u8,
        ((number >> 8) % 256) as u8,
        (number % 256) as u8,
    ]
}

/// The groups of an IPv6 address.
fn groups_of(number: u128) -> [u16; 8]
    ensures { result ≡ places 65536 8 number }
{
    [
        (number >> 112) as u16,
        ((number >> 96) % 65536) as u16,
        ((number >> 80) % 65536) as u16,
        ((number >> 64) % 65536) as u16,
        ((number >> 48) % 65536) as u16,
        ((number >> 32) % 65536) as u16,
        ((number >> 16) % 65536) as u16,
        (number % 65536) as u16,
    ]
}

pub(crate) fn write_ip(text: &mut Vec<u8>, ip: Ip) -> Result<(), NoMemory>
    ensures ok { OnOk result (text.new.items ≡ text.old.items ++ ip_text ip) }
    ensures err { OnErr result (Extends text.old.items text.new.items) }
{
    match ip {
        Ip::V4(number) => write_octets(text, Style::Numbers, &quad_octets(number)),
        Ip::V6(number) => write_compressed(text, &groups_of(number)),
    }
}

/// The ip, a slash and the length.
pub(crate) fn write_addr(text: &mut Vec<u8>, ip: Ip, len: u8) -> Result<(), NoMemory>
    ensures ok { let addr : Cidr = record { ip = ip; len = len } in OnOk result (text.new.items ≡ text.old.items ++ addr_text addr) }
    ensures err { OnErr result (Extends text.old.items text.new.items) }
{
    write_ip(text, ip)?;
    write_byte(text, b'/')?;
    write_decimal(text, u32::from(len))
}

pub(crate) fn write_mac(text: &mut Vec<u8>, number: u64) -> Result<(), NoMemory>
    requires { number < 2 ^ 48 }
    ensures ok { OnOk result (text.new.items ≡ text.old.items ++ mac_text number) }
    ensures err { OnErr result (Extends text.old.items text.new.items) }
{
    write_octets(text, Style::Pairs, &mac_octets(number))
}

/// Nothing, or an at sign and the interface.
fn write_intf(text: &mut Vec<u8>, intf: Option<Intf>) -> Result<(), NoMemory>
    ensures ok { OnOk result (text.new.items ≡ text.old.items ++ intf_text intf) }
    ensures err { OnErr result (Extends text.old.items text.new.items) }
{
    match intf {
        Some(intf) => {
            write_byte(text, b'@')?;
            write_decimal(text, intf.get())
        }
        None => Ok(()),
    }
}

pub(crate) fn write_hop(text: &mut Vec<u8>, hop: &Hop) -> Result<(), NoMemory>
    ensures ok { OnOk result (text.new.items ≡ text.old.items ++ hop_text hop.now) }
    ensures err { OnErr result (Extends text.old.items text.new.items) }
{
    write_ip(text, hop.ip)?;
    write_intf(text, hop.intf)
}
