// The answer to one line.
use ip_text::{
    TextFault, print_addr, print_hop, print_ip, print_mac, print_prefix, read_addr, read_hop,
    read_ip, read_mac, read_prefix,
};
use itoa::Buffer;
use net_types::{Hop, Ip, NoMemory, Text};
use std::alloc::Global;

/// Appends a number and a space.
fn push_number(out: &mut Vec<u8>, number: u128) -> Result<(), NoMemory> {
    let mut buffer = Buffer::new();
    out.extend_from_slice(buffer.format(number).as_bytes())?;
    out.push(b' ')?;
    Ok(())
}

/// Appends the family and the number of an ip.
fn push_ip(out: &mut Vec<u8>, ip: Ip) -> Result<(), NoMemory> {
    let family = match ip {
        Ip::V4(_) => b"4 ",
        Ip::V6(_) => b"6 ",
    };
    out.extend_from_slice(family)?;
    push_number(out, ip.number())
}

fn push_intf(out: &mut Vec<u8>, hop: &Hop) -> Result<(), NoMemory> {
    match hop.intf {
        Some(intf) => push_number(out, u128::from(intf.get())),
        None => {
            out.extend_from_slice(b"- ")?;
            Ok(())
        }
    }
}

fn push_fault(out: &mut Vec<u8>, fault: TextFault) -> Result<(), NoMemory> {
    let mut buffer = Buffer::new();
    out.extend_from_slice(b"at ")?;
    out.extend_from_slice(buffer.format(fault.at).as_bytes())?;
    Ok(())
}

fn answer_ip(alloc: Global, out: &mut Vec<u8>, text: &[u8]) -> Result<(), NoMemory> {
    let ip = match read_ip(text) {
        Ok(ip) => ip,
        Err(fault) => return push_fault(out, fault),
    };
    let mut printed = Text::new(alloc);
    print_ip(alloc, &mut printed, &ip)?;
    out.extend_from_slice(b"ok ")?;
    push_ip(out, ip)?;
    out.extend_from_slice(printed.as_slice())?;
    Ok(())
}

fn answer_prefix(alloc: Global, out: &mut Vec<u8>, text: &[u8]) -> Result<(), NoMemory> {
    let prefix = match read_prefix(text) {
        Ok(prefix) => prefix,
        Err(fault) => return push_fault(out, fault),
    };
    let mut printed = Text::new(alloc);
    print_prefix(alloc, &mut printed, &prefix)?;
    out.extend_from_slice(b"ok ")?;
    push_ip(out, prefix.ip())?;
    push_number(out, u128::from(prefix.len()))?;
    out.extend_from_slice(printed.as_slice())?;
    Ok(())
}

fn answer_addr(alloc: Global, out: &mut Vec<u8>, text: &[u8]) -> Result<(), NoMemory> {
    let addr = match read_addr(text) {
        Ok(addr) => addr,
        Err(fault) => return push_fault(out, fault),
    };
    let mut printed = Text::new(alloc);
    print_addr(alloc, &mut printed, &addr)?;
    out.extend_from_slice(b"ok ")?;
    push_ip(out, addr.ip())?;
    push_number(out, u128::from(addr.len()))?;
    out.extend_from_slice(printed.as_slice())?;
    Ok(())
}

fn answer_mac(alloc: Global, out: &mut Vec<u8>, text: &[u8]) -> Result<(), NoMemory> {
    let mac = match read_mac(text) {
        Ok(mac) => mac,
        Err(fault) => return push_fault(out, fault),
    };
    let mut printed = Text::new(alloc);
    print_mac(alloc, &mut printed, &mac)?;
    out.extend_from_slice(b"ok ")?;
    push_number(out, u128::from(mac.get()))?;
    out.extend_from_slice(printed.as_slice())?;
    Ok(())
}

fn answer_hop(alloc: Global, out: &mut Vec<u8>, text: &[u8]) -> Result<(), NoMemory> {
    let hop = match read_hop(text) {
        Ok(hop) => hop,
        Err(fault) => return push_fault(out, fault),
    };
    let mut printed = Text::new(alloc);
    print_hop(alloc, &mut printed, &hop)?;
    out.extend_from_slice(b"ok ")?;
    push_ip(out, hop.ip)?;
    push_intf(out, &hop)?;
    out.extend_from_slice(printed.as_slice())?;
    Ok(())
}

/// Appends the answer to a line: `form?` where no form has that name.
pub fn answer_line(alloc: Global, out: &mut Vec<u8>, line: &[u8]) -> Result<(), NoMemory> {
    match line {
        [b'i', b'p', b' ', text @ ..] => answer_ip(alloc, out, text),
        [b'p', b'r', b'e', b'f', b'i', b'x', b' ', text @ ..] => answer_prefix(alloc, out, text),
        [b'a', b'd', b'd', b'r', b' ', text @ ..] => answer_addr(alloc, out, text),
        [b'm', b'a', b'c', b' ', text @ ..] => answer_mac(alloc, out, text),
        [b'h', b'o', b'p', b' ', text @ ..] => answer_hop(alloc, out, text),
        _ => {
            out.extend_from_slice(b"form?")?;
            Ok(())
        }
    }
}
