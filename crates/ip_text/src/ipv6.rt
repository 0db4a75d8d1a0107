// IPv6 texts.
ghost use Rattle.std.specs.Prelude.{◌≡◌, ◌<◌, ◌≤◌, ◌*◌, ◌-◌, ◌^◌, IfSome};
ghost use Rattle.ip_text.specs.Ipv6.{IsIpv6};
ghost use Rattle.ip_text.specs.Scans.{Scans};
ghost use Rattle.ip_text.specs.Unread.{IsBehind, IsLeft, IsHigh};

use crate::digits::{after, hex_digits};
use crate::groups::right_groups;
use crate::rows::{Part, read_row};

/// The groups behind two colons, as one number: at most so many, perhaps none.
fn behind(bytes: &[u8], most: usize) -> (Option<u128>, &[u8])
    requires { most ≤ 7 }
    ensures scan { Scans (IsBehind most) bytes.entry.now result.0 result.1.now }
    ensures range { IfSome result.0 (λ v. v < 65536 ^ most) }
{
    if most == 0 {
        return (Some(0), bytes);
    }
    let (value, rest) = right_groups(bytes, most);
    if rest.len() < bytes.len() {
        (value, rest)
    } else {
        (Some(0), bytes)
    }
}

/// The number with so many zero groups behind it.
fn scaled(before: u128, count: usize) -> u128
    requires { before * 65536 ^ count < 2 ^ 128 }
    ensures { result ≡ before * 65536 ^ count }
{
    let mut value = before;
    for _i in 0..count {
        value *= 65536;
    }
    value
}

/// What stands behind the second of two colons, where `count` groups are left and the groups
/// before spell the number `before`.
fn high(bytes: &[u8], count: usize, before: u128) -> (Option<u128>, &[u8])
    requires some { 1 ≤ count }
    requires few { count ≤ 7 }
    requires small { before < 65536 ^ (8 - count) }
    ensures { Scans (IsHigh count before) bytes.entry.now result.0 result.1.now }
{
    let (low, rest) = behind(bytes, count - 1);
    match low {
        Some(low) => (Some(scaled(before, count) + low), rest),
        None => (None, rest),
    }
}

/// The last of the eight groups, behind those that spell the number `before`.
fn left_one(bytes: &[u8], before: u128) -> (Option<u128>, &[u8])
    requires { before < 65536 ^ 7 }
    ensures { Scans (IsLeft 1 before) bytes.entry.now result.0 result.1.now }
{
    if let Some(next) = after(bytes, b':') {
        return high(next, 1, before);
    }
    let (group, more) = hex_digits(bytes, 1, 4);
    match group {
        Some(group) => (Some(65536 * before + u128::from(group)), more),
        None => (None, more),
    }
}

/// The last two groups, or a dotted quad, behind those that spell the number `before`.
fn left_two(bytes: &[u8], before: u128) -> (Option<u128>, &[u8])
    requires { before < 65536 ^ 6 }
    ensures { Scans (IsLeft 2 before) bytes.entry.now result.0 result.1.now }
{
    if let Some(next) = after(bytes, b':') {
        return high(next, 2, before);
    }
    let (group, more) = hex_digits(bytes, 1, 4);
    let (quad, end) = read_row(bytes, Part::Octet, 4);
    if end.len() < more.len() {
        return match quad {
            Some(quad) => (Some(4294967296 * before + u128::from(quad)), end),
            None => (None, end),
        };
    }
    let Some(group) = group else {
        return (None, more);
    };
    match after(more, b':') {
        Some(next) => left_one(next, 65536 * before + u128::from(group)),
        None => (None, more),
    }
}

/// The seven groups behind the first one and its colon.
fn left_groups(bytes: &[u8], before: u128) -> (Option<u128>, &[u8])
    requires { before < 65536 }
    ensures { Scans (IsLeft 7 before) bytes.entry.now result.0 result.1.now }
{
    let mut rest = bytes;
    let mut value = before;
    let mut count = 7usize;
    while 2 < count {
        if let Some(next) = after(rest, b':') {
            return high(next, count, value);
        }
        let (group, more) = hex_digits(rest, 1, 4);
        let Some(group) = group else {
            return (None, more);
        };
        let Some(next) = after(more, b':') else {
            return (None, more);
        };
        value = 65536 * value + u128::from(group);
        count -= 1;
        rest = next;
    }
    left_two(rest, value)
}

/// The number of an IPv6 text, and what follows it.
pub(crate) fn read_ipv6(bytes: &[u8]) -> (Option<u128>, &[u8])
    ensures { Scans IsIpv6 bytes.entry.now result.0 result.1.now }
{
    if let Some(next) = after(bytes, b':') {
        return match after(next, b':') {
            Some(groups) => behind(groups, 7),
            None => (None, next),
        };
    }
    let (group, more) = hex_digits(bytes, 1, 4);
    let Some(group) = group else {
        return (None, more);
    };
    match after(more, b':') {
        Some(next) => left_groups(next, u128::from(group)),
        None => (None, more),
    }
}
