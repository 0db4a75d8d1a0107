// Values with a byte between two.
ghost use Rattle.std.specs.Prelude.{◌≡◌, ◌<◌, ◌≤◌, ◌^◌, IfSome};
ghost use Rattle.ip_text.specs.Numerals.{IsRow};
ghost use Rattle.ip_text.specs.Parts.{IsPart, between};
ghost use Rattle.ip_text.specs.Scans.{Scans};

use crate::digits::{after, hex_digits, number};

/// What stands in a row: two hexadecimal digits of a MAC address, or a number of a dotted quad.
#[derive(Clone, Copy)]
pub(crate) enum Part {
    Pair,
    Octet,
}

fn between(part: Part) -> u8
    ensures { result ≡ between part }
{
    match part {
        Part::Pair => b':',
        Part::Octet => b'.',
    }
}

fn read_part(bytes: &[u8], part: Part) -> (Option<u64>, &[u8])
    ensures scan { Scans (IsPart part) bytes.entry.now result.0 result.1.now }
    ensures range { IfSome result.0 (λ v. v < 256) }
{
    match part {
        Part::Pair => hex_digits(bytes, 2, 2),
        Part::Octet => number(bytes, 0, 255),
    }
}

/// So many values, as one number with the first one highest, and what follows them.
pub(crate) fn read_row(bytes: &[u8], part: Part, count: usize) -> (Option<u64>, &[u8])
    requires some { 1 ≤ count }
    requires few { count ≤ 7 }
    ensures scan { Scans (IsRow (IsPart part) (between part) 256 count) bytes.entry.now result.0 result.1.now }
    ensures range { IfSome result.0 (λ v. v < 256 ^ count) }
{
    let mut rest = bytes;
    let mut value = 0u64;
    let mut done = 0usize;
    while done + 1 < count {
        let (item, more) = read_part(rest, part);
        let Some(item) = item else {
            return (None, more);
        };
        let Some(next) = after(more, between(part)) else {
            return (None, more);
        };
        value = 256 * value + item;
        done += 1;
        rest = next;
    }
    let (item, more) = read_part(rest, part);
    match item {
        Some(item) => (Some(256 * value + item), more),
        None => (None, more),
    }
}
