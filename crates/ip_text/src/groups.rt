// Groups of an IPv6 text behind its two colons.
ghost use Rattle.std.specs.Prelude.{◌≡◌, ◌<◌, ◌≤◌, ◌^◌, IfSome};
ghost use Rattle.ip_text.specs.Scans.{Scans};
ghost use Rattle.ip_text.specs.Unread.{IsRight};

use crate::digits::{after, hex_digits};
use crate::rows::{Part, read_row};

/// At least one group and at most so many, the last two perhaps as a dotted quad.
pub(crate) fn right_groups(bytes: &[u8], most: usize) -> (Option<u128>, &[u8])
    requires some { 1 ≤ most }
    requires few { most ≤ 7 }
    ensures scan { Scans (IsRight most 0) bytes.entry.now result.0 result.1.now }
    ensures range { IfSome result.0 (λ v. v < 65536 ^ most) }
{
    let mut rest = bytes;
    let mut value = 0u128;
    let mut done = 0usize;
    while done + 1 < most {
        let (group, more) = hex_digits(rest, 1, 4);
        let (quad, end) = read_row(rest, Part::Octet, 4);
        if end.len() < more.len() {
            return match quad {
                Some(quad) => (Some(4294967296 * value + u128::from(quad)), end),
                None => (None, end),
            };
        }
        let Some(group) = group else {
            return (None, more);
        };
        let next_value = 65536 * value + u128::from(group);
        let Some(next) = after(more, b':') else {
            return (Some(next_value), more);
        };
        value = next_value;
        done += 1;
        rest = next;
    }
    let (group, more) = hex_digits(rest, 1, 4);
    match group {
        Some(group) => (Some(65536 * value + u128::from(group)), more),
        None => (None, more),
    }
}
