// Digits at the front of the bytes.
ghost use Rattle.std.specs.Prelude.{◌≡◌, ◌+◌, ◌<◌, ◌≤◌, ◌^◌, ◌⊎◌, [], ◌∷◌, List, ℕ, Some, None, IfSome, MatchOption, true, false};
ghost use Rattle.std.specs.Char.{is_ascii_digit};
ghost use Rattle.ip_text.specs.Numerals.{is_hex, hex, IsHex, IsNumber};
ghost use Rattle.ip_text.specs.Scans.{Scans};

/// The first byte, and what follows it.
fn first(bytes: &[u8]) -> Option<(u8, &[u8])>
    ensures { MatchOption result (bytes.now ≡ []) (λ x. bytes.entry.now ≡ x.0 ∷ x.1.now) }
{
    match bytes {
        [] => None,
        [byte, more @ ..] => Some((*byte, more)),
    }
}

/// What follows that byte, where it stands first.
pub(crate) fn after(bytes: &[u8], byte: u8) -> Option<&[u8]>
    ensures { MatchOption result ((next : List ℕ) → bytes.now ≡ byte ∷ next → ⊥) (λ next. bytes.entry.now ≡ byte ∷ next.now) }
{
    let (here, next) = first(bytes)?;
    if here == byte { Some(next) } else { None }
}

fn hex_digit(byte: u8) -> Option<u64>
    ensures digit { MatchOption result (is_hex byte ≡ false) (λ d. (is_hex byte ≡ true) × (d ≡ hex byte)) }
    ensures range { IfSome result (λ d. d < 16) }
{
    match byte {
        b'0'..=b'9' => Some(u64::from(byte - b'0')),
        b'a'..=b'f' => Some(u64::from(byte - b'a') + 10),
        b'A'..=b'F' => Some(u64::from(byte - b'A') + 10),
        _ => None,
    }
}

/// The value of digits, where they are enough.
fn enough(value: u64, count: usize, low: usize) -> Option<u64>
    ensures { ((low ≤ count) × (result ≡ Some value)) ⊎ ((count < low) × (result ≡ None)) }
{
    if count < low { None } else { Some(value) }
}

/// From `low` to `high` hexadecimal digits, and what follows those that are there.
pub(crate) fn hex_digits(bytes: &[u8], low: usize, high: usize) -> (Option<u64>, &[u8])
    requires range { low ≤ high }
    requires small { high ≤ 4 }
    ensures scan { Scans (IsHex low high) bytes.entry.now result.0 result.1.now }
    ensures range { IfSome result.0 (λ v. v < 16 ^ high) }
{
    let mut rest = bytes;
    let mut value = 0u64;
    let mut count = 0usize;
    while count < high {
        let Some((byte, more)) = first(rest) else {
            return (enough(value, count, low), rest);
        };
        let Some(digit) = hex_digit(byte) else {
            return (enough(value, count, low), rest);
        };
        value = 16 * value + digit;
        count += 1;
        rest = more;
    }
    (enough(value, count, low), rest)
}

fn decimal_digit(byte: u8) -> Option<u64>
    ensures { MatchOption result (is_ascii_digit byte ≡ false) (λ d. (is_ascii_digit byte ≡ true) × (byte ≡ 48 + d) × (d < 10)) }
{
    if byte.is_ascii_digit() {
        Some(u64::from(byte - b'0'))
    } else {
        None
    }
}

/// A number from `low` to `high`, and what follows its digits.
pub(crate) fn number(bytes: &[u8], low: u64, high: u64) -> (Option<u64>, &[u8])
    requires low { low ≤ 1 }
    requires high { 9 ≤ high }
    requires small { high < 2 ^ 59 }
    ensures scan { Scans (IsNumber low high) bytes.entry.now result.0 result.1.now }
    ensures range { IfSome result.0 (λ v. (low ≤ v) × (v ≤ high)) }
{
    let Some((byte, more)) = first(bytes) else {
        return (None, bytes);
    };
    let Some(digit) = decimal_digit(byte) else {
        return (None, bytes);
    };
    if digit < low {
        return (None, bytes);
    }
    if digit == 0 {
        return (Some(0), more);
    }
    let mut rest = more;
    let mut value = digit;
    'digits: loop {
        let Some((byte, more)) = first(rest) else {
            return (Some(value), rest);
        };
        let Some(digit) = decimal_digit(byte) else {
            return (Some(value), rest);
        };
        if 10 * value + digit > high {
            return (Some(value), rest);
        }
        value = 10 * value + digit;
        rest = more;
    }
}
