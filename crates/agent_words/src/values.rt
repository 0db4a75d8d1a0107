// Numbers among the words.
ghost use Rattle.std.specs.Prelude.{◌≡◌, ◌≤◌, ℕ, MatchOption, SomeIff};
ghost use Rattle.std.specs.Fmt.{decimal};
ghost use Rattle.agent_words.specs.Words.{is_padded};

/// Whether a sign stands first, or a zero before a further digit.
fn is_padded(word: &[u8]) -> bool
    ensures { result ≡ is_padded word.now }
{
    match word {
        [] => false,
        [first] => *first == b'+',
        [first, ..] => *first == b'+' || *first == b'0',
    }
}

/// The number, if it lies in the range.
fn within(number: u64, low: u64, high: u64) -> Option<u64>
    ensures { SomeIff result ((low ≤ number) × (number ≤ high)) number }
{
    if low <= number && number <= high {
        Some(number)
    } else {
        None
    }
}

/// The number from `low` to `high` that the word spells in decimal digits, with no sign and no
/// leading zero.
pub(crate) fn number_of(word: &str, low: u64, high: u64) -> Option<u64>
    ensures { MatchOption result
        ((n : ℕ) → low ≤ n → n ≤ high → word.now ≡ decimal n → ⊥)
        (λ n. (word.now ≡ decimal n) × (low ≤ n) × (n ≤ high)) }
{
    if is_padded(word.as_bytes()) {
        return None;
    }
    match word.parse::<u64>() {
        Ok(number) => within(number, low, high),
        Err(_) => None,
    }
}
