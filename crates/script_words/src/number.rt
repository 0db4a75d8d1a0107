// Words that are numbers.
ghost use Rattle.std.specs.Prelude.{◌≡◌, ◌<◌, ◌≤◌, ◌^◌, true, SomeIff, IfSome};
ghost use Rattle.std.specs.Str.{all_ascii_digits};
ghost use Rattle.script_words.specs.Reading.{is_numeral, read_on, number_of};
ghost use Rattle.script_words.specs.Grammar.{IsBetween};

fn all_digits(word: &[u8]) -> bool
    ensures { result ≡ all_ascii_digits word.now }
{
    for b in word {
        if !b.is_ascii_digit() {
            return false;
        }
    }
    true
}

fn is_numeral(word: &[u8]) -> bool
    ensures { result ≡ is_numeral word.now }
{
    match word {
        [] => false,
        [digit] => digit.is_ascii_digit(),
        [first, ..] => b'0' < *first && all_digits(word),
    }
}

/// The value of digits, where it is at most `high`.
fn value_of(word: &[u8], high: u64) -> Option<u64>
    requires digits { all_ascii_digits word.now ≡ true }
    requires high { high < 2 ^ 59 }
    ensures { SomeIff result (read_on 0 word.now ≤ high) (read_on 0 word.now) }
{
    let mut value = 0u64;
    for b in word {
        value = 10 * value + u64::from(*b - b'0');
        if value > high {
            return None;
        }
    }
    Some(value)
}

/// The number that a word of decimal digits without leading zeros spells, where it is in the range.
#[tactic(auto, unfolding(crate::specs::Reading::number_of))]
pub fn number_of(low: u64, high: u64, word: &[u8]) -> Option<u64>
    requires { high < 2 ^ 59 }
    ensures value { result ≡ number_of low high word.now }
    ensures range { IfSome result (λ n. IsBetween low high n) }
{
    if !is_numeral(word) {
        return None;
    }
    let value = value_of(word, high)?;
    if low <= value { Some(value) } else { None }
}
