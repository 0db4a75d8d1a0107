// The words of a line.
ghost use Rattle.std.specs.Prelude.{◌≡◌, ◌∷◌, [], length, MatchOption, ◌⊎◌, ◌≤◌};
ghost use Rattle.std.specs.Str.{bytes_eq};
ghost use Rattle.script_words.specs.Words.{words, goes_on, word_len};
ghost use Rattle.std.specs.Prelude.{true};

fn skip(bytes: &[u8]) -> &[u8]
    ensures same { words result.now ≡ words bytes.entry.now }
    ensures starts { (result.now ≡ []) ⊎ (goes_on result.now ≡ true) }
{
    for (at, b) in bytes.iter().enumerate() {
        if *b != b' ' {
            return &bytes[at..];
        }
    }
    &bytes[bytes.len()..]
}

fn word_len(bytes: &[u8]) -> usize
    ensures length { result ≡ word_len bytes.now }
    ensures within { result ≤ length bytes.now }
{
    for (at, b) in bytes.iter().enumerate() {
        if *b == b' ' {
            return at;
        }
    }
    bytes.len()
}

/// The next word, and what stands behind it.
pub fn next_word(bytes: &[u8]) -> Option<(&[u8], &[u8])>
    ensures { MatchOption result (words bytes.entry.now ≡ []) (λ x. words bytes.entry.now ≡ x.0.now ∷ words x.1.now) }
{
    let rest = skip(bytes);
    if rest.is_empty() {
        return None;
    }
    let end = word_len(rest);
    Some((&rest[..end], &rest[end..]))
}

/// How many words stand here.
pub fn count(bytes: &[u8]) -> usize
    ensures { result ≡ length (words bytes.now) }
{
    let mut rest = bytes;
    let mut n = 0;
    while let Some((_, more)) = next_word(rest) {
        n += 1;
        rest = more;
    }
    n
}

/// Whether the word is the key.
pub fn is(word: &[u8], key: &[u8]) -> bool
    ensures { result ≡ bytes_eq word.now key.now }
{
    word == key
}
