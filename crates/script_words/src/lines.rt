// The lines of a text.
ghost use Rattle.std.specs.Prelude.{◌≡◌, ◌∷◌, [], ◌≤◌, length, MatchOption};
ghost use Rattle.script_words.specs.Words.{words};
ghost use Rattle.script_words.specs.Lines.{all_allowed, is_skipped, lines, line_len};

use crate::words::next_word;

fn line_len(bytes: &[u8]) -> usize
    ensures length { result ≡ line_len bytes.now }
    ensures within { result ≤ length bytes.now }
{
    for (at, b) in bytes.iter().enumerate() {
        if *b == b'\n' {
            return at;
        }
    }
    bytes.len()
}

/// The first line without its line feed, and what stands behind it: none where there is no line.
pub fn next_line(bytes: &[u8]) -> Option<(&[u8], &[u8])>
    ensures { MatchOption result (lines bytes.entry.now ≡ []) (λ x. lines bytes.entry.now ≡ x.0.now ∷ lines x.1.now) }
{
    if bytes.is_empty() {
        return None;
    }
    let end = line_len(bytes);
    if end < bytes.len() {
        Some((&bytes[..end], &bytes[end + 1..]))
    } else {
        Some((bytes, &bytes[end..]))
    }
}

/// Whether each byte of the line is a space or a printed sign of ASCII.
pub fn all_allowed(line: &[u8]) -> bool
    ensures { result ≡ all_allowed line.now }
{
    for b in line {
        if *b < 32 || *b > 126 {
            return false;
        }
    }
    true
}

/// Whether the line is empty, or a comment.
pub fn is_skipped(line: &[u8]) -> bool
    ensures { result ≡ is_skipped (words line.now) }
{
    match next_word(line) {
        None => true,
        Some((word, _)) => match word {
            [first, ..] => *first == b'#',
            [] => false,
        },
    }
}
