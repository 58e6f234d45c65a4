//! Words and lines by their bytes, one after the other: most are short, and most words differ in their first byte.
ghost use Rattle.std.specs.Prelude.{◌≡◌, ◌==◌, ◌<◌, IfSome, None, length};
ghost use Rattle.std.specs.List.{after_first, before_first, position_or_len};
ghost use Rattle.std.specs.Str.{bytes_eq};
ghost use Rattle.syntax.specs.Splits as spec;
ghost use Rattle.syntax.specs.Splits.{after_word};

/// Whether a word is spelled so.
pub(crate) fn is(word: &str, spelling: &str) -> bool
    ensures { result ≡ bytes_eq word.now spelling.now }
{
    word.as_bytes() == spelling.as_bytes()
}

fn is_same(a: u8, b: u8) -> bool
    ensures { result ≡ (a == b) }
{
    a == b
}

/// How many bytes stand before the first one that is this, or all where there is none.
fn length_before(byte: u8, text: &[u8]) -> usize
    ensures { result ≡ position_or_len (λ b. b == byte) text.now }
{
    for (i, other) in text.iter().enumerate() {
        if is_same(*other, byte) {
            return i;
        }
    }
    text.len()
}

/// What stands before the first byte that is this, and what stands behind it. None where there is none.
pub(crate) fn cut_at(byte: u8, text: &str) -> Option<(&str, &str)>
    requires { byte < 128 }
    ensures before { IfSome result (λ p. p.0.now ≡ before_first (λ b. b == byte) text.now) }
    ensures behind { IfSome result (λ p. p.1.now ≡ after_first (λ b. b == byte) text.now) }
    ensures inside { IfSome result (λ p. position_or_len (λ b. b == byte) text.now < length text.now) }
    ensures none { result ≡ None → position_or_len (λ b. b == byte) text.now ≡ length text.now }
{
    let length = length_before(byte, text.as_bytes());
    if length == text.len() {
        return None;
    }
    Some((&text[..length], &text[length + 1..]))
}

/// The first word of a line, and what follows the space behind it. Where there is no space nothing follows.
pub(crate) fn first_word(line: &str) -> (&str, &str)
    ensures first { result.0.now ≡ spec.first_word line.now }
    ensures rest { result.1.now ≡ after_word line.now }
{
    match cut_at(b' ', line) {
        Some((word, rest)) => (word, rest),
        None => (line, ""),
    }
}
