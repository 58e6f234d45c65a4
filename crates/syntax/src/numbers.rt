//! Decimal numbers as words.
ghost use Rattle.std.specs.Prelude.{◌≡◌};
ghost use Rattle.std.specs.List.{list_all};
ghost use Rattle.std.specs.Char.{is_ascii_digit};
ghost use Rattle.syntax.specs.Numbers as spec;
ghost use Rattle.syntax.specs.Numbers.{number_of, signed_of};

/// The number that a word of digits is. None where the word is empty, has another character or a leading zero, or
/// where the number is above 64 bits.
pub fn number_u64(word: &str) -> Option<u64>
    ensures { result ≡ number_of 64 word.now }
{
    if !is_number(word) {
        return None;
    }
    word.parse::<u64>().ok()
}

/// The number that a word of digits is. None where the word is empty, has another character or a leading zero, or
/// where the number is above 32 bits.
pub fn number_u32(word: &str) -> Option<u32>
    ensures { result ≡ number_of 32 word.now }
{
    if !is_number(word) {
        return None;
    }
    word.parse::<u32>().ok()
}

/// The number that a word of digits is, which may have a `-` in front. None where the digits are no number, or where
/// the number is below -2147483648 or above 2147483647. `-0` is 0.
#[tactic(auto, unfolding(crate::specs::Numbers::signed_of))]
pub fn number_i32(word: &str) -> Option<i32>
    ensures { result ≡ signed_of word.now }
{
    match word.strip_prefix('-') {
        Some(digits) => {
            let n = number_u32(digits)?;
            i32::try_from(-i64::from(n)).ok()
        }
        None => {
            let n = number_u32(word)?;
            i32::try_from(n).ok()
        }
    }
}

fn is_number(word: &str) -> bool
    ensures { result ≡ spec.is_number word.now }
{
    let bytes = word.as_bytes();
    if bytes.is_empty() || bytes.len() > 1 && bytes[0] == b'0' {
        return false;
    }
    are_digits(bytes)
}

fn are_digits(bytes: &[u8]) -> bool
    ensures { result ≡ list_all is_ascii_digit bytes.now }
{
    bytes.iter().all(|b| b.is_ascii_digit())
}
