//! Bytes as digits in base 16.
ghost use Rattle.std.specs.Prelude.{◌≡◌, ◌<◌, ◌++◌, ℕ, IfOk, OnOk, Some, option_map};
ghost use Rattle.history_script.specs.Digits as spec;
ghost use Rattle.history_script.specs.Digits.{digits_of};

use base_types::NoMemory;
use std::alloc::Global;

/// What a digit stands for. None for any other byte.
fn value_of(digit: u8) -> Option<u8>
    ensures value { result ≡ spec.value_of digit }
    ensures small { (n : ℕ) → result ≡ Some n → n < 16 }
{
    match digit {
        b'0'..=b'9' => Some(digit - b'0'),
        b'a'..=b'f' => Some(digit - b'a' + 10),
        _ => None,
    }
}

/// The byte that two digits stand for. None where one of them is no digit.
fn byte_of(high: u8, low: u8) -> Option<u8>
    ensures { result ≡ spec.byte_of high low }
{
    let high = value_of(high)?;
    let low = value_of(low)?;
    Some(16 * high + low)
}

/// The bytes that an even number of digits stands for. None where there is another byte, or an odd one.
#[tactic(auto, unfolding(crate::specs::Digits::bytes_of))]
fn bytes_of(alloc: Global, digits: &[u8]) -> Result<Option<Vec<u8>>, NoMemory>
    ensures { IfOk result (λ o. option_map (λ v. v.items) o ≡ spec.bytes_of digits.now) }
{
    let mut bytes = Vec::new(alloc);
    let mut rest = digits;
    while let [high, low, more @ ..] = rest {
        let Some(byte) = byte_of(*high, *low) else {
            return Ok(None);
        };
        bytes.push(byte)?;
        rest = more;
    }
    if rest.is_empty() {
        return Ok(Some(bytes));
    }
    Ok(None)
}

/// The bytes whose digits a word is: an even number of digits, at least two, the letters in lower case. None for another
/// word.
#[tactic(auto, unfolding(crate::specs::Digits::some_bytes))]
pub(crate) fn some_bytes(alloc: Global, word: &str) -> Result<Option<Vec<u8>>, NoMemory>
    ensures { IfOk result (λ o. option_map (λ v. v.items) o ≡ spec.some_bytes word.now) }
{
    if word.is_empty() {
        return Ok(None);
    }
    bytes_of(alloc, word.as_bytes())
}

/// The digit of a number below 16.
fn digit(n: u8) -> u8
    requires { n < 16 }
    ensures { result ≡ spec.digit n }
{
    if n < 10 { b'0' + n } else { b'a' - 10 + n }
}

/// Writes the digits of bytes.
#[tactic(auto, unfolding(crate::specs::Digits::digits_of))]
pub(crate) fn write_digits(out: &mut Vec<u8>, bytes: &[u8]) -> Result<(), NoMemory>
    ensures { OnOk result (out.new.items ≡ out.old.items ++ digits_of bytes.now) }
{
    for byte in bytes {
        out.extend_from_slice(&[digit(*byte / 16), digit(*byte % 16)])?;
    }
    Ok(())
}
