//! Numbers and words as arguments.
ghost use Rattle.std.specs.Prelude.{◌≡◌, IfOk};
ghost use Rattle.std.specs.List.{list_all};
ghost use Rattle.syntax.specs.Numbers.{number_of};
ghost use Rattle.conman_syntax.specs.Values as spec;

use base_types::{NoMemory, OnUntil, Text};
use std::alloc::Global;
use syntax::{is, number_u32};

/// A number of 8 bits.
#[tactic(auto, unfolding(syntax::specs::Numbers::number_of))]
pub fn number_u8(word: &str) -> Option<u8>
    ensures { result ≡ number_of 8 word.now }
{
    u8::try_from(number_u32(word)?).ok()
}

/// A number of 16 bits.
#[tactic(auto, unfolding(syntax::specs::Numbers::number_of))]
pub fn number_u16(word: &str) -> Option<u16>
    ensures { result ≡ number_of 16 word.now }
{
    u16::try_from(number_u32(word)?).ok()
}

/// `hi`, `go` or a number of 8 bits.
#[tactic(auto, unfolding(crate::specs::Values::priority_of))]
pub fn priority(word: &str) -> Option<u8>
    ensures { result ≡ spec.priority_of word.now }
{
    if is(word, "hi") {
        Some(100)
    } else if is(word, "go") {
        Some(101)
    } else {
        number_u8(word)
    }
}

/// Whether the answer is `yes`. None where it is neither that nor `no`.
#[tactic(auto, unfolding(crate::specs::Values::yes_of))]
pub fn yes(word: &str) -> Option<bool>
    ensures { result ≡ spec.yes_of word.now }
{
    if is(word, "yes") {
        Some(true)
    } else if is(word, "no") {
        Some(false)
    } else {
        None
    }
}

/// What comes when the time of an UNTIL has passed, by its word: `suppr`, `cont` or `canc`. None for every other word.
#[tactic(auto, unfolding(crate::specs::Values::passed_of))]
pub fn passed(word: &str) -> Option<OnUntil>
    ensures { result ≡ spec.passed_of word.now }
{
    if is(word, "suppr") {
        Some(OnUntil::Suppr)
    } else if is(word, "cont") {
        Some(OnUntil::Cont)
    } else if is(word, "canc") {
        Some(OnUntil::Canc)
    } else {
        None
    }
}

/// A pattern of printable ASCII characters but blanks, `;` and `"`, in upper case.
#[tactic(auto, unfolding(crate::specs::Values::pattern_of))]
pub fn pattern(alloc: Global, word: &str) -> Result<Option<Text>, NoMemory>
    ensures { IfOk result (λ o. o ≡ spec.pattern_of word.now) }
{
    if word.is_empty() || !are_pattern_bytes(word.as_bytes()) {
        return Ok(None);
    }
    Ok(Some(Text::of_upper(alloc, word)?))
}

fn are_pattern_bytes(bytes: &[u8]) -> bool
    ensures { result ≡ list_all spec.is_pattern_byte bytes.now }
{
    bytes.iter().all(|b| is_pattern_byte(*b))
}

fn is_pattern_byte(b: u8) -> bool
    ensures { result ≡ spec.is_pattern_byte b }
{
    b > b' ' && b < 127 && b != b';' && b != b'"'
}
