//! The words of a line: those that it must have, and numbers.
ghost use Rattle.std.specs.Prelude.{◌≡◌};
ghost use Rattle.std.specs.List.{list_all};
ghost use Rattle.std.specs.Char.{is_ascii_digit};
ghost use Rattle.syntax.specs.Numbers as numbers;
ghost use Rattle.record_rows.specs.Words as spec;
ghost use Rattle.record_rows.specs.Words.{sized, up_to, code_of};

use crate::rows::Ranged;
use base_types::{JobNo, Moment, StreamNo};
use syntax::{number_i32, number_u32, number_u64};

/// A time. None where the word is no number.
#[tactic(auto, unfolding(crate::specs::Words::sized))]
pub(crate) fn moment(word: &str) -> Option<Ranged<Moment>>
    ensures { result ≡ sized 64 word.now }
{
    if !is_number(word.as_bytes()) {
        return None;
    }
    match number_u64(word) {
        Some(n) => Some(Ranged::Within(Moment(n))),
        None => Some(Ranged::OutOfRange),
    }
}

/// A number of 32 bits. None where the word is no number.
#[tactic(auto, unfolding(crate::specs::Words::sized))]
pub(crate) fn count(word: &str) -> Option<Ranged<u32>>
    ensures { result ≡ sized 32 word.now }
{
    if !is_number(word.as_bytes()) {
        return None;
    }
    match number_u32(word) {
        Some(n) => Some(Ranged::Within(n)),
        None => Some(Ranged::OutOfRange),
    }
}

/// The number of a job. None where the word is no number.
#[tactic(auto, unfolding(crate::specs::Words::sized))]
pub(crate) fn job_no(word: &str) -> Option<Ranged<JobNo>>
    ensures { result ≡ sized 32 word.now }
{
    if !is_number(word.as_bytes()) {
        return None;
    }
    match number_u32(word) {
        Some(n) => Some(Ranged::Within(JobNo(n))),
        None => Some(Ranged::OutOfRange),
    }
}

/// The number of a stream. None where the word is no number.
#[tactic(auto, unfolding(crate::specs::Words::sized))]
pub(crate) fn stream_no(word: &str) -> Option<Ranged<StreamNo>>
    ensures { result ≡ sized 32 word.now }
{
    if !is_number(word.as_bytes()) {
        return None;
    }
    match number_u32(word) {
        Some(n) => Some(Ranged::Within(StreamNo(n))),
        None => Some(Ranged::OutOfRange),
    }
}

/// The number of a dependency. None where the word is no number.
#[tactic(auto, unfolding(crate::specs::Words::sized, syntax::specs::Numbers::number_of))]
pub(crate) fn dep_no(word: &str) -> Option<Ranged<u16>>
    ensures { result ≡ sized 16 word.now }
{
    if !is_number(word.as_bytes()) {
        return None;
    }
    match number_u32(word) {
        Some(n) if n < 65536 => Some(Ranged::Within(n as u16)),
        _ => Some(Ranged::OutOfRange),
    }
}

/// A number from 0 to `most`. None where the word is no number.
#[tactic(auto, unfolding(crate::specs::Words::up_to, syntax::specs::Numbers::number_of))]
pub(crate) fn number_up_to(most: u16, word: &str) -> Option<Ranged<u16>>
    ensures { result ≡ up_to most word.now }
{
    if !is_number(word.as_bytes()) {
        return None;
    }
    match number_u64(word) {
        Some(n) if n <= u64::from(most) => Some(Ranged::Within(n as u16)),
        _ => Some(Ranged::OutOfRange),
    }
}

/// A priority from 0 to 101. None where the word is no number.
#[tactic(auto, unfolding(crate::specs::Words::up_to, syntax::specs::Numbers::number_of))]
pub(crate) fn priority(word: &str) -> Option<Ranged<u8>>
    ensures { result ≡ up_to 101 word.now }
{
    if !is_number(word.as_bytes()) {
        return None;
    }
    match number_u64(word) {
        Some(n) if n <= 101 => Some(Ranged::Within(n as u8)),
        _ => Some(Ranged::OutOfRange),
    }
}

/// A return code. None where the word is no number with a possible minus.
#[tactic(auto, unfolding(crate::specs::Words::code_of))]
pub(crate) fn code(word: &str) -> Option<Ranged<i32>>
    ensures { result ≡ code_of word.now }
{
    if !is_signed_number(word) {
        return None;
    }
    match number_i32(word) {
        Some(n) => Some(Ranged::Within(n)),
        None => Some(Ranged::OutOfRange),
    }
}

fn is_signed_number(word: &str) -> bool
    ensures { result ≡ spec.is_signed_number word.now }
{
    let bytes = word.as_bytes();
    if !bytes.is_empty() && bytes[0] == b'-' {
        return is_number(&bytes[1..]);
    }
    is_number(bytes)
}

/// Whether the bytes are a number, however large.
fn is_number(bytes: &[u8]) -> bool
    ensures { result ≡ numbers.is_number bytes.now }
{
    if bytes.is_empty() || bytes.len() > 1 && bytes[0] == b'0' {
        return false;
    }
    are_digits(bytes)
}

fn are_digits(bytes: &[u8]) -> bool
    ensures { result ≡ list_all is_ascii_digit bytes.now }
{
    bytes.iter().all(|b| b.is_ascii_digit())
}
