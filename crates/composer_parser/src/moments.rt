//! Times, dates and offsets as tokens.
ghost use Rattle.std.specs.Prelude.{◌≡◌, ℕ, List, codes};
ghost use Rattle.composer_parser.specs.Reading.{read, begins_piece};
ghost use Rattle.composer_parser.specs.Parts as spec;
ghost use Rattle.composer_parser.specs.Tokens.{all_spelled, Gives};
ghost use Rattle.std.specs.Prelude.{[], ◌∷◌, ◌==◌, drop, slice_index, Some, None, if◌then◌else◌};
ghost use Rattle.composer_parser.specs.Kinds as kinds;
ghost use Rattle.composer_parser.specs.Kinds.{a_date, a_plus, an_offset, is_time, is_plus, is_minus, is_offset};
ghost use Rattle.composer_parser.specs.Reading.{begins};

use crate::parts::{are_digits, capped};
use crate::pieces::{Begins, Piece};
use crate::spells::piece;
use crate::stops::{Stop, Why};
use base_types::{Token, TokenKind};
use calendars::read_date;
use std::alloc::Global;

/// The minutes after 0000 that four digits are. None where they are no time from 0000 to 2359.
#[tactic(auto, unfolding(crate::specs::Kinds::is_time))]
fn minutes(word: &str) -> Option<u16>
    ensures { result ≡ (if is_time word.now then Some (spec.minutes word.now) else None) }
{
    let bytes = word.as_bytes();
    if bytes.len() != 4 || !are_digits(bytes) {
        return None;
    }
    let hour = two_digits(bytes[0], bytes[1]);
    let minute = two_digits(bytes[2], bytes[3]);
    if hour >= 24 || minute >= 60 {
        return None;
    }
    Some(60 * hour + minute)
}

fn two_digits(tens: u8, ones: u8) -> u16
    ensures { result ≡ kinds.two_digits tens ones }
{
    10 * u16::from(tens.saturating_sub(b'0')) + u16::from(ones.saturating_sub(b'0'))
}

/// The number behind a `+`.
#[tactic(auto, unfolding(crate::specs::Kinds::is_plus))]
fn plus_number(word: &str) -> Option<u32>
    ensures { result ≡ (if is_plus word.now then Some (spec.capped (drop 1 word.now)) else None) }
{
    match word.strip_prefix('+') {
        Some(digits) => capped(digits),
        None => None,
    }
}

/// The number behind a `+` or a `-`.
#[tactic(auto, unfolding(crate::specs::Kinds::is_offset))]
fn offset_number(word: &str) -> Option<u32>
    ensures { result ≡ (if is_offset word.now then Some (spec.capped (drop 1 word.now)) else None) }
{
    match word.strip_prefix('+') {
        Some(digits) => capped(digits),
        None => minus_number(word),
    }
}

/// The number behind a `-`.
#[tactic(auto, unfolding(crate::specs::Kinds::is_minus))]
fn minus_number(word: &str) -> Option<u32>
    ensures { result ≡ (if is_minus word.now then Some (spec.capped (drop 1 word.now)) else None) }
{
    match word.strip_prefix('-') {
        Some(digits) => capped(digits),
        None => None,
    }
}

/// A time, as its minutes after 0000.
pub(crate) fn time<'a>(text: &str, rest: &'a [Token]) -> Result<(u16, &'a [Token]), Stop>
    ensures { Gives (λ x. x.0) (λ x. x.1.now) text.now result (read spec.time (all_spelled text.now rest.now)) }
{
    let [token, behind @ ..] = rest else {
        return Err(Stop::Here(Why::NotExpected, 0));
    };
    let TokenKind::Word = token.kind else {
        return Err(Stop::Here(Why::NotExpected, rest.len()));
    };
    match minutes(piece(text, token)) {
        Some(n) => Ok((n, behind)),
        None => Err(Stop::Here(Why::NotExpected, rest.len())),
    }
}

/// Whether the next token is a date.
#[tactic(auto, unfolding(crate::specs::Kinds::is_date))]
pub(crate) fn is_date_next(text: &str, rest: &[Token]) -> bool
    ensures { result ≡ begins (a_date ∷ []) (all_spelled text.now rest.now) }
{
    match rest {
        [token, ..] => match token.kind {
            TokenKind::Word => read_date(piece(text, token)).is_some(),
            TokenKind::Quoted | TokenKind::Mark => false,
        },
        [] => false,
    }
}

/// A date, as the number of its day.
#[tactic(auto, unfolding(crate::specs::Kinds::is_date, crate::specs::Parts::day_of))]
pub(crate) fn date_value<'a>(text: &str, rest: &'a [Token]) -> Result<(u32, &'a [Token]), Stop>
    ensures { Gives (λ x. x.0) (λ x. x.1.now) text.now result (read spec.date (all_spelled text.now rest.now)) }
{
    let [token, behind @ ..] = rest else {
        return Err(Stop::Here(Why::NotExpected, 0));
    };
    let TokenKind::Word = token.kind else {
        return Err(Stop::Here(Why::NotExpected, rest.len()));
    };
    match read_date(piece(text, token)) {
        Some(day) => Ok((day, behind)),
        None => Err(Stop::Here(Why::NotExpected, rest.len())),
    }
}

/// A date in a list of dates.
impl Piece for u32 {
    ghost use Rattle.composer_parser.specs.Parts.{date};

    ghost grammar = { date };

    fn read<'a>(_alloc: Global, text: &str, rest: &'a [Token]) -> Result<(u32, &'a [Token]), Stop> {
        date_value(text, rest)
    }
}

impl Begins for u32 {
    fn begins(text: &str, rest: &[Token]) -> bool {
        is_date_next(text, rest)
    }
}

/// Whether the next token is `+` and a number.
pub(crate) fn is_plus_next(text: &str, rest: &[Token]) -> bool
    ensures { result ≡ begins (a_plus ∷ []) (all_spelled text.now rest.now) }
{
    match rest {
        [token, ..] => match token.kind {
            TokenKind::Word => plus_number(piece(text, token)).is_some(),
            TokenKind::Quoted | TokenKind::Mark => false,
        },
        [] => false,
    }
}

/// `+` and a number.
pub(crate) fn plus<'a>(text: &str, rest: &'a [Token]) -> Result<(u32, &'a [Token]), Stop>
    ensures { Gives (λ x. x.0) (λ x. x.1.now) text.now result (read spec.plus (all_spelled text.now rest.now)) }
{
    let [token, behind @ ..] = rest else {
        return Err(Stop::Here(Why::NotExpected, 0));
    };
    let TokenKind::Word = token.kind else {
        return Err(Stop::Here(Why::NotExpected, rest.len()));
    };
    match plus_number(piece(text, token)) {
        Some(n) => Ok((n, behind)),
        None => Err(Stop::Here(Why::NotExpected, rest.len())),
    }
}

/// Whether the next token is a number with a sign.
pub(crate) fn is_offset_next(text: &str, rest: &[Token]) -> bool
    ensures { result ≡ begins (an_offset ∷ []) (all_spelled text.now rest.now) }
{
    match rest {
        [token, ..] => match token.kind {
            TokenKind::Word => offset_number(piece(text, token)).is_some(),
            TokenKind::Quoted | TokenKind::Mark => false,
        },
        [] => false,
    }
}

/// A number with a sign, and whether that is `+`.
pub(crate) fn signed<'a>(text: &str, rest: &'a [Token]) -> Result<((bool, u32), &'a [Token]), Stop>
    ensures { Gives (λ x. x.0) (λ x. x.1.now) text.now result (read spec.signed (all_spelled text.now rest.now)) }
{
    let [token, behind @ ..] = rest else {
        return Err(Stop::Here(Why::NotExpected, 0));
    };
    let TokenKind::Word = token.kind else {
        return Err(Stop::Here(Why::NotExpected, rest.len()));
    };
    let word = piece(text, token);
    match offset_number(word) {
        Some(n) => Ok(((is_plus(word), n), behind)),
        None => Err(Stop::Here(Why::NotExpected, rest.len())),
    }
}

fn is_plus(word: &str) -> bool
    ensures { result ≡ (slice_index word.now 0 == 43) }
{
    match word.as_bytes() {
        [first, ..] => *first == b'+',
        [] => false,
    }
}
