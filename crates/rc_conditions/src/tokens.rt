//! The tokens of a condition's text.
ghost use Rattle.std.specs.Prelude.{◌≡◌, ◌≢◌, ◌≤◌, ◌<◌, length, slice_index};
ghost use Rattle.std.specs.Char.{is_ascii_alphabetic, is_ascii_digit};
ghost use Rattle.std.specs.List.{prefix_len};
ghost use Rattle.std.specs.Str.{str_eq_ignore_ascii_case};
ghost use Rattle.syntax.specs.Numbers.{signed_of};
ghost use Rattle.rc_conditions.specs.Tokens as spec;

use base_types::Rel;
use std::str;
use syntax::number_i32;

/// What stands at a place of a text.
#[derive(Clone, Copy)]
pub(crate) enum Token {
    Rc,
    Compare(Rel),
    Number(i32),
    Not,
    And,
    Or,
    Open,
    Close,
    /// What has no place in a condition.
    Other,
}

pub(crate) fn is_blank(byte: u8) -> bool
    ensures { result ≡ spec.is_blank byte }
{
    byte == b' ' || byte == b'\t' || byte == b'\n' || byte == b'\r'
}

/// How many bytes the token at the front of a text takes.
#[tactic(auto, unfolding(crate::specs::Tokens::width))]
pub(crate) fn width(text: &[u8]) -> usize
    requires { 0 < length text.now }
    ensures value { result ≡ spec.width text.now }
    ensures some { 0 < result }
    ensures within { result ≤ length text.now }
{
    let first = byte(text, 0);
    let second = byte(text, 1);
    if first.is_ascii_alphabetic() {
        letters(text)
    } else if first.is_ascii_digit() {
        digits(text)
    } else if first == b'-' && second.is_ascii_digit() {
        1 + digits(&text[1..])
    } else if is_pair(first, second) {
        2
    } else {
        1
    }
}

fn byte(text: &[u8], at: usize) -> u8
    ensures value { result ≡ slice_index text.now at }
    ensures within { result ≢ 0 → at < length text.now }
{
    if at < text.len() { text[at] } else { 0 }
}

fn letters(text: &[u8]) -> usize
    ensures count { result ≡ prefix_len is_ascii_alphabetic text.now }
    ensures within { result ≤ length text.now }
{
    let mut end = 0;
    while end < text.len() && text[end].is_ascii_alphabetic() {
        end += 1;
    }
    end
}

fn digits(text: &[u8]) -> usize
    ensures count { result ≡ prefix_len is_ascii_digit text.now }
    ensures within { result ≤ length text.now }
{
    let mut end = 0;
    while end < text.len() && text[end].is_ascii_digit() {
        end += 1;
    }
    end
}

fn is_pair(first: u8, second: u8) -> bool
    ensures { result ≡ spec.is_pair first second }
{
    match first {
        b'!' | b'>' => second == b'=',
        b'<' => second == b'=' || second == b'>',
        _ => false,
    }
}

/// The token that these bytes are.
#[tactic(auto, unfolding(crate::specs::Tokens::token_of))]
pub(crate) fn token_of(word: &[u8]) -> Token
    ensures { result ≡ spec.token_of word.now }
{
    if is_word(word, b"RC") {
        Token::Rc
    } else if is_word(word, b"NOT") {
        Token::Not
    } else if is_word(word, b"AND") {
        Token::And
    } else if is_word(word, b"OR") {
        Token::Or
    } else {
        mark_or_number(word)
    }
}

#[tactic(auto, unfolding(crate::specs::Tokens::mark_or_number))]
fn mark_or_number(word: &[u8]) -> Token
    ensures { result ≡ spec.mark_or_number word.now }
{
    match word {
        b"(" => Token::Open,
        b")" => Token::Close,
        b"=" => Token::Compare(Rel::Eq),
        b"!=" | b"<>" => Token::Compare(Rel::Ne),
        b"<" => Token::Compare(Rel::Lt),
        b"<=" => Token::Compare(Rel::Le),
        b">" => Token::Compare(Rel::Gt),
        b">=" => Token::Compare(Rel::Ge),
        _ => number(word).map_or(Token::Other, Token::Number),
    }
}

fn is_word(a: &[u8], b: &[u8]) -> bool
    ensures { result ≡ str_eq_ignore_ascii_case a.now b.now }
{
    a.eq_ignore_ascii_case(b)
}

/// The number of 32 bits that these bytes write.
fn number(word: &[u8]) -> Option<i32>
    ensures { result ≡ signed_of word.now }
{
    match str::from_utf8(word) {
        Ok(text) => number_i32(text),
        // No digits.
        Err(_) => None,
    }
}
