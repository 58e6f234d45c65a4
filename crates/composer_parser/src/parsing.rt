//! Definitions from the tokens of a text.
ghost use Rattle.std.specs.Prelude.{◌≡◌, ◌⊎◌, ◌≤◌, ◌-◌, ◌==◌, ◌+◌, ◌<◌, ◌^◌, ℕ, List, length, take, drop, Ok, Err};
ghost use Rattle.std.specs.List.{count_by, list_any};
ghost use Rattle.composer_parser.specs.declared.definitions.Defs.{Defs as Definitions};
ghost use Rattle.composer_parser.specs.declared.faults.SyntaxFault.TheVariants as fault;
ghost use Rattle.composer_parser.specs.Grammars.{Spells};
ghost use Rattle.composer_parser.specs.Reading.{read, done};
ghost use Rattle.composer_parser.specs.Composer.{defs};
ghost use Rattle.composer_parser.specs.Faults as spec;
ghost use Rattle.composer_parser.specs.Faults.{answer, fault_of, last_line_of, HasUnexpected, HasLeftOut};
ghost use Rattle.composer_parser.specs.Tokens.{all_spelled, spelled};

use crate::definitions::Defs;
use crate::faults::SyntaxFault;
use crate::parts::{is_keyword, is_word_of};
use crate::statements::definitions;
use crate::stops::{Stop, Why};
use base_types::{Token, Tokens};
use std::alloc::Global;

/// The definitions that the tokens of a text are. Where they are none the first fault is answered: the line of the first
/// token that nothing in the grammar has behind those before it, or the last line where the text ends too early. The lines
/// of a text are counted in 32 bits, and one of 4,294,967,295 bytes or more is answered as want of memory.
pub fn parse(alloc: Global, text: &str, tokens: &Tokens) -> Result<Defs, SyntaxFault>
    ensures found { (d : Definitions) → result ≡ Ok d →
        Spells (defs (last_line_of text.now)) (all_spelled text.now tokens.now) d }
    ensures all { (d : Definitions) → Spells (defs (last_line_of text.now)) (all_spelled text.now tokens.now) d →
        (result ≡ Ok d) ⊎ (result ≡ Err fault.NoMemory) }
    ensures expected { (line : ℕ) → result ≡ Err (fault.Expected line) →
        HasUnexpected (defs (last_line_of text.now)) (last_line_of text.now) (all_spelled text.now tokens.now) line }
    ensures all_expected { (line : ℕ) →
        HasUnexpected (defs (last_line_of text.now)) (last_line_of text.now) (all_spelled text.now tokens.now) line →
        (result ≡ Err (fault.Expected line)) ⊎ (result ≡ Err fault.NoMemory) }
    ensures left_out { (line : ℕ) → result ≡ Err (fault.LeftOut line) →
        HasLeftOut (defs (last_line_of text.now)) (all_spelled text.now tokens.now) line }
    ensures all_left_out { (line : ℕ) →
        HasLeftOut (defs (last_line_of text.now)) (all_spelled text.now tokens.now) line →
        (result ≡ Err (fault.LeftOut line)) ⊎ (result ≡ Err fault.NoMemory) }
    ensures built { (line : ℕ) → result ≡ Err (fault.NotBuilt line) → ⊥ }
{
    if text.len() >= u32::MAX as usize {
        return Err(SyntaxFault::NoMemory);
    }
    parse_tokens(alloc, text, tokens.as_slice(), last_line(text.as_bytes()))
}

/// The line that has the last byte.
#[tactic(auto, unfolding(crate::specs::Faults::last_line_of))]
fn last_line(bytes: &[u8]) -> u32
    requires { length bytes.now + 1 < 2 ^ 32 }
    ensures { result ≡ last_line_of bytes.now }
{
    match bytes {
        [front @ .., _] => 1 + feeds(front),
        [] => 1,
    }
}

fn feeds(bytes: &[u8]) -> u32
    requires { length bytes.now + 1 < 2 ^ 32 }
    ensures value { result ≡ count_by (λ b. b == 10) bytes.now }
    ensures small { result ≤ length bytes.now }
{
    let mut count = 0;
    for byte in bytes {
        if *byte == b'\n' {
            count += 1;
        }
    }
    count
}

fn parse_tokens(
    alloc: Global,
    text: &str,
    tokens: &[Token],
    last_line: u32,
) -> Result<Defs, SyntaxFault>
    ensures { (result ≡ answer last_line (all_spelled text.now tokens.now) (read (defs last_line) (all_spelled text.now tokens.now)))
        ⊎ (result ≡ Err fault.NoMemory) }
{
    match definitions(alloc, text, tokens, last_line) {
        Ok((found, rest)) => finish(text, tokens, last_line, found, rest),
        Err(Stop::Here(why, left)) => Err(fault(text, tokens, last_line, why, left)),
        Err(Stop::NoMemory) => Err(SyntaxFault::NoMemory),
    }
}

/// The definitions that were found, or the fault where tokens are left behind them.
fn finish(
    text: &str,
    tokens: &[Token],
    last_line: u32,
    found: Defs,
    rest: &[Token],
) -> Result<Defs, SyntaxFault>
    requires { read (defs last_line) (all_spelled text.now tokens.now) ≡ done found (all_spelled text.now rest.now) }
    ensures { result ≡ answer last_line (all_spelled text.now tokens.now) (read (defs last_line) (all_spelled text.now tokens.now)) }
{
    if rest.is_empty() {
        return Ok(found);
    }
    Err(fault(text, tokens, last_line, Why::NotExpected, rest.len()))
}

/// The fault where a reader stopped with so many tokens left.
fn fault(text: &str, tokens: &[Token], last_line: u32, why: Why, left: usize) -> SyntaxFault
    ensures { left ≤ length tokens.now → result ≡ fault_of why last_line
        (all_spelled text.now (take (length tokens.now - left) tokens.now))
        (all_spelled text.now (drop (length tokens.now - left) tokens.now)) }
{
    if left > tokens.len() {
        return SyntaxFault::NoMemory;
    }
    let (before, rest) = tokens.split_at(tokens.len() - left);
    match rest {
        [token, ..] if is_left(why) || is_left_word(text, before, token) => SyntaxFault::LeftOut(
            token.line,
        ),
        [token, ..] => SyntaxFault::Expected(token.line),
        [] => SyntaxFault::Expected(last_line),
    }
}

fn is_left(why: Why) -> bool
    ensures { result ≡ spec.is_left why }
{
    matches!(why, Why::IsLeftOut)
}

/// Whether the word is left out wherever it has no place behind these tokens.
#[tactic(auto, unfolding(crate::specs::Faults::is_left_word, crate::specs::Faults::left_words, crate::specs::Faults::zone_words))]
fn is_left_word(text: &str, before: &[Token], token: &Token) -> bool
    ensures { result ≡ spec.is_left_word (all_spelled text.now before.now) (spelled text.now token.now) }
{
    is_word_of(text, token, &LEFT_WORDS)
        || is_word_of(text, token, &ZONE_WORDS) && !in_options(text, before)
}

/// Whether `$OPTIONS` stands first, and no statement has begun.
fn in_options(text: &str, before: &[Token]) -> bool
    ensures { result ≡ spec.in_options (all_spelled text.now before.now) }
{
    match before {
        [first, more @ ..] => is_keyword(text, first, "$OPTIONS") && !has_first_word(text, more),
        [] => false,
    }
}

fn has_first_word(text: &str, tokens: &[Token]) -> bool
    ensures { result ≡ list_any (spec.is_word_of spec.first_words) (all_spelled text.now tokens.now) }
{
    any_begins(text, tokens)
}

/// Whether a statement begins with one of these tokens.
fn any_begins(text: &str, tokens: &[Token]) -> bool
    ensures { result ≡ list_any (λ t. spec.is_word_of spec.first_words (spelled text.now t)) tokens.now }
{
    tokens.iter().any(|token| begins_statement(text, token))
}

#[tactic(auto, unfolding(crate::specs::Faults::first_words))]
fn begins_statement(text: &str, token: &Token) -> bool
    ensures { result ≡ spec.is_word_of spec.first_words (spelled text.now token.now) }
{
    is_word_of(text, token, &FIRST_WORDS)
}

/// Words of the full language that are left out wherever they have no place.
const LEFT_WORDS: [&str; 15] = [
    "ACCESS",
    "CONFIRMED",
    "CPUCLASS",
    "EVERY",
    "HOST",
    "INTERACTIVE",
    "KEYJOB",
    "KEYSCHED",
    "MATCHING",
    "PARMS",
    "$PARM",
    "SECUREADDR",
    "SECURITYLEVEL",
    "SERVER",
    "VARTABLE",
];

/// Words of time zones, which are left out everywhere but among the options.
const ZONE_WORDS: [&str; 2] = ["TIMEZONE", "TZ"];

/// The words with which statements begin.
const FIRST_WORDS: [&str; 7] = [
    "CPUNAME",
    "DOMAIN",
    "$CALENDAR",
    "$PROMPT",
    "$RESOURCE",
    "$JOBS",
    "SCHEDULE",
];
