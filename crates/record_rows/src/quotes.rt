//! Texts in quotes, each within its limit or above it.
ghost use Rattle.std.specs.Prelude.{◌≡◌, IfOk, is_some};
ghost use Rattle.syntax.specs.Quotes as quotes;
ghost use Rattle.record_rows.specs.Words as spec;
ghost use Rattle.record_rows.specs.Words.{text_of};

use crate::rows::Ranged;
use base_types::{NoMemory, Text};
use std::alloc::Global;
use syntax::quoted;

/// The text that stands in quotes, within its range where it has at most 4,096 bytes. None where the whole is not one
/// text in quotes.
#[tactic(auto, using(crate::proofs::Texts::text_within, crate::proofs::Texts::text_longer, crate::proofs::Texts::text_none))]
pub(crate) fn text(alloc: Global, rest: &str) -> Result<Option<Ranged<Text>>, NoMemory>
    ensures { IfOk result (λ o. o ≡ text_of rest.now) }
{
    if let Some(value) = quoted(alloc, rest)? {
        return Ok(Some(Ranged::Within(value)));
    }
    if is_quoted(rest.as_bytes()) {
        return Ok(Some(Ranged::OutOfRange));
    }
    Ok(None)
}

/// Whether the whole is one text in quotes, however long it is.
fn is_quoted(bytes: &[u8]) -> bool
    ensures { result ≡ spec.is_quoted bytes.now }
{
    match bytes {
        [first, inside @ ..] => *first == b'"' && is_closed(inside),
        [] => false,
    }
}

/// Whether the first quote outside an escape is the last byte.
#[tactic(auto, unfolding(syntax::specs::Quotes::unquoted))]
fn is_closed(inside: &[u8]) -> bool
    ensures { result ≡ is_some (quotes.unquoted inside.now) }
{
    let mut rest = inside;
    while let [first, tail @ ..] = rest {
        if *first == b'"' {
            return tail.is_empty();
        }
        rest = behind(*first, tail);
    }
    false
}

/// What follows a first byte, or the escape that it begins.
fn behind(first: u8, tail: &[u8]) -> &[u8]
    ensures { result.now ≡ quotes.after_byte first tail.now }
{
    match tail {
        [second, after @ ..] if first == b'\\' && is_escaped(*second) => after,
        _ => tail,
    }
}

fn is_escaped(byte: u8) -> bool
    ensures { result ≡ quotes.is_escaped byte }
{
    byte == b'"' || byte == b'\\'
}
