//! Texts in quotes.
ghost use Rattle.std.specs.Prelude.{◌≡◌, ◌++◌, IfOk, OnOk, option_map};
ghost use Rattle.std.specs.String.{string_bytes};
ghost use Rattle.syntax.specs.Quotes as spec;
ghost use Rattle.syntax.specs.Quotes.{after_byte, quoted_of};

use base_types::{LONGEST_TEXT, NoMemory, Text};
use std::alloc::Global;
use std::io::{self, Write};

/// The text that stands in quotes. `\"` and `\\` stand for a quote and a backslash, and another backslash for itself.
/// None where the whole is not one text in quotes, which may be empty, or where its value has more than 4,096 bytes.
#[tactic(auto, unfolding(crate::specs::Quotes::quoted_of))]
pub fn quoted(alloc: Global, rest: &str) -> Result<Option<Text>, NoMemory>
    ensures { IfOk result (λ o. o ≡ quoted_of rest.now) }
{
    let Some(inside) = rest.strip_prefix('"') else {
        return Ok(None);
    };
    let Some(value) = unquoted(alloc, inside)? else {
        return Ok(None);
    };
    if value.len() > LONGEST_TEXT {
        return Ok(None);
    }
    Ok(Some(Text::from_string(value)))
}

/// What the text behind the opening quote stands for. None where its first quote outside an escape is not its end.
#[tactic(auto, unfolding(crate::specs::Quotes::unquoted))]
fn unquoted(alloc: Global, text: &str) -> Result<Option<String>, NoMemory>
    ensures { IfOk result (λ o. option_map string_bytes o ≡ spec.unquoted text.now) }
{
    let mut value = Vec::new(alloc);
    let mut rest = text.as_bytes();
    while let [first, tail @ ..] = rest {
        if *first == b'"' {
            if !tail.is_empty() {
                return Ok(None);
            }
            // Leaving out the ASCII characters of the escapes keeps UTF-8.
            return Ok(Some(unsafe { String::from_utf8_unchecked(value) }));
        }
        let (byte, after) = unescaped(*first, tail);
        value.push(byte)?;
        rest = after;
    }
    Ok(None)
}

/// The byte that a first byte stands for, or the escape that it begins, and what follows.
fn unescaped(first: u8, tail: &[u8]) -> (u8, &[u8])
    ensures byte { result.0 ≡ spec.byte_of first tail.now }
    ensures after { result.1.now ≡ after_byte first tail.now }
{
    match tail {
        [second, after @ ..] if first == b'\\' && is_escaped(*second) => (*second, after),
        _ => (first, tail),
    }
}

/// Writes the text in quotes, each quote and each backslash of it behind a backslash. An error means that memory ran out;
/// then a part of this may have been written.
#[tactic(auto, unfolding(crate::specs::Quotes::quoted_text))]
pub fn write_quoted(out: &mut Vec<u8>, text: &Text) -> io::Result<()>
    ensures { OnOk result (out.new.items ≡ out.old.items ++ spec.quoted_text text.now) }
{
    write!(out, "\"")?;
    for byte in text.as_str().as_bytes() {
        write_byte(out, *byte)?;
    }
    write!(out, "\"")
}

fn write_byte(out: &mut Vec<u8>, byte: u8) -> io::Result<()>
    ensures { OnOk result (out.new.items ≡ out.old.items ++ spec.escaped byte) }
{
    if is_escaped(byte) {
        out.extend_from_slice(b"\\")?;
    }
    out.extend_from_slice(&[byte])?;
    Ok(())
}

fn is_escaped(byte: u8) -> bool
    ensures { result ≡ spec.is_escaped byte }
{
    byte == b'"' || byte == b'\\'
}
