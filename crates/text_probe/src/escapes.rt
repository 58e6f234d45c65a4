//! Bytes on a line, with escapes.
use crate::outs::Out;
use base_types::{Bytes, Items};

/// Where a reader of escapes stands: behind a whole byte, a backslash, the `x` of an escape, or its first digit.
#[derive(Clone, Copy)]
enum Place {
    Plain,
    Backslash,
    High,
    Low(u8),
}

/// The value of a digit in base 16; another byte counts as 0.
fn digit(byte: u8) -> u8 {
    match byte {
        b'0'..=b'9' => byte - b'0',
        b'a'..=b'f' => byte - b'a' + 10,
        b'A'..=b'F' => byte - b'A' + 10,
        _ => 0,
    }
}

fn put(out: &mut Out, bytes: &mut Bytes, byte: u8) -> Place {
    let done = bytes.push(byte);
    out.done(done);
    Place::Plain
}

/// The byte of an escape. Any other byte stands for itself.
fn escaped(byte: u8) -> u8 {
    match byte {
        b'n' => b'\n',
        b'r' => b'\r',
        b't' => b'\t',
        _ => byte,
    }
}

fn take(out: &mut Out, bytes: &mut Bytes, place: Place, byte: u8) -> Place {
    match place {
        Place::Plain if byte == b'\\' => Place::Backslash,
        Place::Plain => put(out, bytes, byte),
        Place::Backslash if byte == b'x' => Place::High,
        Place::Backslash => put(out, bytes, escaped(byte)),
        Place::High => Place::Low(digit(byte)),
        Place::Low(high) => put(out, bytes, high << 4 | digit(byte)),
    }
}

/// The bytes that a text with escapes stands for.
pub fn unescaped(out: &mut Out, text: &str) -> Bytes {
    let mut bytes = Items::new(out.alloc);
    let mut place = Place::Plain;
    for byte in text.as_bytes() {
        place = take(out, &mut bytes, place, *byte);
    }
    bytes
}
