//! The parts of arguments, and bytes as texts.
use crate::outs::Out;
use base_types::{Bytes, Feed, Items, Ws};
use std::str;
use syntax::number_u32;

/// The bytes of digits in base 16. None where they are no whole bytes.
pub fn digits(out: &Out, text: &str) -> Option<Bytes> {
    match hex::decode(out.alloc, text) {
        Ok(bytes) => Some(Items::of_vec(bytes)),
        Err(_) => None,
    }
}

/// Writes bytes as digits in base 16.
pub fn put_digits(out: &mut Out, bytes: &[u8]) {
    match hex::encode(out.alloc, bytes) {
        Ok(text) => out.word(text.as_str()),
        Err(_) => out.unknown(),
    }
}

/// Writes bytes as the text that they are.
pub fn put_bytes(out: &mut Out, bytes: &Bytes) {
    out.word(str::from_utf8(bytes.as_slice()).unwrap_or(""));
}

/// Writes bytes that were made.
pub fn put_made(out: &mut Out, made: Option<Bytes>) {
    if let Some(bytes) = made {
        put_bytes(out, &bytes);
    }
}

fn add(out: &mut Out, found: &mut Items<u32>, word: &str) {
    if let Some(number) = number_u32(word) {
        let done = found.push(number);
        out.done(done);
    }
}

/// Those of the words of a text that are numbers.
pub fn numbers(out: &mut Out, text: &str) -> Items<u32> {
    let mut found = Items::new(out.alloc);
    for word in text.split(' ') {
        add(out, &mut found, word);
    }
    found
}

/// What stands before the first ` / ` and behind it. Where there is none, that is all and nothing.
pub fn halves(text: &str) -> (&str, &str) {
    match text.split_once(" / ") {
        Some(parts) => parts,
        None => (text, ""),
    }
}

/// The lowest 16 bits of a number.
pub fn low(number: u32) -> u16 {
    (number & 0xffff) as u16
}

/// The workstation of a number.
pub fn station(number: u32) -> Ws {
    Ws(low(number))
}

/// The events of a workstation where the kind is 0, or else the orders from one to another.
pub fn feed(kind: u32, from: u32, to: u32) -> Feed {
    if kind == 0 {
        Feed::Events(station(to))
    } else {
        Feed::Orders(station(from), station(to))
    }
}
