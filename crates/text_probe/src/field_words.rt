//! Fields put and taken.
use crate::arguments::{digits, put_digits};
use crate::outs::Out;
use base_types::{Bytes, Items, NoMemory};
use byte_fields::{
    put_i32, put_text, put_u8, put_u16, put_u32, put_u64, take_i32, take_text, take_u8, take_u16,
    take_u32, take_u64,
};
use syntax::{first_word, number_i32, number_u32, number_u64};

fn put_taken_text(out: &mut Out, from: &[u8], at: usize) {
    if at > from.len() {
        return;
    }
    match take_text(out.alloc, from, at) {
        Ok((text, next)) => out.two("<", &text, "> ", &next),
        Err(fault) => out.debug("", &fault),
    }
}

/// Writes the field of this kind at a place, and the place behind it.
fn put_taken(out: &mut Out, kind: &str, from: &[u8], at: usize) {
    if at > from.len() {
        return;
    }
    match kind {
        "u8" => out.debug("", &take_u8(from, at)),
        "u16" => out.debug("", &take_u16(from, at)),
        "u32" => out.debug("", &take_u32(from, at)),
        "u64" => out.debug("", &take_u64(from, at)),
        "i32" => out.debug("", &take_i32(from, at)),
        _ => put_taken_text(out, from, at),
    }
}

/// `take KIND AT DIGITS`
pub fn put_take(out: &mut Out, text: &str) {
    let (kind, rest) = first_word(text);
    let (at, rest) = first_word(rest);
    let at = number_u32(at).unwrap_or(0) as usize;
    match digits(out, rest) {
        Some(bytes) => put_taken(out, kind, bytes.as_slice(), at),
        None => out.unknown(),
    }
}

fn add_text(bytes: &mut Bytes, text: &str) -> Result<(), NoMemory> {
    if text.len() > 4096 {
        return Ok(());
    }
    put_text(bytes, text)
}

/// Adds a field of this kind.
fn add(bytes: &mut Bytes, kind: &str, value: &str) -> Result<(), NoMemory> {
    let number = number_u64(value).unwrap_or(0);
    match kind {
        "u8" => put_u8(bytes, (number & 0xff) as u8),
        "u16" => put_u16(bytes, (number & 0xffff) as u16),
        "u32" => put_u32(bytes, (number & 0xffff_ffff) as u32),
        "u64" => put_u64(bytes, number),
        "i32" => put_i32(bytes, number_i32(value).unwrap_or(0)),
        _ => add_text(bytes, value),
    }
}

/// `put KIND VALUE`: the digits of the field.
pub fn put_put(out: &mut Out, text: &str) {
    let (kind, value) = first_word(text);
    let mut bytes = Items::new(out.alloc);
    let done = add(&mut bytes, kind, value);
    out.done(done);
    put_digits(out, bytes.as_slice())
}
