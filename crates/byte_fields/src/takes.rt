//! Fields taken from a place of bytes.
ghost use Rattle.std.specs.Prelude.{◌≡◌, ◌+◌, ◌≤◌, ◌<◌, ◌^◌, ◌↔◌, ℕ, ℤ, List, ◌++◌, length, drop, Ok, IsErr, IfOk, IfErr, FitsSigned};
ghost use Rattle.std.specs.Int.{w32};
ghost use Rattle.std.specs.Result.{IsErrOf};
ghost use Rattle.std.specs.Str.{IsUtf8};
ghost use Rattle.model.specs.Fields.{u8_bytes, u16_bytes, u32_bytes, u64_bytes, i32_bytes, text_bytes};
ghost use Rattle.byte_fields.specs.Places.{StandsAt};
ghost use Rattle.byte_fields.specs.Texts.{IsShortText, IsBadText, TakesText};
ghost use Rattle.byte_fields.specs.declared.FieldFault.TheVariants.{Short, BadText, NoMemory as NoRoom};

use crate::FieldFault;
use base_types::{LONGEST_TEXT, NoMemory, Text};
use std::alloc::Global;
use std::str;

impl From<NoMemory> for FieldFault {
    ghost from_gives = { λ _ fault. fault ≡ NoRoom };

    fn from(_error: NoMemory) -> FieldFault {
        FieldFault::NoMemory
    }
}

/// The number in the byte at a place, and the place behind it. Short exactly where no byte is left.
pub fn take_u8(from: &[u8], at: usize) -> Result<(u8, usize), FieldFault>
    requires { at ≤ length from.now }
    ensures found { IfOk result (λ r. StandsAt (u8_bytes r.0) from.now at r.1) }
    ensures again { (v : ℕ) → (rest : List ℕ) → drop at from.now ≡ u8_bytes v ++ rest → result ≡ Ok (v, at + 1) }
    ensures short { IsErr result ↔ (length from.now < at + 1) }
    ensures fault { IfErr result (λ fault. fault ≡ Short) }
{
    match &from[at..] {
        [a, ..] => Ok((*a, at + 1)),
        _ => Err(FieldFault::Short),
    }
}

/// The number in the two bytes at a place, and the place behind it. Short exactly where fewer bytes are left.
pub fn take_u16(from: &[u8], at: usize) -> Result<(u16, usize), FieldFault>
    requires { at ≤ length from.now }
    ensures found { IfOk result (λ r. StandsAt (u16_bytes r.0) from.now at r.1) }
    ensures again { (v : ℕ) → v < 2 ^ 16 → (rest : List ℕ) → drop at from.now ≡ u16_bytes v ++ rest →
        result ≡ Ok (v, at + 2) }
    ensures short { IsErr result ↔ (length from.now < at + 2) }
    ensures fault { IfErr result (λ fault. fault ≡ Short) }
{
    match &from[at..] {
        [a, b, ..] => Ok((u16::from_be_bytes([*a, *b]), at + 2)),
        _ => Err(FieldFault::Short),
    }
}

/// The number in the four bytes at a place, and the place behind it. Short exactly where fewer bytes are left.
pub fn take_u32(from: &[u8], at: usize) -> Result<(u32, usize), FieldFault>
    requires { at ≤ length from.now }
    ensures found { IfOk result (λ r. StandsAt (u32_bytes r.0) from.now at r.1) }
    ensures again { (v : ℕ) → v < 2 ^ 32 → (rest : List ℕ) → drop at from.now ≡ u32_bytes v ++ rest →
        result ≡ Ok (v, at + 4) }
    ensures short { IsErr result ↔ (length from.now < at + 4) }
    ensures fault { IfErr result (λ fault. fault ≡ Short) }
{
    match &from[at..] {
        [a, b, c, d, ..] => Ok((u32::from_be_bytes([*a, *b, *c, *d]), at + 4)),
        _ => Err(FieldFault::Short),
    }
}

/// The number in the eight bytes at a place, and the place behind it. Short exactly where fewer bytes are left.
pub fn take_u64(from: &[u8], at: usize) -> Result<(u64, usize), FieldFault>
    requires { at ≤ length from.now }
    ensures found { IfOk result (λ r. StandsAt (u64_bytes r.0) from.now at r.1) }
    ensures again { (v : ℕ) → v < 2 ^ 64 → (rest : List ℕ) → drop at from.now ≡ u64_bytes v ++ rest →
        result ≡ Ok (v, at + 8) }
    ensures short { IsErr result ↔ (length from.now < at + 8) }
    ensures fault { IfErr result (λ fault. fault ≡ Short) }
{
    match &from[at..] {
        [a, b, c, d, e, f, g, h, ..] => {
            let number = u64::from_be_bytes([*a, *b, *c, *d, *e, *f, *g, *h]);
            Ok((number, at + 8))
        }
        _ => Err(FieldFault::Short),
    }
}

/// The signed number in the four bytes at a place, in two's complement, and the place behind it. Short exactly where
/// fewer bytes are left.
pub fn take_i32(from: &[u8], at: usize) -> Result<(i32, usize), FieldFault>
    requires { at ≤ length from.now }
    ensures found { IfOk result (λ r. StandsAt (i32_bytes r.0) from.now at r.1) }
    ensures again { (v : ℤ) → FitsSigned w32 v → (rest : List ℕ) → drop at from.now ≡ i32_bytes v ++ rest →
        result ≡ Ok (v, at + 4) }
    ensures short { IsErr result ↔ (length from.now < at + 4) }
    ensures fault { IfErr result (λ fault. fault ≡ Short) }
{
    match &from[at..] {
        [a, b, c, d, ..] => Ok((i32::from_be_bytes([*a, *b, *c, *d]), at + 4)),
        _ => Err(FieldFault::Short),
    }
}

/// The text at a place, behind its length in two bytes, and the place behind it.
///
/// BadText exactly where the length is above 4,096, whatever follows, or the text is not UTF-8. Short exactly where
/// bytes of the length are missing, or bytes of a text that is not too long.
pub fn take_text(alloc: Global, from: &[u8], at: usize) -> Result<(Text, usize), FieldFault>
    requires { at ≤ length from.now }
    ensures found { IfOk result (λ r. StandsAt (text_bytes r.0) from.now at r.1) }
    ensures fits { IfOk result (λ r. length r.0 ≤ 4096) }
    ensures again { (text : List ℕ) → IsUtf8 text → length text ≤ 4096 → (rest : List ℕ) →
        drop at from.now ≡ text_bytes text ++ rest → TakesText result text (at + 2 + length text) }
    ensures short { IsErrOf result Short ↔ IsShortText (drop at from.now) }
    ensures bad { IsErrOf result BadText ↔ IsBadText (drop at from.now) }
{
    let (length, start) = take_u16(from, at)?;
    let length = length as usize;
    if length > LONGEST_TEXT {
        return Err(FieldFault::BadText);
    }
    if from.len() - start < length {
        return Err(FieldFault::Short);
    }
    let next = start + length;
    let Ok(text) = str::from_utf8(&from[start..next]) else {
        return Err(FieldFault::BadText);
    };
    Ok((Text::of(alloc, text)?, next))
}
