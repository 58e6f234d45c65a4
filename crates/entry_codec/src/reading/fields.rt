//! Numbers, texts and flags.
ghost use Rattle.std.specs.Prelude.{◌≡◌, ◌≤◌, ℕ, Bool, length, IfOk};
ghost use Rattle.std.specs.Int.{w8, w16, w32, w64};
ghost use Rattle.entry_codec.specs.declared.EntryFault.TheVariants.{NoMemory as NoRoom};
ghost use Rattle.entry_codec.specs.Read.{Gives, IsPlace};
ghost use Rattle.entry_codec.specs.Fields.{number_at, i32_at};

use crate::EntryFault;
use crate::reading::lists::Read;
use base_types::{NoMemory, Text};
use byte_fields::{FieldFault, take_text, take_u8, take_u16, take_u32, take_u64};
use std::alloc::Global;

impl From<NoMemory> for EntryFault {
    ghost from_gives = { λ _ fault. fault ≡ NoRoom };

    fn from(_error: NoMemory) -> EntryFault {
        EntryFault::NoMemory
    }
}

/// A number in one byte.
#[tactic(auto, using(crate::proofs::Numbers::stands_8), unfolding(crate::specs::Fields::number_at))]
pub(crate) fn read_u8(from: &[u8], at: usize) -> Result<(u8, usize), EntryFault>
    requires { IsPlace from.now at }
    ensures reads { Gives result (number_at w8 from.now at) }
    ensures within { IfOk result (λ r. r.1 ≤ length from.now) }
{
    match take_u8(from, at) {
        Ok(found) => Ok(found),
        Err(_) => Err(EntryFault::Short(at as u32)),
    }
}

/// A number in two bytes.
#[tactic(auto, using(crate::proofs::Numbers::stands_16), unfolding(crate::specs::Fields::number_at))]
pub(crate) fn read_u16(from: &[u8], at: usize) -> Result<(u16, usize), EntryFault>
    requires { IsPlace from.now at }
    ensures reads { Gives result (number_at w16 from.now at) }
    ensures within { IfOk result (λ r. r.1 ≤ length from.now) }
{
    match take_u16(from, at) {
        Ok(found) => Ok(found),
        Err(_) => Err(EntryFault::Short(at as u32)),
    }
}

/// A number in four bytes.
#[tactic(auto, using(crate::proofs::Numbers::stands_32), unfolding(crate::specs::Fields::number_at))]
pub(crate) fn read_u32(from: &[u8], at: usize) -> Result<(u32, usize), EntryFault>
    requires { IsPlace from.now at }
    ensures reads { Gives result (number_at w32 from.now at) }
    ensures within { IfOk result (λ r. r.1 ≤ length from.now) }
{
    match take_u32(from, at) {
        Ok(found) => Ok(found),
        Err(_) => Err(EntryFault::Short(at as u32)),
    }
}

/// A number in eight bytes.
#[tactic(auto, using(crate::proofs::Numbers::stands_64), unfolding(crate::specs::Fields::number_at))]
pub(crate) fn read_u64(from: &[u8], at: usize) -> Result<(u64, usize), EntryFault>
    requires { IsPlace from.now at }
    ensures reads { Gives result (number_at w64 from.now at) }
    ensures within { IfOk result (λ r. r.1 ≤ length from.now) }
{
    match take_u64(from, at) {
        Ok(found) => Ok(found),
        Err(_) => Err(EntryFault::Short(at as u32)),
    }
}

/// A signed number in four bytes, in two's complement.
#[tactic(auto, unfolding(crate::specs::Read::chain))]
pub(crate) fn read_i32(from: &[u8], at: usize) -> Result<(i32, usize), EntryFault>
    requires { IsPlace from.now at }
    ensures reads { Gives result (i32_at from.now at) }
    ensures within { IfOk result (λ r. r.1 ≤ length from.now) }
{
    let (bits, next) = read_u32(from, at)?;
    Ok((bits.cast_signed(), next))
}

impl Read for u8 {
    ghost use Rattle.entry_codec.specs.Fields.{u8_at};

    ghost reader = { λ _. u8_at };

    fn read(
        _alloc: Global,
        _second: bool,
        from: &[u8],
        at: usize,
    ) -> Result<(u8, usize), EntryFault> {
        read_u8(from, at)
    }
}

impl Read for u16 {
    ghost use Rattle.entry_codec.specs.Fields.{u16_at};

    ghost reader = { λ _. u16_at };

    fn read(
        _alloc: Global,
        _second: bool,
        from: &[u8],
        at: usize,
    ) -> Result<(u16, usize), EntryFault> {
        read_u16(from, at)
    }
}

impl Read for u32 {
    ghost use Rattle.entry_codec.specs.Fields.{u32_at};

    ghost reader = { λ _. u32_at };

    fn read(
        _alloc: Global,
        _second: bool,
        from: &[u8],
        at: usize,
    ) -> Result<(u32, usize), EntryFault> {
        read_u32(from, at)
    }
}

impl Read for i32 {
    ghost use Rattle.entry_codec.specs.Fields.{i32_at};

    ghost reader = { λ _. i32_at };

    fn read(
        _alloc: Global,
        _second: bool,
        from: &[u8],
        at: usize,
    ) -> Result<(i32, usize), EntryFault> {
        read_i32(from, at)
    }
}

/// A text behind its length.
impl Read for Text {
    ghost use Rattle.entry_codec.specs.Fields.{text_at};

    ghost reader = { λ _. text_at };

    #[tactic(auto, using(crate::proofs::ShortTexts::text_fields))]
    fn read(
        alloc: Global,
        _second: bool,
        from: &[u8],
        at: usize,
    ) -> Result<(Text, usize), EntryFault> {
        match take_text(alloc, from, at) {
            Ok((text, next)) => Ok((text, next)),
            Err(FieldFault::Short) => Err(EntryFault::Short(at as u32)),
            Err(FieldFault::BadText) => Err(EntryFault::BadField(at as u32)),
            Err(FieldFault::NoMemory) => Err(EntryFault::NoMemory),
        }
    }
}

/// A flag.
impl Read for bool {
    ghost use Rattle.entry_codec.specs.Fields.{flag_at};

    ghost reader = { λ _. flag_at };

    #[tactic(auto, unfolding(crate::specs::Fields::choice_at))]
    fn read(
        _alloc: Global,
        _second: bool,
        from: &[u8],
        at: usize,
    ) -> Result<(bool, usize), EntryFault> {
        match read_u8(from, at)? {
            (0, next) => Ok((false, next)),
            (1, next) => Ok((true, next)),
            _ => Err(EntryFault::BadField(at as u32)),
        }
    }
}
