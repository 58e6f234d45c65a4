//! Choices in one byte, and the fields that follow them.
ghost use Rattle.std.specs.Prelude.{◌≡◌, ◌++◌, ◌∷◌, OnOk};
ghost use Rattle.model.specs.Fields.{text_bytes, u16_bytes, u32_bytes, u64_bytes};
ghost use Rattle.model.specs.Fit.{IsFitText};

use base_types::{Bytes, NoMemory};
use byte_fields::{put_text, put_u8, put_u16, put_u32, put_u64};

/// Adds a choice and a number in two bytes.
pub(crate) fn put_short(out: &mut Bytes, choice: u8, number: u16) -> Result<(), NoMemory>
    ensures { OnOk result (out.new ≡ out.old ++ choice ∷ u16_bytes number) }
{
    put_u8(out, choice)?;
    put_u16(out, number)
}

/// Adds a choice and two numbers in two bytes each.
pub(crate) fn put_shorts(
    out: &mut Bytes,
    choice: u8,
    first: u16,
    second: u16,
) -> Result<(), NoMemory>
    ensures { OnOk result (out.new ≡ out.old ++ (choice ∷ u16_bytes first ++ u16_bytes second)) }
{
    put_short(out, choice, first)?;
    put_u16(out, second)
}

/// Adds a choice and a number in four bytes.
pub(crate) fn put_numbered(out: &mut Bytes, choice: u8, number: u32) -> Result<(), NoMemory>
    ensures { OnOk result (out.new ≡ out.old ++ choice ∷ u32_bytes number) }
{
    put_u8(out, choice)?;
    put_u32(out, number)
}

/// Adds a choice and a number in eight bytes.
pub(crate) fn put_long(out: &mut Bytes, choice: u8, number: u64) -> Result<(), NoMemory>
    ensures { OnOk result (out.new ≡ out.old ++ choice ∷ u64_bytes number) }
{
    put_u8(out, choice)?;
    put_u64(out, number)
}

/// Adds a choice and a text.
pub(crate) fn put_worded(out: &mut Bytes, choice: u8, text: &str) -> Result<(), NoMemory>
    requires { IsFitText text.now }
    ensures { OnOk result (out.new ≡ out.old ++ choice ∷ text_bytes text.now) }
{
    put_u8(out, choice)?;
    put_text(out, text)
}
