//! Whole entries.
ghost use Rattle.std.specs.Prelude.{◌≡◌, IfOk};
ghost use Rattle.model.specs.Fit.{IsFit};
ghost use Rattle.model.specs.Ranges.{InRange};
ghost use Rattle.model.specs.Spelling.{entry_bytes};

use crate::versions::version;
use crate::writing::bodies::put_body;
use crate::writing::parts::put_feed;
use base_types::{Bytes, Entry, Items, NoMemory};
use byte_fields::{put_u8, put_u32};
use std::alloc::Global;

/// The bytes of an entry: its version, its feed, its place, and what it says.
///
/// The entry is fit: its kind belongs to its feed, its place is not 0, its counts ascend without zeros, and its texts,
/// conditions and lists are within their limits. `NoMemory` comes only where memory runs out.
#[tactic(auto, unfolding(model::specs::Spelling::entry_bytes))]
pub fn write_entry(alloc: Global, e: &Entry) -> Result<Bytes, NoMemory>
    requires { IsFit e.now }
    ensures bytes { IfOk result (λ bytes. bytes ≡ entry_bytes e.now) }
    ensures range { IfOk result (λ _. InRange e.now) }
{
    let mut out = Items::new(alloc);
    put_u8(&mut out, version(&e.body))?;
    put_feed(&mut out, &e.feed)?;
    put_u32(&mut out, e.place)?;
    put_body(&mut out, &e.body)?;
    Ok(out)
}
