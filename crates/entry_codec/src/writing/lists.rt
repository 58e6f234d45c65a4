//! Lists, options and what stands in them.
ghost use Rattle.std.specs.Prelude.{◌≡◌, ◌++◌, IfSome, OnErr, OnOk};
ghost use Rattle.std.specs.List.{All};
ghost use Rattle.model.specs.Fields.{flag_bytes, list_bytes, option_bytes, u16_bytes};
ghost use Rattle.model.specs.Fit.{AreFit};
ghost use Rattle.model.specs.Ranges.{IsU16};

use crate::writing::choices::put_short;
use base_types::{Bytes, Items, NoMemory, StreamNo};
use byte_fields::{put_u8, put_u32};

/// A value that stands in lists.
pub(crate) trait Put {
    ghost use Rattle.std.specs.Prelude.{List, ℕ};

    /// What the value has to be.
    ghost is_fit: { Self → Type 0 };

    /// What its fields hold, as their types say.
    ghost in_range: { Self → Type 0 };

    /// Its bytes.
    ghost spelling: { Self → List ℕ };

    /// Adds the bytes of the value.
    fn put(&self, out: &mut Bytes) -> Result<(), NoMemory>
        requires { is_fit self.now }
        ensures added { OnOk result (out.new ≡ out.old ++ spelling self.now) }
        ensures range { OnOk result (in_range self.now) };
}

impl Put for StreamNo {
    ghost use Rattle.model.specs.Fields.{u32_bytes};
    ghost use Rattle.model.specs.Ranges.{IsU32};

    ghost is_fit = { λ _. Unit {0} };

    ghost in_range = { IsU32 };

    ghost spelling = { u32_bytes };

    fn put(&self, out: &mut Bytes) -> Result<(), NoMemory> {
        put_u32(out, self.0)
    }
}

/// Adds the count of the items, and each of them.
pub(crate) fn put_list<T: Put>(out: &mut Bytes, items: &Items<T>) -> Result<(), NoMemory>
    requires { AreFit T.is_fit items.now }
    ensures added { OnOk result (out.new ≡ out.old ++ list_bytes T.spelling items.now) }
    ensures range { OnOk result (All T.in_range items.now) }
{
    put_u32(out, items.len() as u32)?;
    for item in items.as_slice() {
        item.put(out)?;
    }
    Ok(())
}

/// Adds 1 for yes, 0 for no. Where memory runs out nothing changes.
pub fn put_flag(out: &mut Bytes, flag: bool) -> Result<(), NoMemory>
    ensures ok { OnOk result (out.new ≡ out.old ++ flag_bytes flag) }
    ensures err { OnErr result (out.new ≡ out.old) }
{
    if flag { put_u8(out, 1) } else { put_u8(out, 0) }
}

/// Adds a flag, and the limit where there is one.
pub(crate) fn put_limit(out: &mut Bytes, limit: Option<u16>) -> Result<(), NoMemory>
    ensures added { OnOk result (out.new ≡ out.old ++ option_bytes u16_bytes limit) }
    ensures range { OnOk result (IfSome limit IsU16) }
{
    match limit {
        None => put_u8(out, 0),
        Some(limit) => put_short(out, 1, limit),
    }
}
