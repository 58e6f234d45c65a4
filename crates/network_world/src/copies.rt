//! Lists that are copied.
ghost use Rattle.std.specs.Prelude.{◌≡◌, IfOk};

use base_types::{Bytes, Copied, Entries, Entry, Items, NoMemory, Start, Starts};
use std::alloc::Global;

/// A copy of entries.
pub(crate) fn copied_entries(alloc: Global, entries: &[Entry]) -> Result<Entries, NoMemory>
    ensures { IfOk result (λ copies. copies ≡ entries.now) }
{
    let mut copies = Items::new(alloc);
    for entry in entries {
        copies.push(entry.copy()?)?;
    }
    Ok(copies)
}

/// A copy of launches that were started.
pub(crate) fn copied_starts(alloc: Global, starts: &[Start]) -> Result<Starts, NoMemory>
    ensures { IfOk result (λ copies. copies ≡ starts.now) }
{
    let mut copies = Items::new(alloc);
    for start in starts {
        copies.push(start.copy()?)?;
    }
    Ok(copies)
}

/// A copy of bytes.
pub(crate) fn copied_bytes(alloc: Global, bytes: &[u8]) -> Result<Bytes, NoMemory>
    ensures { IfOk result (λ copies. copies ≡ bytes.now) }
{
    let mut copies = Vec::new(alloc);
    copies.extend_from_slice(bytes)?;
    Ok(Items::of_vec(copies))
}
