//! Whole entries.
ghost use Rattle.std.specs.Prelude.{◌≡◌, ◌≢◌, ◌≤◌, ◌++◌, ℕ, List, length, Ok, Err, IfOk, IfErr};
ghost use Rattle.std.specs.Result.{IsErrOf};
ghost use Rattle.model.specs.Types.{Entry};
ghost use Rattle.model.specs.Fit.{IsFit};
ghost use Rattle.model.specs.Ranges.{InRange};
ghost use Rattle.model.specs.Spelling.{entry_bytes};
ghost use Rattle.entry_codec.specs.declared.EntryFault.TheVariants.{TooMuch, Version};
ghost use Rattle.entry_codec.specs.Read.{Gives, IsPlace};
ghost use Rattle.entry_codec.specs.Entries.{entry_at, entry_in, version_at};
ghost use Rattle.entry_codec.specs.Entries.{HasOtherVersion, IsLeftAt, IsLasting};

use crate::EntryFault;
use crate::reading::bodies::read_body;
use crate::reading::fields::read_u8;
use crate::reading::lists::Read;
use crate::reading::parts::read_count;
use crate::versions::version;
use base_types::{Entry, Feed};
use std::alloc::Global;

/// The entry that the bytes are, which are at most 4,294,967,295.
///
/// Bytes that are no fit entry's spelling are answered with their first fault from the left: Short where bytes of a
/// field are missing, Version where the version is neither 1 nor 2, BadField where a field has a value that it may not
/// have, TooMuch where bytes are left. Where there is none of these, an entry that is told in version 2 and needs
/// version 1 is `BadField(0)`. `NoMemory` comes only where memory runs out.
pub fn read_entry(alloc: Global, bytes: &[u8]) -> Result<Entry, EntryFault>
    requires { length bytes.now ≤ 4294967295 }
    // What is read is fit, and the bytes are its spelling.
    ensures found { IfOk result (λ e. IsFit e × (bytes.now ≡ entry_bytes e)) }
    // The spelling of a fit entry is read as that entry.
    ensures again { (e : Entry) → IsFit e → InRange e → bytes.now ≡ entry_bytes e → Gives result (Ok e) }
    // Another version is told where the first byte is one, and nowhere else.
    ensures version { IsErrOf result Version → HasOtherVersion bytes.now }
    ensures other_version { HasOtherVersion bytes.now → Gives result (Err Version) }
    // Bytes are told as left over behind a fit entry, and nowhere else.
    ensures too_much { (p : ℕ) → IsErrOf result (TooMuch p) → IsLeftAt bytes.now p }
    ensures left_over { (p : ℕ) (l : IsLeftAt bytes.now p) → InRange l.entry → Gives result (Err (TooMuch p)) }
    // Which answer it is: the entry, or the first fault from the left.
    ensures exact { Gives result (entry_in bytes.now) }
    // No entry begins with bytes that have another fault than missing bytes.
    ensures lasting { IfErr result (λ f. IsLasting f → (e : Entry) (more : List ℕ) → IsFit e → InRange e
        → bytes.now ++ more ≢ entry_bytes e) }
{
    read_by_format(alloc, bytes)
}

/// The same, by the format alone.
#[tactic(auto, unfolding(crate::specs::Entries::entry_in))]
fn read_by_format(alloc: Global, bytes: &[u8]) -> Result<Entry, EntryFault>
    requires { length bytes.now ≤ 4294967295 }
    ensures { Gives result (entry_in bytes.now) }
{
    let ((number, entry), next) = read_front(alloc, bytes)?;
    if next < bytes.len() {
        return Err(EntryFault::TooMuch(next as u32));
    }
    if version(&entry.body) != number {
        return Err(EntryFault::BadField(0));
    }
    Ok(entry)
}

/// The version and the entry at the front of the bytes: its version, its feed, its place, its kind and its body.
#[tactic(auto, unfolding(crate::specs::Read::chain, crate::specs::Entries::entry_at))]
fn read_front(alloc: Global, from: &[u8]) -> Result<((u8, Entry), usize), EntryFault>
    requires { IsPlace from.now 0 }
    ensures reads { Gives result (entry_at from.now 0) }
    ensures within { IfOk result (λ r. r.1 ≤ length from.now) }
{
    let (number, next) = read_version(from)?;
    let (feed, next) = Feed::read(alloc, number == 2, from, next)?;
    let (place, next) = read_count(from, next)?;
    let (body, next) = read_body(alloc, number == 2, &feed, from, next)?;
    Ok(((number, Entry { feed, place, body }), next))
}

/// The version, which is 1 or 2.
#[tactic(auto, unfolding(crate::specs::Entries::version_at))]
fn read_version(from: &[u8]) -> Result<(u8, usize), EntryFault>
    requires { IsPlace from.now 0 }
    ensures reads { Gives result (version_at from.now 0) }
    ensures within { IfOk result (λ r. r.1 ≤ length from.now) }
{
    match read_u8(from, 0)? {
        (1, next) => Ok((1, next)),
        (2, next) => Ok((2, next)),
        _ => Err(EntryFault::Version),
    }
}
