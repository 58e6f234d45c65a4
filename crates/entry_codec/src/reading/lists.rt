//! Values by their types, and how they are put together: pairs, options and lists.
ghost use Rattle.std.specs.Prelude.{◌≡◌, ◌≤◌, length, IfOk};
ghost use Rattle.entry_codec.specs.Read.{Gives, IsPlace};
ghost use Rattle.entry_codec.specs.Fields.{items_at};

use crate::EntryFault;
use crate::reading::fields::{read_u8, read_u32};
use base_types::Items;
use std::alloc::Global;

/// A value that is read by its type.
pub(crate) trait Read: Sized + Drop {
    ghost use Rattle.std.specs.Prelude.{Bool};
    ghost use Rattle.entry_codec.specs.Read.{Reader};

    /// How its bytes are read in an entry of version 2, and in one of version 1.
    ghost reader: { Bool → Reader Self };

    /// The value at a place.
    fn read(
        alloc: Global,
        second: bool,
        from: &[u8],
        at: usize,
    ) -> Result<(Self, usize), EntryFault>
        requires { IsPlace from.now at }
        ensures reads { Gives result (reader second from.now at) }
        ensures within { IfOk result (λ r. r.1 ≤ length from.now) };
}

/// A value, and behind it another.
impl<A: Read, B: Read> Read for (A, B) {
    ghost use Rattle.entry_codec.specs.Read.{pair};

    ghost reader = { λ second. pair (A.reader second) (B.reader second) };

    #[tactic(auto, unfolding(crate::specs::Read::chain, crate::specs::Read::pair))]
    fn read(
        alloc: Global,
        second: bool,
        from: &[u8],
        at: usize,
    ) -> Result<((A, B), usize), EntryFault> {
        let (first, next) = A::read(alloc, second, from, at)?;
        let (other, next) = B::read(alloc, second, from, next)?;
        Ok(((first, other), next))
    }
}

/// A flag, and after 1 the value.
impl<T: Read> Read for Option<T> {
    ghost use Rattle.entry_codec.specs.Fields.{option_at};

    ghost reader = { λ second. option_at (T.reader second) };

    #[tactic(auto, unfolding(crate::specs::Read::chain, crate::specs::Fields::choice_at))]
    fn read(
        alloc: Global,
        second: bool,
        from: &[u8],
        at: usize,
    ) -> Result<(Option<T>, usize), EntryFault> {
        match read_u8(from, at)? {
            (0, next) => Ok((None, next)),
            (1, next) => {
                let (value, next) = T::read(alloc, second, from, next)?;
                Ok((Some(value), next))
            }
            _ => Err(EntryFault::BadField(at as u32)),
        }
    }
}

/// A count and so many items. No room is made for items that are not there.
impl<T: Read> Read for Items<T> {
    ghost use Rattle.entry_codec.specs.Fields.{list_at};

    ghost reader = { λ second. list_at (T.reader second) };

    #[tactic(auto, unfolding(crate::specs::Read::chain, crate::specs::Fields::list_at))]
    fn read(
        alloc: Global,
        second: bool,
        from: &[u8],
        at: usize,
    ) -> Result<(Items<T>, usize), EntryFault> {
        let (count, next) = read_u32(from, at)?;
        read_items(alloc, second, count, from, next)
    }
}

/// So many items.
pub(crate) fn read_items<T: Read>(
    alloc: Global,
    second: bool,
    count: u32,
    from: &[u8],
    at: usize,
) -> Result<(Items<T>, usize), EntryFault>
    requires { IsPlace from.now at }
    ensures reads { Gives result (items_at (T.reader second) count from.now at) }
    ensures within { IfOk result (λ r. r.1 ≤ length from.now) }
{
    let mut items = Items::new(alloc);
    let mut next = at;
    for _ in 0..count {
        let (item, after) = T::read(alloc, second, from, next)?;
        items.push(item)?;
        next = after;
    }
    Ok((items, next))
}
