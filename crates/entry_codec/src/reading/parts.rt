//! Feeds, counts, objects and choices, and numbers with a meaning of their own.
ghost use Rattle.std.specs.Prelude.{◌≡◌, ◌≤◌, ◌<◌, ◌^◌, length, nat_le, nat_lt, IfOk};
ghost use Rattle.std.specs.Int.{w16, w32};
ghost use Rattle.entry_codec.specs.Read.{Gives, IsPlace};
ghost use Rattle.entry_codec.specs.Fields.{count_at, counts_at, number_with};
ghost use Rattle.entry_codec.specs.Parts.{recovery_at};

use crate::EntryFault;
use crate::reading::fields::{read_u8, read_u16, read_u32, read_u64};
use crate::reading::lists::Read;
use base_types::{Feed, JobNo, Moment, Obj, OnUntil, Recovery, Seen, StreamNo, Why, Ws};
use std::alloc::Global;

impl Read for Ws {
    ghost use Rattle.entry_codec.specs.Fields.{u16_at};

    ghost reader = { λ _. u16_at };

    fn read(
        _alloc: Global,
        _second: bool,
        from: &[u8],
        at: usize,
    ) -> Result<(Ws, usize), EntryFault> {
        let (number, next) = read_u16(from, at)?;
        Ok((Ws(number), next))
    }
}

impl Read for JobNo {
    ghost use Rattle.entry_codec.specs.Fields.{u32_at};

    ghost reader = { λ _. u32_at };

    fn read(
        _alloc: Global,
        _second: bool,
        from: &[u8],
        at: usize,
    ) -> Result<(JobNo, usize), EntryFault> {
        let (number, next) = read_u32(from, at)?;
        Ok((JobNo(number), next))
    }
}

impl Read for StreamNo {
    ghost use Rattle.entry_codec.specs.Fields.{u32_at};

    ghost reader = { λ _. u32_at };

    fn read(
        _alloc: Global,
        _second: bool,
        from: &[u8],
        at: usize,
    ) -> Result<(StreamNo, usize), EntryFault> {
        let (number, next) = read_u32(from, at)?;
        Ok((StreamNo(number), next))
    }
}

impl Read for Moment {
    ghost use Rattle.entry_codec.specs.Fields.{u64_at};

    ghost reader = { λ _. u64_at };

    fn read(
        _alloc: Global,
        _second: bool,
        from: &[u8],
        at: usize,
    ) -> Result<(Moment, usize), EntryFault> {
        let (number, next) = read_u64(from, at)?;
        Ok((Moment(number), next))
    }
}

/// A feed: its choice and its workstations.
impl Read for Feed {
    ghost use Rattle.entry_codec.specs.Parts.{feed_at};

    ghost reader = { λ _. feed_at };

    #[tactic(auto, unfolding(crate::specs::Read::chain, crate::specs::Fields::choice_at, crate::specs::Parts::feed_at))]
    fn read(
        alloc: Global,
        second: bool,
        from: &[u8],
        at: usize,
    ) -> Result<(Feed, usize), EntryFault> {
        match read_u8(from, at)? {
            (0, next) => {
                let (w, next) = Ws::read(alloc, second, from, next)?;
                Ok((Feed::Events(w), next))
            }
            (1, next) => {
                let ((a, w), next) = <(Ws, Ws)>::read(alloc, second, from, next)?;
                Ok((Feed::Orders(a, w), next))
            }
            _ => Err(EntryFault::BadField(at as u32)),
        }
    }
}

/// A number in two bytes that is at least so great.
#[tactic(auto, unfolding(crate::specs::Fields::number_with))]
fn read_workstation(least: u32, from: &[u8], at: usize) -> Result<(u16, usize), EntryFault>
    requires { IsPlace from.now at }
    ensures reads { Gives result (number_with w16 (nat_le least) from.now at) }
    ensures within { IfOk result (λ r. r.1 ≤ length from.now) }
{
    let (ws, next) = read_u16(from, at)?;
    if u32::from(ws) < least {
        return Err(EntryFault::BadField(at as u32));
    }
    Ok((ws, next))
}

/// A number in four bytes that is not 0.
#[tactic(auto, unfolding(crate::specs::Fields::number_with))]
pub(crate) fn read_count(from: &[u8], at: usize) -> Result<(u32, usize), EntryFault>
    requires { IsPlace from.now at }
    ensures reads { Gives result (number_with w32 (nat_lt 0) from.now at) }
    ensures within { IfOk result (λ r. r.1 ≤ length from.now) }
{
    let (count, next) = read_u32(from, at)?;
    if count == 0 {
        return Err(EntryFault::BadField(at as u32));
    }
    Ok((count, next))
}

/// A workstation that is at least so great, and its count, which is not 0.
#[tactic(auto, unfolding(crate::specs::Read::chain, crate::specs::Read::pair, crate::specs::Fields::count_at))]
fn read_seen_count(least: u32, from: &[u8], at: usize) -> Result<((u16, u32), usize), EntryFault>
    requires { IsPlace from.now at }
    ensures reads { Gives result (count_at least from.now at) }
    ensures within { IfOk result (λ r. r.1 ≤ length from.now) }
{
    let (ws, next) = read_workstation(least, from, at)?;
    let (count, next) = read_count(from, next)?;
    Ok(((ws, count), next))
}

/// A count, and so many workstations in ascending order with counts that are not 0. No room is made for what is not
/// there.
impl Read for Seen {
    ghost use Rattle.entry_codec.specs.Fields.{seen_at};

    ghost reader = { λ _. seen_at };

    #[tactic(auto, unfolding(crate::specs::Read::chain, crate::specs::Fields::seen_at))]
    fn read(
        alloc: Global,
        _second: bool,
        from: &[u8],
        at: usize,
    ) -> Result<(Seen, usize), EntryFault> {
        let (count, next) = read_u32(from, at)?;
        read_counts(alloc, count, from, next)
    }
}

/// So many workstations with their counts.
fn read_counts(
    alloc: Global,
    count: u32,
    from: &[u8],
    at: usize,
) -> Result<(Seen, usize), EntryFault>
    requires { IsPlace from.now at }
    ensures reads { Gives result (counts_at 0 count from.now at) }
    ensures within { IfOk result (λ r. r.1 ≤ length from.now) }
{
    let mut seen = Seen::new(alloc);
    let mut least = 0;
    let mut next = at;
    for _ in 0..count {
        let ((ws, entries), after) = read_seen_count(least, from, next)?;
        seen.push((Ws(ws), entries))?;
        least = u32::from(ws) + 1;
        next = after;
    }
    Ok((seen, next))
}

/// A job or a stream: its choice and its number.
impl Read for Obj {
    ghost use Rattle.entry_codec.specs.Parts.{obj_at};

    ghost reader = { λ _. obj_at };

    #[tactic(auto, unfolding(crate::specs::Read::chain, crate::specs::Fields::choice_at, crate::specs::Parts::obj_at))]
    fn read(
        _alloc: Global,
        _second: bool,
        from: &[u8],
        at: usize,
    ) -> Result<(Obj, usize), EntryFault> {
        match read_u8(from, at)? {
            (0, next) => {
                let (number, next) = read_u32(from, next)?;
                Ok((Obj::Job(JobNo(number)), next))
            }
            (1, next) => {
                let (number, next) = read_u32(from, next)?;
                Ok((Obj::Stream(StreamNo(number)), next))
            }
            _ => Err(EntryFault::BadField(at as u32)),
        }
    }
}

/// What a passed UNTIL does.
impl Read for OnUntil {
    ghost use Rattle.entry_codec.specs.Parts.{until_at};

    ghost reader = { λ _. until_at };

    #[tactic(auto, unfolding(crate::specs::Fields::choice_at, crate::specs::Parts::until_at))]
    fn read(
        _alloc: Global,
        _second: bool,
        from: &[u8],
        at: usize,
    ) -> Result<(OnUntil, usize), EntryFault> {
        match read_u8(from, at)? {
            (0, next) => Ok((OnUntil::Suppr, next)),
            (1, next) => Ok((OnUntil::Cont, next)),
            (2, next) => Ok((OnUntil::Canc, next)),
            _ => Err(EntryFault::BadField(at as u32)),
        }
    }
}

/// What follows a bad end.
#[tactic(auto, unfolding(crate::specs::Fields::choice_at, crate::specs::Parts::recovery_at))]
pub(crate) fn read_recovery(from: &[u8], at: usize) -> Result<(Recovery, usize), EntryFault>
    requires { IsPlace from.now at }
    ensures reads { Gives result (recovery_at from.now at) }
    ensures within { IfOk result (λ r. r.1 ≤ length from.now) }
{
    match read_u8(from, at)? {
        (0, next) => Ok((Recovery::Stop, next)),
        (1, next) => Ok((Recovery::Continue, next)),
        (2, next) => Ok((Recovery::Rerun, next)),
        _ => Err(EntryFault::BadField(at as u32)),
    }
}

/// The reason of a declined order.
impl Read for Why {
    ghost use Rattle.entry_codec.specs.Entries.{why_at};

    ghost reader = { λ _. why_at };

    #[tactic(auto, unfolding(crate::specs::Fields::choice_at, crate::specs::Entries::why_at))]
    fn read(
        _alloc: Global,
        _second: bool,
        from: &[u8],
        at: usize,
    ) -> Result<(Why, usize), EntryFault> {
        match read_u8(from, at)? {
            (1, next) => Ok((Why::NotMine, next)),
            (2, next) => Ok((Why::NotThere, next)),
            (3, next) => Ok((Why::Running, next)),
            (4, next) => Ok((Why::NotRunning, next)),
            (5, next) => Ok((Why::NotEnded, next)),
            (6, next) => Ok((Why::Ended, next)),
            (7, next) => Ok((Why::AlreadyThere, next)),
            (8, next) => Ok((Why::OutOfRange, next)),
            (9, next) => Ok((Why::NotMaster, next)),
            (10, next) => Ok((Why::NotBuilt, next)),
            _ => Err(EntryFault::BadField(at as u32)),
        }
    }
}
