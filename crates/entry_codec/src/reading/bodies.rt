//! What entries say.
ghost use Rattle.std.specs.Prelude.{◌≡◌, ◌≤◌, length, IfOk};
ghost use Rattle.entry_codec.specs.Read.{Gives, IsPlace};
ghost use Rattle.entry_codec.specs.Entries.{body_at, event_at, order_at};

use crate::EntryFault;
use crate::reading::events::{
    read_added, read_declined, read_ended, read_failed, read_fulfilled, read_late, read_launched,
    read_lost, read_new_plan, read_obeyed, read_released, read_started, read_stream_ended,
    read_until_passed,
};
use crate::reading::fields::{read_u8, read_u64};
use crate::reading::lists::Read;
use base_types::{Body, Cmd, Feed, Moment};
use std::alloc::Global;

/// The body of an entry of a feed: its kind, which is one of the feed's, and its fields.
#[tactic(auto, unfolding(crate::specs::Entries::body_at))]
pub(crate) fn read_body(
    alloc: Global,
    second: bool,
    feed: &Feed,
    from: &[u8],
    at: usize,
) -> Result<(Body, usize), EntryFault>
    requires { IsPlace from.now at }
    ensures reads { Gives result (body_at second feed.now from.now at) }
    ensures within { IfOk result (λ r. r.1 ≤ length from.now) }
{
    match feed {
        Feed::Events(_) => read_event(alloc, second, from, at),
        Feed::Orders(..) => read_order(alloc, second, from, at),
    }
}

/// The kind of an order, and its command.
#[tactic(auto, unfolding(crate::specs::Read::chain, crate::specs::Fields::choice_at, crate::specs::Entries::order_at))]
fn read_order(
    alloc: Global,
    second: bool,
    from: &[u8],
    at: usize,
) -> Result<(Body, usize), EntryFault>
    requires { IsPlace from.now at }
    ensures reads { Gives result (order_at second from.now at) }
    ensures within { IfOk result (λ r. r.1 ≤ length from.now) }
{
    match read_u8(from, at)? {
        (15, next) => {
            let (cmd, next) = Cmd::read(alloc, second, from, next)?;
            Ok((Body::Order(cmd), next))
        }
        _ => Err(EntryFault::BadField(at as u32)),
    }
}

/// The kind of an event, and its fields. A lateness stands in version 2 alone.
#[tactic(auto, unfolding(crate::specs::Read::chain, crate::specs::Fields::choice_at, crate::specs::Entries::event_at))]
fn read_event(
    alloc: Global,
    second: bool,
    from: &[u8],
    at: usize,
) -> Result<(Body, usize), EntryFault>
    requires { IsPlace from.now at }
    ensures reads { Gives result (event_at second from.now at) }
    ensures within { IfOk result (λ r. r.1 ≤ length from.now) }
{
    match read_u8(from, at)? {
        (1, next) => read_new_plan(alloc, second, from, next),
        (2, next) => read_added(alloc, second, from, next),
        (3, next) => {
            let (time, next) = read_u64(from, next)?;
            Ok((Body::Clock(Moment(time)), next))
        }
        (4, next) => read_released(alloc, second, from, next),
        (5, next) => read_stream_ended(alloc, second, from, next),
        (6, next) => read_until_passed(alloc, second, from, next),
        (7, next) => read_launched(alloc, second, from, next),
        (8, next) => read_started(alloc, second, from, next),
        (9, next) => read_failed(alloc, second, from, next),
        (10, next) => read_ended(alloc, second, from, next),
        (11, next) => read_lost(alloc, second, from, next),
        (12, next) => read_fulfilled(alloc, second, from, next),
        (13, next) => read_obeyed(alloc, second, from, next),
        (14, next) => read_declined(alloc, second, from, next),
        (16, next) if second => read_late(alloc, second, from, next),
        _ => Err(EntryFault::BadField(at as u32)),
    }
}
