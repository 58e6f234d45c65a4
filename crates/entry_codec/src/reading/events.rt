//! What events say, behind their kind.
ghost use Rattle.std.specs.Prelude.{◌≡◌, ◌≤◌, length, IfOk};
ghost use Rattle.model.specs.Types.{NewPlan, Added, Released, StreamEnded, UntilPassed, Launched, Started};
ghost use Rattle.model.specs.Types.{Failed, Ended, Lost, Fulfilled, Obeyed, Declined, Late};
ghost use Rattle.entry_codec.specs.Read.{Gives, IsPlace, two, three, four};
ghost use Rattle.entry_codec.specs.Fields.{u16_at, u32_at, i32_at, flag_at, list_at, seen_at};
ghost use Rattle.entry_codec.specs.Parts.{obj_at, stream_at, until_at};
ghost use Rattle.entry_codec.specs.Commands.{cmd_at};
ghost use Rattle.entry_codec.specs.Entries.{why_at};

use crate::EntryFault;
use crate::reading::lists::Read;
use base_types::{
    Body, Cmd, JobNo, Obj, OnUntil, Seen, SharedDocs, StreamDoc, StreamDocs, StreamNo, StreamNos,
    Why, Ws,
};
use std::alloc::Global;

/// A new plan: its run, the cut, the streams that are carried and the fresh documents.
#[tactic(auto, unfolding(crate::specs::Read::chain))]
pub(crate) fn read_new_plan(
    alloc: Global,
    second: bool,
    from: &[u8],
    at: usize,
) -> Result<(Body, usize), EntryFault>
    requires { IsPlace from.now at }
    ensures reads { Gives result (four u32_at seen_at (list_at u32_at) (list_at (stream_at second)) NewPlan from.now at) }
    ensures within { IfOk result (λ r. r.1 ≤ length from.now) }
{
    let ((((run, cut), carried), docs), next) = <(((u32, Seen), StreamNos), StreamDocs)>::read(
        alloc, second, from, at,
    )?;
    match SharedDocs::of(alloc, docs) {
        Ok(docs) => Ok((Body::NewPlan(run, cut, carried, docs), next)),
        Err(_) => Err(EntryFault::NoMemory),
    }
}

/// A submitted stream: its order and its document.
#[tactic(auto, unfolding(crate::specs::Read::chain))]
pub(crate) fn read_added(
    alloc: Global,
    second: bool,
    from: &[u8],
    at: usize,
) -> Result<(Body, usize), EntryFault>
    requires { IsPlace from.now at }
    ensures reads { Gives result (three u16_at u32_at (stream_at second) Added from.now at) }
    ensures within { IfOk result (λ r. r.1 ≤ length from.now) }
{
    let (((issuer, order), doc), next) = <((Ws, u32), StreamDoc)>::read(alloc, second, from, at)?;
    Ok((Body::Added(issuer, order, doc), next))
}

/// A stream that is released, and what was seen.
#[tactic(auto, unfolding(crate::specs::Read::chain))]
pub(crate) fn read_released(
    alloc: Global,
    second: bool,
    from: &[u8],
    at: usize,
) -> Result<(Body, usize), EntryFault>
    requires { IsPlace from.now at }
    ensures reads { Gives result (two u32_at seen_at Released from.now at) }
    ensures within { IfOk result (λ r. r.1 ≤ length from.now) }
{
    let ((stream, seen), next) = <(StreamNo, Seen)>::read(alloc, second, from, at)?;
    Ok((Body::Released(stream, seen), next))
}

/// A stream that has ended, and what was seen.
#[tactic(auto, unfolding(crate::specs::Read::chain))]
pub(crate) fn read_stream_ended(
    alloc: Global,
    second: bool,
    from: &[u8],
    at: usize,
) -> Result<(Body, usize), EntryFault>
    requires { IsPlace from.now at }
    ensures reads { Gives result (two u32_at seen_at StreamEnded from.now at) }
    ensures within { IfOk result (λ r. r.1 ≤ length from.now) }
{
    let ((stream, seen), next) = <(StreamNo, Seen)>::read(alloc, second, from, at)?;
    Ok((Body::StreamEnded(stream, seen), next))
}

/// An UNTIL that has passed: its object, its number and what it does.
#[tactic(auto, unfolding(crate::specs::Read::chain))]
pub(crate) fn read_until_passed(
    alloc: Global,
    second: bool,
    from: &[u8],
    at: usize,
) -> Result<(Body, usize), EntryFault>
    requires { IsPlace from.now at }
    ensures reads { Gives result (three obj_at u16_at until_at UntilPassed from.now at) }
    ensures within { IfOk result (λ r. r.1 ≤ length from.now) }
{
    let (((obj, dep), mark), next) = <((Obj, u16), OnUntil)>::read(alloc, second, from, at)?;
    Ok((Body::UntilPassed(obj, dep, mark), next))
}

/// A launch: its job, its number and what was seen.
#[tactic(auto, unfolding(crate::specs::Read::chain))]
pub(crate) fn read_launched(
    alloc: Global,
    second: bool,
    from: &[u8],
    at: usize,
) -> Result<(Body, usize), EntryFault>
    requires { IsPlace from.now at }
    ensures reads { Gives result (three u32_at u32_at seen_at Launched from.now at) }
    ensures within { IfOk result (λ r. r.1 ≤ length from.now) }
{
    let (((job, number), seen), next) = <((JobNo, u32), Seen)>::read(alloc, second, from, at)?;
    Ok((Body::Launched(job, number, seen), next))
}

/// A job that has started, and the number of its launch.
#[tactic(auto, unfolding(crate::specs::Read::chain))]
pub(crate) fn read_started(
    alloc: Global,
    second: bool,
    from: &[u8],
    at: usize,
) -> Result<(Body, usize), EntryFault>
    requires { IsPlace from.now at }
    ensures reads { Gives result (two u32_at u32_at Started from.now at) }
    ensures within { IfOk result (λ r. r.1 ≤ length from.now) }
{
    let ((job, number), next) = <(JobNo, u32)>::read(alloc, second, from, at)?;
    Ok((Body::Started(job, number), next))
}

/// A job that could not start, and the number of its launch.
#[tactic(auto, unfolding(crate::specs::Read::chain))]
pub(crate) fn read_failed(
    alloc: Global,
    second: bool,
    from: &[u8],
    at: usize,
) -> Result<(Body, usize), EntryFault>
    requires { IsPlace from.now at }
    ensures reads { Gives result (two u32_at u32_at Failed from.now at) }
    ensures within { IfOk result (λ r. r.1 ≤ length from.now) }
{
    let ((job, number), next) = <(JobNo, u32)>::read(alloc, second, from, at)?;
    Ok((Body::Failed(job, number), next))
}

/// A job that is lost, and the number of its launch.
#[tactic(auto, unfolding(crate::specs::Read::chain))]
pub(crate) fn read_lost(
    alloc: Global,
    second: bool,
    from: &[u8],
    at: usize,
) -> Result<(Body, usize), EntryFault>
    requires { IsPlace from.now at }
    ensures reads { Gives result (two u32_at u32_at Lost from.now at) }
    ensures within { IfOk result (λ r. r.1 ≤ length from.now) }
{
    let ((job, number), next) = <(JobNo, u32)>::read(alloc, second, from, at)?;
    Ok((Body::Lost(job, number), next))
}

/// A job that has ended: the number of its launch, its return code and whether it is good.
#[tactic(auto, unfolding(crate::specs::Read::chain))]
pub(crate) fn read_ended(
    alloc: Global,
    second: bool,
    from: &[u8],
    at: usize,
) -> Result<(Body, usize), EntryFault>
    requires { IsPlace from.now at }
    ensures reads { Gives result (four u32_at u32_at i32_at flag_at Ended from.now at) }
    ensures within { IfOk result (λ r. r.1 ≤ length from.now) }
{
    let ((((job, number), code), good), next) = <(((JobNo, u32), i32), bool)>::read(
        alloc, second, from, at,
    )?;
    Ok((Body::Ended(job, number, code, good), next))
}

/// A dependency that is fulfilled: its object and its number.
#[tactic(auto, unfolding(crate::specs::Read::chain))]
pub(crate) fn read_fulfilled(
    alloc: Global,
    second: bool,
    from: &[u8],
    at: usize,
) -> Result<(Body, usize), EntryFault>
    requires { IsPlace from.now at }
    ensures reads { Gives result (two obj_at u16_at Fulfilled from.now at) }
    ensures within { IfOk result (λ r. r.1 ≤ length from.now) }
{
    let ((obj, dep), next) = <(Obj, u16)>::read(alloc, second, from, at)?;
    Ok((Body::Fulfilled(obj, dep), next))
}

/// A DEADLINE that has passed: its object and its number.
#[tactic(auto, unfolding(crate::specs::Read::chain))]
pub(crate) fn read_late(
    alloc: Global,
    second: bool,
    from: &[u8],
    at: usize,
) -> Result<(Body, usize), EntryFault>
    requires { IsPlace from.now at }
    ensures reads { Gives result (two obj_at u16_at Late from.now at) }
    ensures within { IfOk result (λ r. r.1 ≤ length from.now) }
{
    let ((obj, dep), next) = <(Obj, u16)>::read(alloc, second, from, at)?;
    Ok((Body::Late(obj, dep), next))
}

/// An order that is obeyed: who gave it, its place and its command.
#[tactic(auto, unfolding(crate::specs::Read::chain))]
pub(crate) fn read_obeyed(
    alloc: Global,
    second: bool,
    from: &[u8],
    at: usize,
) -> Result<(Body, usize), EntryFault>
    requires { IsPlace from.now at }
    ensures reads { Gives result (three u16_at u32_at (cmd_at second) Obeyed from.now at) }
    ensures within { IfOk result (λ r. r.1 ≤ length from.now) }
{
    let (((issuer, order), cmd), next) = <((Ws, u32), Cmd)>::read(alloc, second, from, at)?;
    Ok((Body::Obeyed(issuer, order, cmd), next))
}

/// An order that is declined: who gave it, its place and the reason.
#[tactic(auto, unfolding(crate::specs::Read::chain))]
pub(crate) fn read_declined(
    alloc: Global,
    second: bool,
    from: &[u8],
    at: usize,
) -> Result<(Body, usize), EntryFault>
    requires { IsPlace from.now at }
    ensures reads { Gives result (three u16_at u32_at why_at Declined from.now at) }
    ensures within { IfOk result (λ r. r.1 ≤ length from.now) }
{
    let (((issuer, order), why), next) = <((Ws, u32), Why)>::read(alloc, second, from, at)?;
    Ok((Body::Declined(issuer, order, why), next))
}
