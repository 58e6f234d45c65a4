//! Commands.
ghost use Rattle.std.specs.Prelude.{◌≡◌, ◌≤◌, length, IfOk};
ghost use Rattle.model.specs.Types.{AddDep, DelDep, AltPri, StreamLimit, Total, ReplyGlobal, ReplyOwn};
ghost use Rattle.entry_codec.specs.Read.{Gives, IsPlace, two, three};
ghost use Rattle.entry_codec.specs.Fields.{u8_at, u16_at, u32_at, flag_at};
ghost use Rattle.entry_codec.specs.Parts.{dep_at, obj_at};

use crate::EntryFault;
use crate::reading::fields::{read_u8, read_u16, read_u32};
use crate::reading::lists::Read;
use base_types::{Cmd, Dep, JobNo, Obj, StreamDraft, StreamNo, Ws};
use std::alloc::Global;

/// A command: its choice and its fields.
impl Read for Cmd {
    ghost use Rattle.entry_codec.specs.Commands.{cmd_at};

    ghost reader = { cmd_at };

    #[tactic(auto, unfolding(crate::specs::Read::chain, crate::specs::Fields::choice_at, crate::specs::Commands::cmd_at))]
    fn read(
        alloc: Global,
        second: bool,
        from: &[u8],
        at: usize,
    ) -> Result<(Cmd, usize), EntryFault> {
        match read_u8(from, at)? {
            (1, next) => read_add_dep(alloc, second, from, next),
            (2, next) => read_del_dep(alloc, second, from, next),
            (3, next) => {
                let (obj, next) = Obj::read(alloc, second, from, next)?;
                Ok((Cmd::Release(obj), next))
            }
            (4, next) => read_alt_pri(alloc, second, from, next),
            (5, next) => {
                let (obj, next) = Obj::read(alloc, second, from, next)?;
                Ok((Cmd::Cancel(obj), next))
            }
            (6, next) => {
                let (job, next) = read_u32(from, next)?;
                Ok((Cmd::Confirm(JobNo(job)), next))
            }
            (7, next) => {
                let (job, next) = read_u32(from, next)?;
                Ok((Cmd::Kill(JobNo(job)), next))
            }
            (8, next) => {
                let (job, next) = read_u32(from, next)?;
                Ok((Cmd::Rerun(JobNo(job)), next))
            }
            (9, next) => {
                let (priority, next) = read_u8(from, next)?;
                Ok((Cmd::Fence(priority), next))
            }
            (10, next) => {
                let (limit, next) = read_u16(from, next)?;
                Ok((Cmd::Limit(limit), next))
            }
            (11, next) => read_stream_limit(alloc, second, from, next),
            (12, next) => read_total(alloc, second, from, next),
            (13, next) => read_reply_global(alloc, second, from, next),
            (14, next) => read_reply_own(alloc, second, from, next),
            (15, next) => Ok((Cmd::Start, next)),
            (16, next) => Ok((Cmd::Stop, next)),
            (17, next) => {
                let (draft, next) = StreamDraft::read(alloc, second, from, next)?;
                Ok((Cmd::Submit(draft), next))
            }
            (18, next) => {
                let (ws, next) = read_u16(from, next)?;
                Ok((Cmd::SwitchMgr(Ws(ws)), next))
            }
            _ => Err(EntryFault::BadField(at as u32)),
        }
    }
}

/// A new dependency: its object and what it says.
#[tactic(auto, unfolding(crate::specs::Read::chain))]
fn read_add_dep(
    alloc: Global,
    second: bool,
    from: &[u8],
    at: usize,
) -> Result<(Cmd, usize), EntryFault>
    requires { IsPlace from.now at }
    ensures reads { Gives result (two obj_at (dep_at second) AddDep from.now at) }
    ensures within { IfOk result (λ r. r.1 ≤ length from.now) }
{
    let ((obj, dep), next) = <(Obj, Dep)>::read(alloc, second, from, at)?;
    Ok((Cmd::AddDep(obj, dep), next))
}

/// A dependency to take away: its object and its number.
#[tactic(auto, unfolding(crate::specs::Read::chain))]
fn read_del_dep(
    alloc: Global,
    second: bool,
    from: &[u8],
    at: usize,
) -> Result<(Cmd, usize), EntryFault>
    requires { IsPlace from.now at }
    ensures reads { Gives result (two obj_at u16_at DelDep from.now at) }
    ensures within { IfOk result (λ r. r.1 ≤ length from.now) }
{
    let ((obj, dep), next) = <(Obj, u16)>::read(alloc, second, from, at)?;
    Ok((Cmd::DelDep(obj, dep), next))
}

/// Another priority: its object and the priority.
#[tactic(auto, unfolding(crate::specs::Read::chain))]
fn read_alt_pri(
    alloc: Global,
    second: bool,
    from: &[u8],
    at: usize,
) -> Result<(Cmd, usize), EntryFault>
    requires { IsPlace from.now at }
    ensures reads { Gives result (two obj_at u8_at AltPri from.now at) }
    ensures within { IfOk result (λ r. r.1 ≤ length from.now) }
{
    let ((obj, priority), next) = <(Obj, u8)>::read(alloc, second, from, at)?;
    Ok((Cmd::AltPri(obj, priority), next))
}

/// The limit of a stream: the stream and the limit.
#[tactic(auto, unfolding(crate::specs::Read::chain))]
fn read_stream_limit(
    alloc: Global,
    second: bool,
    from: &[u8],
    at: usize,
) -> Result<(Cmd, usize), EntryFault>
    requires { IsPlace from.now at }
    ensures reads { Gives result (two u32_at u16_at StreamLimit from.now at) }
    ensures within { IfOk result (λ r. r.1 ≤ length from.now) }
{
    let ((stream, limit), next) = <(StreamNo, u16)>::read(alloc, second, from, at)?;
    Ok((Cmd::StreamLimit(stream, limit), next))
}

/// The units of a resource: its number and how many there are.
#[tactic(auto, unfolding(crate::specs::Read::chain))]
fn read_total(
    alloc: Global,
    second: bool,
    from: &[u8],
    at: usize,
) -> Result<(Cmd, usize), EntryFault>
    requires { IsPlace from.now at }
    ensures reads { Gives result (two u16_at u16_at Total from.now at) }
    ensures within { IfOk result (λ r. r.1 ≤ length from.now) }
{
    let ((resource, total), next) = <(u16, u16)>::read(alloc, second, from, at)?;
    Ok((Cmd::Total(resource, total), next))
}

/// The answer to a prompt of the network: its number and the answer.
#[tactic(auto, unfolding(crate::specs::Read::chain))]
fn read_reply_global(
    alloc: Global,
    second: bool,
    from: &[u8],
    at: usize,
) -> Result<(Cmd, usize), EntryFault>
    requires { IsPlace from.now at }
    ensures reads { Gives result (two u16_at flag_at ReplyGlobal from.now at) }
    ensures within { IfOk result (λ r. r.1 ≤ length from.now) }
{
    let ((prompt, yes), next) = <(u16, bool)>::read(alloc, second, from, at)?;
    Ok((Cmd::ReplyGlobal(prompt, yes), next))
}

/// The answer to a prompt of an object: the object, the number of its dependency and the answer.
#[tactic(auto, unfolding(crate::specs::Read::chain))]
fn read_reply_own(
    alloc: Global,
    second: bool,
    from: &[u8],
    at: usize,
) -> Result<(Cmd, usize), EntryFault>
    requires { IsPlace from.now at }
    ensures reads { Gives result (three obj_at u16_at flag_at ReplyOwn from.now at) }
    ensures within { IfOk result (λ r. r.1 ≤ length from.now) }
{
    let (((obj, dep), yes), next) = <((Obj, u16), bool)>::read(alloc, second, from, at)?;
    Ok((Cmd::ReplyOwn(obj, dep, yes), next))
}
