//! Dependencies, of documents and of drafts.
ghost use Rattle.std.specs.Prelude.{◌≡◌, ◌≤◌, length, IfOk};
ghost use Rattle.entry_codec.specs.Read.{Gives, IsPlace};
ghost use Rattle.entry_codec.specs.Parts.{dep_at};

use crate::EntryFault;
use crate::reading::fields::{read_u8, read_u16, read_u32, read_u64};
use crate::reading::lists::Read;
use base_types::{Dep, DraftDep, JobNo, Moment, OnUntil, PromptRef, StreamNo, Text, Ws};
use std::alloc::Global;

impl Read for Dep {
    ghost use Rattle.entry_codec.specs.Parts.{dep_at};

    ghost reader = { dep_at };

    fn read(
        alloc: Global,
        second: bool,
        from: &[u8],
        at: usize,
    ) -> Result<(Dep, usize), EntryFault> {
        read_dep(alloc, second, from, at)
    }
}

/// A dependency: its choice and its fields. A DEADLINE stands in version 2 alone.
#[tactic(auto, unfolding(crate::specs::Read::chain, crate::specs::Fields::choice_at, crate::specs::Parts::dep_at))]
fn read_dep(alloc: Global, second: bool, from: &[u8], at: usize) -> Result<(Dep, usize), EntryFault>
    requires { IsPlace from.now at }
    ensures reads { Gives result (dep_at second from.now at) }
    ensures within { IfOk result (λ r. r.1 ≤ length from.now) }
{
    match read_u8(from, at)? {
        (1, next) => {
            let (job, next) = read_u32(from, next)?;
            Ok((Dep::FollowsJob(JobNo(job)), next))
        }
        (2, next) => {
            let (stream, next) = read_u32(from, next)?;
            Ok((Dep::FollowsStream(StreamNo(stream)), next))
        }
        (3, next) => {
            let ((resource, units), next) = <(u16, u16)>::read(alloc, second, from, next)?;
            Ok((Dep::Needs(resource, units), next))
        }
        (4, next) => {
            let (prompt, next) = read_u16(from, next)?;
            Ok((Dep::Prompt(PromptRef::Global(prompt)), next))
        }
        (5, next) => {
            let (text, next) = Text::read(alloc, second, from, next)?;
            Ok((Dep::Prompt(PromptRef::Own(text)), next))
        }
        (6, next) => {
            let (time, next) = read_u64(from, next)?;
            Ok((Dep::At(Moment(time)), next))
        }
        (7, next) => {
            let ((time, mark), next) = <(Moment, OnUntil)>::read(alloc, second, from, next)?;
            Ok((Dep::Until(time, mark), next))
        }
        (8, next) => {
            let (path, next) = Text::read(alloc, second, from, next)?;
            Ok((Dep::Outside(path), next))
        }
        (9, next) if second => {
            let (time, next) = read_u64(from, next)?;
            Ok((Dep::Deadline(Moment(time)), next))
        }
        _ => Err(EntryFault::BadField(at as u32)),
    }
}

impl Read for DraftDep {
    ghost use Rattle.entry_codec.specs.Parts.{draft_dep_at};

    ghost reader = { draft_dep_at };

    #[tactic(auto, unfolding(crate::specs::Read::chain, crate::specs::Parts::draft_dep_at))]
    fn read(
        alloc: Global,
        second: bool,
        from: &[u8],
        at: usize,
    ) -> Result<(DraftDep, usize), EntryFault> {
        let (choice, next) = read_u8(from, at)?;
        if choice == 0 {
            let (((ws, name), job), next) = <((Ws, Text), Option<Text>)>::read(
                alloc, second, from, next,
            )?;
            Ok((DraftDep::Follows(ws, name, job), next))
        } else {
            let (dep, next) = read_dep(alloc, second, from, at)?;
            Ok((DraftDep::Plain(dep), next))
        }
    }
}
