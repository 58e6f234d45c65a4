//! The documents of streams and jobs, and their parts.
ghost use Rattle.std.specs.Prelude.{◌≡◌, ◌≤◌, length, nat_le, IfOk};
ghost use Rattle.std.specs.Int.{w8};
ghost use Rattle.entry_codec.specs.Read.{Gives, IsPlace, one};
ghost use Rattle.entry_codec.specs.Fields.{i32_at, number_with};
ghost use Rattle.entry_codec.specs.Parts.{cond_at};
ghost use Rattle.base_types.specs.declared.CondOp.TheVariants.{Cmp};

use crate::EntryFault;
use crate::reading::fields::{read_i32, read_u8};
use crate::reading::lists::{Read, read_items};
use crate::reading::parts::read_recovery;
use base_types::{
    Cond, CondOp, Deps, JobDoc, JobNo, Jobs, Recovery, Rel, StreamDoc, StreamNo, Text, Work, Ws,
};
use std::alloc::Global;

/// What documents and drafts begin with: the workstation, the name and the priority.
pub(crate) type Named = ((Ws, Text), u8);

/// What streams begin with: that, the limit, and whether an unfinished stream is carried.
pub(crate) type Front = ((Named, Option<u16>), bool);

/// What a job runs, for whom, and what its end means.
#[derive(Drop)]
pub(crate) struct Task {
    pub(crate) work: Work,
    pub(crate) logon: Text,
    pub(crate) cond: Cond,
    pub(crate) recovery: Recovery,
}

impl Read for Task {
    ghost use Rattle.entry_codec.specs.Parts.{task_at};

    ghost reader = { λ _. task_at };

    #[tactic(auto, unfolding(crate::specs::Read::chain, crate::specs::Parts::task_at))]
    fn read(
        alloc: Global,
        second: bool,
        from: &[u8],
        at: usize,
    ) -> Result<(Task, usize), EntryFault> {
        let ((work, logon), next) = <(Work, Text)>::read(alloc, second, from, at)?;
        let (cond, next) = read_cond(alloc, second, from, next)?;
        let (recovery, next) = read_recovery(from, next)?;
        let task = Task {
            work,
            logon,
            cond,
            recovery,
        };
        Ok((task, next))
    }
}

impl Read for JobDoc {
    ghost use Rattle.entry_codec.specs.Parts.{job_at};

    ghost reader = { job_at };

    #[tactic(auto, unfolding(crate::specs::Read::chain, crate::specs::Parts::job_at))]
    fn read(
        alloc: Global,
        second: bool,
        from: &[u8],
        at: usize,
    ) -> Result<(JobDoc, usize), EntryFault> {
        let ((((no, named), task), deps), next) = <(((JobNo, Named), Task), Deps)>::read(
            alloc, second, from, at,
        )?;
        let ((ws, name), priority) = named;
        let Task {
            work,
            logon,
            cond,
            recovery,
        } = task;
        let doc = JobDoc {
            no,
            ws,
            name,
            priority,
            work,
            logon,
            cond,
            recovery,
            deps,
        };
        Ok((doc, next))
    }
}

impl Read for StreamDoc {
    ghost use Rattle.entry_codec.specs.Parts.{stream_at};

    ghost reader = { stream_at };

    #[tactic(auto, unfolding(crate::specs::Read::chain, crate::specs::Parts::stream_at))]
    fn read(
        alloc: Global,
        second: bool,
        from: &[u8],
        at: usize,
    ) -> Result<(StreamDoc, usize), EntryFault> {
        let ((((no, front), deps), jobs), next) = <(((StreamNo, Front), Deps), Jobs)>::read(
            alloc, second, from, at,
        )?;
        let ((((ws, name), priority), limit), carry) = front;
        let doc = StreamDoc {
            no,
            ws,
            name,
            priority,
            limit,
            carry,
            deps,
            jobs,
        };
        Ok((doc, next))
    }
}

/// What a job runs: its choice and its text.
impl Read for Work {
    ghost use Rattle.entry_codec.specs.Parts.{work_at};

    ghost reader = { λ _. work_at };

    #[tactic(auto, unfolding(crate::specs::Read::chain, crate::specs::Fields::choice_at, crate::specs::Parts::work_at))]
    fn read(
        alloc: Global,
        second: bool,
        from: &[u8],
        at: usize,
    ) -> Result<(Work, usize), EntryFault> {
        match read_u8(from, at)? {
            (0, next) => {
                let (text, next) = Text::read(alloc, second, from, next)?;
                Ok((Work::Command(text), next))
            }
            (1, next) => {
                let (text, next) = Text::read(alloc, second, from, next)?;
                Ok((Work::Script(text), next))
            }
            _ => Err(EntryFault::BadField(at as u32)),
        }
    }
}

/// A condition: a count of at most 64 in one byte, and the operations.
#[tactic(auto, unfolding(crate::specs::Read::chain, crate::specs::Parts::cond_at))]
fn read_cond(
    alloc: Global,
    second: bool,
    from: &[u8],
    at: usize,
) -> Result<(Cond, usize), EntryFault>
    requires { IsPlace from.now at }
    ensures reads { Gives result (cond_at from.now at) }
    ensures within { IfOk result (λ r. r.1 ≤ length from.now) }
{
    let (count, next) = read_op_count(from, at)?;
    read_items(alloc, second, u32::from(count), from, next)
}

/// A number in one byte that is at most 64.
#[tactic(auto, unfolding(crate::specs::Fields::number_with))]
fn read_op_count(from: &[u8], at: usize) -> Result<(u8, usize), EntryFault>
    requires { IsPlace from.now at }
    ensures reads { Gives result (number_with w8 (λ n. nat_le n 64) from.now at) }
    ensures within { IfOk result (λ r. r.1 ≤ length from.now) }
{
    let (count, next) = read_u8(from, at)?;
    if count > 64 {
        return Err(EntryFault::BadField(at as u32));
    }
    Ok((count, next))
}

/// A comparison with its code, or another operation.
impl Read for CondOp {
    ghost use Rattle.entry_codec.specs.Parts.{op_at};

    ghost reader = { λ _. op_at };

    #[tactic(auto, unfolding(crate::specs::Read::chain, crate::specs::Fields::choice_at, crate::specs::Parts::op_at))]
    fn read(
        _alloc: Global,
        _second: bool,
        from: &[u8],
        at: usize,
    ) -> Result<(CondOp, usize), EntryFault> {
        match read_u8(from, at)? {
            (0, next) => read_comparison(Rel::Eq, from, next),
            (1, next) => read_comparison(Rel::Ne, from, next),
            (2, next) => read_comparison(Rel::Lt, from, next),
            (3, next) => read_comparison(Rel::Le, from, next),
            (4, next) => read_comparison(Rel::Gt, from, next),
            (5, next) => read_comparison(Rel::Ge, from, next),
            (6, next) => Ok((CondOp::And, next)),
            (7, next) => Ok((CondOp::Or, next)),
            (8, next) => Ok((CondOp::Not, next)),
            _ => Err(EntryFault::BadField(at as u32)),
        }
    }
}

/// The code of a comparison.
#[tactic(auto, unfolding(crate::specs::Read::chain))]
fn read_comparison(rel: Rel, from: &[u8], at: usize) -> Result<(CondOp, usize), EntryFault>
    requires { IsPlace from.now at }
    ensures reads { Gives result (one i32_at (Cmp rel) from.now at) }
    ensures within { IfOk result (λ r. r.1 ≤ length from.now) }
{
    let (code, next) = read_i32(from, at)?;
    Ok((CondOp::Cmp(rel, code), next))
}
