//! Numbers for the drafts: after those of the catalogue, stream by stream and job by job.
ghost use Rattle.std.specs.Prelude.{◌≡◌, ◌+◌, ◌-◌, ◌<◌, ◌^◌, ◌||◌, length, nat_lt, IfOk, IsNone, IfSome, ◌↔◌};
ghost use Rattle.model.specs.History.{view_of};
ghost use Rattle.model.specs.NewPlan as spec;
ghost use Rattle.model.specs.NewPlan.{fresh_from, jobs_in_drafts};

use base_types::{Items, NoMemory, StreamDraft};
use owner_fold::Owners;
use std::alloc::Global;
use std::marker::Model;

/// A draft with the number of its stream and that of its first job.
#[derive(Drop)]
pub(crate) struct Fresh<'a> {
    pub(crate) number: u32,
    /// One past the greatest number where no number is left and the stream has no job.
    pub(crate) first_job: u64,
    pub(crate) draft: &'a StreamDraft,
}

impl<'a> Model for Fresh<'a> {
    ghost use Rattle.std.specs.Prelude.{◌+◌, ◌≤◌, ◌^◌, length};
    ghost use Rattle.model.specs.NewPlan.{Fresh as Numbered};

    ghost Value = { Numbered };

    ghost view = { λ f. record { number = f.number; first_job = f.first_job; draft = f.draft.now } };

    ghost invariant = { λ f. f.first_job + length f.draft.now.jobs ≤ 2 ^ 32 };
}

/// The greatest number of a stream in the catalogue, 0 where it is empty.
pub(crate) fn last_stream(o: &Owners) -> u32
    ensures { result ≡ spec.last_stream (view_of o.now) }
{
    o.last_stream().0
}

/// The greatest number of a job in the catalogue, 0 where it has none.
pub(crate) fn last_job(o: &Owners) -> u32
    ensures { result ≡ spec.last_job (view_of o.now) }
{
    o.last_job().0
}

/// How many of so many are left after the jobs of the drafts. None where these are more.
#[tactic(auto, using(crate::proofs::Counts::drafts_more))]
pub(crate) fn left_after_jobs(most: u32, drafts: &[StreamDraft]) -> Option<u32>
    ensures none { IsNone result ↔ (most < jobs_in_drafts drafts.now) }
    ensures some { IfSome result (λ left. left + jobs_in_drafts drafts.now ≡ most) }
{
    let mut left = most;
    for draft in drafts {
        let jobs = draft.jobs.len();
        if jobs > left as usize {
            return None;
        }
        left -= jobs as u32;
    }
    Some(left)
}

/// Whether a number would pass the greatest one, where those of the catalogue end at these.
pub(crate) fn are_spent(last_stream: u32, last_job: u32, drafts: &[StreamDraft]) -> bool
    ensures { result ≡ (nat_lt 4294967295 (last_stream + length drafts.now)
        || nat_lt 4294967295 (last_job + jobs_in_drafts drafts.now)) }
{
    if drafts.len() > (u32::MAX - last_stream) as usize {
        return true;
    }
    left_after_jobs(u32::MAX - last_job, drafts).is_none()
}

/// The drafts with their numbers, where those of the catalogue end at these.
#[tactic(auto, using(crate::proofs::Counts::drafts_more))]
pub(crate) fn fresh_streams<'a>(
    alloc: Global,
    last_stream: u32,
    last_job: u32,
    drafts: &'a [StreamDraft],
) -> Result<Items<Fresh<'a>>, NoMemory>
    requires streams { last_stream + length drafts.now < 2 ^ 32 }
    requires jobs { last_job + jobs_in_drafts drafts.now < 2 ^ 32 }
    ensures { IfOk result (λ fresh. fresh ≡ fresh_from (1 + last_stream) (1 + last_job) drafts.now) }
{
    let mut fresh = Items::new(alloc);
    let mut number = 1 + u64::from(last_stream);
    let mut first_job = 1 + u64::from(last_job);
    for draft in drafts {
        fresh.push(Fresh {
            number: number as u32,
            first_job,
            draft,
        })?;
        number += 1;
        first_job += draft.jobs.len() as u64;
    }
    Ok(fresh)
}
