//! Whether documents have the numbers after the catalogue's, stream by stream and job by job.
ghost use Rattle.std.specs.Prelude.{◌≡◌, ◌+◌, ◌==◌, IsNone, length, map};
ghost use Rattle.std.specs.Bool.{Decides};
ghost use Rattle.std.specs.Option.{IfSome};
ghost use Rattle.model.specs.Types.{JobDoc as Job, StreamDoc as Stream};
ghost use Rattle.model.specs.Words.{numbers_from};
ghost use Rattle.model.specs.History.{view_of};
ghost use Rattle.model.specs.Sound.{AreNumberedOn, jobs_in_docs};
ghost use Rattle.event_audit.specs.Numbers.{GoOnFrom, GoOnTo};

use base_types::{JobDoc, StreamDoc};
use owner_fold::Owners;

/// Whether a number is the next after the last one.
fn is_after(last: u32, number: u32) -> bool
    ensures { result ≡ (number == 1 + last) }
{
    number > 0 && number - 1 == last
}

/// Whether documents and their jobs have the numbers after the catalogue's.
pub(crate) fn are_numbered_on(owners: &Owners, docs: &[StreamDoc]) -> bool
    ensures { Decides result (AreNumberedOn (view_of owners.now) docs.now) }
{
    streams_go_on(owners.last_stream().0, docs) && jobs_go_on(owners.last_job().0, docs)
}

/// Whether the streams have the numbers after the last one, in order.
fn streams_go_on(last: u32, docs: &[StreamDoc]) -> bool
    ensures { Decides result
        (map (λ (d : Stream). d.no) docs.now ≡ numbers_from (1 + last) (length docs.now)) }
{
    let mut last = last;
    for doc in docs {
        if !is_after(last, doc.no.0) {
            return false;
        }
        last = doc.no.0;
    }
    true
}

/// Whether the jobs of the streams have the numbers after the last one, in order.
fn jobs_go_on(last: u32, docs: &[StreamDoc]) -> bool
    ensures { Decides result
        (map (λ (j : Job). j.no) (jobs_in_docs docs.now)
        ≡ numbers_from (1 + last) (length (jobs_in_docs docs.now))) }
{
    let mut last = last;
    for doc in docs {
        match last_after(last, doc.jobs.as_slice()) {
            None => return false,
            Some(next) => last = next,
        }
    }
    true
}

/// The number of the last of these jobs, where they have the numbers after the last one, in order. Without jobs it is
/// the last one itself.
fn last_after(last: u32, jobs: &[JobDoc]) -> Option<u32>
    ensures none { IsNone result → ¬ (GoOnFrom last jobs.now) }
    ensures some { IfSome result (GoOnTo last jobs.now) }
{
    let mut last = last;
    for job in jobs {
        if !is_after(last, job.no.0) {
            return None;
        }
        last = job.no.0;
    }
    Some(last)
}
