//! The timelines of jobs.
ghost use Rattle.std.specs.Prelude.{◌≡◌, ◌+◌, ◌++◌, ◌∷◌, [], List, OnOk, length};
ghost use Rattle.model.specs.Types.{Entry as Taken, Events};
ghost use Rattle.model.specs.History.{list_of};
ghost use Rattle.counted_facts.specs.Facts as spec;
ghost use Rattle.counted_facts.specs.Timelines.{AreTimelines};

use crate::subjects::job_key;
use crate::timelines::Timelines;
use base_types::{Entry, JobNo, NoMemory, Obj, Ws};
use owner_rows::Kept;

/// Whether a job is good or cancelled at w.
fn is_done(kept: &Kept, w: u16, j: u32) -> bool
    ensures { result ≡ spec.is_done j (list_of kept.now (Events w)) }
{
    let o = Obj::Job(JobNo(j));
    kept.is_good_at(Ws(w), JobNo(j)) || kept.is_cancelled_at(Ws(w), &o)
}

/// Tells the timelines an entry that was taken just before.
pub(crate) fn tell_job(jobs: &mut Timelines<bool>, kept: &Kept, e: &Entry) -> Result<(), NoMemory>
    ensures { OnOk result ((before : List Taken) → kept.now ≡ before ++ e.now ∷ []
        → e.now.place ≡ length (list_of before e.now.feed) + 1 → AreTimelines spec.is_done before jobs.old
        → AreTimelines spec.is_done kept.now jobs.new) }
{
    match job_key(e) {
        None => Ok(()),
        Some((w, j)) => jobs.tell(w, u64::from(j), e.place, is_done(kept, w, j)),
    }
}
