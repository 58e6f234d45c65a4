//! Whether a plan has room for the drafts.
ghost use Rattle.std.specs.Prelude.{◌≡◌, ℕ, IfOk, length, nat_eq};
ghost use Rattle.std.specs.List.{list_any};
ghost use Rattle.model.specs.Words.{has};
ghost use Rattle.model.specs.History.{view_of};
ghost use Rattle.model.specs.NewPlan.{are_jobs_too_many, are_streams_too_many};

use crate::numbers::left_after_jobs;
use base_types::{MOST_JOBS, MOST_STREAMS, NoMemory, StreamDraft, StreamNo};
use indexmap::IndexSet;
use owner_fold::Owners;
use std::alloc::Global;

/// Whether these streams and the drafts are too many.
#[tactic(auto, unfolding(model::specs::NewPlan::are_streams_too_many))]
pub(crate) fn are_streams_too_many(earlier: &[StreamNo], drafts: &[StreamDraft]) -> bool
    ensures { result ≡ are_streams_too_many earlier.now drafts.now }
{
    let most = MOST_STREAMS as usize;
    if earlier.len() > most {
        return true;
    }
    drafts.len() > most - earlier.len()
}

/// The numbers of these streams as a set.
fn number_set(alloc: Global, streams: &[StreamNo]) -> Result<IndexSet<u32>, NoMemory>
    ensures { IfOk result (λ numbers. (n : ℕ) → list_any (nat_eq n) numbers.keys ≡ has streams.now n) }
{
    let mut numbers = IndexSet::new(alloc);
    for s in streams {
        match numbers.insert(s.0) {
            Ok(_) => {}
            Err(_) => return Err(NoMemory),
        }
    }
    Ok(numbers)
}

/// Whether these streams and the drafts have too many jobs.
#[tactic(auto, unfolding(model::specs::NewPlan::are_jobs_too_many))]
pub(crate) fn are_jobs_too_many(
    alloc: Global,
    o: &Owners,
    earlier: &[StreamNo],
    drafts: &[StreamDraft],
) -> Result<bool, NoMemory>
    ensures { IfOk result (λ b. b ≡ are_jobs_too_many (view_of o.now) earlier.now drafts.now) }
{
    let mut left = match left_after_jobs(MOST_JOBS, drafts) {
        None => return Ok(true),
        Some(left) => left,
    };
    let numbers = number_set(alloc, earlier)?;
    for (parent, _) in o.jobs() {
        if numbers.contains(&parent.no.0) {
            if left == 0 {
                return Ok(true);
            }
            left -= 1;
        }
    }
    Ok(false)
}
