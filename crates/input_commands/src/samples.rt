//! Samples.
ghost use Rattle.std.specs.Prelude.{◌≡◌, ◌≤◌, None, IfOk};
ghost use Rattle.sample_record.specs.Samples.{sample_of};
ghost use Rattle.replies.specs.declared.statuses.Status.TheVariants.{Success};

use crate::unsaid_replies::Reply;
use base_types::NoMemory;
use replies::Status;
use sample_record::sample;
use std::alloc::Global;

/// The record of a sample.
pub(crate) fn reply_to_sample(alloc: Global, jobs: u32, seed: u32) -> Result<Reply, NoMemory>
    requires { jobs ≤ 2000 }
    ensures status { IfOk result (λ r. r.status ≡ Success) }
    ensures text { IfOk result (λ r. r.text ≡ sample_of jobs seed) }
    ensures world { IfOk result (λ r. r.world ≡ None) }
{
    let text = sample(alloc, jobs, seed)?;
    Ok(Reply {
        status: Status::Success,
        text,
        world: None,
    })
}
