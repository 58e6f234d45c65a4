//! The drafts of streams and jobs.
use crate::writing::documents::{put_named, put_task};
use crate::writing::lists::{Put, put_flag, put_limit, put_list};
use base_types::{Bytes, JobDraft, NoMemory, StreamDraft};

impl Put for JobDraft {
    ghost use Rattle.model.specs.Fit.{IsFitJobDraft};
    ghost use Rattle.model.specs.Ranges.{JobDraftInRange};
    ghost use Rattle.model.specs.Spelling.{job_draft_bytes};

    ghost is_fit = { IsFitJobDraft };

    ghost in_range = { JobDraftInRange };

    ghost spelling = { job_draft_bytes };

    #[tactic(auto, unfolding(model::specs::Spelling::job_draft_bytes))]
    fn put(&self, out: &mut Bytes) -> Result<(), NoMemory> {
        put_named(out, &self.ws, &self.name, self.priority)?;
        put_task(out, &self.work, &self.logon, &self.cond, self.recovery)?;
        put_list(out, &self.deps)
    }
}

impl Put for StreamDraft {
    ghost use Rattle.model.specs.Fit.{IsFitDraft};
    ghost use Rattle.model.specs.Ranges.{DraftInRange};
    ghost use Rattle.model.specs.Spelling.{stream_draft_bytes};

    ghost is_fit = { IsFitDraft };

    ghost in_range = { DraftInRange };

    ghost spelling = { stream_draft_bytes };

    #[tactic(auto, unfolding(model::specs::Spelling::stream_draft_bytes))]
    fn put(&self, out: &mut Bytes) -> Result<(), NoMemory> {
        put_named(out, &self.ws, &self.name, self.priority)?;
        put_limit(out, self.limit)?;
        put_flag(out, self.carry)?;
        put_list(out, &self.deps)?;
        put_list(out, &self.jobs)
    }
}
