//! The drafts of streams and jobs.
use crate::EntryFault;
use crate::reading::documents::{Front, Named, Task};
use crate::reading::lists::Read;
use base_types::{DraftDeps, JobDraft, JobDrafts, StreamDraft};
use std::alloc::Global;

impl Read for JobDraft {
    ghost use Rattle.entry_codec.specs.Parts.{job_draft_at};

    ghost reader = { job_draft_at };

    #[tactic(auto, unfolding(crate::specs::Read::chain, crate::specs::Parts::job_draft_at))]
    fn read(
        alloc: Global,
        second: bool,
        from: &[u8],
        at: usize,
    ) -> Result<(JobDraft, usize), EntryFault> {
        let (((named, task), deps), next) = <((Named, Task), DraftDeps)>::read(
            alloc, second, from, at,
        )?;
        let ((ws, name), priority) = named;
        let Task {
            work,
            logon,
            cond,
            recovery,
        } = task;
        let draft = JobDraft {
            ws,
            name,
            priority,
            work,
            logon,
            cond,
            recovery,
            deps,
        };
        Ok((draft, next))
    }
}

impl Read for StreamDraft {
    ghost use Rattle.entry_codec.specs.Parts.{stream_draft_at};

    ghost reader = { stream_draft_at };

    #[tactic(auto, unfolding(crate::specs::Read::chain, crate::specs::Parts::stream_draft_at))]
    fn read(
        alloc: Global,
        second: bool,
        from: &[u8],
        at: usize,
    ) -> Result<(StreamDraft, usize), EntryFault> {
        let (((front, deps), jobs), next) = <((Front, DraftDeps), JobDrafts)>::read(
            alloc, second, from, at,
        )?;
        let ((((ws, name), priority), limit), carry) = front;
        let draft = StreamDraft {
            ws,
            name,
            priority,
            limit,
            carry,
            deps,
            jobs,
        };
        Ok((draft, next))
    }
}
