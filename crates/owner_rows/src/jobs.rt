//! The rows of jobs: launches, reruns and the last launch.
ghost use Rattle.std.specs.Prelude.{◌≡◌, ◌+◌, ◌<◌, ◌^◌, ◌++◌, [], ◌∷◌, if◌then◌else◌, List, ℕ, IfSome, IsSome};
ghost use Rattle.std.specs.Prelude.{length, option_map};
ghost use Rattle.std.specs.Option.{option_or};
ghost use Rattle.model.specs.Types.{Body as Told, Entry as Taken};
ghost use Rattle.model.specs.History.{list_of};
ghost use Rattle.owner_rows.specs.Jobs.{IsJobRow, due_in, end_in, good_in, kept_last, last_with, open_in, outcome_in};
ghost use Rattle.owner_rows.specs.Jobs.{started_in, told_with};
ghost use Rattle.owner_rows.specs.Outcomes.{told_outcome};
ghost use Rattle.owner_rows.specs.Subjects.{job_in, key_in};
ghost use Rattle.owner_rows.specs.Tables.{AreRows, has_row};

use crate::body_facts::{is_confirm, is_launch, is_rerun, is_start};
use crate::launches::{Outcome, code_in, end_in};
use crate::subjects::job_key;
use crate::tables::Table;
use base_types::{Body, Entry};

/// The last launch of a job, and what was told of it after it.
#[derive(Clone, Copy)]
pub(crate) struct Last {
    pub(crate) number: u32,
    /// Its first end.
    pub(crate) ended: Option<Outcome>,
    /// The return code of its first end, None within where that has none.
    pub(crate) code: Option<Option<i32>>,
    pub(crate) started: bool,
    /// Whether the job was confirmed.
    pub(crate) confirmed: bool,
}

/// The code that is there, or else the next one.
fn first_code(before: Option<Option<i32>>, next: Option<Option<i32>>) -> Option<Option<i32>>
    ensures { result ≡ option_or before next }
{
    match before {
        None => next,
        Some(code) => Some(code),
    }
}

impl Last {
    /// What is told after one more body.
    fn after(&self, j: u64, body: &Body) -> Last
        ensures { kept_last result ≡ told_with j body.now (kept_last self.now) }
    {
        Last {
            number: self.number,
            ended: self.ended.or(end_in(j, self.number, body)),
            code: first_code(self.code, code_in(j, self.number, body)),
            started: self.started || is_start(j, self.number, body),
            confirmed: self.confirmed || is_confirm(j, body),
        }
    }
}

/// The last launch after one more body.
fn last_after(last: Option<Last>, j: u64, body: &Body) -> Option<Last>
    ensures { option_map kept_last result ≡ last_with j body.now (option_map kept_last last) }
{
    if let Body::Launched(k, number, _) = body {
        if j == u64::from(k.0) {
            return Some(Last {
                number: *number,
                ended: None,
                code: None,
                started: false,
                confirmed: false,
            });
        }
    }
    match last {
        None => None,
        Some(before) => Some(before.after(j, body)),
    }
}

/// One more, where something holds.
pub(crate) fn counted(count: u32, more: bool) -> u32
    ensures { count + 1 < 2 ^ 32 → result ≡ count + (if more then 1 else 0) }
{
    if more { count.saturating_add(1) } else { count }
}

/// What the events of a workstation tell of a job.
#[derive(Clone, Copy)]
pub(crate) struct JobRow {
    pub(crate) launches: u32,
    pub(crate) reruns: u32,
    pub(crate) last: Option<Last>,
}

impl JobRow {
    /// The row of no events.
    pub(crate) fn blank() -> JobRow
        ensures { (j : ℕ) → IsJobRow [] j result }
    {
        JobRow {
            launches: 0,
            reruns: 0,
            last: None,
        }
    }

    /// The row after one more body.
    fn after(&self, j: u64, body: &Body) -> JobRow
        ensures { (events : List Told) → length events + 1 < 2 ^ 32 → IsJobRow events j self.now
            → IsJobRow (events ++ body.now ∷ []) j result }
    {
        JobRow {
            launches: counted(self.launches, is_launch(j, body)),
            reruns: counted(self.reruns, is_rerun(j, body)),
            last: last_after(self.last, j, body),
        }
    }

    /// The job has fewer launches than 1 plus its reruns.
    pub(crate) fn is_due(&self) -> bool
        ensures { result ≡ due_in self.now }
    {
        self.launches <= self.reruns
    }

    /// The number of the last launch, where it has no end.
    pub(crate) fn open_launch(&self) -> Option<u32>
        ensures { result ≡ open_in (option_map kept_last self.now.last) }
    {
        match &self.last {
            None => None,
            Some(last) => {
                if last.ended.is_none() {
                    Some(last.number)
                } else {
                    None
                }
            }
        }
    }

    /// How the last launch ended.
    pub(crate) fn last_outcome(&self) -> Option<Outcome>
        ensures { told_outcome result ≡ outcome_in (option_map kept_last self.now.last) }
    {
        match &self.last {
            None => None,
            Some(last) => last.ended,
        }
    }

    /// The return code with which the last launch ended, where it has one.
    pub(crate) fn last_end(&self) -> Option<i32>
        ensures { result ≡ end_in (option_map kept_last self.now.last) }
    {
        match &self.last {
            None => None,
            Some(last) => match last.code {
                None => None,
                Some(code) => code,
            },
        }
    }

    /// The last launch was told as started.
    pub(crate) fn is_last_started(&self) -> bool
        ensures { result ≡ started_in (option_map kept_last self.now.last) }
    {
        match &self.last {
            None => false,
            Some(last) => last.started,
        }
    }

    /// The job is not due or open, and its last launch ended well or was confirmed.
    pub(crate) fn is_good(&self) -> bool
        ensures { result ≡ good_in self.now }
    {
        if self.is_due() {
            return false;
        }
        match &self.last {
            None => false,
            Some(last) => match last.ended {
                None => false,
                Some(Outcome::EndedGood) => true,
                Some(_) => last.confirmed,
            },
        }
    }
}

/// The rows of jobs after one more entry, for whose row the memory is there.
pub(crate) fn tell_job(jobs: &mut Table<JobRow>, e: &Entry)
    requires { IfSome (key_in job_in e.now) (λ k. IsSome (has_row jobs.old k)) }
    ensures { (kept : List Taken) → length (list_of kept e.now.feed) + 1 < 2 ^ 32 → AreRows IsJobRow kept jobs.old
        → AreRows IsJobRow (kept ++ e.now ∷ []) jobs.new }
{
    if let Some((w, j)) = job_key(e) {
        let row = jobs.row(w, j);
        jobs.put(w, j, row.after(j, &e.body));
    }
}
