//! What the events of a workstation tell of jobs and streams. The catalogue plays no part here.
ghost use Rattle.std.specs.Prelude.{◌≡◌, ℕ, Option};
ghost use Rattle.std.specs.Option.{option_or};
ghost use Rattle.model.specs.Types.{Events};
ghost use Rattle.model.specs.History.{list_of};
ghost use Rattle.model.specs.Facts.{launches, reruns, is_due, open_launch, is_open, is_started, is_last_started};
ghost use Rattle.model.specs.Facts.{last_outcome, last_end, is_good, is_released, is_ended, stream_limit};
ghost use Rattle.owner_rows.specs.Jobs.{IsJobRow};
ghost use Rattle.owner_rows.specs.Outcomes.{told_outcome};
ghost use Rattle.owner_rows.specs.Streams.{IsStreamRow};

use crate::jobs::JobRow;
use crate::kept::Kept;
use crate::launches::Outcome;
use crate::streams::StreamRow;
use base_types::{JobNo, StreamNo, Ws};

impl Kept {
    /// The row of a job in the events of w.
    fn job_at(&self, w: Ws, j: JobNo) -> JobRow
        ensures { IsJobRow (list_of self.now (Events w)) j result }
    {
        self.told.work.job(w, j)
    }

    /// The row of a stream in the events of w.
    fn stream_at(&self, w: Ws, s: StreamNo) -> StreamRow
        ensures { IsStreamRow (list_of self.now (Events w)) s result }
    {
        self.told.work.stream(w, s)
    }

    /// How often w launched a job.
    pub fn launches_at(&self, w: Ws, j: JobNo) -> u32
        ensures { result ≡ launches j (list_of self.now (Events w)) }
    {
        self.job_at(w, j).launches
    }

    /// How often a command that w obeyed reran a job.
    pub fn reruns_at(&self, w: Ws, j: JobNo) -> u32
        ensures { result ≡ reruns j (list_of self.now (Events w)) }
    {
        self.job_at(w, j).reruns
    }

    /// Whether a job has fewer launches at w than 1 plus its reruns there.
    #[tactic(auto, using(crate::proofs::JobFacts::due_told))]
    pub fn is_due_at(&self, w: Ws, j: JobNo) -> bool
        ensures { result ≡ is_due j (list_of self.now (Events w)) }
    {
        self.job_at(w, j).is_due()
    }

    /// The number of a job's last launch at w where it has no end. None where no launch is open.
    #[tactic(auto, using(crate::proofs::JobFacts::open_told))]
    pub fn open_launch_at(&self, w: Ws, j: JobNo) -> Option<u32>
        ensures { result ≡ open_launch j (list_of self.now (Events w)) }
    {
        self.job_at(w, j).open_launch()
    }

    /// Whether a job has an open launch at w.
    #[tactic(auto, unfolding(model::specs::Facts::is_open))]
    pub fn is_open_at(&self, w: Ws, j: JobNo) -> bool
        ensures { result ≡ is_open j (list_of self.now (Events w)) }
    {
        self.open_launch_at(w, j).is_some()
    }

    /// Whether w told this launch of a job as started.
    pub fn is_started_at(&self, w: Ws, j: JobNo, number: u32) -> bool
        ensures { result ≡ is_started j number (list_of self.now (Events w)) }
    {
        self.told.work.start(w, j, number)
    }

    /// Whether w told the start of a job's last launch after that launch.
    #[tactic(auto, using(crate::proofs::JobFacts::started_told))]
    pub fn is_last_started_at(&self, w: Ws, j: JobNo) -> bool
        ensures { result ≡ is_last_started j (list_of self.now (Events w)) }
    {
        self.job_at(w, j).is_last_started()
    }

    /// How a job's last launch at w ended. None without a launch and with an open one.
    #[tactic(auto, using(crate::proofs::JobFacts::outcome_told))]
    pub fn last_outcome_at(&self, w: Ws, j: JobNo) -> Option<Outcome>
        ensures { told_outcome result ≡ last_outcome j (list_of self.now (Events w)) }
    {
        self.job_at(w, j).last_outcome()
    }

    /// The return code with which a job's last launch at w ended. None where it has none.
    #[tactic(auto, using(crate::proofs::JobFacts::end_told))]
    pub fn last_end_at(&self, w: Ws, j: JobNo) -> Option<i32>
        ensures { result ≡ last_end j (list_of self.now (Events w)) }
    {
        self.job_at(w, j).last_end()
    }

    /// Whether a job is not due at w, has no open launch there, and its last launch ended well or was confirmed after
    /// it.
    #[tactic(auto, using(crate::proofs::JobFacts::good_told))]
    pub fn is_good_at(&self, w: Ws, j: JobNo) -> bool
        ensures { result ≡ is_good j (list_of self.now (Events w)) }
    {
        self.job_at(w, j).is_good()
    }

    /// Whether w released a stream.
    pub fn is_released_at(&self, w: Ws, s: StreamNo) -> bool
        ensures { result ≡ is_released s (list_of self.now (Events w)) }
    {
        self.stream_at(w, s).released
    }

    /// Whether w ended a stream.
    pub fn is_ended_at(&self, w: Ws, s: StreamNo) -> bool
        ensures { result ≡ is_ended s (list_of self.now (Events w)) }
    {
        self.stream_at(w, s).ended
    }

    /// The limit of open launches that w set last for a stream. None where it is the document's.
    pub fn stream_limit_set_at(&self, w: Ws, s: StreamNo) -> Option<u16>
        ensures { (written : Option ℕ) →
            option_or result written ≡ stream_limit s written (list_of self.now (Events w)) }
    {
        self.stream_at(w, s).limit
    }
}
