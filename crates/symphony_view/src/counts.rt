//! Which kinds of states the jobs of a stream have.
ghost use Rattle.std.specs.Prelude.{◌≡◌, ◌||◌, map};
ghost use Rattle.std.specs.List.{list_any};
ghost use Rattle.model.specs.History.{view_of};
ghost use Rattle.model.specs.Catalogue.{jobs_of_stream};
ghost use Rattle.model.specs.States as spec;
ghost use Rattle.symphony_view.specs.Words.{told_job};

use crate::states::{JobState, state_of_job};
use base_types::StreamNo;
use network_tree::Network;
use owner_fold::Owners;

/// Which kinds of states there are.
#[derive(Clone, Copy)]
pub(crate) struct Kinds {
    /// INTRO, EXEC, READY or FENCE.
    pub(crate) running: bool,
    /// ABEND or FAIL.
    pub(crate) bad: bool,
    /// HOLD.
    pub(crate) held: bool,
}

/// The kinds with that of one more state.
fn kinds_with(kinds: Kinds, state: JobState) -> Kinds
    ensures running { result.running ≡ (kinds.running || spec.is_running_state (told_job state)) }
    ensures bad { result.bad ≡ (kinds.bad || spec.is_bad_state (told_job state)) }
    ensures held { result.held ≡ (kinds.held || spec.is_hold_state (told_job state)) }
{
    let mut after = kinds;
    match state {
        JobState::Intro => after.running = true,
        JobState::Exec => after.running = true,
        JobState::Ready => after.running = true,
        JobState::Fence => after.running = true,
        JobState::Abend => after.bad = true,
        JobState::Fail => after.bad = true,
        JobState::Hold => after.held = true,
        JobState::Succ => {}
        JobState::Cancel => {}
    }
    after
}

/// Those of the jobs of a stream.
#[tactic(auto, using(dependencies::proofs::Found::stream_jobs_left_planned))]
pub(crate) fn kinds_of_jobs(net: &Network, o: &Owners, s: StreamNo) -> Kinds
    ensures running { result.running ≡
        list_any spec.is_running_state (map (spec.job_state net.now (view_of o.now)) (jobs_of_stream (view_of o.now) s)) }
    ensures bad { result.bad ≡
        list_any spec.is_bad_state (map (spec.job_state net.now (view_of o.now)) (jobs_of_stream (view_of o.now) s)) }
    ensures held { result.held ≡
        list_any spec.is_hold_state (map (spec.job_state net.now (view_of o.now)) (jobs_of_stream (view_of o.now) s)) }
{
    let mut kinds = Kinds {
        running: false,
        bad: false,
        held: false,
    };
    for (parent, doc) in o.jobs_of_stream(s) {
        kinds = kinds_with(kinds, state_of_job(net, o, parent, doc));
    }
    kinds
}
