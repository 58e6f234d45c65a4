//! The states of jobs and streams: the first line that applies.
ghost use Rattle.std.specs.Prelude.{◌≡◌, ◌≢◌, None, Some, if◌then◌else◌, option_map};
ghost use Rattle.model.specs.History.{view_of};
ghost use Rattle.model.specs.Catalogue.{job, stream};
ghost use Rattle.model.specs.States as spec;
ghost use Rattle.owner_fold.specs.DocPlaces.{stream_job};
ghost use Rattle.dependencies.specs.Planned.{IsPlannedJob, IsPlannedStream};
ghost use Rattle.symphony_view.specs.Words as words;
ghost use Rattle.symphony_view.specs.Words.{told_job, told_stream};
ghost use Rattle.symphony_view.specs.Tables.{state_of_launches, state_of_planned, state_of_waiting};

use crate::counts::kinds_of_jobs;
use crate::launches::{is_due, is_good, is_last_started, is_open, last_outcome};
use base_types::{JobDoc, JobNo, Obj, StreamDoc, StreamNo};
use dependencies::{all_satisfied, job_priority};
use network_tree::Network;
use owner_fold::{Outcome, Owners};

/// The state of a job, in the order of the summary.
#[derive(Clone, Copy, Debug)]
pub enum JobState {
    /// Its stream is not released, or a dependency is not satisfied.
    Hold,
    /// Its priority is at most the fence of its workstation.
    Fence,
    /// It waits for nothing but a launch.
    Ready,
    /// It has an open launch whose start was not told.
    Intro,
    /// It has an open launch whose start was told.
    Exec,
    /// It is good.
    Succ,
    /// It is not due, and its last launch ended or was lost.
    Abend,
    /// It is not due, and its last launch could not be started.
    Fail,
    /// It or its stream is cancelled.
    Cancel,
}

/// The state of a stream, in the order of the summary.
#[derive(Clone, Copy, Debug)]
pub enum StreamState {
    /// It is not released, and a dependency is not satisfied.
    Hold,
    /// It is not released, and its dependencies are satisfied.
    Ready,
    /// It is released, and goes on.
    Exec,
    /// A job of it is ABEND or FAIL, and another one holds.
    Stuck,
    /// It is ended.
    Succ,
    /// A job of it is ABEND or FAIL, and no job holds.
    Abend,
    /// It is cancelled.
    Cancel,
}

/// The state of a job of the catalogue.
pub fn job_state(net: &Network, o: &Owners, j: JobNo) -> JobState
    requires { job (view_of o.now) j ≢ None }
    ensures { Some (told_job result) ≡
        option_map (spec.job_state net.now (view_of o.now)) (job (view_of o.now) j) }
{
    match o.planned_job(j) {
        None => unreachable!(),
        Some((parent, doc)) => state_of_job(net, o, parent, doc),
    }
}

/// The state of a stream of the catalogue.
pub fn stream_state(net: &Network, o: &Owners, s: StreamNo) -> StreamState
    requires { stream (view_of o.now) s ≢ None }
    ensures { Some (told_stream result) ≡
        option_map (spec.stream_state net.now (view_of o.now)) (stream (view_of o.now) s) }
{
    match o.stream(s) {
        None => unreachable!(),
        Some(doc) => state_of_stream(net, o, doc),
    }
}

/// The state of a job with its stream.
#[tactic(auto, using(crate::proofs::Tables::job_state_is))]
pub(crate) fn state_of_job(net: &Network, o: &Owners, parent: &StreamDoc, doc: &JobDoc) -> JobState
    requires { IsPlannedJob (view_of o.now) (stream_job parent.now doc.now) }
    ensures { told_job result ≡ spec.job_state net.now (view_of o.now) (stream_job parent.now doc.now) }
{
    state_by_launches(net, o, parent, doc)
}

/// The state of a job by its launches, or else by what it waits for.
fn state_by_launches(net: &Network, o: &Owners, parent: &StreamDoc, doc: &JobDoc) -> JobState
    requires { IsPlannedJob (view_of o.now) (stream_job parent.now doc.now) }
    ensures { told_job result ≡ state_of_launches net.now (view_of o.now) (stream_job parent.now doc.now) }
{
    if is_open(o, doc) {
        return state_of_open(is_last_started(o, doc));
    }
    if is_good(o, doc) {
        return JobState::Succ;
    }
    if is_due(o, doc) {
        return state_before_launch(net, o, parent, doc);
    }
    match last_outcome(o, doc) {
        Some(Outcome::Failed) => JobState::Fail,
        Some(_) => JobState::Abend,
        None => state_before_launch(net, o, parent, doc),
    }
}

/// The state of a job with an open launch.
fn state_of_open(started: bool) -> JobState
    ensures { told_job result ≡ (if started then spec.JobState.Exec else spec.JobState.Intro) }
{
    if started {
        JobState::Exec
    } else {
        JobState::Intro
    }
}

/// The state of a job that no launch decides.
fn state_before_launch(net: &Network, o: &Owners, parent: &StreamDoc, doc: &JobDoc) -> JobState
    requires { IsPlannedJob (view_of o.now) (stream_job parent.now doc.now) }
    ensures { told_job result ≡ state_of_waiting net.now (view_of o.now) (stream_job parent.now doc.now) }
{
    let told = o.kept();
    let job = Obj::Job(doc.no);
    if told.is_cancelled_at(doc.ws, &job)
        || told.is_cancelled_at(parent.ws, &Obj::Stream(parent.no))
    {
        return JobState::Cancel;
    }
    if !told.is_released_at(parent.ws, parent.no) || !all_satisfied(net, o, doc.ws, &job) {
        return JobState::Hold;
    }
    if job_priority(o, parent, doc) <= o.fence(doc.ws) {
        return JobState::Fence;
    }
    JobState::Ready
}

/// The state of a stream by its document.
#[tactic(auto, using(crate::proofs::Tables::stream_state_is))]
pub(crate) fn state_of_stream(net: &Network, o: &Owners, doc: &StreamDoc) -> StreamState
    requires { IsPlannedStream (view_of o.now) doc.now }
    ensures { told_stream result ≡ spec.stream_state net.now (view_of o.now) doc.now }
{
    state_by_jobs(net, o, doc)
}

/// The state of a stream by what is told of it, or else by its jobs.
#[tactic(auto, unfolding(model::specs::States::states_of))]
fn state_by_jobs(net: &Network, o: &Owners, doc: &StreamDoc) -> StreamState
    requires { IsPlannedStream (view_of o.now) doc.now }
    ensures { told_stream result ≡ state_of_planned net.now (view_of o.now) doc.now }
{
    let told = o.kept();
    let stream = Obj::Stream(doc.no);
    if told.is_cancelled_at(doc.ws, &stream) {
        return StreamState::Cancel;
    }
    if told.is_ended_at(doc.ws, doc.no) {
        return StreamState::Succ;
    }
    if !told.is_released_at(doc.ws, doc.no) {
        return if all_satisfied(net, o, doc.ws, &stream) {
            StreamState::Ready
        } else {
            StreamState::Hold
        };
    }
    let kinds = kinds_of_jobs(net, o, doc.no);
    if kinds.running || !kinds.bad {
        return StreamState::Exec;
    }
    if kinds.held {
        StreamState::Stuck
    } else {
        StreamState::Abend
    }
}

/// The number of a job's state, by its place among the words of states.
pub(crate) fn job_number(state: JobState) -> u8
    ensures { result ≡ words.job_number (told_job state) }
{
    match state {
        JobState::Hold => 0,
        JobState::Fence => 1,
        JobState::Ready => 2,
        JobState::Intro => 3,
        JobState::Exec => 4,
        JobState::Succ => 5,
        JobState::Abend => 6,
        JobState::Fail => 7,
        JobState::Cancel => 8,
    }
}

/// The number of a stream's state, by its place among the words of states.
pub(crate) fn stream_number(state: StreamState) -> u8
    ensures { result ≡ words.stream_number (told_stream state) }
{
    match state {
        StreamState::Hold => 0,
        StreamState::Ready => 1,
        StreamState::Exec => 2,
        StreamState::Stuck => 3,
        StreamState::Succ => 4,
        StreamState::Abend => 5,
        StreamState::Cancel => 6,
    }
}

/// The word of a job's state in a listing.
pub fn job_word(state: JobState) -> &'static str
    ensures { result.now ≡ words.job_word (told_job state) }
{
    report_text::job_word(job_number(state))
}

/// The word of a stream's state in a listing.
pub fn stream_word(state: StreamState) -> &'static str
    ensures { result.now ≡ words.stream_word (told_stream state) }
{
    report_text::stream_word(stream_number(state))
}
