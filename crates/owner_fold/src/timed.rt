//! The own members of a workstation, and own members' jobs, that have a time.
ghost use Rattle.std.specs.Prelude.{◌≡◌, filter};
ghost use Rattle.std.specs.Iterator.{YieldsFirstBy, YieldsFirstRef, item_count};
ghost use Rattle.model.specs.Types.{Events, Job, Stream, StreamDoc as Doc};
ghost use Rattle.model.specs.History.{view_of};
ghost use Rattle.model.specs.Catalogue.{StreamJob};
ghost use Rattle.model.specs.OwnMembers.{own_jobs, own_streams};
ghost use Rattle.owner_fold.specs.Given.{is_given, is_given_job_here, is_given_stream_here, is_of, is_timed};
ghost use Rattle.owner_fold.specs.DocPlaces.{stream_job};
ghost use Rattle.owner_fold.specs.Times.{timed_jobs_left, timed_streams_left};

use crate::given::{Kind, is_given};
use crate::holdings::Owners;
use crate::searches::{JobTest, StreamTest, next_job, next_stream};
use base_types::{JobDoc, Obj, StreamDoc, Ws};

/// The own members of a workstation with an AT, an UNTIL or a DEADLINE among their dependencies, in the order of the
/// catalogue.
#[derive(Drop)]
pub struct TimedStreams<'a> {
    pub(crate) owners: &'a Owners,
    pub(crate) codes: &'a [u64],
    pub(crate) ws: Ws,
}

/// The own members' jobs of a workstation with such a dependency, each with its stream, in the order of the catalogue.
#[derive(Drop)]
pub struct TimedJobs<'a> {
    pub(crate) owners: &'a Owners,
    pub(crate) codes: &'a [u64],
    pub(crate) ws: Ws,
}

/// The stream of w was given a dependency of the kind.
fn is_stream_given(kind: Kind, owners: &Owners, w: Ws, doc: &StreamDoc) -> bool
    ensures { result ≡ is_given (is_of kind) (Stream doc.now.no) doc.now.deps (view_of owners.now (Events w)) }
{
    let o = Obj::Stream(doc.no);
    is_given(kind, owners.kept(), w, &o, doc.deps.as_slice())
}

/// The job of w was given one.
fn is_job_given(kind: Kind, owners: &Owners, w: Ws, doc: &JobDoc) -> bool
    ensures { result ≡ is_given (is_of kind) (Job doc.now.no) doc.now.deps (view_of owners.now (Events w)) }
{
    let o = Obj::Job(doc.no);
    is_given(kind, owners.kept(), w, &o, doc.deps.as_slice())
}

/// The stream is an own member of w that was given a dependency of the kind.
pub(crate) fn is_given_stream(kind: Kind, owners: &Owners, w: Ws, doc: &StreamDoc) -> bool
    ensures { result ≡ is_given_stream_here (is_of kind) (view_of owners.now) w doc.now }
{
    doc.ws.0 == w.0 && (owners.is_member(doc.no) && is_stream_given(kind, owners, w, doc))
}

/// The job is an own member's of w that was given one.
pub(crate) fn is_given_job(
    kind: Kind,
    owners: &Owners,
    w: Ws,
    parent: &StreamDoc,
    doc: &JobDoc,
) -> bool
    ensures { result ≡ is_given_job_here (is_of kind) (view_of owners.now) w (stream_job parent.now doc.now) }
{
    doc.ws.0 == w.0 && (owners.is_member(parent.no) && is_job_given(kind, owners, w, doc))
}

impl<'a> Iterator for TimedStreams<'a> {
    type Item = &'a StreamDoc;

    ghost next_gives = { YieldsFirstRef timed_streams_left };

    ghost remaining = { item_count timed_streams_left };

    #[tactic(auto, unfolding(crate::specs::Times::timed_streams_left))]
    fn next(&mut self) -> Option<&'a StreamDoc> {
        let test = StreamTest::Given(Kind::Time);
        let (found, rest) = next_stream(test, self.owners, self.ws, self.codes);
        self.codes = rest;
        found
    }
}

impl<'a> Iterator for TimedJobs<'a> {
    type Item = (&'a StreamDoc, &'a JobDoc);

    ghost next_gives = { YieldsFirstBy (λ p. stream_job p.0.now p.1.now) timed_jobs_left };

    ghost remaining = { item_count timed_jobs_left };

    #[tactic(auto, unfolding(crate::specs::Times::timed_jobs_left))]
    fn next(&mut self) -> Option<(&'a StreamDoc, &'a JobDoc)> {
        let test = JobTest::Given(Kind::Time);
        let (found, rest) = next_job(test, self.owners, self.ws, self.codes);
        self.codes = rest;
        found
    }
}

impl Owners {
    /// The own members of w with an AT, an UNTIL or a DEADLINE among their dependencies, written or added, waived ones
    /// too, in the order of the catalogue.
    #[tactic(auto, unfolding(crate::specs::Times::timed_streams_left))]
    pub fn timed_streams(&self, w: Ws) -> TimedStreams<'_>
        ensures { timed_streams_left result ≡
            filter (λ (d : Doc). is_timed (Stream d.no) d.deps (view_of self.now (Events w)))
            (own_streams (view_of self.now) w) }
    {
        TimedStreams {
            owners: self,
            codes: self.timed_stream_codes(w),
            ws: w,
        }
    }

    /// The own members' jobs of w with such a dependency, each with its stream, in the order of the catalogue.
    #[tactic(auto, unfolding(crate::specs::Times::timed_jobs_left))]
    pub fn timed_jobs(&self, w: Ws) -> TimedJobs<'_>
        ensures { timed_jobs_left result ≡
            filter (λ (p : StreamJob). is_timed (Job p.doc.no) p.doc.deps (view_of self.now (Events w)))
            (own_jobs (view_of self.now) w) }
    {
        TimedJobs {
            owners: self,
            codes: self.timed_job_codes(w),
            ws: w,
        }
    }
}
