//! The streams and jobs of the plan.
ghost use Rattle.std.specs.Prelude.{◌≡◌, ◌==◌, option_map};
ghost use Rattle.std.specs.Option.{option_copied};
ghost use Rattle.std.specs.Iterator.{YieldsFirstBy, YieldsFirstRef, item_count};
ghost use Rattle.model.specs.Types.{Job, StreamDoc as Doc};
ghost use Rattle.model.specs.History.{view_of};
ghost use Rattle.model.specs.Catalogue.{StreamJob, catalogue, jobs, jobs_of_stream, members, stream, job};
ghost use Rattle.model.specs.Catalogue.{is_member, stream_of, owner};
ghost use Rattle.owner_fold.specs.Sets as spec;
ghost use Rattle.owner_fold.specs.DocPlaces.{stream_job};
ghost use Rattle.owner_fold.specs.Left.{jobs_left, stream_jobs_left, streams_left};

use crate::doc_places::{JobPlace, StreamPlace, planned_job_at, stream_at};
use crate::holdings::Owners;
use base_types::{Entry, JobDoc, JobNo, Obj, StreamDoc, StreamNo, StreamNos, Ws};

/// The streams of the catalogue, in its order.
#[derive(Drop)]
pub struct Streams<'a> {
    pub(crate) entries: &'a [Entry],
    pub(crate) doc_places: &'a [StreamPlace],
}

impl<'a> Iterator for Streams<'a> {
    type Item = &'a StreamDoc;

    ghost next_gives = { YieldsFirstRef streams_left };

    ghost remaining = { item_count streams_left };

    #[tactic(auto, unfolding(crate::specs::Left::streams_left))]
    fn next(&mut self) -> Option<&'a StreamDoc> {
        let doc_places = self.doc_places;
        for (i, doc_place) in doc_places.iter().enumerate() {
            if let Some(doc) = stream_at(self.entries, doc_place) {
                self.doc_places = &doc_places[i + 1..];
                return Some(doc);
            }
        }
        self.doc_places = &[];
        None
    }
}

/// The jobs of the catalogue with their streams, in its order.
#[derive(Drop)]
pub struct PlannedJobs<'a> {
    pub(crate) entries: &'a [Entry],
    pub(crate) doc_places: &'a [JobPlace],
}

impl<'a> Iterator for PlannedJobs<'a> {
    type Item = (&'a StreamDoc, &'a JobDoc);

    ghost next_gives = { YieldsFirstBy (λ p. stream_job p.0.now p.1.now) jobs_left };

    ghost remaining = { item_count jobs_left };

    #[tactic(auto, unfolding(crate::specs::Left::jobs_left))]
    fn next(&mut self) -> Option<(&'a StreamDoc, &'a JobDoc)> {
        let doc_places = self.doc_places;
        for (i, doc_place) in doc_places.iter().enumerate() {
            if let Some(placed) = planned_job_at(self.entries, doc_place) {
                self.doc_places = &doc_places[i + 1..];
                return Some(placed);
            }
        }
        self.doc_places = &[];
        None
    }
}

/// The jobs of one stream of the catalogue, each with the stream, in the order of the catalogue.
#[derive(Drop)]
pub struct StreamJobs<'a> {
    pub(crate) owners: &'a Owners,
    pub(crate) codes: &'a [u64],
    pub(crate) stream: StreamNo,
}

/// The job at the place of a code of a stream, with its stream.
fn job_coded(owners: &Owners, s: StreamNo, code: u64) -> Option<(&StreamDoc, &JobDoc)>
    ensures { option_map (λ p. stream_job p.0.now p.1.now) result ≡ spec.job_coded owners.now s code }
{
    owners.job_coded(s.0, code)
}

/// The document is that of this stream.
fn has_number(doc: &StreamDoc, s: StreamNo) -> bool
    ensures { result ≡ (doc.now.no == s) }
{
    doc.no.0 == s.0
}

impl<'a> Iterator for StreamJobs<'a> {
    type Item = (&'a StreamDoc, &'a JobDoc);

    ghost next_gives = { YieldsFirstBy (λ p. stream_job p.0.now p.1.now) stream_jobs_left };

    ghost remaining = { item_count stream_jobs_left };

    #[tactic(auto, unfolding(crate::specs::Left::stream_jobs_left))]
    fn next(&mut self) -> Option<(&'a StreamDoc, &'a JobDoc)> {
        let codes = self.codes;
        for (i, code) in codes.iter().enumerate() {
            if let Some((parent, job)) = job_coded(self.owners, self.stream, *code) {
                if has_number(parent, self.stream) {
                    self.codes = &codes[i + 1..];
                    return Some((parent, job));
                }
            }
        }
        self.codes = &[];
        None
    }
}

impl Owners {
    /// The streams of the catalogue, in its order.
    #[tactic(auto, unfolding(crate::specs::Left::streams_left))]
    pub fn streams(&self) -> Streams<'_>
        ensures { streams_left result ≡ catalogue (view_of self.now) }
    {
        Streams {
            entries: self.entries(),
            doc_places: self.stream_places(),
        }
    }

    /// The jobs of the catalogue, each with its stream, in its order.
    #[tactic(auto, unfolding(crate::specs::Left::jobs_left))]
    pub fn jobs(&self) -> PlannedJobs<'_>
        ensures { jobs_left result ≡ jobs (view_of self.now) }
    {
        PlannedJobs {
            entries: self.entries(),
            doc_places: self.job_places(),
        }
    }

    /// The jobs of a stream, each with the stream, in the order of the catalogue. None of one outside the catalogue.
    #[tactic(auto, unfolding(crate::specs::Left::stream_jobs_left))]
    pub fn jobs_of_stream(&self, s: StreamNo) -> StreamJobs<'_>
        ensures { stream_jobs_left result ≡ jobs_of_stream (view_of self.now) s }
    {
        StreamJobs {
            owners: self,
            codes: self.stream_job_codes(s),
            stream: s,
        }
    }

    /// The document of this number. None outside the catalogue.
    pub fn stream(&self, s: StreamNo) -> Option<&StreamDoc>
        ensures { option_copied result ≡ stream (view_of self.now) s }
    {
        match self.stream_place(s) {
            None => None,
            Some(doc_place) => stream_at(self.entries(), doc_place),
        }
    }

    /// The job of this number with its stream. None outside the catalogue.
    pub fn planned_job(&self, j: JobNo) -> Option<(&StreamDoc, &JobDoc)>
        ensures { option_map (λ p. stream_job p.0.now p.1.now) result ≡ job (view_of self.now) j }
    {
        match self.job_place(j) {
            None => None,
            Some(doc_place) => planned_job_at(self.entries(), doc_place),
        }
    }

    /// The job of this number. None outside the catalogue.
    pub fn job(&self, j: JobNo) -> Option<&JobDoc>
        ensures { option_copied result ≡ option_map (λ (p : StreamJob). p.doc) (job (view_of self.now) j) }
    {
        match self.planned_job(j) {
            None => None,
            Some((_, doc)) => Some(doc),
        }
    }

    /// The stream that a job belongs to. None outside the catalogue.
    #[tactic(auto, unfolding(model::specs::Catalogue::stream_of))]
    pub fn stream_of(&self, j: JobNo) -> Option<StreamNo>
        ensures { result ≡ option_map (λ (d : Doc). d.no) (stream_of (view_of self.now) (Job j)) }
    {
        match self.planned_job(j) {
            None => None,
            Some((parent, _)) => Some(parent.no),
        }
    }

    /// The workstation of a job or stream. None outside the catalogue.
    pub fn owner(&self, o: Obj) -> Option<Ws>
        ensures { result ≡ owner (view_of self.now) o }
    {
        self.owner_of(&o)
    }
}
