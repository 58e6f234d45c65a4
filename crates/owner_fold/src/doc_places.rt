//! Where the documents of the plan stand among the entries.
ghost use Rattle.std.specs.Prelude.{◌≡◌, ◌++◌, [], ◌∷◌, List, Some, map, flat_map, option_map, slice_get, IfOk, OnOk};
ghost use Rattle.std.specs.Option.{option_copied};
ghost use Rattle.model.specs.Types.{Entry as Taken, StreamDoc as Doc, Events};
ghost use Rattle.model.specs.Words.{greatest};
ghost use Rattle.model.specs.History.{list_of};
ghost use Rattle.model.specs.Catalogue.{docs_in, jobs_in, StreamJob};
ghost use Rattle.owner_fold.specs.Numbers.{ArePlaces};
ghost use Rattle.owner_fold.specs.DocPlaces.{doc_at, job_at, stream_job, AreDocPlacesOf, AreJobPlaces, first_jobs_among};

use crate::numbers::Numbers;
use base_types::{Body, Copied, Entry, Items, JobDoc, NoMemory, StreamDoc};
use std::alloc::Global;
use std::slice::from_ref;

/// Where a stream document stands: the entry, and the document among those that the entry brings, both from 0.
#[derive(Clone, Copy)]
pub(crate) struct StreamPlace {
    /// The stream's number.
    pub(crate) number: u32,
    pub(crate) entry: usize,
    pub(crate) doc: usize,
}

/// Where a job stands: its stream, and the job among those of the stream, from 0.
#[derive(Clone, Copy)]
pub(crate) struct JobPlace {
    /// The job's number.
    pub(crate) number: u32,
    pub(crate) stream: StreamPlace,
    pub(crate) job: usize,
}

impl Copied for StreamPlace {
    fn copy(&self) -> Result<StreamPlace, NoMemory> {
        Ok(*self)
    }
}

impl Copied for JobPlace {
    fn copy(&self) -> Result<JobPlace, NoMemory> {
        Ok(*self)
    }
}

/// The documents that a body brings.
pub(crate) fn docs_of(body: &Body) -> &[StreamDoc]
    ensures { result.now ≡ docs_in body.now }
{
    match body {
        Body::NewPlan(_, _, _, docs) => docs.as_slice(),
        Body::Added(_, _, doc) => from_ref(doc),
        _ => &[],
    }
}

/// Where the stream stands that is at a place of the catalogue, from 0.
pub(crate) fn stream_place_at(doc_places: &[StreamPlace], place: usize) -> Option<&StreamPlace>
    ensures { option_copied result ≡ slice_get doc_places.now place }
{
    doc_places.get(place)
}

/// Where the job stands that is at a place of the catalogue, from 0.
pub(crate) fn job_place_at(doc_places: &[JobPlace], place: usize) -> Option<&JobPlace>
    ensures { option_copied result ≡ slice_get doc_places.now place }
{
    doc_places.get(place)
}

/// The document that stands there.
pub(crate) fn stream_at<'a>(entries: &'a [Entry], doc_place: &StreamPlace) -> Option<&'a StreamDoc>
    ensures { option_copied result ≡ doc_at entries.now doc_place.now }
{
    match entries.get(doc_place.entry) {
        None => None,
        Some(entry) => docs_of(&entry.body).get(doc_place.doc),
    }
}

/// The job that stands there, with its stream.
pub(crate) fn planned_job_at<'a>(
    entries: &'a [Entry],
    doc_place: &JobPlace,
) -> Option<(&'a StreamDoc, &'a JobDoc)>
    ensures { option_map (λ p. stream_job p.0.now p.1.now) result ≡ job_at entries.now doc_place.now }
{
    match stream_at(entries, &doc_place.stream) {
        None => None,
        Some(doc) => match doc.jobs.get(doc_place.job) {
            None => None,
            Some(job) => Some((doc, job)),
        },
    }
}

/// Where the streams and the jobs of the catalogue stand, in its order.
pub(crate) struct DocPlaces {
    pub(crate) streams: Items<StreamPlace>,
    pub(crate) jobs: Items<JobPlace>,
}

/// Written out, so that dropping one is a call for whoever owns it.
impl Drop for DocPlaces {
    fn drop(self) {
        let DocPlaces {
            streams: _streams,
            jobs: _jobs,
        } = self;
    }
}

impl DocPlaces {
    /// No places, which takes no memory yet.
    pub(crate) fn new(alloc: Global) -> DocPlaces
        ensures streams { result.streams ≡ [] }
        ensures jobs { result.jobs ≡ [] }
    {
        DocPlaces {
            streams: Items::new(alloc),
            jobs: Items::new(alloc),
        }
    }

    /// The greatest number of a stream, 0 where there is none.
    pub(crate) fn last_stream(&self) -> u32
        ensures { result ≡ greatest (map (λ p. p.number) self.now.streams) }
    {
        let mut last = 0;
        for doc_place in self.streams.as_slice() {
            if doc_place.number > last {
                last = doc_place.number;
            }
        }
        last
    }

    /// The greatest number of a job, 0 where there is none.
    pub(crate) fn last_job(&self) -> u32
        ensures { result ≡ greatest (map (λ p. p.number) self.now.jobs) }
    {
        let mut last = 0;
        for doc_place in self.jobs.as_slice() {
            if doc_place.number > last {
                last = doc_place.number;
            }
        }
        last
    }

    /// Adds a job, where its number is not there.
    fn add_job(&mut self, numbers: &mut Numbers, doc_place: JobPlace) -> Result<(), NoMemory>
        requires { ArePlaces (map (λ p. p.number) self.old.jobs) numbers.old }
        ensures streams { self.new.streams ≡ self.old.streams }
        ensures known { OnOk result (ArePlaces (map (λ p. p.number) self.new.jobs) numbers.new) }
        ensures jobs { OnOk result ((kept : List Taken) (known : List StreamJob) (x : StreamJob) →
            job_at kept doc_place ≡ Some x → doc_place.number ≡ x.doc.no →
            AreJobPlaces kept self.old.jobs (first_jobs_among known) →
            AreJobPlaces kept self.new.jobs (first_jobs_among (known ++ x ∷ []))) }
    {
        if !numbers.has(doc_place.number) {
            numbers.add(doc_place.number, self.jobs.len())?;
            self.jobs.push(doc_place)?;
            return Ok(());
        }
        Ok(())
    }

    /// Adds the jobs of a stream whose numbers are not there.
    fn add_jobs(
        &mut self,
        numbers: &mut Numbers,
        doc_place: StreamPlace,
        doc: &StreamDoc,
    ) -> Result<(), NoMemory>
        requires { ArePlaces (map (λ p. p.number) self.old.jobs) numbers.old }
        ensures streams { self.new.streams ≡ self.old.streams }
        ensures known { OnOk result (ArePlaces (map (λ p. p.number) self.new.jobs) numbers.new) }
        ensures jobs { OnOk result ((kept : List Taken) (known : List StreamJob) →
            doc_at kept doc_place ≡ Some doc.now →
            AreJobPlaces kept self.old.jobs (first_jobs_among known) →
            AreJobPlaces kept self.new.jobs (first_jobs_among (known ++ jobs_in doc.now))) }
    {
        for (i, job) in doc.jobs.as_slice().iter().enumerate() {
            self.add_job(
                numbers,
                JobPlace {
                    number: job.no.0,
                    stream: doc_place,
                    job: i,
                },
            )?;
        }
        Ok(())
    }

    /// Adds a stream, whose number is not there.
    fn add_stream(&mut self, numbers: &mut Numbers, doc_place: StreamPlace) -> Result<(), NoMemory>
        requires { ArePlaces (map (λ p. p.number) self.old.streams) numbers.old }
        ensures jobs { self.new.jobs ≡ self.old.jobs }
        ensures known { OnOk result (ArePlaces (map (λ p. p.number) self.new.streams) numbers.new) }
        ensures grown { OnOk result (self.new.streams ≡ self.old.streams ++ doc_place ∷ []) }
    {
        numbers.add(doc_place.number, self.streams.len())?;
        self.streams.push(doc_place)?;
        Ok(())
    }

    /// Adds a stream and its jobs, where its number is not there.
    fn add(
        &mut self,
        streams: &mut Numbers,
        jobs: &mut Numbers,
        doc_place: StreamPlace,
        doc: &StreamDoc,
    ) -> Result<(), NoMemory>
        requires number { doc_place.number ≡ doc.now.no }
        requires streams { ArePlaces (map (λ p. p.number) self.old.streams) streams.old }
        requires jobs { ArePlaces (map (λ p. p.number) self.old.jobs) jobs.old }
        ensures streams { OnOk result (ArePlaces (map (λ p. p.number) self.new.streams) streams.new) }
        ensures jobs { OnOk result (ArePlaces (map (λ p. p.number) self.new.jobs) jobs.new) }
        ensures doc_places { OnOk result ((kept : List Taken) (docs : List Doc) →
            doc_at kept doc_place ≡ Some doc.now →
            AreDocPlacesOf kept docs self.old → AreDocPlacesOf kept (docs ++ doc.now ∷ []) self.new) }
    {
        if !streams.has(doc_place.number) {
            self.add_stream(streams, doc_place)?;
            self.add_jobs(jobs, doc_place, doc)?;
        }
        Ok(())
    }

    /// The places where this entry comes after those, and where the numbers of the streams and of the jobs stand.
    pub(crate) fn with(
        &self,
        numbers: &Numbers,
        entries: &[Entry],
        e: &Entry,
    ) -> Result<(DocPlaces, Numbers, Numbers), NoMemory>
        requires { AreDocPlacesOf entries.now (flat_map docs_in (list_of entries.now (Events 0))) self.now }
        ensures doc_places { IfOk result (λ s. AreDocPlacesOf (entries.now ++ e.now ∷ [])
            (flat_map docs_in (list_of entries.now (Events 0)) ++ docs_in e.now.body) s.0) }
        ensures streams { IfOk result (λ s. ArePlaces (map (λ p. p.number) s.0.streams) s.1) }
        ensures jobs { IfOk result (λ s. ArePlaces (map (λ p. p.number) s.0.jobs) s.2) }
    {
        let mut doc_places = DocPlaces {
            streams: self.streams.copy()?,
            jobs: self.jobs.copy()?,
        };
        let mut streams = numbers.of_streams(&doc_places)?;
        let mut jobs = numbers.of_jobs(&doc_places)?;
        for (i, doc) in docs_of(&e.body).iter().enumerate() {
            let doc_place = StreamPlace {
                number: doc.no.0,
                entry: entries.len(),
                doc: i,
            };
            doc_places.add(&mut streams, &mut jobs, doc_place, doc)?;
        }
        Ok((doc_places, streams, jobs))
    }
}
