//! The workstations of the plan's streams and jobs, each at the place of its object, so that the owner of an object is
//! found without its document.
ghost use Rattle.std.specs.Prelude.{◌≡◌, ◌++◌, [], ◌∷◌, List, IfOk, map};
ghost use Rattle.model.specs.Types.{StreamDoc as Doc};
ghost use Rattle.model.specs.Catalogue.{StreamJob};
ghost use Rattle.owner_fold.specs.DocPlaces.{AreJobPlaces, AreStreamPlaces, doc_at, job_at};
ghost use Rattle.owner_fold.specs.Stations.{AreStationsOf, job_owner, stream_owner};

use crate::doc_places::{DocPlaces, JobPlace, StreamPlace};
use crate::fills::{job_with, stream_with};
use base_types::{Entry, Items, NoMemory, Ws};
use std::alloc::Global;

/// The workstation of the stream that stands there, where `e` comes after the others.
fn stream_owner(entries: &[Entry], e: &Entry, doc_place: &StreamPlace) -> Ws
    ensures { result ≡ stream_owner (doc_at (entries.now ++ e.now ∷ []) doc_place.now) }
{
    match stream_with(entries, e, doc_place) {
        None => Ws(0),
        Some(doc) => doc.ws,
    }
}

/// The workstation of the job that stands there then.
fn job_owner(entries: &[Entry], e: &Entry, doc_place: &JobPlace) -> Ws
    ensures { result ≡ job_owner (job_at (entries.now ++ e.now ∷ []) doc_place.now) }
{
    match job_with(entries, e, doc_place) {
        None => Ws(0),
        Some((_, doc)) => doc.ws,
    }
}

/// The workstations of the catalogue's streams and jobs, in its order.
pub(crate) struct Stations {
    pub(crate) streams: Items<Ws>,
    pub(crate) jobs: Items<Ws>,
}

/// Written out, so that dropping one is a call for whoever owns it.
impl Drop for Stations {
    fn drop(self) {
        let Stations {
            streams: _streams,
            jobs: _jobs,
        } = self;
    }
}

impl Stations {
    /// Those of no plan, which takes no memory yet.
    pub(crate) fn new(alloc: Global) -> Stations
        ensures { AreStationsOf [] [] result }
    {
        Stations {
            streams: Items::new(alloc),
            jobs: Items::new(alloc),
        }
    }

    /// Those of the streams that stand at these places, where `e` comes after the entries.
    fn of_streams(
        &self,
        entries: &[Entry],
        e: &Entry,
        doc_places: &DocPlaces,
    ) -> Result<Items<Ws>, NoMemory>
        ensures { IfOk result (λ owners. owners
            ≡ map (λ p. stream_owner (doc_at (entries.now ++ e.now ∷ []) p)) doc_places.now.streams) }
    {
        let mut owners = self.streams.empty();
        for doc_place in doc_places.streams.as_slice() {
            owners.push(stream_owner(entries, e, doc_place))?;
        }
        Ok(owners)
    }

    /// Those of the jobs.
    fn of_jobs(
        &self,
        entries: &[Entry],
        e: &Entry,
        doc_places: &DocPlaces,
    ) -> Result<Items<Ws>, NoMemory>
        ensures { IfOk result (λ owners. owners
            ≡ map (λ p. job_owner (job_at (entries.now ++ e.now ∷ []) p)) doc_places.now.jobs) }
    {
        let mut owners = self.jobs.empty();
        for doc_place in doc_places.jobs.as_slice() {
            owners.push(job_owner(entries, e, doc_place))?;
        }
        Ok(owners)
    }

    /// Those of the catalogue that stands at these places, where `e` comes after the entries.
    pub(crate) fn with(
        &self,
        entries: &[Entry],
        e: &Entry,
        doc_places: &DocPlaces,
    ) -> Result<Stations, NoMemory>
        ensures { IfOk result (λ owners. (docs : List Doc) (placed : List StreamJob)
            → AreStreamPlaces (entries.now ++ e.now ∷ []) doc_places.now.streams docs
            → AreJobPlaces (entries.now ++ e.now ∷ []) doc_places.now.jobs placed
            → AreStationsOf docs placed owners) }
    {
        let streams = self.of_streams(entries, e, doc_places)?;
        let jobs = self.of_jobs(entries, e, doc_places)?;
        Ok(Stations { streams, jobs })
    }
}
