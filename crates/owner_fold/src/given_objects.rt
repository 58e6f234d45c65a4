//! The members, and members' jobs, that were given a dependency of a kind, by their places in the catalogue.
ghost use Rattle.std.specs.Prelude.{◌≡◌, ◌++◌, [], ◌∷◌, List, ℕ, IfOk, OnOk};
ghost use Rattle.model.specs.Types.{StreamDoc as Doc};
ghost use Rattle.model.specs.Catalogue.{StreamJob};
ghost use Rattle.owner_fold.specs.Given.{is_of};
ghost use Rattle.owner_fold.specs.Numbers.{ArePlaces};
ghost use Rattle.owner_fold.specs.Sets.{AreGivenAmong, HasGiven, KeepsGiven};
ghost use Rattle.owner_fold.specs.DocPlaces.{AreJobPlaces, AreStreamPlaces};

use crate::doc_places::DocPlaces;
use crate::fills::{jobs_of, streams_of};
use crate::given::Kind;
use crate::numbers::{Index, Numbers};
use crate::searches::{JobTest, StreamTest};
use crate::sets::include;
use base_types::{Entry, NoMemory, Obj};
use grouped_places::Groups;
use owner_rows::Kept;
use std::alloc::Global;

/// Places of streams and jobs, by their workstations.
pub(crate) struct GivenObjects {
    pub(crate) streams: Groups,
    pub(crate) jobs: Groups,
}

/// Written out, so that dropping one is a call for whoever owns it.
impl Drop for GivenObjects {
    fn drop(self) {
        let GivenObjects {
            streams: _streams,
            jobs: _jobs,
        } = self;
    }
}

impl GivenObjects {
    /// No places, which takes no memory yet.
    pub(crate) fn new(alloc: Global) -> GivenObjects
        ensures streams { result.streams ≡ [] }
        ensures jobs { result.jobs ≡ [] }
    {
        GivenObjects {
            streams: Groups::new(alloc),
            jobs: Groups::new(alloc),
        }
    }

    /// The places of what stands at these places, where this entry comes after those, by what was told before it.
    pub(crate) fn anew(
        &self,
        kind: Kind,
        kept: &Kept,
        e: &Entry,
        doc_places: &DocPlaces,
        members: &Numbers,
    ) -> Result<GivenObjects, NoMemory>
        ensures { IfOk result (λ given. (ms : List ℕ) (streams : List Doc) (placed : List StreamJob)
            → ArePlaces ms members.now
            → AreStreamPlaces (kept.now ++ e.now ∷ []) doc_places.now.streams streams
            → AreJobPlaces (kept.now ++ e.now ∷ []) doc_places.now.jobs placed
            → AreGivenAmong (is_of kind) kept.now ms streams placed given) }
    {
        let (of_streams, of_jobs) = (StreamTest::Given(kind), JobTest::Given(kind));
        let streams = streams_of(
            of_streams,
            self.streams.empty(),
            kept,
            e,
            doc_places,
            members,
        )?;
        let jobs = jobs_of(of_jobs, self.jobs.empty(), kept, e, doc_places, members)?;
        Ok(GivenObjects { streams, jobs })
    }

    /// Puts in an object of w, where it stands in the catalogue.
    pub(crate) fn include(&mut self, index: &Index, w: u16, o: &Obj) -> Result<(), NoMemory>
        ensures keeps { KeepsGiven self.old self.new }
        ensures there { OnOk result (HasGiven index.now w o.now self.new) }
    {
        match o {
            Obj::Stream(s) => include(&mut self.streams, w, index.streams.place(s.0)),
            Obj::Job(j) => include(&mut self.jobs, w, index.jobs.place(j.0)),
        }
    }
}
