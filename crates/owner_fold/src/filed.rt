//! The own members of a workstation, and own members' jobs, that were given a dependency on a file.
ghost use Rattle.std.specs.Prelude.{◌≡◌, filter};
ghost use Rattle.std.specs.Iterator.{YieldsFirstBy, YieldsFirstRef, item_count};
ghost use Rattle.model.specs.Types.{Events, Job, Stream, StreamDoc as Doc};
ghost use Rattle.model.specs.History.{view_of};
ghost use Rattle.model.specs.Catalogue.{StreamJob};
ghost use Rattle.model.specs.OwnMembers.{own_jobs, own_streams};
ghost use Rattle.owner_fold.specs.Given.{is_filed};
ghost use Rattle.owner_fold.specs.DocPlaces.{stream_job};
ghost use Rattle.owner_fold.specs.Files.{filed_jobs_left, filed_streams_left};

use crate::given::Kind;
use crate::holdings::Owners;
use crate::searches::{JobTest, StreamTest, next_job, next_stream};
use base_types::{JobDoc, StreamDoc, Ws};

/// The own members of a workstation with a dependency on a file, in the order of the catalogue.
#[derive(Drop)]
pub struct FiledStreams<'a> {
    pub(crate) owners: &'a Owners,
    pub(crate) codes: &'a [u64],
    pub(crate) ws: Ws,
}

/// The own members' jobs of a workstation with such a dependency, each with its stream, in the order of the catalogue.
#[derive(Drop)]
pub struct FiledJobs<'a> {
    pub(crate) owners: &'a Owners,
    pub(crate) codes: &'a [u64],
    pub(crate) ws: Ws,
}

impl<'a> Iterator for FiledStreams<'a> {
    type Item = &'a StreamDoc;

    ghost next_gives = { YieldsFirstRef filed_streams_left };

    ghost remaining = { item_count filed_streams_left };

    #[tactic(auto, unfolding(crate::specs::Files::filed_streams_left))]
    fn next(&mut self) -> Option<&'a StreamDoc> {
        let test = StreamTest::Given(Kind::File);
        let (found, rest) = next_stream(test, self.owners, self.ws, self.codes);
        self.codes = rest;
        found
    }
}

impl<'a> Iterator for FiledJobs<'a> {
    type Item = (&'a StreamDoc, &'a JobDoc);

    ghost next_gives = { YieldsFirstBy (λ p. stream_job p.0.now p.1.now) filed_jobs_left };

    ghost remaining = { item_count filed_jobs_left };

    #[tactic(auto, unfolding(crate::specs::Files::filed_jobs_left))]
    fn next(&mut self) -> Option<(&'a StreamDoc, &'a JobDoc)> {
        let test = JobTest::Given(Kind::File);
        let (found, rest) = next_job(test, self.owners, self.ws, self.codes);
        self.codes = rest;
        found
    }
}

impl Owners {
    /// The own members of w with a dependency on a file, written or added, waived ones too, in the order of the
    /// catalogue.
    #[tactic(auto, unfolding(crate::specs::Files::filed_streams_left))]
    pub fn filed_streams(&self, w: Ws) -> FiledStreams<'_>
        ensures { filed_streams_left result ≡
            filter (λ (d : Doc). is_filed (Stream d.no) d.deps (view_of self.now (Events w)))
            (own_streams (view_of self.now) w) }
    {
        FiledStreams {
            owners: self,
            codes: self.filed_stream_codes(w),
            ws: w,
        }
    }

    /// The own members' jobs of w with such a dependency, each with its stream, in the order of the catalogue.
    #[tactic(auto, unfolding(crate::specs::Files::filed_jobs_left))]
    pub fn filed_jobs(&self, w: Ws) -> FiledJobs<'_>
        ensures { filed_jobs_left result ≡
            filter (λ (p : StreamJob). is_filed (Job p.doc.no) p.doc.deps (view_of self.now (Events w)))
            (own_jobs (view_of self.now) w) }
    {
        FiledJobs {
            owners: self,
            codes: self.filed_job_codes(w),
            ws: w,
        }
    }
}
