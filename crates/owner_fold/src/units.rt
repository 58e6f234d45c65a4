//! The open launches of a workstation, and the units of a resource that are in use there.
ghost use Rattle.std.specs.Prelude.{◌≡◌, ◌+◌, ◌<◌, ◌≤◌, ◌^◌, filter, length};
ghost use Rattle.std.specs.Iterator.{YieldsFirstBy, item_count};
ghost use Rattle.model.specs.Types.{Events};
ghost use Rattle.model.specs.History.{list_of, view_of};
ghost use Rattle.model.specs.Catalogue.{StreamJob, jobs_of};
ghost use Rattle.model.specs.Facts.{is_open};
ghost use Rattle.model.specs.Dependencies.{units, units_in, used};
ghost use Rattle.owner_fold.specs.DocPlaces.{stream_job};
ghost use Rattle.owner_fold.specs.Holders.{is_open_here, open_jobs, open_left};
ghost use Rattle.owner_fold.specs.Holders.{streams_under_way, units_at};

use crate::holdings::Owners;
use crate::searches::{JobTest, next_job};
use base_types::{Dep, JobDoc, Obj, StreamDoc, Ws};

/// The jobs of a workstation with an open launch, each with its stream, in the order of the catalogue.
#[derive(Drop)]
pub struct OpenLaunches<'a> {
    pub(crate) owners: &'a Owners,
    pub(crate) codes: &'a [u64],
    pub(crate) ws: Ws,
}

impl<'a> Iterator for OpenLaunches<'a> {
    type Item = (&'a StreamDoc, &'a JobDoc);

    ghost next_gives = { YieldsFirstBy (λ p. stream_job p.0.now p.1.now) open_left };

    ghost remaining = { item_count open_left };

    #[tactic(auto, unfolding(crate::specs::Holders::open_left))]
    fn next(&mut self) -> Option<(&'a StreamDoc, &'a JobDoc)> {
        let (found, rest) = next_job(JobTest::Opened, self.owners, self.ws, self.codes);
        self.codes = rest;
        found
    }
}

/// The job is one of w, and has an open launch.
pub(crate) fn is_open_job(owners: &Owners, w: Ws, job: &JobDoc) -> bool
    ensures { result ≡ is_open_here w (list_of owners.now (Events w)) job.now }
{
    job.ws.0 == w.0 && owners.kept().is_open_at(w, job.no)
}

/// The units of a resource that a dependency asks for.
fn units_in_dep(resource: u16, dep: &Dep) -> u64
    ensures units { result ≡ units_in resource dep.now }
    ensures few { result ≤ 65535 }
{
    match dep {
        Dep::Needs(other, units) => {
            if resource == *other {
                u64::from(*units)
            } else {
                0
            }
        }
        _ => 0,
    }
}

impl Owners {
    /// The jobs of w with an open launch, each with its stream, in the order of the catalogue.
    pub fn open_launches(&self, w: Ws) -> OpenLaunches<'_>
        ensures { open_left result ≡
            filter (λ (p : StreamJob). is_open p.doc.no (list_of self.now (Events w))) (jobs_of (view_of self.now) w) }
    {
        OpenLaunches {
            owners: self,
            codes: self.opened_codes(w),
            ws: w,
        }
    }

    /// The units of a resource that dependency i of the object asks for, where it is not waived.
    fn units_at(&self, o: &Obj, resource: u16, i: u16) -> u64
        ensures units { result ≡ units_at (view_of self.now) resource o.now i }
        ensures few { result ≤ 65535 }
    {
        if self.is_waived_of(o, i) {
            return 0;
        }
        match self.dep_of(o, i) {
            None => 0,
            Some(dep) => units_in_dep(resource, dep),
        }
    }

    /// The units of a resource that the object asks for.
    fn units_of(&self, o: &Obj, resource: u16) -> u64
        ensures units { result ≡ units (view_of self.now) resource o.now }
        ensures few { result ≤ 4294836225 }
    {
        let count = self.dep_count_of(o);
        let mut units = 0;
        for i in 0..count {
            units += self.units_at(o, resource, i + 1);
        }
        units
    }

    /// The same, and that those who hold units at w are few.
    fn holders(&self, w: Ws) -> OpenLaunches<'_>
        ensures jobs { open_left result ≡ open_jobs (view_of self.now) w }
        ensures few { length (open_jobs (view_of self.now) w) +
            length (streams_under_way (view_of self.now) w) < 2 ^ 32 }
    {
        // The entries of a feed are few.
        let _entries = self.kept().entries();
        OpenLaunches {
            owners: self,
            codes: self.opened_codes(w),
            ws: w,
        }
    }

    /// The units of a resource that are in use at w, by its jobs with an open launch and its streams under way.
    pub fn used(&self, w: Ws, resource: u16) -> u64
        ensures { result ≡ used (view_of self.now) w resource }
    {
        let mut used = 0;
        for (_, doc) in self.holders(w) {
            let o = Obj::Job(doc.no);
            used += self.units_of(&o, resource);
        }
        for doc in self.streams_under_way(w) {
            let o = Obj::Stream(doc.no);
            used += self.units_of(&o, resource);
        }
        used
    }
}
