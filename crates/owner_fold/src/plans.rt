//! The plan beside the entries: where its documents stand, and its members.
ghost use Rattle.std.specs.Prelude.{◌≡◌, ◌++◌, [], ◌∷◌, List, None, ℕ, filter, flat_map, map, true, unwrap_or, IfOk};
ghost use Rattle.model.specs.Types.{Entry as Taken, Events, Job, Stream};
ghost use Rattle.model.specs.Words.{has};
ghost use Rattle.model.specs.History.{list_of, view_of};
ghost use Rattle.model.specs.Catalogue.{docs_in, members_with, owner};
ghost use Rattle.owner_fold.specs.Numbers.{ArePlaces};
ghost use Rattle.owner_fold.specs.Plans.{is_planning, IsPlanOf};
ghost use Rattle.owner_fold.specs.DocPlaces.{AreDocPlacesOf};

use crate::doc_places::DocPlaces;
use crate::numbers::{Index, Numbers};
use crate::stations::Stations;
use base_types::{Body, Copied, Entry, Feed, Items, JobNo, NoMemory, StreamNo, StreamNos, Ws};
use std::alloc::Global;

/// The entry is the master's plan, or a stream that it added.
pub(crate) fn is_planning(e: &Entry) -> bool
    ensures { result ≡ is_planning e.now }
{
    match &e.feed {
        Feed::Events(w) => match &e.body {
            Body::NewPlan(_, _, _, _) => w.0 == 0,
            Body::Added(_, _, _) => w.0 == 0,
            _ => false,
        },
        Feed::Orders(_, _) => false,
    }
}

/// The plan that a list of entries makes.
pub(crate) struct Plan {
    pub(crate) doc_places: DocPlaces,
    pub(crate) stations: Stations,
    /// What the last plan and the streams added to it name, None before the first plan.
    pub(crate) named: Option<StreamNos>,
    /// Those among them that the catalogue has.
    pub(crate) members: StreamNos,
    pub(crate) index: Index,
    /// The greatest number of a stream in the catalogue, 0 where it is empty.
    pub(crate) last_stream: u32,
    /// The greatest number of a job in the catalogue, 0 where it has none.
    pub(crate) last_job: u32,
}

/// Written out, so that dropping one is a call for whoever owns it.
impl Drop for Plan {
    fn drop(self) {
        let Plan {
            doc_places: _doc_places,
            stations: _stations,
            named: _named,
            members: _members,
            index: _index,
            last_stream: _last_stream,
            last_job: _last_job,
        } = self;
    }
}

impl Plan {
    /// The plan of no entries, which takes no memory yet.
    pub(crate) fn new(alloc: Global) -> Plan
        ensures { IsPlanOf [] result }
    {
        Plan {
            doc_places: DocPlaces::new(alloc),
            stations: Stations::new(alloc),
            named: None,
            members: Items::new(alloc),
            index: Index::new(alloc),
            last_stream: 0,
            last_job: 0,
        }
    }

    /// The greatest number of a stream.
    pub(crate) fn greatest_stream(&self) -> u32
        ensures { result ≡ self.now.last_stream }
    {
        self.last_stream
    }

    /// The greatest number of a job.
    pub(crate) fn greatest_job(&self) -> u32
        ensures { result ≡ self.now.last_job }
    {
        self.last_job
    }

    /// The workstation of a stream. None outside the catalogue.
    pub(crate) fn stream_owner(&self, s: StreamNo) -> Option<Ws>
        ensures { (kept : List Taken) → IsPlanOf kept self.now → result ≡ owner (view_of kept) (Stream s) }
    {
        match self.index.streams.place(s.0) {
            None => None,
            Some(place) => self.stations.streams.get(place).copied(),
        }
    }

    /// The workstation of a job. None outside the catalogue.
    pub(crate) fn job_owner(&self, j: JobNo) -> Option<Ws>
        ensures { (kept : List Taken) → IsPlanOf kept self.now → result ≡ owner (view_of kept) (Job j) }
    {
        match self.index.jobs.place(j.0) {
            None => None,
            Some(place) => self.stations.jobs.get(place).copied(),
        }
    }

    /// What a plan and the streams added to it name after one more body.
    fn named_with(&self, body: &Body) -> Result<Option<StreamNos>, NoMemory>
        ensures { IfOk result (λ n. n ≡ members_with self.now.named body.now) }
    {
        match body {
            Body::NewPlan(_, _, carried, docs) => {
                let mut named = carried.copy()?;
                for doc in docs.as_slice() {
                    named.push(doc.no)?;
                }
                Ok(Some(named))
            }
            Body::Added(_, _, doc) => match &self.named {
                None => Ok(None),
                Some(before) => {
                    let mut named = before.copy()?;
                    named.push(doc.no)?;
                    Ok(Some(named))
                }
            },
            _ => self.named.copy(),
        }
    }

    /// The numbers that are there, of those that are named.
    fn members_among(
        &self,
        named: &Option<StreamNos>,
        streams: &Numbers,
    ) -> Result<StreamNos, NoMemory>
        ensures { IfOk result (λ ms. (numbers : List ℕ) → ArePlaces numbers streams.now
            → ms ≡ filter (has numbers) (unwrap_or named.now [])) }
    {
        let mut members = self.members.empty();
        if let Some(named) = named {
            for number in named.as_slice() {
                if streams.has(number.0) {
                    members.push(*number)?;
                }
            }
        }
        Ok(members)
    }

    /// The plan after one more entry, which is a plan or a stream that is added.
    pub(crate) fn with(&self, entries: &[Entry], e: &Entry) -> Result<Plan, NoMemory>
        requires planning { is_planning e.now ≡ true }
        requires plan { IsPlanOf entries.now self.now }
        ensures { IfOk result (λ p. IsPlanOf (entries.now ++ e.now ∷ []) p) }
    {
        let (doc_places, streams, jobs) = self.doc_places.with(&self.index.streams, entries, e)?;
        let stations = self.stations.with(entries, e, &doc_places)?;
        let named = self.named_with(&e.body)?;
        let members = self.members_among(&named, &streams)?;
        let places = self.index.members.of_members(&members)?;
        let last_stream = doc_places.last_stream();
        let last_job = doc_places.last_job();
        Ok(Plan {
            doc_places,
            stations,
            named,
            members,
            index: Index {
                streams,
                jobs,
                members: places,
            },
            last_stream,
            last_job,
        })
    }
}
