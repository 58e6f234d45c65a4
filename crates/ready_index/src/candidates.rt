//! The candidates, by their places in the order in which the best job is chosen.
ghost use Rattle.std.specs.Prelude.{◌≡◌, ◌<◌, [], OnOk, find, option_map};
ghost use Rattle.model.specs.History.{view_of};
ghost use Rattle.model.specs.Readiness as spec;
ghost use Rattle.model.specs.Words.{insert_once};
ghost use Rattle.dependencies.specs.Planned.{IsPlannedJob};
ghost use Rattle.owner_fold.specs.DocPlaces.{stream_job};
ghost use Rattle.ready_index.specs.Lists.{InOrder, without};
ghost use Rattle.ready_index.specs.Places.{IsPlaceOf, number_at};

use base_types::{JobDoc, JobNo, NoMemory, StreamDoc, Ws};
use dependencies::{job_priority, ready, stream_priority};
use network_tree::Network;
use owner_fold::Owners;
use std::alloc::Global;
use std::collections::BTreeSet;
use std::marker::Model;

/// How many numbers a job can have.
const NUMBERS: u64 = 4_294_967_296;

/// The place of a job in the order in which the best job is chosen: first how far the priority of its stream lies below
/// 255, then how far its own does, then its number. The lowest place comes first.
pub(crate) fn place(o: &Owners, parent: &StreamDoc, doc: &JobDoc) -> u64
    requires { IsPlannedJob (view_of o.now) (stream_job parent.now doc.now) }
    ensures { IsPlaceOf (view_of o.now) (stream_job parent.now doc.now) result }
{
    let stream = u64::from(255 - stream_priority(o, parent));
    let job = u64::from(255 - job_priority(o, parent, doc));
    (stream * 256 + job) * NUMBERS + u64::from(doc.no.0)
}

/// The number of the job at a place.
fn number_at(place: u64) -> u32
    ensures { result ≡ number_at place }
{
    (place % NUMBERS) as u32
}

/// The places of the candidates. A contract sees them in ascending order, so the best first.
#[derive(Drop)]
pub(crate) struct Candidates {
    places: BTreeSet<u64>,
}

impl Model for Candidates {
    ghost use Rattle.std.specs.Prelude.{List, ℕ};

    ghost Value = { List ℕ };

    ghost view = { λ a. a.places.keys };
}

impl Candidates {
    /// Nobody, which takes no memory yet.
    pub(crate) fn new(alloc: Global) -> Self
        ensures { result ≡ [] }
    {
        Candidates {
            places: BTreeSet::new(alloc),
        }
    }

    /// Adds a place, where it is not there already.
    pub(crate) fn add(&mut self, place: u64) -> Result<(), NoMemory>
        ensures { OnOk result (self.new ≡ insert_once place self.old) }
    {
        self.places.insert(place)?;
        Ok(())
    }

    /// Drops a place, where it is there.
    pub(crate) fn remove(&mut self, place: u64)
        ensures { self.new ≡ without place self.old }
    {
        self.places.remove(&place);
    }

    /// Drops them all.
    pub(crate) fn clear(&mut self)
        ensures { self.new ≡ [] }
    {
        self.places.clear();
    }

    /// The number of the first job that is ready.
    pub(crate) fn first_ready(&self, net: &Network, o: &Owners, w: Ws) -> Option<JobNo>
        ensures first { result ≡ option_map number_at
            (find (λ k. spec.is_ready net.now (view_of o.now) w (number_at k)) self.now) }
        ensures ordered { InOrder ◌<◌ self.now }
    {
        for place in &self.places {
            let number = JobNo(number_at(*place));
            if ready(net, o, w, number) {
                return Some(number);
            }
        }
        None
    }
}
