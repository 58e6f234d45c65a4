//! What a record names: its workstations, its resources, its prompts, and the jobs of a stream.
ghost use Rattle.std.specs.Prelude.{◌≡◌, ℕ, List, IfOk, option_map};
ghost use Rattle.record_faults.specs.Known as known;
ghost use Rattle.record_faults.specs.Known.{has_name};
ghost use Rattle.record_faults.specs.Faults as spec;
ghost use Rattle.record_faults.specs.Hops.{AreHops};
ghost use Rattle.record_faults.specs.Noted.{IsSameNamed};

use crate::hops::hop_places;
use crate::keys::Keys;
use crate::names::Names;
use crate::picks::{begins_stream, job_of, prompt_of, resource_of};
use crate::stations::{Found, add_station, unlinked};
use base_types::{NoMemory, Text};
use record_rows::{DepRow, Row};
use std::alloc::Global;
use std::marker::Model;

/// What is known of a record beside its rows.
pub struct Named<'a> {
    pub(crate) stations: Vec<Found<'a>>,
    /// The place of the hop of each workstation.
    pub(crate) hops: Vec<usize>,
    pub(crate) resources: Keys<'a>,
    pub(crate) prompts: Names<'a>,
    ghost hops_there: { AreHops stations.items hops.items },
}

impl<'a> Drop for Named<'a> {
    fn drop(self) {
        let Named {
            stations: _stations,
            hops: _hops,
            resources: _resources,
            prompts: _prompts,
        } = self;
    }
}

impl<'a> Model for Named<'a> {
    ghost use Rattle.record_faults.specs.Known as known;

    ghost Value = { known.Named };

    ghost view = { λ n. record { stations = n.stations.items; resources = n.resources; prompts = n.prompts } };
}

/// The jobs before the next stream or section.
pub(crate) fn jobs_ahead<'a>(alloc: Global, rows: &'a [Row]) -> Result<Names<'a>, NoMemory>
    ensures { IfOk result (λ names. (n : List ℕ) →
        has_name names n ≡ has_name (known.jobs (known.until known.begins_stream rows.now)) n) }
{
    let mut names = Names::new(alloc);
    for row in rows {
        if begins_stream(row) {
            return Ok(names);
        }
        names.note(job_of(row))?;
    }
    Ok(names)
}

impl<'a> Named<'a> {
    /// What the rows of a record with a network name, in one pass over them. The only error is that memory ran out.
    pub fn of_rows(alloc: Global, rows: &'a [Row]) -> Result<Named<'a>, NoMemory>
        ensures { IfOk result (λ n. IsSameNamed n (known.named_in rows.now)) }
    {
        let mut stations = Vec::new(alloc);
        let mut resources = Keys::new(alloc);
        let mut prompts = Names::new(alloc);
        for row in rows {
            add_station(&mut stations, row)?;
            resources.note(resource_of(row))?;
            prompts.note(prompt_of(row))?;
        }
        let hops = hop_places(alloc, stations.as_slice())?;
        Ok(Named {
            stations,
            hops,
            resources,
            prompts,
        })
    }

    /// A record whose network is defined elsewhere, and has these workstations, the master first. The only error is that
    /// memory ran out.
    pub fn of_names(alloc: Global, names: &'a [Text]) -> Result<Named<'a>, NoMemory>
        ensures { IfOk result (λ n. n ≡ known.named_by names.now) }
    {
        let stations = unlinked(alloc, names)?;
        let hops = hop_places(alloc, stations.as_slice())?;
        Ok(Named {
            stations,
            hops,
            resources: Keys::new(alloc),
            prompts: Names::new(alloc),
        })
    }

    /// Whether the stream lacks the job, the network the resource of the workstation, or the network the prompt that a
    /// dependency names.
    #[tactic(auto, unfolding(crate::specs::Faults::lacks_item))]
    pub(crate) fn lacks_item(&self, jobs: &Names<'a>, ws: Option<&'a Text>, row: &'a Row) -> bool
        ensures { result ≡ spec.lacks_item
            (record { jobs = jobs.now; resources = self.now.resources; prompts = self.now.prompts })
            (option_map (λ t. t.now) ws.entry) row.now }
    {
        match row {
            Row::Dep(DepRow::FollowsOwn(job)) => !jobs.has(job),
            Row::Dep(DepRow::Needs(_, name)) => self.lacks_resource(ws, name),
            Row::Dep(DepRow::AskGlobal(name)) => !self.prompts.has(name),
            _ => false,
        }
    }

    fn lacks_resource(&self, ws: Option<&'a Text>, name: &'a Text) -> bool
        ensures { result ≡ spec.lacks_resource self.now.resources (option_map (λ t. t.now) ws.entry) name.now }
    {
        match ws {
            Some(ws) => !self.resources.has(ws, name),
            None => true,
        }
    }
}
