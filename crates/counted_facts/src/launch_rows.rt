//! The rows of launches.
ghost use Rattle.std.specs.Prelude.{◌≡◌, ◌+◌, ◌++◌, ◌∷◌, ◌<◌, ◌^◌, [], List, OnOk, count_by, length, nat_eq, unwrap_or};
ghost use Rattle.std.specs.List.{list_any};
ghost use Rattle.indexmap.specs.IndexMap.{get};
ghost use Rattle.model.specs.Types.{Entry as Kept, Events};
ghost use Rattle.model.specs.History.{list_of};
ghost use Rattle.model.specs.Facts.{is_launch_of};
ghost use Rattle.model.specs.Sound.{is_numbered_launch};
ghost use Rattle.counted_facts.specs.Keys.{ends_launch};
ghost use Rattle.counted_facts.specs.Marks.{CountsOne, MarksOne};
ghost use Rattle.counted_facts.specs.Launches.{AreTold};

use crate::launch_bodies::{end_key, job_in, launch_key};
use base_types::{Entry, JobNo, NoMemory, Ws};
use indexmap::{IndexMap, IndexSet};
use std::alloc::Global;

/// How many launches each job has, and which launches were told and ended.
pub struct ToldLaunches {
    counts: IndexMap<u32, u32>,
    launched: IndexSet<(u16, (u32, u32))>,
    ended: IndexSet<(u16, (u32, u32))>,
}

/// Written out, so that dropping one is a call for whoever owns it.
impl Drop for ToldLaunches {
    fn drop(self) {
        let ToldLaunches {
            counts: _counts,
            launched: _launched,
            ended: _ended,
        } = self;
    }
}

/// How often a job was counted.
fn count_of(counts: &IndexMap<u32, u32>, j: u32) -> u32
    ensures { result ≡ unwrap_or (get nat_eq counts.now j) 0 }
{
    match counts.get(&j) {
        None => 0,
        Some(n) => *n,
    }
}

/// Counts one more of a job, where there is one. A count stays at 4,294,967,295.
fn count_one(counts: &mut IndexMap<u32, u32>, job: Option<u32>) -> Result<(), NoMemory>
    ensures { OnOk result (CountsOne job counts.old counts.new) }
{
    match job {
        None => Ok(()),
        Some(j) => {
            let next = count_of(counts, j).saturating_add(1);
            match counts.insert(j, next) {
                Ok(_) => Ok(()),
                Err(_) => Err(NoMemory),
            }
        }
    }
}

/// Puts a launch among others, where there is one.
fn mark(
    launches: &mut IndexSet<(u16, (u32, u32))>,
    key: Option<(u16, (u32, u32))>,
) -> Result<(), NoMemory>
    ensures { OnOk result (MarksOne key launches.old launches.new) }
{
    match key {
        None => Ok(()),
        Some(launch) => match launches.insert(launch) {
            Ok(_) => Ok(()),
            Err(_) => Err(NoMemory),
        },
    }
}

impl ToldLaunches {
    /// Nothing told, which takes no memory yet.
    pub fn new(alloc: Global) -> ToldLaunches
        ensures { AreTold [] result }
    {
        ToldLaunches {
            counts: IndexMap::new(alloc),
            launched: IndexSet::new(alloc),
            ended: IndexSet::new(alloc),
        }
    }

    /// Takes what one more entry tells. Where memory runs out it may be told in part, and is not to be asked again.
    pub fn tell(&mut self, e: &Entry) -> Result<(), NoMemory>
        ensures { OnOk result ((G : List Kept) → length G + 1 < 2 ^ 32 → AreTold G self.old
            → AreTold (G ++ e.now ∷ []) self.new) }
    {
        count_one(&mut self.counts, job_in(&e.body))?;
        mark(&mut self.launched, launch_key(e))?;
        mark(&mut self.ended, end_key(e))
    }

    /// How many launches of a job were told, in all lists.
    pub fn count(&self, j: JobNo) -> u32
        ensures { (G : List Kept) → AreTold G self.now
            → result ≡ count_by (λ (e : Kept). is_launch_of j e.body) G }
    {
        count_of(&self.counts, j.0)
    }

    /// Whether a launch was told in the list of a workstation.
    pub fn is_launched(&self, w: Ws, j: JobNo, n: u32) -> bool
        ensures { (G : List Kept) → AreTold G self.now
            → result ≡ list_any (is_numbered_launch j n) (list_of G (Events w)) }
    {
        self.launched.contains(&(w.0, (j.0, n)))
    }

    /// Whether an end of a launch was told in the list of a workstation.
    pub fn is_ended(&self, w: Ws, j: JobNo, n: u32) -> bool
        ensures { (G : List Kept) → AreTold G self.now
            → result ≡ list_any (ends_launch j n) (list_of G (Events w)) }
    {
        self.ended.contains(&(w.0, (j.0, n)))
    }
}
