//! Who watches what.
ghost use Rattle.std.specs.Prelude.{◌≡◌, ◌≢◌, ◌++◌, ◌∷◌, [], ℕ, OnOk, unwrap_or};
ghost use Rattle.ready_index.specs.Watched.{AddsOne, TakesAll, waiting_at, waiting_for};
ghost use Rattle.ready_index.specs.declared.targets.Target.{Target as Watched};

use crate::targets::Target;
use base_types::{Items, NoMemory};
use indexmap::IndexMap;
use std::alloc::Global;

/// The numbers of jobs that watch something, by the number of what they watch.
#[derive(Drop)]
pub(crate) struct Waiting {
    alloc: Global,
    lists: IndexMap<u32, Items<u32>>,
}

impl Waiting {
    /// Nobody, which takes no memory yet.
    fn new(alloc: Global) -> Self
        ensures { (n : ℕ) → waiting_at result n ≡ [] }
    {
        Waiting {
            alloc,
            lists: IndexMap::new(alloc),
        }
    }

    /// Lets a job watch this number.
    fn add(&mut self, number: u32, job: u32) -> Result<(), NoMemory>
        ensures here { OnOk result (waiting_at self.new number ≡ waiting_at self.old number ++ job ∷ []) }
        ensures others { OnOk result ((n : ℕ) → n ≢ number → waiting_at self.new n ≡ waiting_at self.old n) }
    {
        let mut waiting = match self.lists.swap_remove(&number) {
            Some(list) => list,
            None => Items::new(self.alloc),
        };
        waiting.push(job)?;
        self.lists.insert(number, waiting)?;
        Ok(())
    }

    /// Takes out who watches this number. None where nobody does.
    fn take(&mut self, number: u32) -> Option<Items<u32>>
        ensures taken { unwrap_or result [] ≡ waiting_at self.old number }
        ensures others { (n : ℕ) → n ≢ number → waiting_at self.new n ≡ waiting_at self.old n }
    {
        self.lists.swap_remove(&number)
    }

    /// Nobody watches anything from now on.
    fn clear(&mut self)
        ensures { (n : ℕ) → waiting_at self.new n ≡ [] }
    {
        self.lists.clear();
    }
}

/// The jobs that wait, by what each of them watches.
#[derive(Drop)]
pub(crate) struct Watches {
    releases: Waiting,
    jobs: Waiting,
    streams: Waiting,
}

impl Watches {
    /// Nobody, which takes no memory yet.
    pub(crate) fn new(alloc: Global) -> Self
        ensures { (t : Watched) → waiting_for result t ≡ [] }
    {
        Watches {
            releases: Waiting::new(alloc),
            jobs: Waiting::new(alloc),
            streams: Waiting::new(alloc),
        }
    }

    /// Lets a job watch something.
    pub(crate) fn add(&mut self, target: &Target, job: u32) -> Result<(), NoMemory>
        ensures { OnOk result (AddsOne self.old self.new target.now job) }
    {
        match target {
            Target::ReleaseOf(s) => self.releases.add(*s, job),
            Target::EndOfJob(j) => self.jobs.add(*j, job),
            Target::EndOfStream(s) => self.streams.add(*s, job),
        }
    }

    /// Takes out who watches something. None where nobody does.
    pub(crate) fn take(&mut self, target: &Target) -> Option<Items<u32>>
        ensures { TakesAll self.old self.new target.now (unwrap_or result []) }
    {
        match target {
            Target::ReleaseOf(s) => self.releases.take(*s),
            Target::EndOfJob(j) => self.jobs.take(*j),
            Target::EndOfStream(s) => self.streams.take(*s),
        }
    }

    /// Nobody watches anything from now on.
    pub(crate) fn clear(&mut self)
        ensures { (t : Watched) → waiting_for self.new t ≡ [] }
    {
        self.releases.clear();
        self.jobs.clear();
        self.streams.clear();
    }
}
