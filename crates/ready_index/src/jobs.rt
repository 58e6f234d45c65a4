//! The index of jobs, and what it does by an entry.
ghost use Rattle.std.specs.Prelude.{◌≡◌, ◌++◌, ◌∷◌, [], ℕ, IfSome, IsTrue, List, OnOk};
ghost use Rattle.model.specs.Types.{Entry as Taken};
ghost use Rattle.model.specs.History.{view_of};
ghost use Rattle.model.specs.Readiness as spec;
ghost use Rattle.dependencies.specs.Planned.{IsPlannedJob};
ghost use Rattle.owner_fold.specs.DocPlaces.{stream_job};
ghost use Rattle.ready_index.specs.Standing.{IsJobIndexBut, IsJobIndexOf, IsLookedAt};
ghost use Rattle.ready_index.specs.Watched.{waiting_for};

use crate::candidates::{Candidates, place};
use crate::changes::{Change, change_of};
use crate::targets::Target;
use crate::waits::{first_awaited, is_in_play};
use crate::watches::Watches;
use base_types::{Entry, JobDoc, JobNo, NoMemory, StreamDoc, Ws};
use network_tree::Network;
use owner_fold::Owners;
use std::alloc::Global;

/// The candidates for the best job of one workstation, and what each job that waits watches.
pub(crate) struct JobIndex {
    candidates: Candidates,
    watches: Watches,
}

/// Written out, so that dropping one is a call for whoever owns it.
impl Drop for JobIndex {
    fn drop(self) {
        let JobIndex {
            candidates: _candidates,
            watches: _watches,
        } = self;
    }
}

impl JobIndex {
    /// The index of no entries, which takes no memory yet.
    pub(crate) fn new(alloc: Global) -> JobIndex
        ensures { (w : ℕ) → IsJobIndexOf (view_of []) w result }
    {
        JobIndex {
            candidates: Candidates::new(alloc),
            watches: Watches::new(alloc),
        }
    }

    /// Looks at each job of w.
    fn fill(&mut self, net: &Network, o: &Owners, w: Ws) -> Result<(), NoMemory>
        requires { self.old.candidates ≡ [] }
        ensures { OnOk result (IsJobIndexOf (view_of o.now) w self.new) }
    {
        for (parent, doc) in o.jobs() {
            if doc.ws == w {
                self.look(net, o, w, parent, doc)?;
            }
        }
        Ok(())
    }

    /// Makes the index anew.
    pub(crate) fn remake(&mut self, net: &Network, o: &Owners, w: Ws) -> Result<(), NoMemory>
        ensures { OnOk result (IsJobIndexOf (view_of o.now) w self.new) }
    {
        self.candidates.clear();
        self.watches.clear();
        self.fill(net, o, w)
    }

    /// Looks at a job of w: where it is in play, it watches something that it waits for, or is a candidate.
    fn look(
        &mut self,
        net: &Network,
        o: &Owners,
        w: Ws,
        parent: &StreamDoc,
        doc: &JobDoc,
    ) -> Result<(), NoMemory>
        requires planned { IsPlannedJob (view_of o.now) (stream_job parent.now doc.now) }
        requires owned { doc.now.ws ≡ w }
        ensures { OnOk result (IsLookedAt (view_of o.now) w doc.now.no self.old self.new) }
    {
        if !is_in_play(o, w, parent, doc) {
            return Ok(());
        }
        match first_awaited(net, o, w, parent, doc) {
            Some(target) => self.watches.add(&target, doc.no.0),
            None => self.candidates.add(place(o, parent, doc)),
        }
    }

    /// Looks at the job of this number, where it is one of w.
    fn look_at(&mut self, net: &Network, o: &Owners, w: Ws, number: u32) -> Result<(), NoMemory>
        ensures { OnOk result (IsLookedAt (view_of o.now) w number self.old self.new) }
    {
        match o.planned_job(JobNo(number)) {
            None => Ok(()),
            Some((parent, doc)) => {
                if doc.ws == w {
                    self.look(net, o, w, parent, doc)
                } else {
                    Ok(())
                }
            }
        }
    }

    /// Looks anew at each job that watches something.
    fn look_again(
        &mut self,
        net: &Network,
        o: &Owners,
        w: Ws,
        target: &Target,
    ) -> Result<(), NoMemory>
        ensures { OnOk result (
            IsJobIndexBut (view_of o.now) w (waiting_for self.old.watches target.now) self.old
            → IsJobIndexOf (view_of o.now) w self.new) }
    {
        match self.watches.take(target) {
            None => Ok(()),
            Some(waiting) => self.look_at_all(net, o, w, waiting.as_slice()),
        }
    }

    /// Looks at each of these jobs.
    fn look_at_all(
        &mut self,
        net: &Network,
        o: &Owners,
        w: Ws,
        numbers: &[u32],
    ) -> Result<(), NoMemory>
        ensures { OnOk result (
            IsJobIndexBut (view_of o.now) w numbers.now self.old → IsJobIndexOf (view_of o.now) w self.new) }
    {
        for number in numbers {
            self.look_at(net, o, w, *number)?;
        }
        Ok(())
    }

    /// Drops a job that was launched, where it is not due any more.
    fn drop_launched(&mut self, o: &Owners, w: Ws, number: u32)
        ensures { IsJobIndexOf (view_of o.now) w self.old → IsJobIndexOf (view_of o.now) w self.new }
    {
        if let Some((parent, doc)) = o.planned_job(JobNo(number)) {
            if doc.ws == w && !o.is_due(doc.no) {
                self.candidates.remove(place(o, parent, doc));
            }
        }
    }

    /// Takes an entry that `o` has taken just before, as its last. After `NoMemory` some jobs may be lost to the index,
    /// until it is made anew: `best` then answers a job that is ready, though it need not be the best, or none.
    pub(crate) fn took(
        &mut self,
        net: &Network,
        o: &Owners,
        w: Ws,
        e: &Entry,
    ) -> Result<(), NoMemory>
        ensures { OnOk result ((before : List Taken) → o.now ≡ before ++ e.now ∷ []
            → IsJobIndexOf (view_of before) w self.old → IsJobIndexOf (view_of o.now) w self.new) }
    {
        match change_of(&e.body) {
            Change::Everything => self.remake(net, o, w),
            Change::Launch(number) => {
                self.drop_launched(o, w, number);
                Ok(())
            }
            Change::At(target) => self.look_again(net, o, w, &target),
            Change::Nothing => Ok(()),
        }
    }

    /// The first candidate that is ready. So a job that is answered is ready, whatever the index stands for.
    pub(crate) fn best(&self, net: &Network, o: &Owners, w: Ws) -> Option<JobNo>
        ensures stands { IsJobIndexOf (view_of o.now) w self.now → result ≡ spec.best net.now (view_of o.now) w }
        ensures ready { IfSome result (λ j. IsTrue (spec.is_ready net.now (view_of o.now) w j)) }
    {
        self.candidates.first_ready(net, o, w)
    }
}
