//! The index of one workstation: what keeps track of the best job, and of the own members that may be released or end.
ghost use Rattle.std.specs.Prelude.{◌≡◌, ◌++◌, ◌∷◌, [], ℕ, IfOk, IfSome, IsTrue, List, OnOk, filter};
ghost use Rattle.model.specs.Types.{Entry as Taken};
ghost use Rattle.model.specs.Words.{least};
ghost use Rattle.model.specs.History.{view_of};
ghost use Rattle.model.specs.OwnMembers.{may_end, may_release, own_numbers};
ghost use Rattle.model.specs.Readiness as spec;
ghost use Rattle.ready_index.specs.Standing.{IsIndexOf};

use crate::ends::Ends;
use crate::jobs::JobIndex;
use crate::releases::Releases;
use base_types::{Entry, JobNo, NoMemory, StreamNo, Ws};
use dependencies::Readiness;
use network_tree::Network;
use owner_fold::Owners;
use std::alloc::Global;

/// What keeps track of the best job of one workstation, and of its own members that may be released or end.
pub struct Index {
    jobs: JobIndex,
    releases: Releases,
    ends: Ends,
}

/// Written out, so that dropping one is a call for whoever owns it.
impl Drop for Index {
    fn drop(self) {
        let Index {
            jobs: _jobs,
            releases: _releases,
            ends: _ends,
        } = self;
    }
}

impl Index {
    /// The index of no entries, which takes no memory yet.
    pub fn new(alloc: Global) -> Index
        ensures { (w : ℕ) → IsIndexOf (view_of []) w result }
    {
        Index {
            jobs: JobIndex::new(alloc),
            releases: Releases::new(alloc),
            ends: Ends::new(alloc),
        }
    }

    /// The index of the entries that `o` took, as if it had taken each of them in calls that named this net and this
    /// workstation. `NoMemory` where memory runs out.
    pub fn of(alloc: Global, net: &Network, o: &Owners, w: Ws) -> Result<Index, NoMemory>
        ensures { IfOk result (λ index. IsIndexOf (view_of o.now) w index) }
    {
        let mut index = Index::new(alloc);
        index.remake(net, o, w)?;
        Ok(index)
    }

    /// Makes the index anew.
    fn remake(&mut self, net: &Network, o: &Owners, w: Ws) -> Result<(), NoMemory>
        ensures { OnOk result (IsIndexOf (view_of o.now) w self.new) }
    {
        self.jobs.remake(net, o, w)?;
        self.releases.remake(net, o, w)?;
        self.ends.remake(o, w)
    }
}

impl Readiness for Index {
    ghost stands_for = { λ index taken w resources prompts. IsIndexOf (view_of taken) w index };

    /// Takes an entry that `o` has taken just before, as its last. After `NoMemory` some jobs and streams may be lost to
    /// the index, until it is made anew: `best` then answers a job that is ready, though it need not be the best, or none.
    fn took(&mut self, net: &Network, o: &Owners, w: Ws, e: &Entry) -> Result<(), NoMemory>
        ensures { OnOk result ((before : List Taken) → o.now ≡ before ++ e.now ∷ []
            → IsIndexOf (view_of before) w self.old → IsIndexOf (view_of o.now) w self.new) }
    {
        self.jobs.took(net, o, w, e)?;
        self.releases.took(net, o, w, e)?;
        self.ends.took(net, o, w, e)
    }

    /// The first candidate that is ready. So a job that is answered is ready, whatever the index stands for.
    fn best(&self, net: &Network, o: &Owners, w: Ws) -> Option<JobNo>
        ensures stands { IsIndexOf (view_of o.now) w self.now → result ≡ spec.best net.now (view_of o.now) w }
        ensures ready { IfSome result (λ j. IsTrue (spec.is_ready net.now (view_of o.now) w j)) }
    {
        self.jobs.best(net, o, w)
    }

    /// The first of the streams that watch nothing that may be released.
    fn lowest_to_release(&self, net: &Network, o: &Owners, w: Ws) -> Option<StreamNo>
        ensures { let V = view_of o.now in IsIndexOf V w self.now
            → result ≡ least (filter (may_release net.now V w) (own_numbers V w)) }
    {
        self.releases.lowest(net, o, w)
    }

    /// The first of the streams that were seen to be able to end, and may.
    fn lowest_to_end(&self, net: &Network, o: &Owners, w: Ws) -> Option<StreamNo>
        ensures { let V = view_of o.now in IsIndexOf V w self.now
            → result ≡ least (filter (may_end V w) (own_numbers V w)) }
    {
        self.ends.lowest(net, o, w)
    }
}
