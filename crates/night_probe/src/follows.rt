//! The best job after each entry of a list: by an index that took each entry, by one that is made anew, and by a walk.
ghost use Rattle.std.specs.Prelude.{◌<◌};
ghost use Rattle.model.specs.Network.{node_count};

use crate::nights::take;
use crate::outs::Out;
use crate::told::job_number;
use base_types::{Body, Entry, Feed, Ws};
use dependencies::{Readiness, Scan};
use network_tree::Network;
use owner_fold::Owners;
use ready_index::Index;
use std::alloc::Global;

/// What was taken of a list of entries, with an index for one of the workstations.
struct Follower {
    owners: Owners,
    index: Index,
    /// The best job by what was taken, 0 for none.
    best: u32,
    /// How many launches were of the best job.
    launches: u32,
}

impl Drop for Follower {
    fn drop(self) {
        let Follower {
            owners: _owners,
            index: _index,
            best: _best,
            launches: _launches,
        } = self;
    }
}

/// The job that a workstation launches by this entry, 0 where it launches none.
fn launched_by(entry: &Entry, w: Ws) -> u32 {
    if entry.feed != Feed::Events(w) {
        return 0;
    }
    match &entry.body {
        Body::Launched(job, _, _) => job.0,
        _ => 0,
    }
}

impl Follower {
    fn begin(alloc: Global) -> Follower {
        Follower {
            owners: Owners::new(alloc),
            index: Index::new(alloc),
            best: 0,
            launches: 0,
        }
    }

    /// Takes an entry, where it is the next of its feed, and tells whether it is.
    fn take(&mut self, out: &mut Out, net: &Network, w: Ws, entry: &Entry) -> bool
        requires { w < node_count net.now }
    {
        if !take(out, &mut self.owners, entry) {
            return false;
        }
        let done = self.index.took(net, &self.owners, w, entry);
        out.done(done);
        true
    }

    /// The number of the best job by an index that is made anew, 0 for none.
    fn found_anew(&self, out: &mut Out, net: &Network, w: Ws) -> u32
        requires { w < node_count net.now }
    {
        let anew = Index::of(out.alloc, net, &self.owners, w);
        match out.kept(anew) {
            Some(anew) => job_number(anew.best(net, &self.owners, w)),
            None => 0,
        }
    }

    /// The number of the best job, 0 for none. None where the ways find others.
    fn found(&self, out: &mut Out, net: &Network, w: Ws) -> Option<u32>
        requires { w < node_count net.now }
    {
        let scanned = job_number(Scan.best(net, &self.owners, w));
        let indexed = job_number(self.index.best(net, &self.owners, w));
        let anew = self.found_anew(out, net, w);
        if indexed == scanned && anew == scanned {
            Some(scanned)
        } else {
            None
        }
    }

    /// Finds the best job, and tells whether all ways find the same.
    fn find(&mut self, out: &mut Out, net: &Network, w: Ws) -> bool
        requires { w < node_count net.now }
    {
        match self.found(out, net, w) {
            Some(best) => {
                self.best = best;
                true
            }
            None => false,
        }
    }

    /// Counts a launch of the best job, takes the entry, and tells whether all ways find the same best job then.
    fn follow(&mut self, out: &mut Out, net: &Network, w: Ws, entry: &Entry) -> bool
        requires { w < node_count net.now }
    {
        let launched = launched_by(entry, w);
        if launched > 0 && launched == self.best {
            self.launches = self.launches.saturating_add(1);
        }
        self.take(out, net, w, entry) && self.find(out, net, w)
    }

    fn follow_all(&mut self, out: &mut Out, net: &Network, w: Ws, entries: &[Entry]) -> bool
        requires { w < node_count net.now }
    {
        for entry in entries {
            if !self.follow(out, net, w, entry) {
                return false;
            }
        }
        true
    }
}

/// How many jobs w launched of which each was the best by the entries before. None where the ways find others, or an
/// entry is not the next of its feed.
pub fn best_launches(out: &mut Out, net: &Network, w: Ws, entries: &[Entry]) -> Option<u32> {
    if w.0 >= net.count() {
        return None;
    }
    let mut follower = Follower::begin(out.alloc);
    if follower.follow_all(out, net, w, entries) {
        Some(follower.launches)
    } else {
        None
    }
}
