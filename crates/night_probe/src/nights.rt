//! What is asked about: a network, what was taken in it, and what was made of that.
use crate::outs::Out;
use agent_core::Agent;
use base_types::{Bytes, Entry, Items, Ws};
use dependencies::Readiness;
use grouped_places::Groups;
use mailman_core::Mail;
use network_tree::Network;
use network_world::World;
use owner_fold::Owners;
use ready_index::Index;

/// A network with the entries that were taken, and what questions made.
pub struct Night {
    pub net: Network,
    pub owners: Owners,
    /// For each workstation one, which took each entry.
    pub indices: Items<Index>,
    pub mail: Mail,
    pub groups: Groups,
    pub agent: Option<Agent>,
    pub world: Option<World>,
    /// A report of the world.
    pub report: Bytes,
}

impl Drop for Night {
    fn drop(self) {
        let Night {
            net: _net,
            owners: _owners,
            indices: _indices,
            mail: _mail,
            groups: _groups,
            agent: _agent,
            world: _world,
            report: _report,
        } = self;
    }
}

fn new_indices(out: &mut Out, net: &Network) -> Items<Index> {
    let mut indices = Items::new(out.alloc);
    for _ in 0..net.count() {
        let done = indices.push(Index::new(out.alloc));
        out.done(done);
    }
    indices
}

/// Each index takes the entry that was taken last.
fn follow(
    out: &mut Out,
    indices: &mut Items<Index>,
    net: &Network,
    owners: &Owners,
    entry: &Entry,
) {
    for w in 0..net.count() {
        if let Some(index) = indices.get_mut(usize::from(w)) {
            let done = index.took(net, owners, Ws(w), entry);
            out.done(done);
        }
    }
}

/// Takes an entry, where it is the next of its feed, and tells whether it is.
pub fn take(out: &mut Out, owners: &mut Owners, entry: &Entry) -> bool {
    let taken = owners.count(entry.feed);
    if taken < u32::MAX && entry.place == taken + 1 {
        let done = owners.take(entry);
        out.done(done);
        return true;
    }
    false
}

impl Night {
    /// Nothing was taken yet.
    pub fn begin(out: &mut Out, net: Network) -> Night {
        let indices = new_indices(out, &net);
        Night {
            net,
            owners: Owners::new(out.alloc),
            indices,
            mail: Mail::new(out.alloc),
            groups: Groups::new(out.alloc),
            agent: None,
            world: None,
            report: Items::new(out.alloc),
        }
    }

    /// What the node holds, where there is one, and else what was taken.
    pub fn held(&self) -> &Owners {
        match &self.agent {
            Some(agent) => agent.owners(),
            None => &self.owners,
        }
    }

    /// Takes an entry, where it is the next of its feed, and tells whether it is.
    pub fn take(&mut self, out: &mut Out, entry: &Entry) -> bool {
        if !take(out, &mut self.owners, entry) {
            return false;
        }
        follow(out, &mut self.indices, &self.net, &self.owners, entry);
        true
    }
}
