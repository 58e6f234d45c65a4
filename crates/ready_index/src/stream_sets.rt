//! Sets of streams, by their numbers.
ghost use Rattle.std.specs.Prelude.{◌≡◌, ◌<◌, [], OnOk, find};
ghost use Rattle.model.specs.History.{view_of};
ghost use Rattle.model.specs.OwnMembers as spec;
ghost use Rattle.model.specs.Words.{insert_once};
ghost use Rattle.ready_index.specs.Lists.{InOrder, without};

use base_types::{NoMemory, StreamNo, Ws};
use dependencies::{may_end, may_release};
use network_tree::Network;
use owner_fold::Owners;
use std::alloc::Global;
use std::collections::BTreeSet;
use std::marker::Model;

/// The numbers of some streams. A contract sees them in ascending order.
#[derive(Drop)]
pub(crate) struct StreamSet {
    numbers: BTreeSet<u32>,
}

impl Model for StreamSet {
    ghost use Rattle.std.specs.Prelude.{List, ℕ};

    ghost Value = { List ℕ };

    ghost view = { λ a. a.numbers.keys };
}

impl StreamSet {
    /// No stream, which takes no memory yet.
    pub(crate) fn new(alloc: Global) -> Self
        ensures { result ≡ [] }
    {
        StreamSet {
            numbers: BTreeSet::new(alloc),
        }
    }

    /// Adds a stream, where it is not there already.
    pub(crate) fn add(&mut self, number: u32) -> Result<(), NoMemory>
        ensures { OnOk result (self.new ≡ insert_once number self.old) }
    {
        self.numbers.insert(number)?;
        Ok(())
    }

    /// Drops a stream, where it is there.
    pub(crate) fn remove(&mut self, number: u32)
        ensures { self.new ≡ without number self.old }
    {
        self.numbers.remove(&number);
    }

    /// Drops them all.
    pub(crate) fn clear(&mut self)
        ensures { self.new ≡ [] }
    {
        self.numbers.clear();
    }

    /// The lowest of them that may be released at w.
    pub(crate) fn first_to_release(&self, net: &Network, o: &Owners, w: Ws) -> Option<StreamNo>
        ensures first { result ≡ find (spec.may_release net.now (view_of o.now) w) self.now }
        ensures ordered { InOrder ◌<◌ self.now }
    {
        for number in &self.numbers {
            let s = StreamNo(*number);
            if may_release(net, o, w, s) {
                return Some(s);
            }
        }
        None
    }

    /// The lowest of them that may end at w.
    pub(crate) fn first_to_end(&self, net: &Network, o: &Owners, w: Ws) -> Option<StreamNo>
        ensures first { result ≡ find (spec.may_end (view_of o.now) w) self.now }
        ensures ordered { InOrder ◌<◌ self.now }
    {
        for number in &self.numbers {
            let s = StreamNo(*number);
            if may_end(net, o, w, s) {
                return Some(s);
            }
        }
        None
    }
}
