//! What keeps track of the best job at a node.
ghost use Rattle.std.specs.Prelude.{◌≡◌, ◌<◌, ◌++◌, ◌∷◌, [], IsTrue, List, None, OnErr, OnOk};
ghost use Rattle.model.specs.Types.{Entry as Taken};
ghost use Rattle.model.specs.Network.{node_count};
ghost use Rattle.agent_core.specs.Standing.{IsIndexed, Tracks};

use base_types::{Entry, NoMemory, Ws};
use dependencies::Readiness;
use network_tree::Network;
use owner_fold::Owners;
use ready_index::Index;
use std::alloc::Global;

/// An index, which is given up where it has no memory for an entry. It is then made anew before the next input.
pub(crate) struct Tracker {
    pub(crate) index: Option<Index>,
}

/// Written out, so that dropping one is a call for whoever owns it.
impl Drop for Tracker {
    fn drop(self) {
        let Tracker { index: _index } = self;
    }
}

/// Takes an entry that `o` has taken just before into an index that is there. Whether it had the memory for it.
fn keep_up(index: &mut Option<Index>, net: &Network, o: &Owners, w: Ws, e: &Entry) -> bool
    requires { w < node_count net.now }
    ensures { IsTrue result → (before : List Taken) → o.now ≡ before ++ e.now ∷ [] → Tracks index.old before w
        → Tracks index.new o.now w }
{
    match index {
        None => true,
        Some(index) => match index.took(net, o, w, e) {
            Ok(()) => true,
            Err(_) => false,
        },
    }
}

impl Tracker {
    /// No index.
    pub(crate) const fn new() -> Tracker
        ensures { result.index ≡ None }
    {
        Tracker { index: None }
    }

    /// Makes the index of the entries that `o` took where there is none. There is one then, unless memory ran out, and in
    /// that case nothing changes.
    pub(crate) fn renew(
        &mut self,
        alloc: Global,
        net: &Network,
        o: &Owners,
        w: Ws,
    ) -> Result<(), NoMemory>
        requires { Tracks self.old.index o.now w }
        ensures indexed { OnOk result (IsIndexed self.new.index o.now w) }
        ensures tracks { Tracks self.new.index o.now w }
        ensures err { OnErr result (self.new ≡ self.old) }
    {
        if self.index.is_some() {
            return Ok(());
        }
        let index = Index::of(alloc, net, o, w)?;
        self.index = Some(index);
        Ok(())
    }

    /// Takes an entry that `o` has taken just before. It never refuses.
    pub(crate) fn follow(&mut self, net: &Network, o: &Owners, w: Ws, e: &Entry)
        requires { w < node_count net.now }
        ensures { (before : List Taken) → o.now ≡ before ++ e.now ∷ [] → Tracks self.old.index before w
            → Tracks self.new.index o.now w }
    {
        if !keep_up(&mut self.index, net, o, w, e) {
            self.index = None;
        }
    }
}
