//! The own members that wait for their release.
ghost use Rattle.std.specs.Prelude.{◌≡◌, ◌++◌, ◌∷◌, [], ℕ, List, OnOk, filter};
ghost use Rattle.model.specs.Types.{Entry as Taken};
ghost use Rattle.model.specs.Words.{least};
ghost use Rattle.model.specs.History.{view_of};
ghost use Rattle.model.specs.OwnMembers as spec;
ghost use Rattle.dependencies.specs.Planned.{IsPlannedStream};
ghost use Rattle.ready_index.specs.Releases.{IsStreamLookedAt, KnowsWaiting, KnowsWaitingBut};
ghost use Rattle.ready_index.specs.Watched.{waiting_for};

use crate::changes::{Change, change_of};
use crate::stream_sets::StreamSet;
use crate::targets::Target;
use crate::waits::{first_held_back, waits_here, waits_in};
use crate::watches::Watches;
use base_types::{Entry, NoMemory, Obj, StreamDoc, StreamNo, Ws};
use network_tree::Network;
use owner_fold::Owners;
use std::alloc::Global;

/// The streams of one workstation that wait for nothing that can be watched, and what each other one that waits for its
/// release watches.
#[derive(Drop)]
pub(crate) struct Releases {
    candidates: StreamSet,
    watches: Watches,
}

impl Releases {
    /// Those of no entries, which takes no memory yet.
    pub(crate) fn new(alloc: Global) -> Releases
        ensures { (w : ℕ) → KnowsWaiting (view_of []) w result }
    {
        Releases {
            candidates: StreamSet::new(alloc),
            watches: Watches::new(alloc),
        }
    }

    /// Looks at each stream of w that waits.
    fn fill(&mut self, net: &Network, o: &Owners, w: Ws) -> Result<(), NoMemory>
        ensures { OnOk result (KnowsWaiting (view_of o.now) w self.new) }
    {
        for doc in o.streams_waiting(w) {
            self.look(net, o, w, doc)?;
        }
        Ok(())
    }

    /// Looks at all streams of w anew.
    pub(crate) fn remake(&mut self, net: &Network, o: &Owners, w: Ws) -> Result<(), NoMemory>
        ensures { OnOk result (KnowsWaiting (view_of o.now) w self.new) }
    {
        self.candidates.clear();
        self.watches.clear();
        self.fill(net, o, w)
    }

    /// Looks at a stream: where it waits at w, it watches something that holds it back, or is a candidate.
    fn look(&mut self, net: &Network, o: &Owners, w: Ws, doc: &StreamDoc) -> Result<(), NoMemory>
        requires { IsPlannedStream (view_of o.now) doc.now }
        ensures { OnOk result (IsStreamLookedAt (view_of o.now) w doc.now.no self.old self.new) }
    {
        if !waits_in(o, w, doc) {
            return Ok(());
        }
        match first_held_back(net, o, w, &Obj::Stream(doc.no)) {
            Some(target) => self.watches.add(&target, doc.no.0),
            None => self.candidates.add(doc.no.0),
        }
    }

    /// Looks at the stream of this number.
    fn look_at(&mut self, net: &Network, o: &Owners, w: Ws, number: u32) -> Result<(), NoMemory>
        ensures { OnOk result (IsStreamLookedAt (view_of o.now) w number self.old self.new) }
    {
        match o.stream(StreamNo(number)) {
            None => Ok(()),
            Some(doc) => self.look(net, o, w, doc),
        }
    }

    /// Looks at each of these streams.
    fn look_at_all(
        &mut self,
        net: &Network,
        o: &Owners,
        w: Ws,
        numbers: &[u32],
    ) -> Result<(), NoMemory>
        ensures { OnOk result (KnowsWaitingBut (view_of o.now) w numbers.now self.old
            → KnowsWaiting (view_of o.now) w self.new) }
    {
        for number in numbers {
            self.look_at(net, o, w, *number)?;
        }
        Ok(())
    }

    /// Looks anew at each stream that watches something.
    fn look_again(
        &mut self,
        net: &Network,
        o: &Owners,
        w: Ws,
        target: &Target,
    ) -> Result<(), NoMemory>
        ensures { OnOk result (
            KnowsWaitingBut (view_of o.now) w (waiting_for self.old.watches target.now) self.old
            → KnowsWaiting (view_of o.now) w self.new) }
    {
        match self.watches.take(target) {
            None => Ok(()),
            Some(waiting) => self.look_at_all(net, o, w, waiting.as_slice()),
        }
    }

    /// Drops the stream of this number, where it does not wait any more.
    fn settle(&mut self, o: &Owners, w: Ws, number: u32)
        ensures { KnowsWaiting (view_of o.now) w self.old → KnowsWaiting (view_of o.now) w self.new }
    {
        if !waits_here(o, w, StreamNo(number)) {
            self.candidates.remove(number);
        }
    }

    /// Drops a stream that was released.
    fn drop_released(&mut self, o: &Owners, w: Ws, target: &Target)
        ensures { KnowsWaiting (view_of o.now) w self.old → KnowsWaiting (view_of o.now) w self.new }
    {
        match target {
            Target::ReleaseOf(s) => self.settle(o, w, *s),
            Target::EndOfJob(_) | Target::EndOfStream(_) => {}
        }
    }

    /// Takes an entry that `o` has taken just before, as its last.
    pub(crate) fn took(
        &mut self,
        net: &Network,
        o: &Owners,
        w: Ws,
        e: &Entry,
    ) -> Result<(), NoMemory>
        ensures { OnOk result ((before : List Taken) → o.now ≡ before ++ e.now ∷ []
            → KnowsWaiting (view_of before) w self.old → KnowsWaiting (view_of o.now) w self.new) }
    {
        match change_of(&e.body) {
            Change::Everything => self.remake(net, o, w),
            Change::Launch(_) => Ok(()),
            Change::At(target) => {
                self.look_again(net, o, w, &target)?;
                self.drop_released(o, w, &target);
                Ok(())
            }
            Change::Nothing => Ok(()),
        }
    }

    /// The lowest own member of w that may be released.
    pub(crate) fn lowest(&self, net: &Network, o: &Owners, w: Ws) -> Option<StreamNo>
        ensures { let V = view_of o.now in KnowsWaiting V w self.now
            → result ≡ least (filter (spec.may_release net.now V w) (spec.own_numbers V w)) }
    {
        self.candidates.first_to_release(net, o, w)
    }
}
