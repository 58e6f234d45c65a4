//! The own members that may end.
ghost use Rattle.std.specs.Prelude.{◌≡◌, ◌++◌, ◌∷◌, [], ℕ, List, OnOk, filter};
ghost use Rattle.model.specs.Types.{Entry as Taken};
ghost use Rattle.model.specs.Words.{least};
ghost use Rattle.model.specs.History.{view_of};
ghost use Rattle.model.specs.OwnMembers as spec;
ghost use Rattle.ready_index.specs.Ends.{KnowsEnds, KnowsEndsBut, KnowsEndsButOne};
ghost use Rattle.ready_index.specs.declared.targets.Target.TheVariants.{EndOfJob};

use crate::changes::{Change, change_of};
use crate::stream_sets::StreamSet;
use crate::targets::Target;
use base_types::{Entry, JobNo, NoMemory, StreamNo, Ws};
use dependencies::{may_end, may_end_in};
use network_tree::Network;
use owner_fold::Owners;
use std::alloc::Global;

/// Streams of one workstation, among which is each own member that may end.
#[derive(Drop)]
pub(crate) struct Ends {
    streams: StreamSet,
}

impl Ends {
    /// Those of no entries, which takes no memory yet.
    pub(crate) fn new(alloc: Global) -> Ends
        ensures { (w : ℕ) → KnowsEnds (view_of []) w result.streams }
    {
        Ends {
            streams: StreamSet::new(alloc),
        }
    }

    /// Looks at each stream of w that is under way.
    fn fill(&mut self, o: &Owners, w: Ws) -> Result<(), NoMemory>
        ensures { OnOk result (KnowsEnds (view_of o.now) w self.new.streams) }
    {
        for doc in o.streams_under_way(w) {
            if may_end_in(o, w, doc) {
                self.streams.add(doc.no.0)?;
            }
        }
        Ok(())
    }

    /// Looks at all streams of w anew.
    pub(crate) fn remake(&mut self, o: &Owners, w: Ws) -> Result<(), NoMemory>
        ensures { OnOk result (KnowsEnds (view_of o.now) w self.new.streams) }
    {
        self.streams.clear();
        self.fill(o, w)
    }

    /// Looks at the stream of this number.
    fn look_at(&mut self, net: &Network, o: &Owners, w: Ws, number: u32) -> Result<(), NoMemory>
        ensures { OnOk result (KnowsEndsButOne (view_of o.now) w number self.old.streams
            → KnowsEnds (view_of o.now) w self.new.streams) }
    {
        if may_end(net, o, w, StreamNo(number)) {
            self.streams.add(number)
        } else {
            self.streams.remove(number);
            Ok(())
        }
    }

    /// Looks at the stream of the job that ends.
    fn look_at_parent(&mut self, net: &Network, o: &Owners, w: Ws, job: u32) -> Result<(), NoMemory>
        ensures { OnOk result (KnowsEndsBut (view_of o.now) w (EndOfJob job) self.old.streams
            → KnowsEnds (view_of o.now) w self.new.streams) }
    {
        match o.planned_job(JobNo(job)) {
            None => Ok(()),
            Some((parent, _doc)) => self.look_at(net, o, w, parent.no.0),
        }
    }

    /// Looks at the stream that is released or ends, or at that of the job that ends.
    fn look_again(
        &mut self,
        net: &Network,
        o: &Owners,
        w: Ws,
        target: &Target,
    ) -> Result<(), NoMemory>
        ensures { OnOk result (KnowsEndsBut (view_of o.now) w target.now self.old.streams
            → KnowsEnds (view_of o.now) w self.new.streams) }
    {
        match target {
            Target::ReleaseOf(s) => self.look_at(net, o, w, *s),
            Target::EndOfStream(s) => self.look_at(net, o, w, *s),
            Target::EndOfJob(j) => self.look_at_parent(net, o, w, *j),
        }
    }

    /// Takes an entry that `o` has taken just before, as its last.
    pub(crate) fn took(
        &mut self,
        net: &Network,
        o: &Owners,
        w: Ws,
        e: &Entry,
    ) -> Result<(), NoMemory>
        ensures { OnOk result ((before : List Taken) → o.now ≡ before ++ e.now ∷ []
            → KnowsEnds (view_of before) w self.old.streams → KnowsEnds (view_of o.now) w self.new.streams) }
    {
        match change_of(&e.body) {
            Change::Everything => self.remake(o, w),
            Change::Launch(_) => Ok(()),
            Change::At(target) => self.look_again(net, o, w, &target),
            Change::Nothing => Ok(()),
        }
    }

    /// The lowest own member of w that may end.
    pub(crate) fn lowest(&self, net: &Network, o: &Owners, w: Ws) -> Option<StreamNo>
        ensures { let V = view_of o.now in KnowsEnds V w self.now.streams
            → result ≡ least (filter (spec.may_end V w) (spec.own_numbers V w)) }
    {
        self.streams.first_to_end(net, o, w)
    }
}
