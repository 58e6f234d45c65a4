//! What a node holds: the entries that it took.
ghost use Rattle.std.specs.Prelude.{◌≡◌, ◌+◌, ◌++◌, ◌==◌, ◌||◌, [], ◌∷◌, ℕ, false, true, filter, filter_map, length, OnOk, OnErr};
ghost use Rattle.std.specs.List.{list_any};
ghost use Rattle.std.specs.Prelude.{option_and_then, option_map};
ghost use Rattle.std.specs.Option.{option_copied};
ghost use Rattle.model.specs.Types.{Events, Orders};
ghost use Rattle.model.specs.Words.{has, nth};
ghost use Rattle.model.specs.History.{list_of, view_of};
ghost use Rattle.model.specs.Turn.{ordered_command};
ghost use Rattle.model.specs.Catalogue.{StreamJob, catalogue, has_plan, is_member, job, jobs, jobs_of_stream, members};
ghost use Rattle.model.specs.Catalogue.{owner, stream};
ghost use Rattle.model.specs.Dependencies.{cites};
ghost use Rattle.model.specs.Forwarding.{objects_of, works_on};
ghost use Rattle.model.specs.NewPlan.{last_job, last_stream};
ghost use Rattle.owner_rows.specs.Standing.{has_issued};
ghost use Rattle.owner_fold.specs.Holders.{is_open_here, is_under_way, open_jobs, streams_under_way};
ghost use Rattle.owner_fold.specs.Ordered.{has_orders, is_of_orders};
ghost use Rattle.owner_fold.specs.Plans.{is_planning};
ghost use Rattle.owner_fold.specs.Sets as spec;
ghost use Rattle.owner_fold.specs.Sets.{is_waiting_here, streams_waiting};
ghost use Rattle.owner_fold.specs.DocPlaces.{doc_at, job_at, stream_job};
ghost use Rattle.owner_fold.specs.Files.{filed_jobs, filed_streams};
ghost use Rattle.owner_fold.specs.Given.{has_time, is_given_job_here, is_given_stream_here};
ghost use Rattle.owner_fold.specs.Times.{timed_jobs, timed_streams};
ghost use Rattle.model.specs.StepFaults.{is_outside};

use crate::changes::change_of;
use crate::doc_places::{
    JobPlace, StreamPlace, job_place_at, planned_job_at, stream_at, stream_place_at,
};
use crate::pairs::{pairs_of, put_brought, works_of};
use crate::plans::{Plan, is_planning};
use crate::sets::Sets;
use base_types::{
    Body, Cmd, Copied, Entry, Feed, JobDoc, JobNo, NoMemory, Obj, StreamDoc, StreamNo, StreamNos,
    Ws,
};
use grouped_places::{Groups, place_in};
use owner_rows::Kept;
use std::alloc::Global;
use std::marker::Model;

/// Whether any order was taken once an entry of this feed is.
fn is_ordered_with(ordered: bool, feed: &Feed) -> bool
    ensures { result ≡ (is_of_orders feed.now || ordered) }
{
    match feed {
        Feed::Events(_) => ordered,
        Feed::Orders(_, _) => true,
    }
}

/// The entries that a node took. A contract sees them as a list, in the order in which they were taken.
pub struct Owners {
    kept: Kept,
    plan: Plan,
    sets: Sets,
    /// Who may have to do with whom.
    pairs: Groups,
    /// Whose streams have a job on whom.
    works: Groups,
    /// Whether any order was taken.
    ordered: bool,
}

/// Written out, so that dropping one is a call for whoever owns it.
impl Drop for Owners {
    fn drop(self) {
        let Owners {
            kept: _kept,
            plan: _plan,
            sets: _sets,
            pairs: _pairs,
            works: _works,
            ordered: _,
        } = self;
    }
}

impl Model for Owners {
    ghost use Rattle.std.specs.Prelude.{List};
    ghost use Rattle.owner_fold.specs.Kept.{IsKeptBeside};
    ghost use Rattle.model.specs.Types.{Entry as Taken};

    ghost Value = { List Taken };

    ghost view = { λ o. o.kept };

    ghost invariant = { λ o. IsKeptBeside o.kept o.plan o.sets o.pairs o.works o.ordered };
}

impl Owners {
    /// No entries, which takes no memory yet.
    pub fn new(alloc: Global) -> Owners
        ensures { result ≡ [] }
    {
        Owners {
            kept: Kept::new(alloc),
            plan: Plan::new(alloc),
            sets: Sets::new(alloc),
            pairs: Groups::new(alloc),
            works: Groups::new(alloc),
            ordered: false,
        }
    }

    /// Takes a copy of an entry whose place is the next of its feed. Where memory runs out nothing changes.
    pub fn take(&mut self, e: &Entry) -> Result<(), NoMemory>
        requires { e.now.place ≡ length (list_of self.old e.now.feed) + 1 }
        ensures ok { OnOk result (self.new ≡ self.old ++ e.now ∷ []) }
        ensures err { OnErr result (self.new ≡ self.old) }
    {
        self.take_own(e.copy()?)
    }

    /// Takes an entry whose place is the next of its feed. Where memory runs out nothing changes.
    pub fn take_own(&mut self, e: Entry) -> Result<(), NoMemory>
        requires { e.place ≡ length (list_of self.old e.feed) + 1 }
        ensures ok { OnOk result (self.new ≡ self.old ++ e ∷ []) }
        ensures err { OnErr result (self.new ≡ self.old) }
    {
        if is_planning(&e) {
            self.take_planning(e)
        } else {
            self.take_other(e)
        }
    }

    /// A plan, or a stream that is added to it: what stands beside the entries is made anew first.
    fn take_planning(&mut self, e: Entry) -> Result<(), NoMemory>
        requires place { e.place ≡ length (list_of self.old e.feed) + 1 }
        requires planning { is_planning e ≡ true }
        ensures ok { OnOk result (self.new ≡ self.old ++ e ∷ []) }
        ensures err { OnErr result (self.new ≡ self.old) }
    {
        let plan = self.plan.with(self.kept.entries(), &e)?;
        let sets = self
            .sets
            .anew(&self.kept, &e, &plan.doc_places, &plan.index.members)?;
        let pairs = pairs_of(self.pairs.empty(), &self.kept, &e, &plan)?;
        let works = works_of(&self.works, &self.kept, &e, &plan)?;
        self.kept.take_own(e)?;
        self.plan = plan;
        self.sets = sets;
        self.pairs = pairs;
        self.works = works;
        Ok(())
    }

    /// Any other entry: room for what it changes is made first.
    fn take_other(&mut self, e: Entry) -> Result<(), NoMemory>
        requires place { e.place ≡ length (list_of self.old e.feed) + 1 }
        requires other { is_planning e ≡ false }
        ensures ok { OnOk result (self.new ≡ self.old ++ e ∷ []) }
        ensures err { OnErr result (self.new ≡ self.old) }
    {
        let change = change_of(&e);
        self.sets.prepare(&self.plan.index, &change)?;
        put_brought(&mut self.pairs, &self.kept, &e, &self.plan)?;
        let ordered = is_ordered_with(self.ordered, &e.feed);
        self.kept.take_own(e)?;
        self.sets.settle(&self.kept, &self.plan.index, &change);
        self.ordered = ordered;
        Ok(())
    }

    /// Whether any order was taken.
    pub fn has_orders(&self) -> bool
        ensures orders { result ≡ has_orders self.now }
        ensures nothing { result ≡ false → (a w : ℕ) → list_of self.now (Orders a w) ≡ [] }
    {
        self.ordered
    }

    /// Whether any orders that a workstation issued were taken.
    pub fn has_issued(&self, a: Ws) -> bool
        ensures issued { result ≡ has_issued self.now a }
        ensures nothing { result ≡ false → (w : ℕ) → list_of self.now (Orders a w) ≡ [] }
    {
        self.kept().has_issued(a)
    }

    /// How many entries of a feed were taken.
    pub fn count(&self, f: Feed) -> u32
        ensures { result ≡ length (list_of self.now f) }
    {
        self.kept().count(&f)
    }

    /// The body at a place of a feed, counted from 1. None where the feed has no such place.
    pub fn entry(&self, f: Feed, place: u32) -> Option<&Body>
        ensures { option_copied result ≡ nth (list_of self.now f) place }
    {
        self.kept().entry(&f, place)
    }

    /// The command of the order at a place, counted from 1, of the orders from a to w. None where there is no order.
    pub fn order(&self, a: Ws, w: Ws, place: u32) -> Option<&Cmd>
        ensures { option_copied result ≡ option_and_then ordered_command (nth (list_of self.now (Orders a w)) place) }
    {
        self.kept().order(a, w, place)
    }

    /// The entries with what each workstation tells in its own list, whoever owns the objects of which it speaks.
    pub fn kept(&self) -> &Kept
        ensures { result.now ≡ self.now }
    {
        &self.kept
    }

    /// The members of the plan: the carried streams of the last plan, its fresh ones, and what was added after it, in
    /// that order. None of them lacks a document.
    pub fn members(&self) -> &StreamNos
        ensures { result.now ≡ members (view_of self.now) }
    {
        &self.plan.members
    }

    /// Whether a plan is held, be it one without members.
    #[tactic(auto, unfolding(model::specs::Catalogue::has_plan))]
    pub fn has_plan(&self) -> bool
        ensures { result ≡ has_plan (view_of self.now) }
    {
        self.plan.named.is_some()
    }

    /// The entries, in the order in which they were taken.
    pub(crate) fn entries(&self) -> &[Entry]
        ensures { result.now ≡ self.now }
    {
        self.kept().entries()
    }

    /// Where the streams of the catalogue stand.
    pub(crate) fn stream_places(&self) -> &[StreamPlace]
        ensures { filter_map (doc_at self.now) result.now ≡ catalogue (view_of self.now) }
    {
        self.plan.doc_places.streams.as_slice()
    }

    /// Where the stream of this number stands.
    pub(crate) fn stream_place(&self, s: StreamNo) -> Option<&StreamPlace>
        ensures { option_and_then (doc_at self.now) (option_copied result) ≡ stream (view_of self.now) s }
    {
        match self.plan.index.streams.place(s.0) {
            None => None,
            Some(place) => stream_place_at(self.plan.doc_places.streams.as_slice(), place),
        }
    }

    /// Where the job of this number stands.
    pub(crate) fn job_place(&self, j: JobNo) -> Option<&JobPlace>
        ensures { option_and_then (job_at self.now) (option_copied result) ≡ job (view_of self.now) j }
    {
        match self.plan.index.jobs.place(j.0) {
            None => None,
            Some(place) => job_place_at(self.plan.doc_places.jobs.as_slice(), place),
        }
    }

    /// The workstation of a job or stream. None outside the catalogue.
    pub(crate) fn owner_of(&self, o: &Obj) -> Option<Ws>
        ensures { result ≡ owner (view_of self.now) o.now }
    {
        match o {
            Obj::Job(j) => self.plan.job_owner(*j),
            Obj::Stream(s) => self.plan.stream_owner(*s),
        }
    }

    /// Whether a stream is a member of the plan.
    pub fn is_member(&self, s: StreamNo) -> bool
        ensures { result ≡ is_member (view_of self.now) s }
    {
        self.plan.index.members.place(s.0).is_some()
    }

    /// Whether v may have to do with x. Where it has not, no stream of v has a job on x, and no dependency of an object of
    /// v cites x, a waived one neither.
    pub fn may_involve(&self, v: Ws, x: Ws) -> bool
        ensures works { result ≡ false → works_on (view_of self.now) v x ≡ false }
        ensures cites { result ≡ false →
            list_any (λ o. has (cites (view_of self.now) o) x) (objects_of (view_of self.now) v) ≡ false }
    {
        self.pairs.has(u32::from(v.0), u32::from(x.0))
    }

    /// Whether a stream of v has a job on x, by one look-up.
    pub fn works_on(&self, v: Ws, x: Ws) -> bool
        ensures { result ≡ works_on (view_of self.now) v x }
    {
        self.works.has(u32::from(v.0), u32::from(x.0))
    }

    /// The greatest number of a stream in the catalogue, 0 where it is empty.
    pub fn last_stream(&self) -> StreamNo
        ensures { result ≡ last_stream (view_of self.now) }
    {
        StreamNo(self.plan.greatest_stream())
    }

    /// The greatest number of a job in the catalogue, 0 where it has none.
    pub fn last_job(&self) -> JobNo
        ensures { result ≡ last_job (view_of self.now) }
    {
        JobNo(self.plan.greatest_job())
    }

    /// Where the jobs of the catalogue stand.
    pub(crate) fn job_places(&self) -> &[JobPlace]
        ensures { filter_map (job_at self.now) result.now ≡ jobs (view_of self.now) }
    {
        self.plan.doc_places.jobs.as_slice()
    }

    /// The stream at the place of a code of a group.
    pub(crate) fn stream_coded(&self, group: u32, code: u64) -> Option<&StreamDoc>
        ensures { option_copied result ≡ spec.stream_coded self.now group code }
    {
        match stream_place_at(
            self.plan.doc_places.streams.as_slice(),
            place_in(group, code),
        ) {
            None => None,
            Some(doc_place) => stream_at(self.entries(), doc_place),
        }
    }

    /// The job at the place of a code of a group, with its stream.
    pub(crate) fn job_coded(&self, group: u32, code: u64) -> Option<(&StreamDoc, &JobDoc)>
        ensures { option_map (λ p. stream_job p.0.now p.1.now) result ≡ spec.job_coded self.now group code }
    {
        match job_place_at(self.plan.doc_places.jobs.as_slice(), place_in(group, code)) {
            None => None,
            Some(doc_place) => planned_job_at(self.entries(), doc_place),
        }
    }

    /// The codes of the streams of w that may wait.
    pub(crate) fn waiting_codes(&self, w: Ws) -> &[u64]
        ensures { filter (is_waiting_here w (list_of self.now (Events w)))
            (filter_map (spec.stream_coded self.now w) result.now) ≡ streams_waiting (view_of self.now) w }
    {
        self.sets.waiting.of(u32::from(w.0))
    }

    /// The codes of the streams of w that may be under way.
    pub(crate) fn begun_codes(&self, w: Ws) -> &[u64]
        ensures { filter (is_under_way w (list_of self.now (Events w)))
            (filter_map (spec.stream_coded self.now w) result.now) ≡ streams_under_way (view_of self.now) w }
    {
        self.sets.begun.of(u32::from(w.0))
    }

    /// The codes of the jobs of w that may have an open launch.
    pub(crate) fn opened_codes(&self, w: Ws) -> &[u64]
        ensures { filter (λ (p : StreamJob). is_open_here w (list_of self.now (Events w)) p.doc)
            (filter_map (spec.job_coded self.now w) result.now) ≡ open_jobs (view_of self.now) w }
    {
        self.sets.opened.of(u32::from(w.0))
    }

    /// The codes of the jobs of a stream.
    pub(crate) fn stream_job_codes(&self, s: StreamNo) -> &[u64]
        ensures { filter (λ (p : StreamJob). p.parent.no == s)
            (filter_map (spec.job_coded self.now s) result.now) ≡ jobs_of_stream (view_of self.now) s }
    {
        self.sets.by_stream.of(s.0)
    }

    /// The codes of the own members of w that may have a time.
    pub(crate) fn timed_stream_codes(&self, w: Ws) -> &[u64]
        ensures { filter (is_given_stream_here has_time (view_of self.now) w)
            (filter_map (spec.stream_coded self.now w) result.now) ≡ timed_streams (view_of self.now) w }
    {
        self.sets.timed.streams.of(u32::from(w.0))
    }

    /// The codes of the own members' jobs of w that may have a time.
    pub(crate) fn timed_job_codes(&self, w: Ws) -> &[u64]
        ensures { filter (is_given_job_here has_time (view_of self.now) w)
            (filter_map (spec.job_coded self.now w) result.now) ≡ timed_jobs (view_of self.now) w }
    {
        self.sets.timed.jobs.of(u32::from(w.0))
    }
    /// The codes of the own members of w that may have a dependency on a file.
    pub(crate) fn filed_stream_codes(&self, w: Ws) -> &[u64]
        ensures { filter (is_given_stream_here is_outside (view_of self.now) w)
            (filter_map (spec.stream_coded self.now w) result.now) ≡ filed_streams (view_of self.now) w }
    {
        self.sets.filed.streams.of(u32::from(w.0))
    }

    /// The codes of the own members' jobs of w that may have one.
    pub(crate) fn filed_job_codes(&self, w: Ws) -> &[u64]
        ensures { filter (is_given_job_here is_outside (view_of self.now) w)
            (filter_map (spec.job_coded self.now w) result.now) ≡ filed_jobs (view_of self.now) w }
    {
        self.sets.filed.jobs.of(u32::from(w.0))
    }
}
