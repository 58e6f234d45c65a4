//! The timelines of what a master tells of its plan: which streams it brings and names, and replies to prompts.
ghost use Rattle.std.specs.Prelude.{◌≡◌, ◌==◌, ◌&&◌, ◌||◌, ◌+◌, ◌++◌, ◌∷◌, ◌≤◌, ℕ, [], Bool, List, OnOk, cond, length, nat_le, nat_lt, take};
ghost use Rattle.std.specs.List.{list_any};
ghost use Rattle.model.specs.Types.{Body as Told, Entry as Taken, Events};
ghost use Rattle.model.specs.Words.{is_yes};
ghost use Rattle.model.specs.History.{list_of};
ghost use Rattle.model.specs.Facts.{global_reply};
ghost use Rattle.counted_facts.specs.Facts as spec;
ghost use Rattle.counted_facts.specs.Places as places;
ghost use Rattle.owner_rows.specs.Subjects.{is_plan};
ghost use Rattle.counted_facts.specs.Subjects.{brings, names};
ghost use Rattle.counted_facts.specs.Timelines.{AreHalfTold, AreTimelines, TellsPlace};
ghost use Rattle.counted_facts.specs.Told.{AreMasterFacts};

use crate::numbers::{tell_docs, tell_number, tell_numbers};
use crate::subjects::{carried_in, docs_in, is_plan, reply_key};
use crate::timelines::Timelines;
use base_types::{Body, Entry, Feed, NoMemory};
use std::alloc::Global;

/// Places in the lists of workstations, at each count of their events.
pub(crate) struct MasterFacts {
    /// By stream: of the last entry that brought its document.
    pub(crate) brought: Timelines<u32>,
    /// By stream: of the last plan or added stream that named it.
    pub(crate) named: Timelines<u32>,
    /// By 0: of the last plan.
    pub(crate) planned: Timelines<u32>,
    /// By prompt: of the last reply to it, 0 where that is no.
    pub(crate) replied: Timelines<u32>,
}

/// Written out, so that dropping them is a call for whoever owns them.
impl Drop for MasterFacts {
    fn drop(self) {
        let MasterFacts {
            brought: _brought,
            named: _named,
            planned: _planned,
            replied: _replied,
        } = self;
    }
}

/// Tells where documents are brought by one more entry.
fn tell_brought(brought: &mut Timelines<u32>, e: &Entry) -> Result<(), NoMemory>
    ensures { OnOk result ((before : List Taken) → e.now.place ≡ length (list_of before e.now.feed) + 1
        → AreTimelines places.brought_at before brought.old
        → AreTimelines places.brought_at (before ++ e.now ∷ []) brought.new) }
{
    match &e.feed {
        Feed::Orders(_, _) => Ok(()),
        Feed::Events(w) => tell_docs(brought, w.0, e.place, docs_in(&e.body)),
    }
}

/// Tells the timelines of the streams that a body names a place in the list of w.
fn tell_names(named: &mut Timelines<u32>, w: u16, place: u32, body: &Body) -> Result<(), NoMemory>
    ensures { OnOk result ((fact : ℕ → List Told → ℕ) (G : List Taken) (e : Taken) (done : ℕ → Bool)
        → TellsPlace fact G e w place (λ m. names m body.now) → AreHalfTold fact G e done named.old
        → AreHalfTold fact G e (λ m. done m || names m body.now) named.new) }
{
    tell_docs(named, w, place, docs_in(body))?;
    tell_numbers(named, w, place, carried_in(body))
}

/// Tells where streams are named by one more entry.
fn tell_named(named: &mut Timelines<u32>, e: &Entry) -> Result<(), NoMemory>
    ensures { OnOk result ((before : List Taken) → e.now.place ≡ length (list_of before e.now.feed) + 1
        → AreTimelines places.named_at before named.old
        → AreTimelines places.named_at (before ++ e.now ∷ []) named.new) }
{
    match &e.feed {
        Feed::Orders(_, _) => Ok(()),
        Feed::Events(w) => tell_names(named, w.0, e.place, &e.body),
    }
}

/// Tells the timeline of plans a place in the list of w, where the body is one.
fn tell_plan(planned: &mut Timelines<u32>, w: u16, place: u32, body: &Body) -> Result<(), NoMemory>
    ensures { OnOk result ((fact : ℕ → List Told → ℕ) (G : List Taken) (e : Taken) (done : ℕ → Bool)
        → TellsPlace fact G e w place (λ m. is_plan body.now && (0 == m)) → AreHalfTold fact G e done planned.old
        → AreHalfTold fact G e (λ m. done m || (is_plan body.now && (0 == m))) planned.new) }
{
    if is_plan(body) {
        tell_number(planned, w, place, 0)
    } else {
        Ok(())
    }
}

/// Tells where a plan stands, if one more entry is one.
fn tell_planned(planned: &mut Timelines<u32>, e: &Entry) -> Result<(), NoMemory>
    ensures { OnOk result ((before : List Taken) → e.now.place ≡ length (list_of before e.now.feed) + 1
        → AreTimelines places.planned_at before planned.old
        → AreTimelines places.planned_at (before ++ e.now ∷ []) planned.new) }
{
    match &e.feed {
        Feed::Orders(_, _) => Ok(()),
        Feed::Events(w) => tell_plan(planned, w.0, e.place, &e.body),
    }
}

/// Whether there is a plan, and this place is not before it.
fn is_reached(planned: u32, place: u32) -> bool
    ensures { result ≡ (nat_lt 0 planned && nat_le planned place) }
{
    planned > 0 && planned <= place
}

/// The place where the answer is yes, and else 0.
fn place_if(yes: bool, place: u32) -> u32
    ensures { result ≡ cond yes place 0 }
{
    if yes { place } else { 0 }
}

/// Tells a reply to a prompt of the network, if one more entry is one.
fn tell_replied(replied: &mut Timelines<u32>, e: &Entry) -> Result<(), NoMemory>
    ensures { OnOk result ((before : List Taken) → e.now.place ≡ length (list_of before e.now.feed) + 1
        → AreTimelines places.replied_at before replied.old
        → AreTimelines places.replied_at (before ++ e.now ∷ []) replied.new) }
{
    match reply_key(e) {
        None => Ok(()),
        Some((w, (p, yes))) => replied.tell(w, u64::from(p), e.place, place_if(yes, e.place)),
    }
}

impl MasterFacts {
    /// Those of no entries, which takes no memory yet.
    pub(crate) fn new(alloc: Global) -> MasterFacts
        ensures { AreMasterFacts [] result }
    {
        MasterFacts {
            brought: Timelines::new(alloc, 0),
            named: Timelines::new(alloc, 0),
            planned: Timelines::new(alloc, 0),
            replied: Timelines::new(alloc, 0),
        }
    }

    /// Tells them one more entry. Where memory runs out it may be told in part.
    pub(crate) fn tell(&mut self, e: &Entry) -> Result<(), NoMemory>
        ensures { OnOk result ((before : List Taken) → e.now.place ≡ length (list_of before e.now.feed) + 1
            → AreMasterFacts before self.old → AreMasterFacts (before ++ e.now ∷ []) self.new) }
    {
        tell_brought(&mut self.brought, e)?;
        tell_named(&mut self.named, e)?;
        tell_planned(&mut self.planned, e)?;
        tell_replied(&mut self.replied, e)
    }

    /// Where the last of the first so many events of workstation 0 stands that brings a stream's document, 0 without one.
    fn brought_at(&self, s: u32, count: u32) -> u32
        ensures { (G : List Taken) → AreMasterFacts G self.now → count ≤ length (list_of G (Events 0))
            → result ≡ places.brought_at s (take count (list_of G (Events 0))) }
    {
        self.brought.at(0, u64::from(s), count)
    }

    /// Whether the first so many events of workstation 0 bring the document of a stream.
    pub(crate) fn is_brought(&self, s: u32, count: u32) -> bool
        ensures { (G : List Taken) → AreMasterFacts G self.now → count ≤ length (list_of G (Events 0))
            → result ≡ list_any (brings s) (take count (list_of G (Events 0))) }
    {
        self.brought_at(s, count) > 0
    }

    /// Where the last plan among the first so many events of workstation 0 stands, 0 without one.
    fn planned_at(&self, count: u32) -> u32
        ensures { (G : List Taken) → AreMasterFacts G self.now → count ≤ length (list_of G (Events 0))
            → result ≡ places.planned_at 0 (take count (list_of G (Events 0))) }
    {
        self.planned.at(0, 0, count)
    }

    /// Where the last of them stands that names a stream, 0 without one.
    fn named_at(&self, s: u32, count: u32) -> u32
        ensures { (G : List Taken) → AreMasterFacts G self.now → count ≤ length (list_of G (Events 0))
            → result ≡ places.named_at s (take count (list_of G (Events 0))) }
    {
        self.named.at(0, u64::from(s), count)
    }

    /// Where the last reply to a prompt among them stands, 0 where it is no, and without one.
    fn replied_at(&self, p: u16, count: u32) -> u32
        ensures { (G : List Taken) → AreMasterFacts G self.now → count ≤ length (list_of G (Events 0))
            → result ≡ places.replied_at p (take count (list_of G (Events 0))) }
    {
        self.replied.at(0, u64::from(p), count)
    }

    /// Whether the last plan among the first so many events of workstation 0, or an added stream after it, names a
    /// stream.
    pub(crate) fn is_named(&self, s: u32, count: u32) -> bool
        ensures { (G : List Taken) → AreMasterFacts G self.now → count ≤ length (list_of G (Events 0))
            → result ≡ spec.is_named s (take count (list_of G (Events 0))) }
    {
        is_reached(self.planned_at(count), self.named_at(s, count))
    }

    /// Whether the last reply to a prompt since the last plan among them is yes.
    pub(crate) fn is_answered(&self, p: u16, count: u32) -> bool
        ensures { (G : List Taken) → AreMasterFacts G self.now → count ≤ length (list_of G (Events 0))
            → result ≡ is_yes (global_reply p (take count (list_of G (Events 0)))) }
    {
        self.planned_at(count) < self.replied_at(p, count)
    }
}
