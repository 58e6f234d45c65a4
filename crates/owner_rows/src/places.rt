//! Where among the entries the bodies of each feed stand, and the dependencies that were added; and who issued orders.
ghost use Rattle.std.specs.Prelude.{◌≡◌, ◌+◌, ◌-◌, ◌++◌, [], ◌∷◌, List, Option, IfSome, IsSome, OnOk, length};
ghost use Rattle.std.specs.Option.{option_copied};
ghost use Rattle.model.specs.Types.{Entry as Taken};
ghost use Rattle.model.specs.History.{list_of};
ghost use Rattle.owner_rows.specs.Standing as spec;
ghost use Rattle.owner_rows.specs.Standing.{AreAddedRows, AreEntryRows, AreIssuers, ArePlaces, HasPlaces};
ghost use Rattle.owner_rows.specs.Standing.{added_to, addition_in, issuer_of};
ghost use Rattle.owner_rows.specs.Subjects as subject;
ghost use Rattle.owner_rows.specs.Tables.{has_pair_row, has_row, pair_row_in, row_in};

use crate::counts::feed_key;
use crate::subjects::object_number;
use crate::tables::{PairTable, Table};
use base_types::{Body, Cmd, Entry, Feed, NoMemory, Obj, Ws};
use std::alloc::Global;

/// The key of an entry's place in its feed.
fn place_key(e: &Entry) -> (u16, (u64, u32))
    ensures { result ≡ spec.place_key e.now.feed (e.now.place - 1) }
{
    let (w, n) = feed_key(&e.feed);
    (w, (n, e.place.saturating_sub(1)))
}

/// The object to which the body adds a dependency.
pub(crate) fn added_to(body: &Body) -> Option<&Obj>
    ensures { option_copied result ≡ added_to body.now }
{
    match body {
        Body::Obeyed(_, _, Cmd::AddDep(o, _)) => Some(o),
        _ => None,
    }
}

/// The key of an order's issuer.
fn issuer_of(f: &Feed) -> Option<(u16, u64)>
    ensures { result ≡ issuer_of f.now }
{
    match f {
        Feed::Events(_) => None,
        Feed::Orders(a, _) => Some((a.0, 0)),
    }
}

/// The places of entries after one more, which stands at the end of them, and for whose row the memory is there.
fn tell_entry(entries: &mut PairTable<Option<usize>>, e: &Entry, end: usize)
    requires { IsSome (has_pair_row entries.old (spec.place_key e.now.feed (e.now.place - 1))) }
    ensures { (kept : List Taken) → length kept ≡ end → e.now.place ≡ length (list_of kept e.now.feed) + 1
        → AreEntryRows kept entries.old → AreEntryRows (kept ++ e.now ∷ []) entries.new }
{
    let (w, (n, i)) = place_key(e);
    entries.put(w, n, i, Some(end));
}

/// The places of added dependencies after one more entry, which stands at the end of them, and for whose row, that of
/// this key, the memory is there.
fn tell_addition(
    added: &mut PairTable<Option<usize>>,
    e: &Entry,
    end: usize,
    addition: Option<(u16, (u64, u32))>,
)
    requires { IfSome addition (λ k. IsSome (has_pair_row added.old k)) }
    ensures { (kept : List Taken) → length kept ≡ end → addition ≡ addition_in kept e.now
        → AreAddedRows kept added.old → AreAddedRows (kept ++ e.now ∷ []) added.new }
{
    // The dependency stands in the entry.
    let _body = &e.body;
    if let Some((w, (n, i))) = addition {
        added.put(w, n, i, Some(end));
    }
}

/// The issuers after one more entry, for whose row the memory is there.
fn tell_issuer(issuers: &mut Table<bool>, e: &Entry)
    requires { IfSome (issuer_of e.now.feed) (λ k. IsSome (has_row issuers.old k)) }
    ensures { (kept : List Taken) → AreIssuers kept issuers.old → AreIssuers (kept ++ e.now ∷ []) issuers.new }
{
    if let Some((a, n)) = issuer_of(&e.feed) {
        issuers.put(a, n, true);
    }
}

/// Where bodies and added dependencies stand, and who issued orders.
pub(crate) struct Places {
    /// By workstation, issuer and place in the feed, from 0.
    pub(crate) entries: PairTable<Option<usize>>,
    /// By workstation, object and place among those that were added, from 0.
    pub(crate) added: PairTable<Option<usize>>,
    /// By issuer.
    pub(crate) issuers: Table<bool>,
}

/// Written out, so that dropping one is a call for whoever owns it.
impl Drop for Places {
    fn drop(self) {
        let Places {
            entries: _entries,
            added: _added,
            issuers: _issuers,
        } = self;
    }
}

impl Places {
    /// Those of no entries, which takes no memory yet.
    pub(crate) fn new(alloc: Global) -> Places
        ensures { ArePlaces [] result }
    {
        Places {
            entries: PairTable::new(alloc, None),
            added: PairTable::new(alloc, None),
            issuers: Table::new(alloc, false),
        }
    }

    /// Where the body at a place of a feed, from 0, stands.
    pub(crate) fn entry(&self, f: &Feed, i: u32) -> Option<usize>
        ensures { result ≡ pair_row_in self.now.entries (spec.place_key f.now i) }
    {
        let (w, n) = feed_key(f);
        self.entries.row(w, n, i)
    }

    /// Where a dependency stands that w added to an object, by its place from 0 among these.
    pub(crate) fn addition(&self, w: Ws, o: &Obj, i: u32) -> Option<usize>
        ensures { result ≡ pair_row_in self.now.added (w, (subject.object_number o.now, i)) }
    {
        self.added.row(w.0, object_number(o), i)
    }

    /// Whether a workstation issued orders.
    pub(crate) fn has_issued(&self, a: Ws) -> bool
        ensures { result ≡ row_in self.now.issuers (a, 0) }
    {
        self.issuers.row(a.0, 0)
    }

    /// Takes the memory for an entry whose dependency has this key, and changes nothing of what is told.
    pub(crate) fn prepare(
        &mut self,
        e: &Entry,
        addition: Option<(u16, (u64, u32))>,
    ) -> Result<(), NoMemory>
        ensures same { (kept : List Taken) → ArePlaces kept self.old → ArePlaces kept self.new }
        ensures ready { OnOk result (HasPlaces self.new e.now addition) }
    {
        self.entries.prepare(Some(place_key(e)))?;
        self.added.prepare(addition)?;
        self.issuers.prepare(issuer_of(&e.feed))?;
        Ok(())
    }

    /// Tells the tables an entry that stands at the end of the others, and for which the memory is there.
    pub(crate) fn tell(&mut self, e: &Entry, end: usize, addition: Option<(u16, (u64, u32))>)
        requires { HasPlaces self.old e.now addition }
        ensures { (kept : List Taken) → length kept ≡ end → e.now.place ≡ length (list_of kept e.now.feed) + 1
            → addition ≡ addition_in kept e.now → ArePlaces kept self.old
            → ArePlaces (kept ++ e.now ∷ []) self.new }
    {
        tell_entry(&mut self.entries, e, end);
        tell_addition(&mut self.added, e, end, addition);
        tell_issuer(&mut self.issuers, e);
    }
}
