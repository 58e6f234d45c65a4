//! The entries that a node took.
ghost use Rattle.std.specs.Prelude.{◌≡◌, ◌+◌, ◌++◌, ◌<◌, ◌^◌, [], ◌∷◌, ℕ, false, length, OnOk, OnErr};
ghost use Rattle.std.specs.Prelude.{option_and_then};
ghost use Rattle.std.specs.Option.{option_copied};
ghost use Rattle.model.specs.Types.{Orders};
ghost use Rattle.model.specs.Words.{nth};
ghost use Rattle.model.specs.History.{list_of};
ghost use Rattle.model.specs.Turn.{ordered_command};
ghost use Rattle.owner_rows.specs.Standing.{body_in, found_at, has_issued};
ghost use Rattle.owner_rows.specs.Told.{AreShort};

use crate::places::Places;
use crate::told::Told;
use base_types::{Body, Cmd, Copied, Entry, Feed, Growing, NoMemory, Ws};
use std::alloc::Global;
use std::marker::Model;

/// The entries that a node took. A contract sees them as a list, in the order in which they were taken.
pub struct Kept {
    pub(crate) entries: Growing<Entry>,
    pub(crate) told: Told,
    pub(crate) places: Places,
}

/// Written out, so that dropping one is a call for whoever owns it.
impl Drop for Kept {
    fn drop(self) {
        let Kept {
            entries: _entries,
            told: _told,
            places: _places,
        } = self;
    }
}

impl Model for Kept {
    ghost use Rattle.std.specs.Prelude.{List};
    ghost use Rattle.owner_rows.specs.Told.{AreKept};
    ghost use Rattle.model.specs.Types.{Entry as Taken};

    ghost Value = { List Taken };

    ghost view = { λ k. k.entries.items };

    ghost invariant = { λ k. AreKept k.entries.items k.told k.places };
}

impl Kept {
    /// No entries, which takes no memory yet.
    pub fn new(alloc: Global) -> Kept
        ensures { result ≡ [] }
    {
        Kept {
            entries: Growing::new(alloc),
            told: Told::new(alloc),
            places: Places::new(alloc),
        }
    }

    /// Takes a copy of an entry whose place is the next of its feed. Where memory runs out nothing changes.
    pub fn take(&mut self, e: &Entry) -> Result<(), NoMemory>
        requires { e.now.place ≡ length (list_of self.old e.now.feed) + 1 }
        ensures ok { OnOk result (self.new ≡ self.old ++ e.now ∷ []) }
        ensures err { OnErr result (self.new ≡ self.old) }
    {
        self.take_own(e.copy()?)
    }

    /// Takes an entry whose place is the next of its feed. Where memory runs out nothing changes.
    pub fn take_own(&mut self, e: Entry) -> Result<(), NoMemory>
        requires { e.place ≡ length (list_of self.old e.feed) + 1 }
        ensures ok { OnOk result (self.new ≡ self.old ++ e ∷ []) }
        ensures err { OnErr result (self.new ≡ self.old) }
    {
        // A place that can be told keeps the feed short.
        let _place = e.place;
        let addition = self.told.addition_key(&e);
        self.told.prepare(&e)?;
        self.places.prepare(&e, addition)?;
        self.entries.reserve(1)?;
        self.told.tell(&e);
        self.places.tell(&e, self.entries.len(), addition);
        self.entries.put(e);
        Ok(())
    }

    /// The entries, in the order in which they were taken. No feed has more than a place can tell.
    pub fn entries(&self) -> &[Entry]
        ensures list { result.now ≡ self.now }
        ensures short { AreShort self.now }
    {
        self.entries.as_slice()
    }

    /// How many entries of a feed were taken.
    pub fn count(&self, f: &Feed) -> u32
        ensures { result ≡ length (list_of self.now f.now) }
    {
        self.told.stations.count(f)
    }

    /// The body that stands at a place among the entries, from 0.
    fn body_at(&self, place: usize) -> Option<&Body>
        ensures { option_copied result ≡ found_at body_in self.now place }
    {
        match self.entries.get(place) {
            None => None,
            Some(entry) => Some(&entry.body),
        }
    }

    /// The body at a place of a feed, counted from 1. None where the feed has no such place.
    pub fn entry(&self, f: &Feed, place: u32) -> Option<&Body>
        ensures { option_copied result ≡ nth (list_of self.now f.now) place }
    {
        if place == 0 {
            return None;
        }
        match self.places.entry(f, place - 1) {
            None => None,
            Some(spot) => self.body_at(spot),
        }
    }

    /// Whether any orders that a workstation issued were taken.
    pub fn has_issued(&self, a: Ws) -> bool
        ensures issued { result ≡ has_issued self.now a }
        ensures nothing { result ≡ false → (w : ℕ) → list_of self.now (Orders a w) ≡ [] }
    {
        self.places.has_issued(a)
    }

    /// The command of the order at a place, counted from 1, of the orders from a to w. None where there is no order.
    pub fn order(&self, a: Ws, w: Ws, place: u32) -> Option<&Cmd>
        ensures { option_copied result ≡ option_and_then ordered_command (nth (list_of self.now (Orders a w)) place) }
    {
        let orders = Feed::Orders(a, w);
        match self.entry(&orders, place) {
            Some(Body::Order(command)) => Some(command),
            _ => None,
        }
    }
}
