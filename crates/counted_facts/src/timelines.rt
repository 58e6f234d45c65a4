//! Facts at each count of a list, as the changes of their values.
ghost use Rattle.std.specs.Prelude.{◌≡◌, ◌+◌, ◌<◌, ◌≤◌, ℕ, Some, cond, OnOk};
ghost use Rattle.indexmap.specs.IndexMap.{get};
ghost use Rattle.owner_rows.specs.Tables.{keys_meet, same_key};
ghost use Rattle.counted_facts.specs.Timelines.{HasOneMore, IsValueAt, change_in, count_in};

use base_types::NoMemory;
use indexmap::IndexMap;
use std::alloc::Global;

/// The changes of values by workstation and number, in order.
pub(crate) struct Timelines<R> {
    /// How many changes there are.
    pub(crate) counts: IndexMap<(u16, u64), u32>,
    /// Each change by its number from 1: the count from which on it holds, and the value.
    pub(crate) changes: IndexMap<(u16, (u64, u32)), (u32, R)>,
    /// What holds before all changes.
    pub(crate) first: R,
}

/// Written out, so that dropping them is a call for whoever owns them.
impl<R: Drop> Drop for Timelines<R> {
    fn drop(self) {
        let Timelines {
            counts: _counts,
            changes: _changes,
            first: _first,
        } = self;
    }
}

/// Puts a count in the place of another.
fn put_count(
    counts: &mut IndexMap<(u16, u64), u32>,
    w: u16,
    n: u64,
    count: u32,
) -> Result<(), NoMemory>
    ensures { OnOk result ((q : ℕ × ℕ) → get same_key counts.new q ≡ cond (same_key (w, n) q) (Some count) (get same_key counts.old q)) }
{
    match counts.insert((w, n), count) {
        Ok(_) => Ok(()),
        Err(_) => Err(NoMemory),
    }
}

/// Puts a change behind those of a number.
fn put_change<R: Copy>(
    changes: &mut IndexMap<(u16, (u64, u32)), (u32, R)>,
    w: u16,
    n: u64,
    i: u32,
    change: (u32, R),
) -> Result<(), NoMemory>
    ensures { OnOk result ((q : ℕ × (ℕ × ℕ)) → get (keys_meet same_key) changes.new q
        ≡ cond (keys_meet same_key (w, (n, i)) q) (Some change) (get (keys_meet same_key) changes.old q)) }
{
    match changes.insert((w, (n, i)), change) {
        Ok(_) => Ok(()),
        Err(_) => Err(NoMemory),
    }
}

impl<R: Copy> Timelines<R> {
    /// No changes, which takes no memory yet.
    pub(crate) fn new(alloc: Global, first: R) -> Timelines<R>
        ensures counts { (q : ℕ × ℕ) → count_in result q ≡ 0 }
        ensures changes { (q : ℕ × (ℕ × ℕ)) → change_in result q ≡ (0, first) }
    {
        Timelines {
            counts: IndexMap::new(alloc),
            changes: IndexMap::new(alloc),
            first,
        }
    }

    /// How many changes of a number there are.
    fn count(&self, w: u16, n: u64) -> u32
        ensures { result ≡ count_in self.now (w, n) }
    {
        match self.counts.get(&(w, n)) {
            None => 0,
            Some(count) => *count,
        }
    }

    /// A change of a number. One that is not there holds from the beginning, with the first value.
    fn change(&self, w: u16, n: u64, i: u32) -> (u32, R)
        ensures { result ≡ change_in self.now (w, (n, i)) }
    {
        match self.changes.get(&(w, (n, i))) {
            None => (0, self.first),
            Some(change) => *change,
        }
    }

    /// From which count on a change holds.
    fn from(&self, w: u16, n: u64, i: u32) -> u32
        ensures { result ≡ (change_in self.now (w, (n, i))).0 }
    {
        let (from, _) = self.change(w, n, i);
        from
    }

    /// The last change at or before a count, 0 before all.
    fn last_by(&self, w: u16, n: u64, count: u32) -> u32
        ensures within { result ≤ count_in self.now (w, n) }
        ensures here { (change_in self.now (w, (n, 0))).0 ≡ 0 → (change_in self.now (w, (n, result))).0 ≤ count }
        ensures next { result < count_in self.now (w, n) → count < (change_in self.now (w, (n, result + 1))).0 }
    {
        let mut low = 0;
        let mut high = self.count(w, n);
        while low < high {
            let middle = high - (high - low) / 2;
            if self.from(w, n, middle) <= count {
                low = middle;
            } else {
                high = middle - 1;
            }
        }
        low
    }

    /// The value at a count.
    pub(crate) fn at(&self, w: u16, n: u64, count: u32) -> R
        ensures { (change_in self.now (w, (n, 0))).0 ≡ 0
            → IsValueAt (count_in self.now (w, n)) (λ i. change_in self.now (w, (n, i))) count result }
    {
        let (_, value) = self.change(w, n, self.last_by(w, n, count));
        value
    }

    /// Lets a value hold from a count on. Where memory runs out, or the changes of a number would be more than can be
    /// numbered, it may be told in part.
    pub(crate) fn tell(&mut self, w: u16, n: u64, from: u32, value: R) -> Result<(), NoMemory>
        ensures { OnOk result (HasOneMore (w, n) from value self.old self.new) }
    {
        match self.count(w, n).checked_add(1) {
            None => Err(NoMemory),
            Some(next) => {
                put_change(&mut self.changes, w, n, next, (from, value))?;
                put_count(&mut self.counts, w, n, next)
            }
        }
    }
}
