//! The codes of places.
ghost use Rattle.std.specs.Prelude.{◌≡◌, ◌≢◌, ◌-◌, ◌*◌, ◌^◌, ◌<◌, ◌≤◌, ◌==◌, [], false, filter, length, not, slice_index, true, OnErr, OnOk};
ghost use Rattle.std.specs.List.Sorted.{IsPartitionPoint};
ghost use Rattle.model.specs.Words.{has, insert_once};
ghost use Rattle.grouped_places.specs.Codes.{RisesFrom, code, is_in_group};

use base_types::NoMemory;
use std::alloc::Global;
use std::marker::Model;

/// How many places a group can have.
const PLACES: u64 = 4_294_967_296;

/// The code of a place in a group.
fn code_of(group: u32, place: u32) -> u64
    ensures { result ≡ code group place }
{
    u64::from(group) * PLACES + u64::from(place)
}

/// The place of a code of this group.
pub fn place_in(group: u32, code: u64) -> usize
    ensures { result ≡ code - group * 2 ^ 32 }
{
    code.saturating_sub(code_of(group, 0)) as usize
}

/// Places by the numbers of groups. A contract sees their codes, which ascend.
pub struct Groups {
    codes: Vec<u64>,
}

/// Written out, so that dropping one is a call for whoever owns it.
impl Drop for Groups {
    fn drop(self) {
        let Groups { codes: _codes } = self;
    }
}

impl Model for Groups {
    ghost use Rattle.std.specs.Prelude.{List, ℕ};
    ghost use Rattle.grouped_places.specs.Codes.{RisesFrom};

    ghost Value = { List ℕ };

    ghost view = { λ groups. groups.codes.items };

    ghost invariant = { λ groups. RisesFrom 0 groups.codes.items };
}

impl Groups {
    /// No places, which takes no memory yet.
    pub fn new(alloc: Global) -> Groups
        ensures { result ≡ [] }
    {
        Groups {
            codes: Vec::new(alloc),
        }
    }

    /// No places again, on the same allocator.
    pub fn empty(&self) -> Groups
        ensures { result ≡ [] }
    {
        Groups {
            codes: Vec::new(*self.codes.allocator()),
        }
    }

    /// How many codes are below this one.
    fn below(&self, code: u64) -> usize
        ensures within { result ≤ length self.now }
        ensures rising { RisesFrom 0 self.now }
        ensures point { IsPartitionPoint (λ c. c < code) (λ c. code ≤ c) self.now result }
    {
        self.codes.as_slice().partition_point(|c| *c < code)
    }

    /// How many codes are not above this one.
    fn up_to(&self, code: u64) -> usize
        ensures within { result ≤ length self.now }
        ensures point { IsPartitionPoint (λ c. c ≤ code) (λ c. code < c) self.now result }
    {
        self.codes.as_slice().partition_point(|c| *c <= code)
    }

    /// Whether this code stands at a place among the codes.
    fn has_at(&self, spot: usize, code: u64) -> bool
        ensures there { result ≡ true → (spot < length self.now) × (slice_index self.now spot ≡ code) }
        ensures other { result ≡ false → spot < length self.now → slice_index self.now spot ≢ code }
    {
        if spot < self.codes.len() {
            self.codes[spot] == code
        } else {
            false
        }
    }

    /// Whether a group has a place.
    pub fn has(&self, group: u32, place: u32) -> bool
        ensures { result ≡ has self.now (code group place) }
    {
        let code = code_of(group, place);
        self.has_at(self.below(code), code)
    }

    /// The codes of a group. They ascend.
    pub fn of(&self, group: u32) -> &[u64]
        ensures codes { result.now ≡ filter (is_in_group group) self.now }
        ensures rising { RisesFrom 0 self.now }
    {
        let start = self.below(code_of(group, 0));
        let end = self.up_to(code_of(group, 4_294_967_295));
        &self.codes[start..end]
    }

    /// Adds a place to a group, where it is not there already. `NoMemory` where memory runs out, and at a place above
    /// 4,294,967,295, which no list in memory has. Then nothing changes.
    pub fn add(&mut self, group: u32, place: usize) -> Result<(), NoMemory>
        ensures added { OnOk result (self.new ≡ insert_once (code group place) self.old) }
        ensures fits { OnOk result (place < 2 ^ 32) }
        ensures err { OnErr result (self.new ≡ self.old) }
    {
        if place >= 4_294_967_296 {
            return Err(NoMemory);
        }
        self.add_code(code_of(group, place as u32))
    }

    fn add_code(&mut self, code: u64) -> Result<(), NoMemory>
        ensures added { OnOk result (self.new ≡ insert_once code self.old) }
        ensures err { OnErr result (self.new ≡ self.old) }
    {
        let spot = self.below(code);
        if self.has_at(spot, code) {
            return Ok(());
        }
        self.codes.insert(spot, code)?;
        Ok(())
    }

    /// Takes a place out of a group, where it is there.
    pub fn remove(&mut self, group: u32, place: usize)
        ensures removed { place < 2 ^ 32 → self.new ≡ filter (λ c. not (c == code group place)) self.old }
        ensures stays { 2 ^ 32 ≤ place → self.new ≡ self.old }
    {
        if place < 4_294_967_296 {
            self.remove_code(code_of(group, place as u32));
        }
    }

    fn remove_code(&mut self, code: u64)
        ensures { self.new ≡ filter (λ c. not (c == code)) self.old }
    {
        let spot = self.below(code);
        if self.has_at(spot, code) {
            let _ = self.codes.remove(spot);
        }
    }
}
