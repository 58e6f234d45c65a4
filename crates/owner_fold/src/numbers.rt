//! Where numbers stand in a list, found by one look-up.
ghost use Rattle.std.specs.Prelude.{◌≡◌, ◌++◌, ◌==◌, [], ◌∷◌, List, ℕ, IfOk, OnOk, length, map, nat_eq};
ghost use Rattle.model.specs.Words.{has};
ghost use Rattle.owner_fold.specs.Numbers.{ArePlaces, IsIndexOf, place_of};

use crate::doc_places::DocPlaces;
use base_types::{NoMemory, StreamNos};
use indexmap::IndexMap;
use std::alloc::Global;

/// The places, from 0, at which numbers stand first.
pub(crate) struct Numbers {
    pub(crate) places: IndexMap<u32, usize>,
}

/// Written out, so that dropping one is a call for whoever owns it.
impl Drop for Numbers {
    fn drop(self) {
        let Numbers { places: _places } = self;
    }
}

impl Numbers {
    /// The places of no numbers, which takes no memory yet.
    pub(crate) fn new(alloc: Global) -> Numbers
        ensures { ArePlaces [] result }
    {
        Numbers {
            places: IndexMap::new(alloc),
        }
    }

    /// The same again.
    fn empty(&self) -> Numbers
        ensures { ArePlaces [] result }
    {
        Numbers::new(*self.places.allocator())
    }

    /// Where a number stands first.
    pub(crate) fn place(&self, number: u32) -> Option<usize>
        ensures { (numbers : List ℕ) → ArePlaces numbers self.now → result ≡ place_of numbers number }
    {
        self.places.get(&number).copied()
    }

    /// Whether a number is there.
    #[tactic(auto, using(crate::proofs::Finding::placed))]
    pub(crate) fn has(&self, number: u32) -> bool
        ensures { (numbers : List ℕ) → ArePlaces numbers self.now → result ≡ has numbers number }
    {
        self.place(number).is_some()
    }

    /// Adds a number, which stands at this place behind the others.
    pub(crate) fn add(&mut self, number: u32, place: usize) -> Result<(), NoMemory>
        ensures { OnOk result ((numbers : List ℕ) → length numbers ≡ place → ArePlaces numbers self.old
            → ArePlaces (numbers ++ number ∷ []) self.new) }
    {
        if self.places.contains_key(&number) {
            return Ok(());
        }
        match self.places.insert(number, place) {
            Ok(_) => Ok(()),
            Err(_) => Err(NoMemory),
        }
    }

    /// The places of the catalogue's streams.
    pub(crate) fn of_streams(&self, doc_places: &DocPlaces) -> Result<Numbers, NoMemory>
        ensures { IfOk result (λ p. ArePlaces (map (λ s. s.number) doc_places.now.streams) p) }
    {
        let mut numbers = self.empty();
        for (i, doc_place) in doc_places.streams.as_slice().iter().enumerate() {
            numbers.add(doc_place.number, i)?;
        }
        Ok(numbers)
    }

    /// The places of its jobs.
    pub(crate) fn of_jobs(&self, doc_places: &DocPlaces) -> Result<Numbers, NoMemory>
        ensures { IfOk result (λ p. ArePlaces (map (λ s. s.number) doc_places.now.jobs) p) }
    {
        let mut numbers = self.empty();
        for (i, doc_place) in doc_places.jobs.as_slice().iter().enumerate() {
            numbers.add(doc_place.number, i)?;
        }
        Ok(numbers)
    }

    /// The places of members.
    pub(crate) fn of_members(&self, members: &StreamNos) -> Result<Numbers, NoMemory>
        ensures { IfOk result (λ p. ArePlaces members.now p) }
    {
        let mut numbers = self.empty();
        for (i, member) in members.as_slice().iter().enumerate() {
            numbers.add(member.0, i)?;
        }
        Ok(numbers)
    }
}

/// Where the streams and jobs of the catalogue stand, and the members.
pub(crate) struct Index {
    pub(crate) streams: Numbers,
    pub(crate) jobs: Numbers,
    pub(crate) members: Numbers,
}

/// Written out, so that dropping one is a call for whoever owns it.
impl Drop for Index {
    fn drop(self) {
        let Index {
            streams: _streams,
            jobs: _jobs,
            members: _members,
        } = self;
    }
}

impl Index {
    /// That of no plan, which takes no memory yet.
    pub(crate) fn new(alloc: Global) -> Index
        ensures { IsIndexOf [] [] [] result }
    {
        Index {
            streams: Numbers::new(alloc),
            jobs: Numbers::new(alloc),
            members: Numbers::new(alloc),
        }
    }
}
