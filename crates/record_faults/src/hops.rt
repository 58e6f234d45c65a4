//! Where the hops of workstations stand, so that a chain of hops is walked without a search.
ghost use Rattle.std.specs.Prelude.{◌≡◌, ℕ, List, IfOk, OnOk, Some, bytes_eq, if◌then◌else◌, slice_get};
ghost use Rattle.record_faults.specs.Hops as spec;
ghost use Rattle.record_faults.specs.Hops.{AreHops, ArePlaces, place_in};
ghost use Rattle.record_faults.specs.Known as known;

use crate::stations::Found;
use base_types::{NoMemory, Text};
use indexmap::IndexMap;
use std::alloc::Global;

/// The place of the first workstation of each name.
type Places<'a> = IndexMap<&'a Text, usize>;

/// Puts a name before the others: it takes the place of the same name.
fn put<'a>(places: &mut Places<'a>, name: &'a Text, place: usize) -> Result<(), NoMemory>
    ensures { OnOk result ((other : List ℕ) → place_in places.new.entries other
        ≡ (if bytes_eq other name.now then Some place else place_in places.old.entries other)) }
{
    match places.insert(name, place) {
        Ok(_) => Ok(()),
        Err(_) => Err(NoMemory),
    }
}

/// The place of the first workstation of each name.
fn places<'a>(alloc: Global, all: &[Found<'a>]) -> Result<Places<'a>, NoMemory>
    ensures { IfOk result (λ p. ArePlaces all.now p.entries) }
{
    let mut places = IndexMap::new(alloc);
    // From the last on, so that the first of a name stays.
    for i in (0..all.len()).rev() {
        put(&mut places, all[i].name(), i)?;
    }
    Ok(places)
}

/// The place of a workstation's hop, or the count of all where it has none, or none that is there.
fn hop_place<'a>(all: &[Found<'a>], places: &Places<'a>, s: &Found<'a>) -> usize
    requires { ArePlaces all.now places.now.entries }
    ensures { slice_get all.now result ≡ spec.hop_of all.now s.now }
{
    let Some(hop) = s.hop() else {
        return all.len();
    };
    match places.get(&hop) {
        Some(place) => *place,
        None => all.len(),
    }
}

/// The place of the hop of each workstation.
pub(crate) fn hop_places<'a>(alloc: Global, all: &[Found<'a>]) -> Result<Vec<usize>, NoMemory>
    ensures { IfOk result (λ v. AreHops all.now v.items) }
{
    let places = places(alloc, all)?;
    let mut hops = Vec::new(alloc);
    for s in all {
        hops.push(hop_place(all, &places, s))?;
    }
    Ok(hops)
}

/// The place of the first workstation of the name, or the count of all where there is none.
fn place_of(all: &[Found<'_>], name: &Text) -> usize
    ensures { known.station_at all.now name.now ≡ slice_get all.now result }
{
    for (i, s) in all.iter().enumerate() {
        if s.is_called(name) {
            return i;
        }
    }
    all.len()
}

/// Whether the chain of hops from a name on ends at the master. It takes time in proportion to the workstations.
pub(crate) fn ends_at_master(all: &[Found<'_>], hops: &[usize], name: &Text) -> bool
    requires { AreHops all.now hops.now }
    ensures { result ≡ known.ends_at_master all.now name.now }
{
    let mut at = place_of(all, name);
    for _place in 0..all.len() {
        let Some(s) = all.get(at) else {
            return false;
        };
        if s.is_top() {
            return true;
        }
        match hops.get(at) {
            Some(next) => at = *next,
            None => return false,
        }
    }
    false
}
