//! Chains of domains, from each to its parent.
ghost use Rattle.std.specs.Prelude.{◌≡◌, IfOk, length, map};
ghost use Rattle.model.specs.Words.{below};
ghost use Rattle.definition_faults.specs.Chains as spec;

use base_types::NoMemory;
use definition_names::Names;
use std::alloc::Global;

/// Whether the chain of each domain ends at one without a parent.
pub(crate) fn chain_ends<'a>(alloc: Global, names: &Names<'a>) -> Result<Vec<bool>, NoMemory>
    ensures { IfOk result (λ v. v.items ≡ spec.all_ends names.now) }
{
    let climbed = climbed(alloc, names)?;
    let places = climbed.as_slice();
    let mut ends = Vec::new(alloc);
    for place in places {
        ends.push(is_top(names, *place))?;
    }
    Ok(ends)
}

/// Where the chain of each domain has come after as many steps as there are domains.
fn climbed<'a>(alloc: Global, names: &Names<'a>) -> Result<Vec<usize>, NoMemory>
    ensures { IfOk result (λ v. v.items ≡ spec.all_climbed names.now) }
{
    let count = names.defs().domains.len();
    let mut places = own_places(alloc, count)?;
    // As many steps as the powers of 2 are that were looked at, of which the number of steps is a sum.
    let mut powers = parents(alloc, names)?;
    let mut left = count;
    while left > 0 {
        if left % 2 == 1 {
            places = through(alloc, powers.as_slice(), places.as_slice())?;
        }
        powers = through(alloc, powers.as_slice(), powers.as_slice())?;
        left /= 2;
    }
    Ok(places)
}

/// Each place, which no step leads away from.
fn own_places(alloc: Global, count: usize) -> Result<Vec<usize>, NoMemory>
    ensures { IfOk result (λ v. v.items ≡ below count) }
{
    let mut places = Vec::new(alloc);
    for i in 0..count {
        places.push(i)?;
    }
    Ok(places)
}

/// The place of the parent of each domain; its own place where it has none, or none that is defined.
fn parents<'a>(alloc: Global, names: &Names<'a>) -> Result<Vec<usize>, NoMemory>
    ensures { IfOk result (λ v. v.items ≡ map (spec.parent_of names.now) (below (length names.now.domains))) }
{
    let count = names.defs().domains.len();
    let mut places = Vec::new(alloc);
    for i in 0..count {
        places.push(parent_of(names, i))?;
    }
    Ok(places)
}

fn parent_of<'a>(names: &Names<'a>, i: usize) -> usize
    ensures { result ≡ spec.parent_of names.now i }
{
    match names.defs().domains.get(i) {
        None => i,
        Some(domain) => match &domain.item.parent {
            None => i,
            Some(parent) => match names.domain(parent) {
                Some(place) => place,
                None => i,
            },
        },
    }
}

/// Where steps lead from places.
fn through(alloc: Global, steps: &[usize], places: &[usize]) -> Result<Vec<usize>, NoMemory>
    ensures { IfOk result (λ v. v.items ≡ map (spec.place_in steps.now) places.now) }
{
    let mut further = Vec::new(alloc);
    for place in places {
        further.push(place_in(steps, *place))?;
    }
    Ok(further)
}

/// What the places have at a place, and the place itself past their end.
fn place_in(places: &[usize], place: usize) -> usize
    ensures { result ≡ spec.place_in places.now place }
{
    match places.get(place) {
        Some(next) => *next,
        None => place,
    }
}

fn is_top<'a>(names: &Names<'a>, i: usize) -> bool
    ensures { result ≡ spec.is_top names.now i }
{
    match names.defs().domains.get(i) {
        Some(domain) => domain.item.parent.is_none(),
        None => false,
    }
}
