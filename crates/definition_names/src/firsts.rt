//! Indexes of names: at which place the first of a name stands.
ghost use Rattle.std.specs.Prelude.{◌≡◌, ◌&&◌, ℕ, List, IfOk, OnOk, Some, map, if◌then◌else◌};
ghost use Rattle.std.specs.Str.{bytes_eq};
ghost use Rattle.definition_names.specs.Keys.{seen, seen_pair};
ghost use Rattle.definition_names.specs.Indexes.{IsIndex, IsPairIndex, name_in, pair_in};

use crate::keys::Pair;
use base_types::{NoMemory, Text};
use indexmap::IndexMap;
use std::alloc::Global;

/// The places of the first of each name.
pub(crate) type NameIndex<'a> = IndexMap<&'a Text, usize>;

/// The places of the first of each name on a workstation.
pub(crate) type PairIndex<'a> = IndexMap<Pair<'a>, usize>;

/// Puts a name before the others: it takes the place of the same name.
pub(crate) fn put_name<'a>(
    index: &mut NameIndex<'a>,
    name: &'a Text,
    place: usize,
) -> Result<(), NoMemory>
    ensures { OnOk result ((other : List ℕ) → name_in index.new.entries other
        ≡ (if bytes_eq other name.now then Some place else name_in index.old.entries other)) }
{
    match index.insert(name, place) {
        Ok(_) => Ok(()),
        Err(_) => Err(NoMemory),
    }
}

/// Puts a name on a workstation before the others: it takes the place of the same one.
pub(crate) fn put_pair<'a>(
    index: &mut PairIndex<'a>,
    ws: &'a Text,
    name: &'a Text,
    place: usize,
) -> Result<(), NoMemory>
    ensures { OnOk result ((on other : List ℕ) → pair_in index.new.entries on other
        ≡ (if bytes_eq on ws.now && bytes_eq other name.now then Some place else pair_in index.old.entries on other)) }
{
    match index.insert((ws, name), place) {
        Ok(_) => Ok(()),
        Err(_) => Err(NoMemory),
    }
}

/// The place of the first of each name.
pub(crate) fn index<'a>(alloc: Global, names: &[&'a Text]) -> Result<NameIndex<'a>, NoMemory>
    ensures { IfOk result (λ index. IsIndex index.entries (map seen names.now)) }
{
    let mut index = IndexMap::new(alloc);
    // From the last on, so that the first of a name stays.
    for i in (0..names.len()).rev() {
        put_name(&mut index, names[i], i)?;
    }
    Ok(index)
}

/// The place of the first of each name on a workstation.
pub(crate) fn pair_index<'a>(alloc: Global, names: &[Pair<'a>]) -> Result<PairIndex<'a>, NoMemory>
    ensures { IfOk result (λ index. IsPairIndex index.entries (map seen_pair names.now)) }
{
    let mut index = IndexMap::new(alloc);
    for i in (0..names.len()).rev() {
        let (ws, name) = names[i];
        put_pair(&mut index, ws, name, i)?;
    }
    Ok(index)
}
