//! Streams and entries with what they follow, as objects of one list in the order of the text.
ghost use Rattle.std.specs.Prelude.{◌≡◌, ◌++◌, ◌∷◌, [], IfOk, OnOk, length, map, filter_map, slice_index};
ghost use Rattle.std.specs.Option.{option_to_list};
ghost use Rattle.model.specs.Words.{below};
ghost use Rattle.definition_faults.specs.Graphs as spec;

use base_types::{Items, NoMemory};
use composer_parser::{Clause, EntryDef, Lined, Pred, ScheduleDef};
use definition_names::{Names, Target};
use follow_circles::Follower;
use std::alloc::Global;

/// All streams, each before its entries.
#[tactic(auto, unfolding(crate::specs::Graphs::graph_of))]
pub(crate) fn followers<'a>(alloc: Global, names: &Names<'a>) -> Result<Vec<Follower>, NoMemory>
    ensures { IfOk result (λ v. v.items ≡ spec.graph_of names.now) }
{
    let begins = begins(alloc, names)?;
    let schedules = names.defs().schedules.as_slice();
    let mut objects = Vec::new(alloc);
    for (n, schedule) in schedules.iter().enumerate() {
        put_stream(alloc, &mut objects, names, begins.as_slice(), n, schedule)?;
    }
    Ok(objects)
}

/// The place of each stream in that list.
fn begins<'a>(alloc: Global, names: &Names<'a>) -> Result<Vec<usize>, NoMemory>
    ensures { IfOk result (λ v. v.items ≡ map (spec.begin_of names.now) (below (length names.now.schedules))) }
{
    let schedules = names.defs().schedules.as_slice();
    let mut begins = Vec::new(alloc);
    let mut next: usize = 0;
    for schedule in schedules {
        begins.push(next)?;
        next = place_behind(next, &schedule.item)?;
    }
    Ok(begins)
}

/// The place behind a stream and its entries. More places than can be numbered have no memory.
fn place_behind(place: usize, schedule: &ScheduleDef) -> Result<usize, NoMemory>
    ensures { IfOk result (λ next. next ≡ spec.behind place schedule.now) }
{
    match place.checked_add(schedule.entries.len()) {
        None => Err(NoMemory),
        Some(last) => match last.checked_add(1) {
            None => Err(NoMemory),
            Some(next) => Ok(next),
        },
    }
}

fn put_stream<'a>(
    alloc: Global,
    objects: &mut Vec<Follower>,
    names: &Names<'a>,
    begins: &[usize],
    n: usize,
    schedule: &'a Lined<ScheduleDef>,
) -> Result<(), NoMemory>
    requires { begins.now ≡ map (spec.begin_of names.now) (below (length names.now.schedules)) }
    ensures { OnOk result (objects.new.items ≡ objects.old.items ++ spec.stream_objects names.now (n, schedule.now)) }
{
    let stream = &schedule.item;
    let clauses = stream.clauses.as_slice();
    put_object(
        alloc,
        objects,
        names,
        begins,
        n,
        false,
        schedule.line,
        clauses,
    )?;
    put_entries(alloc, objects, names, begins, n, stream.entries.as_slice())
}

fn put_entries<'a>(
    alloc: Global,
    objects: &mut Vec<Follower>,
    names: &Names<'a>,
    begins: &[usize],
    n: usize,
    entries: &'a [Lined<EntryDef>],
) -> Result<(), NoMemory>
    requires { begins.now ≡ map (spec.begin_of names.now) (below (length names.now.schedules)) }
    ensures { OnOk result (objects.new.items ≡ objects.old.items ++ map (spec.entry_object names.now n) entries.now) }
{
    for entry in entries {
        let clauses = entry.item.clauses.as_slice();
        put_object(alloc, objects, names, begins, n, true, entry.line, clauses)?;
    }
    Ok(())
}

/// Puts a stream or an entry with these clauses.
fn put_object<'a>(
    alloc: Global,
    objects: &mut Vec<Follower>,
    names: &Names<'a>,
    begins: &[usize],
    n: usize,
    inside: bool,
    line: u32,
    clauses: &'a [Lined<Clause>],
) -> Result<(), NoMemory>
    requires { begins.now ≡ map (spec.begin_of names.now) (below (length names.now.schedules)) }
    ensures { OnOk result (objects.new.items
        ≡ objects.old.items ++ spec.object line (spec.followed names.now n inside clauses.now) ∷ []) }
{
    let follows = followed(alloc, names, begins, n, inside, clauses)?;
    objects.push(Follower { line, follows })?;
    Ok(())
}

/// The places of what these clauses follow. What stands for nothing is left out.
fn followed<'a>(
    alloc: Global,
    names: &Names<'a>,
    begins: &[usize],
    n: usize,
    inside: bool,
    clauses: &'a [Lined<Clause>],
) -> Result<Items<usize>, NoMemory>
    requires { begins.now ≡ map (spec.begin_of names.now) (below (length names.now.schedules)) }
    ensures { IfOk result (λ places. places ≡ spec.followed names.now n inside clauses.now) }
{
    let mut places = Items::new(alloc);
    for clause in clauses {
        put_preds(
            &mut places,
            names,
            begins,
            n,
            inside,
            preds_of(&clause.item),
        )?;
    }
    Ok(places)
}

/// What a clause follows.
fn preds_of(clause: &Clause) -> &[Pred]
    ensures { result.now ≡ spec.preds_of clause.now }
{
    match clause {
        Clause::Follows(preds) => preds.as_slice(),
        _ => &[],
    }
}

fn put_preds<'a>(
    places: &mut Items<usize>,
    names: &Names<'a>,
    begins: &[usize],
    n: usize,
    inside: bool,
    preds: &'a [Pred],
) -> Result<(), NoMemory>
    requires { begins.now ≡ map (spec.begin_of names.now) (below (length names.now.schedules)) }
    ensures { OnOk result (places.new ≡ places.old ++ filter_map (spec.followed_by names.now n inside) preds.now) }
{
    for pred in preds {
        put_pred(places, names, begins, n, inside, pred)?;
    }
    Ok(())
}

fn put_pred<'a>(
    places: &mut Items<usize>,
    names: &Names<'a>,
    begins: &[usize],
    n: usize,
    inside: bool,
    pred: &'a Pred,
) -> Result<(), NoMemory>
    requires { begins.now ≡ map (spec.begin_of names.now) (below (length names.now.schedules)) }
    ensures { OnOk result (places.new ≡ places.old ++ option_to_list (spec.followed_by names.now n inside pred.now)) }
{
    match names.target(n, inside, pred) {
        None => Ok(()),
        Some(target) => places.push(place_of(begins, &target)?),
    }
}

/// The place of what is followed. More places than can be numbered have no memory.
fn place_of(begins: &[usize], target: &Target) -> Result<usize, NoMemory>
    ensures { IfOk result (λ place. place ≡ spec.place_in begins.now target.now) }
{
    match target {
        Target::Stream(n) => Ok(begin_at(begins, *n)),
        Target::Job(n, i) => match begin_at(begins, *n).checked_add(*i) {
            None => Err(NoMemory),
            Some(place) => match place.checked_add(1) {
                None => Err(NoMemory),
                Some(next) => Ok(next),
            },
        },
    }
}

fn begin_at(begins: &[usize], n: usize) -> usize
    ensures { result ≡ slice_index begins.now n }
{
    match begins.get(n) {
        Some(place) => *place,
        None => 0,
    }
}
