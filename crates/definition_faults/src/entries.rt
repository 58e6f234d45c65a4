//! The entries of a stream.
ghost use Rattle.std.specs.Prelude.{◌≡◌};
ghost use Rattle.model.specs.Words.{first_of_these};
ghost use Rattle.definition_faults.specs.Orders.{earliest};
ghost use Rattle.definition_faults.specs.Entries as spec;

use crate::clauses::in_clauses;
use crate::kinds::{Fault, Kind, earlier, noted, stands_at};
use crate::stations::is_unknown_ws;
use composer_parser::{EntryDef, Lined, ScheduleDef};
use definition_names::Names;

/// The first fault of the entries of the stream at a place, with their clauses. Their conditions are left out.
#[tactic(auto, unfolding(crate::specs::Entries::entry_faults))]
pub(crate) fn in_entries<'a>(
    names: &Names<'a>,
    stream: usize,
    schedule: &'a ScheduleDef,
) -> Option<Fault>
    ensures { result ≡ earliest (spec.entry_faults names.now stream schedule.now) }
{
    let entries = schedule.entries.as_slice();
    let mut first = None;
    for (i, entry) in entries.iter().enumerate() {
        first = earlier(first, in_entry(names, stream, i, schedule, entry));
    }
    first
}

/// The first fault of the entry at a place of the stream at a place.
fn in_entry<'a>(
    names: &Names<'a>,
    stream: usize,
    i: usize,
    schedule: &'a ScheduleDef,
    entry: &'a Lined<EntryDef>,
) -> Option<Fault>
    ensures { result ≡ earliest (spec.faults_of_entry names.now stream schedule.now (i, entry.now)) }
{
    let own = noted(
        None,
        entry.line,
        of_entry(names, stream, i, schedule, &entry.item),
    );
    let ws = names.ws_of_entry(schedule, &entry.item);
    let clauses = in_clauses(names, stream, true, ws, entry.item.clauses.as_slice());
    earlier(own, clauses)
}

fn of_entry<'a>(
    names: &Names<'a>,
    stream: usize,
    i: usize,
    schedule: &'a ScheduleDef,
    entry: &'a EntryDef,
) -> Option<Kind>
    ensures { result ≡ first_of_these (spec.entry_rows names.now stream i schedule.now entry.now) }
{
    if !stands_at(names.entry(stream, &entry.name), i) {
        return Some(Kind::Duplicate);
    }
    if is_unknown_ws(names, &entry.ws) || lacks_job(names, schedule, entry) {
        return Some(Kind::UnknownName);
    }
    None
}

/// Whether the entry has no work of its own, and its workstation no job of its name.
fn lacks_job<'a>(names: &Names<'a>, schedule: &'a ScheduleDef, entry: &'a EntryDef) -> bool
    ensures { result ≡ spec.lacks_job names.now schedule.now entry.now }
{
    if entry.work.is_some() {
        return false;
    }
    match names.ws_of_entry(schedule, entry) {
        Some(ws) => names.job(ws, &entry.name).is_none(),
        None => true,
    }
}
