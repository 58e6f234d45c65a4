//! Streams, with their days, clauses and entries.
ghost use Rattle.std.specs.Prelude.{◌≡◌};
ghost use Rattle.model.specs.Words.{first_of_these};
ghost use Rattle.definition_faults.specs.Orders.{earliest};
ghost use Rattle.definition_faults.specs.Streams as spec;

use crate::clauses::in_clauses;
use crate::entries::in_entries;
use crate::kinds::{Fault, Kind, earlier, noted, stands_at};
use crate::ons::in_ons;
use crate::stations::{is_unknown_calendar, is_unknown_ws};
use composer_parser::{Lined, ScheduleDef};
use definition_names::Names;

/// The first fault of the streams. Conditions and circles are left out.
#[tactic(auto, unfolding(crate::specs::Streams::all_stream_faults))]
pub(crate) fn in_streams<'a>(names: &Names<'a>) -> Option<Fault>
    ensures { result ≡ earliest (spec.all_stream_faults names.now) }
{
    let schedules = names.defs().schedules.as_slice();
    let mut first = None;
    for (n, schedule) in schedules.iter().enumerate() {
        first = earlier(first, in_stream(names, n, schedule));
    }
    first
}

/// The first fault of a stream.
#[tactic(auto, unfolding(crate::specs::Streams::stream_faults))]
fn in_stream<'a>(names: &Names<'a>, n: usize, schedule: &'a Lined<ScheduleDef>) -> Option<Fault>
    ensures { result ≡ earliest (spec.stream_faults names.now n schedule.now) }
{
    let stream = &schedule.item;
    let title = noted(None, schedule.line, of_title(names, n, stream));
    let ons = in_ons(names, stream.ons.as_slice());
    let ws = names.ws_of_stream(stream);
    let clauses = in_clauses(names, n, false, ws, stream.clauses.as_slice());
    let entries = in_entries(names, n, stream);
    earlier(earlier(title, ons), earlier(clauses, entries))
}

fn of_title<'a>(names: &Names<'a>, n: usize, schedule: &'a ScheduleDef) -> Option<Kind>
    ensures { result ≡ first_of_these (spec.title_rows names.now n schedule.now) }
{
    if !stands_at(
        names.stream(names.ws_of_stream(schedule), &schedule.name),
        n,
    ) {
        return Some(Kind::Duplicate);
    }
    if is_unknown_ws(names, &schedule.ws) || lacks_free_calendar(names, schedule) {
        return Some(Kind::UnknownName);
    }
    None
}

/// Whether the stream has a FREEDAYS with a calendar that is not defined.
fn lacks_free_calendar<'a>(names: &Names<'a>, schedule: &'a ScheduleDef) -> bool
    ensures { result ≡ spec.lacks_free_calendar names.now schedule.now }
{
    match &schedule.free {
        Some(free) => is_unknown_calendar(names, &free.name),
        None => false,
    }
}
