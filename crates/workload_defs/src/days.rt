//! Free days, and the calendars by their names.
ghost use Rattle.std.specs.Prelude.{◌≡◌, ◌<◌, ◌==◌, ◌++◌, ◌∷◌, [], ℕ, List, IfOk, OnOk, Some, if◌then◌else◌, length, map, option_and_then, slice_get, slice_index};
ghost use Rattle.std.specs.Option.{option_copied};
ghost use Rattle.std.specs.Str.{bytes_eq};
ghost use Rattle.composer_parser.specs.declared.Defs.{Defs as Definitions};
ghost use Rattle.model.specs.Words.{ascending};
ghost use Rattle.workload_defs.specs.Days as spec;
ghost use Rattle.workload_defs.specs.Tables.{IsCalendarTable, AreDayTables, AreFreeDays, AreMade, StaysIn, number_at, number_in};

use base_types::{Copied, NoMemory, Text};
use composer_parser::{CalendarDef, Defs, Lined, ScheduleDef};
use day_counts::{CountedDays, SortedDays};
use definition_names::Names;
use indexmap::IndexMap;
use std::alloc::Global;

/// The places of calendars by their names.
pub(crate) type CalendarTable = IndexMap<Text, usize>;

/// The free days of all streams. Streams with the same free days share them.
pub(crate) struct FreeTable {
    kinds: Vec<CountedDays>,
    /// Which of these each stream has.
    places: Vec<usize>,
}

/// Written out, so that dropping one is a call for whoever owns it.
impl Drop for FreeTable {
    fn drop(self) {
        let FreeTable {
            kinds: _kinds,
            places: _places,
        } = self;
    }
}

/// The calendars by their names, their days in ascending order, and the free days of all streams.
pub(crate) struct DayTables {
    pub(crate) calendars: CalendarTable,
    pub(crate) sorted: Vec<SortedDays>,
    pub(crate) free: FreeTable,
}

/// Written out, so that dropping one is a call for whoever owns it.
impl Drop for DayTables {
    fn drop(self) {
        let DayTables {
            calendars: _calendars,
            sorted: _sorted,
            free: _free,
        } = self;
    }
}

pub(crate) fn day_tables<'a>(alloc: Global, names: &Names<'a>) -> Result<DayTables, NoMemory>
    ensures { IfOk result (λ tables. AreDayTables names.now tables) }
{
    let calendars = calendar_table(alloc, names.defs().calendars.as_slice())?;
    let sorted = sorted_calendars(alloc, names.defs().calendars.as_slice())?;
    let free = FreeTable::of(alloc, names)?;
    Ok(DayTables {
        calendars,
        sorted,
        free,
    })
}

/// The days of each calendar in ascending order.
fn sorted_calendars(
    alloc: Global,
    calendars: &[Lined<CalendarDef>],
) -> Result<Vec<SortedDays>, NoMemory>
    ensures { IfOk result (λ sorted. sorted.items ≡ map spec.ascending_days calendars.now) }
{
    let mut sorted = Vec::new(alloc);
    for calendar in calendars {
        sorted.push(days_in_order(alloc, &calendar.item)?)?;
    }
    Ok(sorted)
}

/// The days of a calendar in ascending order.
fn days_in_order(alloc: Global, calendar: &CalendarDef) -> Result<SortedDays, NoMemory>
    ensures { IfOk result (λ sorted. sorted ≡ ascending calendar.now.days) }
{
    let sorted = SortedDays::of(alloc, calendar.days.as_slice())?;
    Ok(sorted)
}

fn calendar_table(
    alloc: Global,
    calendars: &[Lined<CalendarDef>],
) -> Result<CalendarTable, NoMemory>
    ensures { IfOk result (λ table. IsCalendarTable table.entries calendars.now) }
{
    let mut table = IndexMap::new(alloc);
    // From the last on, so that the first of a name stays.
    for i in (0..calendars.len()).rev() {
        put_place(&mut table, calendars[i].item.name.copy()?, i)?;
    }
    Ok(table)
}

/// Puts a name before the others: it takes the place of the same name.
fn put_place(table: &mut CalendarTable, name: Text, place: usize) -> Result<(), NoMemory>
    ensures { OnOk result ((other : List ℕ) → number_in table.new.entries other
        ≡ (if bytes_eq other name then Some place else number_in table.old.entries other)) }
{
    match table.insert(name, place) {
        Ok(_) => Ok(()),
        Err(_) => Err(NoMemory),
    }
}

/// The place of the calendar of free days where a stream names none.
fn holidays(calendars: &[Lined<CalendarDef>]) -> Option<usize>
    ensures { result ≡ spec.holidays calendars.now }
{
    for (i, calendar) in calendars.iter().enumerate() {
        if calendar.item.name.as_str() == "HOLIDAYS" {
            return Some(i);
        }
    }
    None
}

/// Which days are free for a stream: the place of its calendar, if that is defined, and whether Saturdays and Sundays are.
#[derive(Clone, Copy)]
struct FreeKind {
    calendar: Option<usize>,
    sa: bool,
    su: bool,
}

fn kind_of<'a>(names: &Names<'a>, holidays: Option<usize>, schedule: &'a ScheduleDef) -> FreeKind
    requires { holidays ≡ spec.holidays names.now.calendars }
    ensures { spec.IsKindOf names.now schedule.now result }
{
    match &schedule.free {
        None => FreeKind {
            calendar: holidays,
            sa: true,
            su: true,
        },
        Some(free) => FreeKind {
            calendar: names.calendar(&free.name),
            sa: !free.minus_sa,
            su: !free.minus_su,
        },
    }
}

/// A number for each kind.
fn key_of(kind: &FreeKind) -> Result<usize, NoMemory>
    ensures { IfOk result (λ key. key ≡ spec.key_of kind.now) }
{
    let place = match kind.calendar {
        None => 0,
        Some(place) => match place.checked_add(1) {
            None => return Err(NoMemory),
            Some(next) => next,
        },
    };
    match place.checked_mul(4) {
        None => Err(NoMemory),
        Some(four) => match four.checked_add(2 * usize::from(kind.sa) + usize::from(kind.su)) {
            None => Err(NoMemory),
            Some(key) => Ok(key),
        },
    }
}

/// The free days of a kind.
fn free_days(alloc: Global, defs: &Defs, kind: &FreeKind) -> Result<CountedDays, NoMemory>
    ensures { IfOk result (λ free. free ≡ spec.free_of_kind defs.now kind.now) }
{
    let free = CountedDays::of(alloc, days_at(defs, kind.calendar), kind.sa, kind.su)?;
    Ok(free)
}

/// The days of the calendar at a place, and none where there is no calendar.
fn days_at(defs: &Defs, place: Option<usize>) -> &[u32]
    ensures { result.now ≡ spec.days_at defs.now place }
{
    match place {
        None => &[],
        Some(place) => match defs.calendars.get(place) {
            None => &[],
            Some(calendar) => calendar.item.days.as_slice(),
        },
    }
}

/// The days of the calendar of this name, and none where it is not defined.
pub(crate) fn days_of<'a>(defs: &'a Defs, table: &CalendarTable, name: &Text) -> &'a [u32]
    requires { IsCalendarTable table.now.entries defs.now.calendars }
    ensures { result.now ≡ spec.days_of defs.now name.now }
{
    match table.get(name) {
        Some(place) => days_at(defs, Some(*place)),
        None => &[],
    }
}

/// The days of the calendar of this name in ascending order. None where it is not defined.
pub(crate) fn sorted_days_of<'a>(tables: &'a DayTables, name: &Text) -> Option<&'a SortedDays>
    ensures { (d : Definitions) → IsCalendarTable tables.now.calendars.entries d.calendars
        → tables.now.sorted.items ≡ map spec.ascending_days d.calendars
        → spec.days_in (option_copied result) ≡ ascending (spec.days_of d name.now) }
{
    sorted_at(tables.sorted.as_slice(), place_in(&tables.calendars, name))
}

/// The place of the calendar of a name.
fn place_in(table: &CalendarTable, name: &Text) -> Option<usize>
    ensures { result ≡ number_in table.now.entries name.now }
{
    table.get(name).copied()
}

/// What stands at a place.
fn sorted_at<'a>(sorted: &'a [SortedDays], place: Option<usize>) -> Option<&'a SortedDays>
    ensures { option_copied result ≡ option_and_then (slice_get sorted.now) place }
{
    match place {
        None => None,
        Some(place) => match sorted.get(place) {
            Some(days) => Some(days),
            None => None,
        },
    }
}

impl FreeTable {
    /// The free days of the streams of these definitions.
    pub(crate) fn of<'a>(alloc: Global, names: &Names<'a>) -> Result<FreeTable, NoMemory>
        ensures { IfOk result (λ table. AreFreeDays names.now table) }
    {
        let defs = names.defs();
        let holidays = holidays(defs.calendars.as_slice());
        let mut made: IndexMap<usize, usize> = IndexMap::new(alloc);
        let mut table = FreeTable {
            kinds: Vec::new(alloc),
            places: Vec::new(alloc),
        };
        let schedules = defs.schedules.as_slice();
        for schedule in schedules {
            let kind = kind_of(names, holidays, &schedule.item);
            let place = place_of(alloc, &mut table.kinds, defs, &kind, &mut made)?;
            table.places.push(place)?;
        }
        Ok(table)
    }

    /// Those of the stream at a place.
    pub(crate) fn at(&self, stream: usize) -> &CountedDays
        requires each { stream < length self.now.places.items }
        requires there { slice_index self.now.places.items stream < length self.now.kinds.items }
        ensures { slice_get self.now.kinds.items (slice_index self.now.places.items stream) ≡ Some result.now }
    {
        &self.kinds[self.places[stream]]
    }
}

/// The place of the free days of a kind, which are added where they are not there yet.
fn place_of(
    alloc: Global,
    kinds: &mut Vec<CountedDays>,
    defs: &Defs,
    kind: &FreeKind,
    made: &mut IndexMap<usize, usize>,
) -> Result<usize, NoMemory>
    requires { AreMade defs.now kinds.old.items made.old.entries }
    ensures stay { OnOk result (StaysIn kinds.old.items kinds.new.items) }
    ensures place { IfOk result (λ place. slice_get kinds.new.items place ≡ Some (spec.free_of_kind defs.now kind.now)) }
    ensures made { OnOk result (AreMade defs.now kinds.new.items made.new.entries) }
{
    let key = key_of(kind)?;
    match place_at(made, key) {
        Some(place) => Ok(place),
        None => add(alloc, kinds, defs, kind, key, made),
    }
}

/// What an index has at a number.
fn place_at(made: &IndexMap<usize, usize>, key: usize) -> Option<usize>
    ensures { result ≡ number_at made.now.entries key }
{
    made.get(&key).copied()
}

/// Adds the free days of a kind, and answers their place.
fn add(
    alloc: Global,
    kinds: &mut Vec<CountedDays>,
    defs: &Defs,
    kind: &FreeKind,
    key: usize,
    made: &mut IndexMap<usize, usize>,
) -> Result<usize, NoMemory>
    ensures place { IfOk result (λ place. place ≡ length kinds.old.items) }
    ensures kinds { OnOk result (kinds.new.items ≡ kinds.old.items ++ spec.free_of_kind defs.now kind.now ∷ []) }
    ensures made { IfOk result (λ place. (other : ℕ) →
        number_at made.new.entries other ≡ (if other == key then Some place else number_at made.old.entries other)) }
{
    let place = kinds.len();
    kinds.push(free_days(alloc, defs, kind)?)?;
    match made.insert(key, place) {
        Ok(_) => Ok(place),
        Err(_) => Err(NoMemory),
    }
}
