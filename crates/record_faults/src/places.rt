//! Where rows may stand.
ghost use Rattle.std.specs.Prelude.{◌≡◌};
ghost use Rattle.record_faults.specs.Places as spec;

use record_rows::{CutRow, PartRow, Row, StepRow};

/// What of a job stands last above a row.
#[derive(Clone, Copy)]
pub enum JobPlace {
    Name,
    Work,
    Logon,
    Cond,
    Recovery,
    Deps,
}

/// What stands above a row.
#[derive(Clone, Copy)]
pub enum Place {
    Nothing,
    /// `$DEFINITIONS`, and lines of definitions.
    Definitions,
    /// `$NETWORK`, and no workstation yet.
    Header,
    Network,
    /// `$PLAN`, and no stream yet.
    Plan,
    /// A stream, and no job of it yet.
    Stream,
    Job(JobPlace),
    /// `$STEPS` of a record with sections of plans.
    Steps,
    /// `$STEPS` of a record with definitions.
    DaySteps,
}

/// What becomes of a row where it stands.
#[derive(Clone, Copy)]
pub enum Fate {
    Stands,
    /// It is no line of the record, or an empty one.
    Skipped,
    NoForm,
}

/// The place in the order of a job's parts.
fn rank(place: JobPlace) -> u8
    ensures { result ≡ spec.rank place }
{
    match place {
        JobPlace::Name => 0,
        JobPlace::Work => 1,
        JobPlace::Logon => 2,
        JobPlace::Cond => 3,
        JobPlace::Recovery => 4,
        JobPlace::Deps => 5,
    }
}

/// What of a job stands last behind the part.
fn behind_part(part: &PartRow) -> JobPlace
    ensures { result ≡ spec.behind_part part.now }
{
    match part {
        PartRow::Command(_) | PartRow::Script(_) => JobPlace::Work,
        PartRow::Logon(_) => JobPlace::Logon,
        PartRow::Cond(_) => JobPlace::Cond,
        PartRow::Recovery(_) => JobPlace::Recovery,
    }
}

/// A header that may follow a section.
fn is_section(row: &Row) -> bool
    ensures { result ≡ spec.is_section row.now }
{
    match row {
        Row::Plan | Row::Steps => true,
        _ => false,
    }
}

fn is_of_network(row: &Row) -> bool
    ensures { result ≡ spec.is_of_network row.now }
{
    match row {
        Row::Station(_) | Row::Resource(_, _, _) | Row::Prompt(_, _) | Row::CarryForward(_) => true,
        _ => false,
    }
}

fn is_stream(row: &Row) -> bool
    ensures { result ≡ spec.is_stream row.now }
{
    match row {
        Row::Stream(_) => true,
        _ => false,
    }
}

/// A stream, a job or a dependency.
fn is_of_stream(row: &Row) -> bool
    ensures { result ≡ spec.is_of_stream row.now }
{
    match row {
        Row::Stream(_) | Row::Job(_) | Row::Dep(_) => true,
        _ => false,
    }
}

/// A part of a job that may stand behind these.
fn is_next_part(above: JobPlace, row: &Row) -> bool
    ensures { result ≡ spec.is_next_part above row.now }
{
    match row {
        Row::Part(part) => rank(above) < rank(behind_part(part)),
        _ => false,
    }
}

/// A step, but one that takes the plan of a day.
fn is_step(row: &Row) -> bool
    ensures { result ≡ spec.is_step row.now }
{
    match row {
        Row::Step(StepRow::NextDay(_)) => false,
        Row::Step(StepRow::CrashIn(_, _, CutRow::NextDay(_))) => false,
        Row::Step(_) => true,
        _ => false,
    }
}

/// A step, but one that takes the next section of a plan.
fn is_day_step(row: &Row) -> bool
    ensures { result ≡ spec.is_day_step row.now }
{
    match row {
        Row::Step(StepRow::Next) => false,
        Row::Step(StepRow::CrashIn(_, _, CutRow::Next)) => false,
        Row::Step(_) => true,
        _ => false,
    }
}

/// What a record begins with.
fn is_first(row: &Row) -> bool
    ensures { result ≡ spec.is_first row.now }
{
    match row {
        Row::Network | Row::Definitions => true,
        _ => false,
    }
}

fn is_master(row: &Row) -> bool
    ensures { result ≡ spec.is_master row.now }
{
    match row {
        Row::Master(_) => true,
        _ => false,
    }
}

/// Whether the row may stand below these.
#[tactic(auto, unfolding(crate::specs::Places::may_stand))]
fn may_stand(above: Place, row: &Row) -> bool
    ensures { result ≡ spec.may_stand above row.now }
{
    match above {
        Place::Nothing => is_first(row),
        Place::Definitions => true,
        Place::Header => is_master(row),
        Place::Network => is_section(row) || is_of_network(row),
        Place::Plan => is_section(row) || is_stream(row),
        Place::Stream => is_section(row) || is_of_stream(row),
        Place::Job(last) => is_section(row) || is_of_stream(row) || is_next_part(last, row),
        Place::Steps => is_step(row),
        Place::DaySteps => is_day_step(row),
    }
}

/// An empty line or a comment, or a line of definitions, which end before `$STEPS`.
fn is_passed_over(above: Place, row: &Row) -> bool
    ensures { result ≡ spec.is_passed_over above row.now }
{
    match row {
        Row::Skipped => true,
        Row::Steps => false,
        _ => match above {
            Place::Definitions => true,
            _ => false,
        },
    }
}

/// What becomes of the row below these.
#[tactic(auto, unfolding(crate::specs::Places::fate_of))]
pub(crate) fn fate_of(above: Place, row: &Row) -> Fate
    ensures { result ≡ spec.fate_of above row.now }
{
    if is_passed_over(above, row) {
        Fate::Skipped
    } else if may_stand(above, row) {
        Fate::Stands
    } else {
        Fate::NoForm
    }
}

fn behind_dep(above: Place) -> Place
    ensures { result ≡ spec.behind_dep above }
{
    match above {
        Place::Job(_) => Place::Job(JobPlace::Deps),
        _ => above,
    }
}

fn steps_below(above: Place) -> Place
    ensures { result ≡ spec.steps_below above }
{
    match above {
        Place::Definitions => Place::DaySteps,
        _ => Place::Steps,
    }
}

/// What stands above the row that follows this one.
#[tactic(auto, unfolding(crate::specs::Places::below_row))]
pub(crate) fn below_row(above: Place, row: &Row) -> Place
    ensures { result ≡ spec.below_row above row.now }
{
    match row {
        Row::Network => Place::Header,
        Row::Definitions => Place::Definitions,
        Row::Master(_) => Place::Network,
        Row::Plan => Place::Plan,
        Row::Stream(_) => Place::Stream,
        Row::Job(_) => Place::Job(JobPlace::Name),
        Row::Part(part) => Place::Job(behind_part(part)),
        Row::Dep(_) => behind_dep(above),
        Row::Steps => steps_below(above),
        _ => above,
    }
}
