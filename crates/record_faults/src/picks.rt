//! What a row defines.
ghost use Rattle.std.specs.Prelude.{◌≡◌, option_map};
ghost use Rattle.record_faults.specs.Known as spec;

use base_types::Text;
use record_rows::{CutRow, Row, StepRow};

/// The name of the workstation that a row defines.
pub fn station_name<'a>(row: &'a Row) -> Option<&'a Text>
    ensures { option_map (λ t. t.now) result ≡ spec.station_name row.now }
{
    match row {
        Row::Master(name) => Some(name),
        Row::Station(s) => Some(&s.name),
        _ => None,
    }
}

/// The resource that a row defines, by its workstation and its name.
pub fn resource_of<'a>(row: &'a Row) -> Option<(&'a Text, &'a Text)>
    ensures { option_map (λ t. (t.0.now, t.1.now)) result ≡ spec.resource_of row.now }
{
    match row {
        Row::Resource(ws, name, _) => Some((ws, name)),
        _ => None,
    }
}

/// The name of the prompt that a row defines.
pub fn prompt_of<'a>(row: &'a Row) -> Option<&'a Text>
    ensures { option_map (λ t. t.now) result ≡ spec.prompt_of row.now }
{
    match row {
        Row::Prompt(name, _) => Some(name),
        _ => None,
    }
}

/// A stream, by its workstation and its name.
pub(crate) fn stream_of<'a>(row: &'a Row) -> Option<(&'a Text, &'a Text)>
    ensures { option_map (λ t. (t.0.now, t.1.now)) result ≡ spec.stream_of row.now }
{
    match row {
        Row::Stream(s) => Some((&s.ws, &s.name)),
        _ => None,
    }
}

/// The name of a job.
pub(crate) fn job_of<'a>(row: &'a Row) -> Option<&'a Text>
    ensures { option_map (λ t. t.now) result ≡ spec.job_of row.now }
{
    match row {
        Row::Job(j) => Some(&j.name),
        _ => None,
    }
}

/// The workstation of a stream or a job.
pub(crate) fn object_ws<'a>(row: &'a Row) -> Option<&'a Text>
    ensures { option_map (λ t. t.now) result ≡ spec.object_ws row.now }
{
    match row {
        Row::Stream(s) => Some(&s.ws),
        Row::Job(j) => Some(&j.ws),
        _ => None,
    }
}

/// A line `ws`.
pub(crate) fn is_ws(row: &Row) -> bool
    ensures { result ≡ spec.is_ws row.now }
{
    match row {
        Row::Master(_) | Row::Station(_) => true,
        _ => false,
    }
}

pub(crate) fn is_resource(row: &Row) -> bool
    ensures { result ≡ spec.is_resource row.now }
{
    match row {
        Row::Resource(_, _, _) => true,
        _ => false,
    }
}

pub(crate) fn is_prompt(row: &Row) -> bool
    ensures { result ≡ spec.is_prompt row.now }
{
    match row {
        Row::Prompt(_, _) => true,
        _ => false,
    }
}

/// A line `carryforward`.
pub(crate) fn is_carry(row: &Row) -> bool
    ensures { result ≡ spec.is_carry row.now }
{
    match row {
        Row::CarryForward(_) => true,
        _ => false,
    }
}

/// `$PLAN`
pub(crate) fn is_plan(row: &Row) -> bool
    ensures { result ≡ spec.is_plan row.now }
{
    match row {
        Row::Plan => true,
        _ => false,
    }
}

/// `$STEPS`
pub(crate) fn is_steps(row: &Row) -> bool
    ensures { result ≡ spec.is_steps row.now }
{
    match row {
        Row::Steps => true,
        _ => false,
    }
}

/// Whether a row begins a stream, or a section.
pub fn begins_stream(row: &Row) -> bool
    ensures { result ≡ spec.begins_stream row.now }
{
    match row {
        Row::Stream(_) | Row::Plan | Row::Steps => true,
        _ => false,
    }
}

/// Whether a row is a stream or a job.
pub fn is_object(row: &Row) -> bool
    ensures { result ≡ spec.is_object row.now }
{
    match row {
        Row::Stream(_) | Row::Job(_) => true,
        _ => false,
    }
}

/// A dependency.
pub(crate) fn is_dep(row: &Row) -> bool
    ensures { result ≡ spec.is_dep row.now }
{
    match row {
        Row::Dep(_) => true,
        _ => false,
    }
}

/// A step that takes a section of a plan.
pub(crate) fn is_next(row: &Row) -> bool
    ensures { result ≡ spec.is_next row.now }
{
    match row {
        Row::Step(StepRow::Next) => true,
        Row::Step(StepRow::CrashIn(_, _, CutRow::Next)) => true,
        _ => false,
    }
}
