//! The rows whose numbers and texts are all within their ranges.
ghost use Rattle.std.specs.Prelude.{◌≡◌};
ghost use Rattle.record_rows.specs.Ranges as spec;

use crate::rows::{CutRow, DepRow, ObjRow, OwnRow, PartRow, Ranged, Row, StepRow};

impl<T> Ranged<T> {
    /// Whether the value is within its range.
    pub fn is_within(&self) -> bool
        ensures { result ≡ spec.is_within self.now }
    {
        match self {
            Ranged::Within(_) => true,
            Ranged::OutOfRange => false,
        }
    }
}

#[tactic(auto, unfolding(crate::specs::Ranges::part_in_range))]
fn is_part_in_range(part: &PartRow) -> bool
    ensures { result ≡ spec.part_in_range part.now }
{
    match part {
        PartRow::Command(text) => text.is_within(),
        PartRow::Script(text) => text.is_within(),
        PartRow::Logon(text) => text.is_within(),
        PartRow::Cond(text) => text.is_within(),
        PartRow::Recovery(_) => true,
    }
}

#[tactic(auto, unfolding(crate::specs::Ranges::dep_in_range))]
fn is_dep_in_range(dep: &DepRow) -> bool
    ensures { result ≡ spec.dep_in_range dep.now }
{
    match dep {
        DepRow::At(time) => time.is_within(),
        DepRow::Until(time, _) => time.is_within(),
        DepRow::Deadline(time) => time.is_within(),
        DepRow::Needs(units, _) => units.is_within(),
        DepRow::AskOwn(text) => text.is_within(),
        DepRow::Opens(text) => text.is_within(),
        DepRow::FollowsStream(_, _)
        | DepRow::FollowsJob(_, _, _)
        | DepRow::FollowsOwn(_)
        | DepRow::AskGlobal(_) => true,
    }
}

#[tactic(auto, unfolding(crate::specs::Ranges::object_in_range))]
fn is_object_in_range(object: &ObjRow) -> bool
    ensures { result ≡ spec.object_in_range object.now }
{
    match object {
        ObjRow::Job(n) => n.is_within(),
        ObjRow::Stream(n) => n.is_within(),
    }
}

#[tactic(auto, unfolding(crate::specs::Ranges::own_in_range))]
fn is_own_in_range(own: &OwnRow) -> bool
    ensures { result ≡ spec.own_in_range own.now }
{
    match own {
        OwnRow::Turn(time) => time.is_within(),
        OwnRow::Started(job) => job.is_within(),
        OwnRow::Failed(job) => job.is_within(),
        OwnRow::Ended(job, rc) => job.is_within() && rc.is_within(),
        OwnRow::Typed(_) => true,
    }
}

#[tactic(auto, unfolding(crate::specs::Ranges::cut_in_range))]
fn is_cut_in_range(cut: &CutRow) -> bool
    ensures { result ≡ spec.cut_in_range cut.now }
{
    match cut {
        CutRow::Next | CutRow::NextDay(_) => true,
        CutRow::Own(own) => is_own_in_range(own),
        CutRow::Deliver(_, k) => k.is_within(),
    }
}

#[tactic(auto, unfolding(crate::specs::Ranges::step_in_range))]
fn is_step_in_range(step: &StepRow) -> bool
    ensures { result ≡ spec.step_in_range step.now }
{
    match step {
        StepRow::Own(_, own) => is_own_in_range(own),
        StepRow::Deliver(_, _, k) => k.is_within(),
        StepRow::Reap(_, rc) => rc.is_within(),
        StepRow::CrashIn(_, _, cut) => is_cut_in_range(cut),
        StepRow::Fulfil(_, object, i) => is_object_in_range(object) && i.is_within(),
        StepRow::Next
        | StepRow::NextDay(_)
        | StepRow::Link(_, _)
        | StepRow::Unlink(_, _)
        | StepRow::Flow(_, _)
        | StepRow::Crash(_)
        | StepRow::Recover(_) => true,
    }
}

/// Whether each number and text of the row is within its range. A row of no form gives none.
#[tactic(auto, unfolding(crate::specs::Ranges::in_range))]
pub fn is_in_range(row: &Row) -> bool
    ensures { result ≡ spec.in_range row.now }
{
    match row {
        Row::Resource(_, _, total) => total.is_within(),
        Row::Prompt(_, text) => text.is_within(),
        Row::Stream(stream) => stream.priority.is_within() && stream.limit.is_within(),
        Row::Job(job) => job.priority.is_within(),
        Row::Part(part) => is_part_in_range(part),
        Row::Dep(dep) => is_dep_in_range(dep),
        Row::Step(step) => is_step_in_range(step),
        Row::Skipped
        | Row::NoForm
        | Row::Network
        | Row::Definitions
        | Row::Plan
        | Row::Steps
        | Row::Master(_)
        | Row::Station(_)
        | Row::CarryForward(_) => true,
    }
}
