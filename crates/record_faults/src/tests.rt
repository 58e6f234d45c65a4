//! The faults of a row, kind by kind.
ghost use Rattle.std.specs.Prelude.{◌≡◌, ◌||◌};
ghost use Rattle.record_faults.specs.Faults as spec;
ghost use Rattle.record_faults.specs.Hops.{AreHops};

use crate::above::Above;
use crate::hops::ends_at_master;
use crate::kinds::ScriptKind;
use crate::picks::is_next;
use crate::stations::{Found, is_manager, is_master, is_station};
use base_types::Text;
use record_rows::{CutRow, DepRow, Row, StepRow, is_in_range};

fn cuts_next(cut: &CutRow) -> bool
    ensures { result ≡ spec.cuts_next cut.now }
{
    match cut {
        CutRow::Next | CutRow::NextDay(_) => true,
        _ => false,
    }
}

/// No form, or a crash in the master's `next` at another workstation.
#[tactic(auto, unfolding(crate::specs::Faults::is_bad_line))]
fn is_bad_line(all: &[Found<'_>], row: &Row) -> bool
    ensures { result ≡ spec.is_bad_line all.now row.now }
{
    match row {
        Row::NoForm => true,
        Row::Step(StepRow::CrashIn(ws, _, cut)) => cuts_next(cut) && !is_master(all, ws),
        _ => false,
    }
}

fn lacks(all: &[Found<'_>], name: &Text) -> bool
    ensures { result ≡ spec.lacks all.now name.now }
{
    !is_station(all, name)
}

fn lacks_one(all: &[Found<'_>], a: &Text, b: &Text) -> bool
    ensures { result ≡ (spec.lacks all.now a.now || spec.lacks all.now b.now) }
{
    lacks(all, a) || lacks(all, b)
}

fn cut_is_unknown(all: &[Found<'_>], ws: &Text, cut: &CutRow) -> bool
    ensures { result ≡ spec.cut_is_unknown all.now ws.now cut.now }
{
    match cut {
        CutRow::Deliver(from, _) => lacks_one(all, from, ws),
        _ => lacks(all, ws),
    }
}

#[tactic(auto, unfolding(crate::specs::Faults::step_is_unknown))]
fn step_is_unknown(all: &[Found<'_>], step: &StepRow) -> bool
    ensures { result ≡ spec.step_is_unknown all.now step.now }
{
    match step {
        StepRow::Next | StepRow::NextDay(_) => false,
        StepRow::Own(ws, _) => lacks(all, ws),
        StepRow::Link(a, b) => lacks_one(all, a, b),
        StepRow::Unlink(a, b) => lacks_one(all, a, b),
        StepRow::Deliver(a, b, _) => lacks_one(all, a, b),
        StepRow::Flow(a, b) => lacks_one(all, a, b),
        StepRow::Reap(ws, _) => lacks(all, ws),
        StepRow::Crash(ws) => lacks(all, ws),
        StepRow::CrashIn(ws, _, cut) => cut_is_unknown(all, ws, cut),
        StepRow::Fulfil(ws, _, _) => lacks(all, ws),
        StepRow::Recover(ws) => lacks(all, ws),
    }
}

/// The network lacks the workstation.
#[tactic(auto, unfolding(crate::specs::Faults::lacks_station))]
fn lacks_station(all: &[Found<'_>], row: &Row) -> bool
    ensures { result ≡ spec.lacks_station all.now row.now }
{
    match row {
        Row::Station(s) => lacks(all, &s.hop),
        Row::Resource(ws, _, _) => lacks(all, ws),
        Row::Stream(s) => lacks(all, &s.ws),
        Row::Job(j) => lacks(all, &j.ws),
        Row::Dep(DepRow::FollowsStream(ws, _)) => lacks(all, ws),
        Row::Dep(DepRow::FollowsJob(ws, _, _)) => lacks(all, ws),
        Row::Step(step) => step_is_unknown(all, step),
        _ => false,
    }
}

/// The hop is no manager, or the chain of hops does not end at the master.
#[tactic(auto, unfolding(crate::specs::Faults::is_bad_tree))]
fn is_bad_tree(all: &[Found<'_>], hops: &[usize], row: &Row) -> bool
    requires { AreHops all.now hops.now }
    ensures { result ≡ spec.is_bad_tree all.now row.now }
{
    match row {
        Row::Station(s) => !(is_manager(all, &s.hop) && ends_at_master(all, hops, &s.hop)),
        _ => false,
    }
}

/// What was asked of the row before.
#[derive(Clone, Copy)]
pub(crate) struct Asked {
    /// It is the last, and a section is missing.
    pub(crate) ends: bool,
    /// The job, the resource or the prompt that it names is not there.
    pub(crate) lacks_item: bool,
    /// It is a condition that is none.
    pub(crate) lacks_condition: bool,
}

/// The first fault of a row.
pub(crate) fn fault<'a>(
    all: &[Found<'a>],
    hops: &[usize],
    above: &Above<'a>,
    asked: Asked,
    row: &'a Row,
) -> Option<ScriptKind>
    requires { AreHops all.now hops.now }
    ensures { result ≡ spec.fault_by all.now above.now asked.lacks_item asked.lacks_condition asked.ends row.now }
{
    if asked.ends || is_bad_line(all, row) {
        return Some(ScriptKind::BadLine);
    }
    if above.is_duplicate(row) {
        return Some(ScriptKind::Duplicate);
    }
    if lacks_station(all, row) || asked.lacks_item {
        return Some(ScriptKind::UnknownName);
    }
    if !is_in_range(row) || asked.lacks_condition || above.is_beyond(row) {
        return Some(ScriptKind::OutOfRange);
    }
    if is_bad_tree(all, hops, row) {
        return Some(ScriptKind::BadTree);
    }
    if above.has_no_plan(row) {
        return Some(ScriptKind::NoPlan);
    }
    None
}
