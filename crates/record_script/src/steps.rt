//! The steps of a record.
ghost use Rattle.std.specs.Prelude.{◌≡◌, ◌<◌, ◌^◌, ◌++◌, ◌∷◌, [], IfOk, OnOk, bytes_eq, length};
ghost use Rattle.record_script.specs.Counted.{AreNew};
ghost use Rattle.record_script.specs.Steps as spec;
ghost use Rattle.record_script.specs.declared.scripts.OneStep.TheVariants as ones;
ghost use Rattle.record_script.specs.declared.scripts.StepForm.TheVariants as forms;

use crate::numbers::Numbers;
use crate::scripts::{OneStep, ScriptStep, ScriptSteps, StepForm};
use crate::values::within;
use base_types::{Items, JobNo, Moment, NoMemory, Obj, StreamNo, Text, Ws};
use record_rows::{CutRow, ObjRow, OwnRow, Row, SharedLine, StepRow};
use std::alloc::Global;

/// A line that is typed at a workstation.
fn typed(ws: Ws, line: &SharedLine) -> Result<OneStep, NoMemory>
    ensures { IfOk result (λ s. s ≡ ones.Typed ws line.now) }
{
    match line.shared() {
        Ok(line) => Ok(OneStep::Typed(ws, line)),
        Err(error) => Err(error),
    }
}

/// A step of a workstation.
#[tactic(auto, unfolding(crate::specs::Steps::own_step))]
fn own_step(ws: Ws, own: &OwnRow) -> Result<OneStep, NoMemory>
    ensures { IfOk result (λ s. s ≡ spec.own_step ws own.now) }
{
    match own {
        OwnRow::Turn(t) => Ok(OneStep::Turn(ws, within(Moment(0), t))),
        OwnRow::Started(job) => Ok(OneStep::Started(ws, within(JobNo(0), job))),
        OwnRow::Failed(job) => Ok(OneStep::Failed(ws, within(JobNo(0), job))),
        OwnRow::Ended(job, rc) => Ok(OneStep::Ended(ws, within(JobNo(0), job), within(0, rc))),
        OwnRow::Typed(line) => typed(ws, line),
    }
}

/// A step in which a workstation may stop.
#[tactic(auto, unfolding(crate::specs::Steps::cut_step))]
fn cut_step<'a>(numbers: &Numbers<'a>, ws: Ws, cut: &'a CutRow) -> Result<OneStep, NoMemory>
    ensures { IfOk result (λ s. s ≡ spec.cut_step numbers.now ws cut.now) }
{
    match cut {
        CutRow::Next => Ok(OneStep::Next),
        CutRow::NextDay(day) => Ok(OneStep::NextDay(*day)),
        CutRow::Own(own) => own_step(ws, own),
        CutRow::Deliver(from, k) => Ok(OneStep::Deliver(numbers.ws(from), ws, within(0, k))),
    }
}

fn object(object: &ObjRow) -> Obj
    ensures { result ≡ spec.object object.now }
{
    match object {
        ObjRow::Job(n) => Obj::Job(within(JobNo(0), n)),
        ObjRow::Stream(n) => Obj::Stream(within(StreamNo(0), n)),
    }
}

/// A step that takes one of the world alone.
fn one(step: OneStep) -> StepForm
    ensures { result ≡ forms.One step }
{
    StepForm::One(step)
}

/// A step of a workstation, alone.
fn own_form(ws: Ws, own: &OwnRow) -> Result<StepForm, NoMemory>
    ensures { IfOk result (λ f. f ≡ forms.One (spec.own_step ws own.now)) }
{
    match own_step(ws, own) {
        Ok(step) => Ok(StepForm::One(step)),
        Err(error) => Err(error),
    }
}

/// A step in which a workstation stops.
fn crash_in<'a>(
    numbers: &Numbers<'a>,
    ws: Ws,
    kept: bool,
    cut: &'a CutRow,
) -> Result<StepForm, NoMemory>
    ensures { IfOk result (λ f. f ≡ forms.CrashIn ws kept (spec.cut_step numbers.now ws cut.now)) }
{
    match cut_step(numbers, ws, cut) {
        Ok(step) => Ok(StepForm::CrashIn(ws, kept, step)),
        Err(error) => Err(error),
    }
}

/// What a line of the steps means.
#[tactic(auto, unfolding(crate::specs::Steps::step_form))]
fn step_form<'a>(numbers: &Numbers<'a>, step: &'a StepRow) -> Result<StepForm, NoMemory>
    ensures { IfOk result (λ f. f ≡ spec.step_form numbers.now step.now) }
{
    match step {
        StepRow::Next => Ok(one(OneStep::Next)),
        StepRow::NextDay(day) => Ok(one(OneStep::NextDay(*day))),
        StepRow::Own(ws, own) => own_form(numbers.ws(ws), own),
        StepRow::Link(a, b) => Ok(one(OneStep::Link(numbers.ws(a), numbers.ws(b)))),
        StepRow::Unlink(a, b) => Ok(one(OneStep::Unlink(numbers.ws(a), numbers.ws(b)))),
        StepRow::Deliver(a, b, k) => Ok(one(OneStep::Deliver(
            numbers.ws(a),
            numbers.ws(b),
            within(0, k),
        ))),
        StepRow::Flow(a, b) => Ok(StepForm::Flow(numbers.ws(a), numbers.ws(b))),
        StepRow::Reap(ws, rc) => Ok(StepForm::Reap(numbers.ws(ws), within(0, rc))),
        StepRow::Crash(ws) => Ok(StepForm::Crash(numbers.ws(ws))),
        StepRow::CrashIn(ws, kept, cut) => crash_in(numbers, numbers.ws(ws), *kept, cut),
        StepRow::Fulfil(ws, of, i) => Ok(one(OneStep::Fulfil(
            numbers.ws(ws),
            object(of),
            within(0, i),
        ))),
        StepRow::Recover(ws) => Ok(StepForm::Recover(numbers.ws(ws))),
    }
}

/// Adds the step on a line.
fn add_step<'a>(
    steps: &mut ScriptSteps,
    numbers: &Numbers<'a>,
    line: u32,
    step: &'a StepRow,
) -> Result<(), NoMemory>
    ensures { OnOk result (steps.new
        ≡ steps.old ++ (record { line = line; form = spec.step_form numbers.now step.now }) ∷ []) }
{
    match step_form(numbers, step) {
        Ok(form) => steps.push(ScriptStep { line, form }),
        Err(error) => Err(error),
    }
}

/// The steps among the rows of a record, with their lines. The only error is that memory ran out.
pub(crate) fn steps<'a>(
    alloc: Global,
    numbers: &Numbers<'a>,
    rows: &'a [Row],
) -> Result<ScriptSteps, NoMemory>
    requires { length rows.now < 2 ^ 32 }
    ensures { IfOk result (λ l. l ≡ spec.steps_from numbers.now 1 rows.now) }
{
    let mut steps = Items::new(alloc);
    for (i, row) in rows.iter().enumerate() {
        if let Row::Step(step) = row {
            add_step(&mut steps, numbers, i as u32 + 1, step)?;
        }
    }
    Ok(steps)
}

/// The steps among the rows of a record whose workstations are defined elsewhere, and have these names in the order of
/// their numbers. The rows have no fault (`record_faults::first_fault`), or else numbers outside their range and names
/// that are not there count as 0. The only error is that memory ran out.
pub fn steps_by<'a>(
    alloc: Global,
    names: &'a [Text],
    rows: &'a [Row],
) -> Result<ScriptSteps, NoMemory>
    requires few { length rows.now < 2 ^ 32 }
    requires once { AreNew bytes_eq names.now }
    ensures { IfOk result (λ l. l ≡ spec.steps_by names.now rows.now) }
{
    let numbers = Numbers::of_names(alloc, names)?;
    steps(alloc, &numbers, rows)
}
