//! Lines that take the plan of a day.
ghost use Rattle.std.specs.Prelude.{◌≡◌, ◌∷◌, [], ℕ, List, IfErr, IfOk, IsTrue, Ok, OnOk, Result, false};
ghost use Rattle.model.specs.Types.{StreamDraft};
ghost use Rattle.record_runs.specs.Causes.{Cause};
ghost use Rattle.record_runs.specs.Days as spec;
ghost use Rattle.record_runs.specs.Days.{GivesFault, IsPlanOf};
ghost use Rattle.record_runs.specs.Lines.{Day, are_inside, asks_day, left_after};
ghost use Rattle.record_script.specs.Inside.{ws_in};
ghost use Rattle.record_runs.specs.Runs as runs;
ghost use Rattle.record_runs.specs.Taken.{HaltsFor, Leads};

use crate::lines::take_line;
use crate::plans::PlansLeft;
use crate::stops::{Halt, day_halt};
use base_types::{Items, NoMemory, StreamDrafts};
use network_world::World;
use record_script::{OneStep, StepForm};
use std::alloc::Global;

/// Why a day has no plan.
#[derive(Clone, Copy)]
pub enum DayFault {
    /// It has more streams, or more jobs, than this, which is the most that a plan may have.
    TooMany(u32),
    /// One of its times has no moment.
    NoMoment,
    /// Memory ran out.
    NoMemory,
}

/// Who gives the plans of days.
pub trait DayPlans {
    /// What it gives for a day: the drafts, or why there are none.
    ghost gives: { Self → ℕ → Result (List StreamDraft) Cause → Type 0 };

    /// The drafts of a day, counted from 01/01/1970 as 0.
    fn drafts(&self, alloc: Global, day: u32) -> Result<StreamDrafts, DayFault>
        ensures drafts { IfOk result (λ l. gives self.now day (Ok l)) }
        ensures fault { IfErr result (GivesFault (gives self.now day)) };
}

/// Gives no plan for any day, for a record that asks for none.
#[derive(Clone, Copy)]
pub(crate) struct NoDays;

impl DayPlans for NoDays {
    ghost gives = { λ days day answer. ⊥ };

    fn drafts(&self, _alloc: Global, _day: u32) -> Result<StreamDrafts, DayFault> {
        Err(DayFault::NoMemory)
    }
}

/// The day for whose plan a line asks, and the line that takes the next plan in its place. None where it asks for none.
fn asked_day(form: &StepForm) -> Option<(u32, StepForm)>
    ensures { result ≡ spec.asked_day form.now }
{
    match form {
        StepForm::One(OneStep::NextDay(day)) => Some((*day, StepForm::One(OneStep::Next))),
        StepForm::CrashIn(w, kept, OneStep::NextDay(day)) => {
            Some((*day, StepForm::CrashIn(*w, *kept, OneStep::Next)))
        }
        _ => None,
    }
}

/// These drafts as the only plan that is left.
fn alone(alloc: Global, drafts: StreamDrafts) -> Result<PlansLeft, NoMemory>
    ensures { IfOk result (λ plans. plans ≡ drafts ∷ []) }
{
    let mut plans = Items::new(alloc);
    plans.push(drafts)?;
    Ok(PlansLeft::new(alloc, plans))
}

/// A line that takes the plan of this day as its next one.
fn take_day<D: DayPlans>(
    alloc: Global,
    world: &mut World,
    days: &D,
    day: u32,
    next: &StepForm,
) -> Result<(), Halt>
    requires inside { IsTrue (are_inside world.old.net (ws_in next.now)) }
    requires no_day { asks_day next.now ≡ false }
    ensures taken { (plan : Day) → IsPlanOf (D.gives days.now) plan → OnOk result (Leads world.old
        (spec.take_planned plan world.old.net day next.now) world.new) }
    ensures net { OnOk result (world.new.net ≡ world.old.net) }
    ensures stopped { (plan : Day) → IsPlanOf (D.gives days.now) plan → IfErr result (HaltsFor world.old
        (spec.take_planned plan world.old.net day next.now)) }
{
    match days.drafts(alloc, day) {
        Ok(drafts) => {
            let mut plan = alone(alloc, drafts)?;
            take_line(alloc, world, &mut plan, next)
        }
        Err(fault) => Err(day_halt(fault)),
    }
}

/// A line of a record, whose days have these plans.
pub(crate) fn take_any_line<D: DayPlans>(
    alloc: Global,
    world: &mut World,
    plans: &mut PlansLeft,
    days: &D,
    form: &StepForm,
) -> Result<(), Halt>
    requires { IsTrue (are_inside world.old.net (ws_in form.now)) }
    ensures taken { (plan : Day) → IsPlanOf (D.gives days.now) plan → OnOk result (Leads world.old
        (runs.take_line plan world.old.net plans.old form.now) world.new) }
    ensures stopped { (plan : Day) → IsPlanOf (D.gives days.now) plan → IfErr result (HaltsFor world.old
        (runs.take_line plan world.old.net plans.old form.now)) }
    ensures left { OnOk result (plans.new ≡ left_after plans.old form.now) }
    ensures net { OnOk result (world.new.net ≡ world.old.net) }
{
    match asked_day(form) {
        None => take_line(alloc, world, plans, form),
        Some((day, next)) => take_day(alloc, world, days, day, &next),
    }
}
