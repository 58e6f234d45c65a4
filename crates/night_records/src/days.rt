//! The plans of days in a record.
ghost use Rattle.std.specs.Prelude.{◌≡◌, ℕ, List, Err, IfErr, IfOk, Ok, Result, nat_le, true};
ghost use Rattle.calendars.specs.Dates.{last_day};
ghost use Rattle.night_records.specs.Days.{Gives, GivesDay};
ghost use Rattle.record_runs.specs.Days.{GivesFault};

use base_types::StreamDrafts;
use calendars::LAST_DAY;
use plan_builder::{PlanFault, day_docs};
use record_runs::{DayFault, DayPlans};
use std::alloc::Global;
use std::marker::Model;
use workload_defs::Workload;

/// The definitions of a record, if it has some, as who gives the plans of its days.
#[derive(Drop)]
pub(crate) struct Days {
    pub(crate) workload: Option<Workload>,
}

impl Model for Days {
    ghost use Rattle.std.specs.Prelude.{Option};
    ghost use Rattle.composer_parser.specs.declared.Defs.{Defs};

    ghost Value = { Option Defs };

    ghost view = { λ days. days.workload };
}

/// Whether a day lies before the year 10000.
fn is_day(day: u32) -> bool
    ensures { result ≡ nat_le day last_day }
{
    day <= LAST_DAY
}

/// The drafts that definitions give for a day of the calendar.
#[tactic(none)]
fn drafts_of(alloc: Global, workload: &Workload, day: u32) -> Result<StreamDrafts, DayFault>
    requires { nat_le day last_day ≡ true }
    ensures drafts { IfOk result (λ l. GivesDay workload.now day (Ok l)) }
    ensures fault { IfErr result (GivesFault (GivesDay workload.now day)) }
{
    match day_docs(alloc, workload, day) {
        Ok(drafts) => Ok(drafts),
        Err(PlanFault::Limit(most)) => Err(DayFault::TooMany(most)),
        Err(PlanFault::OutOfRange(_)) => Err(DayFault::NoMoment),
        Err(PlanFault::NoMemory) => Err(DayFault::NoMemory),
    }
}

/// What definitions give for a day.
#[tactic(none)]
fn given(alloc: Global, workload: &Workload, day: u32) -> Result<StreamDrafts, DayFault>
    ensures drafts { IfOk result (λ l. GivesDay workload.now day (Ok l)) }
    ensures fault { IfErr result (GivesFault (GivesDay workload.now day)) }
{
    if is_day(day) {
        drafts_of(alloc, workload, day)
    } else {
        Err(DayFault::NoMoment)
    }
}

impl DayPlans for Days {
    ghost gives = { Gives };

    #[tactic(none)]
    fn drafts(&self, alloc: Global, day: u32) -> Result<StreamDrafts, DayFault> {
        match &self.workload {
            None => Err(DayFault::NoMoment),
            Some(workload) => given(alloc, workload, day),
        }
    }
}
