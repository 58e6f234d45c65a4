//! From bytes to what was wished of them.
ghost use Rattle.std.specs.Prelude.{◌≡◌, ◌⊎◌, ◌<◌, ◌^◌, length, Ok, Err, IfOk};
ghost use Rattle.calendars.specs.Dates.{IsDay};
ghost use Rattle.input_commands.specs.Replies.{HasDay, ComesOf, IsOutcome, IsPlan};
ghost use Rattle.input_commands.specs.declared.wishes.Outcome.{Outcome as Told};

use crate::wishes::{Outcome, Wish};
use base_types::NoMemory;
use composer_print::print_defs;
use definition_texts::{NotRead, Refusal, RefusalKind, read_definitions};
use plan_builder::{PlanFault, day_docs};
use plan_listing::listing_of;
use std::alloc::Global;
use workload_defs::Workload;

/// Reads bytes as definitions, and answers what is wished of them.
pub fn reply(alloc: Global, bytes: &[u8], wish: Wish) -> Result<Outcome, NoMemory>
    requires few { length bytes.now < 2 ^ 32 }
    requires day { HasDay wish }
    ensures { IfOk result (ComesOf wish bytes.now) }
{
    match read_definitions(alloc, bytes) {
        Ok(workload) => outcome(alloc, &workload, wish),
        Err(NotRead::Refused(refusal)) => Ok(Outcome::Refused(refusal)),
        Err(NotRead::NoMemory) => Err(NoMemory),
    }
}

/// What is wished of checked definitions.
fn outcome(alloc: Global, workload: &Workload, wish: Wish) -> Result<Outcome, NoMemory>
    requires { HasDay wish }
    ensures { IfOk result (IsOutcome wish workload.now) }
{
    match wish {
        Wish::CanonicalText => Ok(Outcome::Text(print_defs(alloc, workload.defs())?)),
        Wish::Plan(day) => plan(alloc, workload, day),
    }
}

/// The listing of the plan of a day.
fn plan(alloc: Global, workload: &Workload, day: u32) -> Result<Outcome, NoMemory>
    requires { IsDay day }
    ensures { IfOk result (IsPlan day workload.now) }
{
    match day_docs(alloc, workload, day) {
        Ok(drafts) => Ok(Outcome::Text(listing_of(alloc, workload.net(), &drafts)?)),
        Err(PlanFault::Limit(most)) => Ok(Outcome::TooMany(most)),
        Err(PlanFault::OutOfRange(line)) => Ok(Outcome::Refused(Refusal {
            line,
            kind: RefusalKind::OutOfRange,
        })),
        Err(PlanFault::NoMemory) => Err(NoMemory),
    }
}
