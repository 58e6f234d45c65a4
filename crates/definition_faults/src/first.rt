//! The first fault of all.
ghost use Rattle.std.specs.Prelude.{◌≡◌, IfOk};
ghost use Rattle.definition_faults.specs.Faults.{IsFirst};
ghost use Rattle.definition_faults.specs.Faults as spec;
ghost use Rattle.definition_faults.specs.Orders.{earliest};

use crate::chains::chain_ends;
use crate::conditions::first_bad_condition;
use crate::graphs::followers;
use crate::items::{in_calendars, in_cpus, in_domains, in_jobs, in_prompts, in_resources};
use crate::kinds::{Fault, Kind, earlier, noted};
use crate::masters::{in_managers, in_masters};
use crate::ranges::in_zone;
use crate::streams::in_streams;
use base_types::NoMemory;
use definition_names::Names;
use follow_circles::least_line;
use std::alloc::Global;

/// The fault at the lowest line, and of several there the first in the order of the kinds. None where there is no fault.
pub fn first_fault<'a>(alloc: Global, names: &Names<'a>) -> Result<Option<Fault>, NoMemory>
    ensures { IfOk result (λ found. IsFirst names.now found) }
{
    let tested = first_tested(alloc, names)?;
    let bad = with_line(tested, first_bad_condition(alloc, names)?, Kind::OutOfRange);
    let objects = followers(alloc, names)?;
    let circle = least_line(alloc, objects.as_slice())?;
    Ok(with_line(bad, circle, Kind::FollowsCycle))
}

/// The first of a fault that may be there and of one of this kind at a line that may be there.
fn with_line(first: Option<Fault>, line: Option<u32>, kind: Kind) -> Option<Fault>
    ensures { result ≡ spec.with_line first line kind }
{
    match line {
        Some(line) => noted(first, line, Some(kind)),
        None => first,
    }
}

/// The first of the faults that the tables tell.
#[tactic(auto, unfolding(crate::specs::Faults::tested_faults))]
fn first_tested<'a>(alloc: Global, names: &Names<'a>) -> Result<Option<Fault>, NoMemory>
    ensures { IfOk result (λ found. found ≡ earliest (spec.tested_faults names.now)) }
{
    let ends = chain_ends(alloc, names)?;
    let network = earlier(
        earlier(in_zone(names.defs()), in_cpus(names)),
        earlier(in_domains(names, ends.as_slice()), in_managers(names)),
    );
    let groups = earlier(
        earlier(in_masters(names.defs()), in_calendars(names)),
        earlier(in_prompts(names), in_resources(names)),
    );
    let work = earlier(in_jobs(names), in_streams(names));
    Ok(earlier(network, earlier(groups, work)))
}
