//! How many rows of each kind stand above.
ghost use Rattle.std.specs.Prelude.{◌≡◌, ◌<◌, ◌≤◌, ◌+◌, ◌^◌, ◌-◌, ℕ};
ghost use Rattle.record_faults.specs.Noted as spec;
ghost use Rattle.record_faults.specs.Known as known;

use crate::picks::{is_dep, is_next, is_object, is_plan, is_prompt, is_resource, is_ws};
use record_rows::Row;

/// How many rows of each kind stand above.
#[derive(Clone, Copy)]
pub(crate) struct Counts {
    /// All of them.
    pub(crate) rows: usize,
    pub(crate) ws_lines: usize,
    pub(crate) resource_lines: usize,
    pub(crate) prompt_lines: usize,
    /// Of the last object.
    pub(crate) deps: usize,
    pub(crate) plans: usize,
    /// The sections of plans that were taken.
    pub(crate) taken: usize,
    ghost ws_few: { ws_lines ≤ rows },
    ghost resources_few: { resource_lines ≤ rows },
    ghost prompts_few: { prompt_lines ≤ rows },
    ghost deps_few: { deps ≤ rows },
    ghost plans_few: { plans ≤ rows },
    ghost taken_few: { taken ≤ rows },
}

fn one_if(holds: bool) -> usize
    ensures one { result ≡ spec.one_if holds }
    ensures small { result ≤ 1 }
{
    if holds { 1 } else { 0 }
}

fn deps_behind(deps: usize, row: &Row) -> usize
    requires { deps < 2 ^ 64 - 1 }
    ensures behind { result ≡ spec.deps_behind deps row.now }
    ensures small { result ≤ deps + 1 }
{
    if is_object(row) {
        0
    } else {
        deps + one_if(is_dep(row))
    }
}

impl Counts {
    pub(crate) fn none() -> Counts
        ensures rows { result.rows ≡ 0 }
        ensures ws_lines { result.ws_lines ≡ 0 }
        ensures resource_lines { result.resource_lines ≡ 0 }
        ensures prompt_lines { result.prompt_lines ≡ 0 }
        ensures deps { result.deps ≡ 0 }
        ensures plans { result.plans ≡ 0 }
        ensures taken { result.taken ≡ 0 }
    {
        Counts {
            rows: 0,
            ws_lines: 0,
            resource_lines: 0,
            prompt_lines: 0,
            deps: 0,
            plans: 0,
            taken: 0,
        }
    }

    /// The counts with one row more.
    pub(crate) fn with(self, row: &Row) -> Counts
        requires { self.rows < 2 ^ 64 - 1 }
        ensures rows { result.rows ≡ self.rows + 1 }
        ensures ws_lines { result.ws_lines ≡ self.ws_lines + spec.one_if (known.is_ws row.now) }
        ensures resource_lines { result.resource_lines ≡ self.resource_lines + spec.one_if (known.is_resource row.now) }
        ensures prompt_lines { result.prompt_lines ≡ self.prompt_lines + spec.one_if (known.is_prompt row.now) }
        ensures deps { result.deps ≡ spec.deps_behind self.deps row.now }
        ensures plans { result.plans ≡ self.plans + spec.one_if (known.is_plan row.now) }
        ensures taken { result.taken ≡ self.taken + spec.one_if (known.is_next row.now) }
    {
        Counts {
            rows: self.rows + 1,
            ws_lines: self.ws_lines + one_if(is_ws(row)),
            resource_lines: self.resource_lines + one_if(is_resource(row)),
            prompt_lines: self.prompt_lines + one_if(is_prompt(row)),
            deps: deps_behind(self.deps, row),
            plans: self.plans + one_if(is_plan(row)),
            taken: self.taken + one_if(is_next(row)),
        }
    }
}
