//! How many streams and jobs a day has, and whether all its times have moments.
ghost use Rattle.std.specs.Prelude.{◌≡◌, IfOk, Some, None, if◌then◌else◌, nat_lt};
ghost use Rattle.model.specs.Words.{least};
ghost use Rattle.plan_builder.specs.Limits as spec;
ghost use Rattle.plan_builder.specs.Times as times;

use crate::times::{PlanDay, is_timeless};
use base_types::{MOST_JOBS, NoMemory};
use composer_parser::{Clause, Defs, EntryDef, Lined};
use run_cycles::runs_on;
use std::alloc::Global;
use workload_defs::Workload;

/// The places of the streams that run on a day, in order of definition.
#[tactic(auto, unfolding(crate::specs::Limits::running))]
pub(crate) fn running(alloc: Global, w: &Workload, day: u32) -> Result<Vec<u32>, NoMemory>
    ensures { IfOk result (λ v. v.items ≡ spec.running w.now day) }
{
    let count = w.streams();
    let mut streams = Vec::new(alloc);
    for n in 0..count {
        if runs_on(w, n, day) {
            streams.push(n)?;
        }
    }
    Ok(streams)
}

/// Whether these streams have more than 16,384 jobs.
pub(crate) fn has_too_many_jobs(defs: &Defs, streams: &[u32]) -> bool
    ensures { result ≡ nat_lt 16384 (spec.job_count defs.now streams.now) }
{
    let mut count: usize = 0;
    for n in streams {
        let jobs = entries_of(defs, *n).len();
        if jobs > MOST_JOBS as usize - count {
            return true;
        }
        count += jobs;
    }
    false
}

/// The entries of the stream at a place.
fn entries_of(defs: &Defs, n: u32) -> &[Lined<EntryDef>]
    ensures { result.now ≡ spec.entries_of defs.now n }
{
    match defs.schedules.get(n as usize) {
        Some(schedule) => schedule.item.entries.as_slice(),
        None => &[],
    }
}

/// The lowest line of a time without a moment, in the headers and entries of these streams.
#[tactic(auto, unfolding(crate::specs::Limits::timeless_lines))]
pub(crate) fn first_timeless(defs: &Defs, plan: &PlanDay, streams: &[u32]) -> Option<u32>
    ensures { result ≡ least (spec.timeless_lines defs.now plan.now streams.now) }
{
    let mut first = None;
    for n in streams {
        first = in_stream(first, defs, plan, *n);
    }
    first
}

/// The lower of a line and of those of the stream at a place.
#[tactic(auto, using(crate::proofs::Lines::lower_both))]
fn in_stream(before: Option<u32>, defs: &Defs, plan: &PlanDay, n: u32) -> Option<u32>
    ensures { result ≡ spec.lower before (least (spec.lines_of_stream defs.now plan.now n)) }
{
    let first = in_clauses(before, plan, header_of(defs, n));
    in_entries(first, plan, entries_of(defs, n))
}

/// The clauses of the stream at a place.
fn header_of(defs: &Defs, n: u32) -> &[Lined<Clause>]
    ensures { result.now ≡ spec.header_of defs.now n }
{
    match defs.schedules.get(n as usize) {
        Some(schedule) => schedule.item.clauses.as_slice(),
        None => &[],
    }
}

/// The lower of a line and of those of these entries.
fn in_entries(before: Option<u32>, plan: &PlanDay, entries: &[Lined<EntryDef>]) -> Option<u32>
    ensures { result ≡ spec.lower before (least (spec.lines_of_entries plan.now entries.now)) }
{
    let mut first = before;
    for entry in entries {
        first = in_clauses(first, plan, entry.item.clauses.as_slice());
    }
    first
}

/// The lower of a line and of those of these clauses.
fn in_clauses(before: Option<u32>, plan: &PlanDay, clauses: &[Lined<Clause>]) -> Option<u32>
    ensures { result ≡ spec.lower before (least (spec.lines_in plan.now clauses.now)) }
{
    let mut first = before;
    for clause in clauses {
        first = in_clause(first, plan, clause);
    }
    first
}

/// The lower of a line and of that of a clause, where this has a time without a moment.
fn in_clause(before: Option<u32>, plan: &PlanDay, clause: &Lined<Clause>) -> Option<u32>
    ensures { result ≡ spec.lower before (if times.is_timeless plan.now clause.now.item then Some clause.now.line else None) }
{
    if is_timeless(plan, &clause.item) {
        Some(lower(before, clause.line))
    } else {
        before
    }
}

fn lower(first: Option<u32>, line: u32) -> u32
    ensures { Some result ≡ spec.lower first (Some line) }
{
    match first {
        None => line,
        Some(other) => { if line < other { line } else { other } }
    }
}
