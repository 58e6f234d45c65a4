//! The first fault of a record.
ghost use Rattle.std.specs.Prelude.{◌≡◌, ◌++◌, ◌∷◌, ◌&&◌, [], ℕ, List, IfOk, nat_eq, not};
ghost use Rattle.record_rows.specs.declared.rows.Row as declared;
ghost use Rattle.std.specs.List.{list_any};
ghost use Rattle.record_faults.specs.Faults as spec;
ghost use Rattle.record_faults.specs.Known as known;
ghost use Rattle.record_faults.specs.Known.{has_name};

use crate::above::Above;
use crate::conditions::lacks_condition;
use crate::kinds::ScriptKind;
use crate::lookups::{Named, jobs_ahead};
use crate::names::Names;
use crate::picks::{begins_stream, is_steps};
use crate::tests::{Asked, fault};
use base_types::NoMemory;
use record_rows::Row;
use std::alloc::Global;

fn has_steps(rows: &[Row]) -> bool
    ensures { result ≡ list_any known.is_steps rows.now }
{
    rows.iter().any(|row| is_steps(row))
}

/// Whether the line is the last of so many, and a section is missing.
fn ends_at(is_whole: bool, line: usize, count: usize) -> bool
    ensures { result ≡ (not is_whole && nat_eq line count) }
{
    !is_whole && line == count
}

/// The first fault of a row.
fn judged<'a>(
    alloc: Global,
    named: &Named<'a>,
    above: &Above<'a>,
    jobs: &Names<'a>,
    ends: bool,
    row: &'a Row,
) -> Result<Option<ScriptKind>, NoMemory>
    ensures { IfOk result (λ o. o ≡ spec.fault_by named.now.stations above.now
        (spec.lacks_item
        (record { jobs = jobs.now; resources = named.now.resources; prompts = named.now.prompts })
        above.now.ws row.now)
        (spec.lacks_condition row.now) ends row.now) }
{
    let asked = Asked {
        ends,
        lacks_item: named.lacks_item(jobs, above.ws(), row),
        lacks_condition: lacks_condition(alloc, row)?,
    };
    Ok(fault(&named.stations, &named.hops, above, asked, row))
}

/// The jobs of the stream in which the row behind this one stands.
fn jobs_behind<'a>(
    alloc: Global,
    jobs: Names<'a>,
    row: &Row,
    below: &'a [Row],
) -> Result<Names<'a>, NoMemory>
    ensures { IfOk result (λ names. (above : List declared.Row)
        → ((n : List ℕ) → has_name jobs.entry n ≡ has_name (known.jobs_around above (row.now ∷ below.now)) n)
        → (n : List ℕ) → has_name names n ≡ has_name (known.jobs_around (above ++ row.now ∷ []) below.now) n) }
{
    if begins_stream(row) {
        let ahead = jobs_ahead(alloc, below)?;
        return Ok(ahead);
    }
    Ok(jobs)
}

/// The lowest faulty line of a record, from 1, and the first of its faults, by the rows of the record as they stand
/// (`place_rows`) and by what is known beside them. None where there is none. The only error is that memory ran out.
#[tactic(auto, unfolding(crate::specs::Faults::first_fault))]
pub fn first_fault<'a>(
    alloc: Global,
    named: &Named<'a>,
    rows: &'a [Row],
) -> Result<Option<(usize, ScriptKind)>, NoMemory>
    ensures { IfOk result (λ o. o ≡ spec.first_fault named.now rows.now) }
{
    if rows.is_empty() {
        return Ok(Some((1, ScriptKind::BadLine)));
    }
    let is_whole = has_steps(rows);
    let mut above = Above::nothing(alloc);
    let mut jobs = jobs_ahead(alloc, rows)?;
    for (i, row) in rows.iter().enumerate() {
        let ends = ends_at(is_whole, i + 1, rows.len());
        match judged(alloc, named, &above, &jobs, ends, row)? {
            Some(kind) => return Ok(Some((i + 1, kind))),
            None => above.note(alloc, row)?,
        }
        jobs = jobs_behind(alloc, jobs, row, &rows[i + 1..])?;
    }
    Ok(None)
}

/// The first fault of a record with a network, by its rows as they stand (`place_rows`).
#[tactic(auto, using(crate::proofs::SameFaults::same_first))]
pub fn record_fault(alloc: Global, rows: &[Row]) -> Result<Option<(usize, ScriptKind)>, NoMemory>
    ensures { IfOk result (λ o. o ≡ spec.first_fault (known.named_in rows.now) rows.now) }
{
    let named = Named::of_rows(alloc, rows)?;
    first_fault(alloc, &named, rows)
}
