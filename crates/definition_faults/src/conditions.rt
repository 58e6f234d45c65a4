//! Texts that are no conditions.
ghost use Rattle.std.specs.Prelude.{◌≡◌, ◌↔◌, IfOk, IsTrue, filter_map, option_and_then};
ghost use Rattle.std.specs.Option.{option_copied};
ghost use Rattle.definition_faults.specs.Conditions.{HasBad, IsRefused, IsRefusedOf, IsNoted, IsLeastOf, IsLeastBadLine, IsLeastBadLineOf};
ghost use Rattle.definition_faults.specs.Conditions as spec;

use base_types::{NoMemory, Text};
use composer_parser::{EntryDef, JobDef, Lined, WorkDef};
use definition_names::Names;
use rc_conditions::{CondFault, read_cond};
use std::alloc::Global;

/// The lowest line of a job or an entry whose condition is none.
pub(crate) fn first_bad_condition<'a>(
    alloc: Global,
    names: &Names<'a>,
) -> Result<Option<u32>, NoMemory>
    ensures { IfOk result (λ found. IsLeastBadLine names.now found) }
{
    let schedules = names.defs().schedules.as_slice();
    let mut least = bad_job(alloc, names.defs().jobs.as_slice())?;
    for schedule in schedules {
        least = bad_entry(alloc, least, schedule.item.entries.as_slice())?;
    }
    Ok(least)
}

/// The lowest line of a job whose condition is none.
fn bad_job(alloc: Global, jobs: &[Lined<JobDef>]) -> Result<Option<u32>, NoMemory>
    ensures { IfOk result (λ found. IsLeastOf (HasBad (filter_map spec.condition_of_job jobs.now)) found) }
{
    let mut least = None;
    for job in jobs {
        least = noted(alloc, least, job.line, of_work(&job.item.work))?;
    }
    Ok(least)
}

/// The lesser of a line that may be there and of those of the entries whose condition is none.
fn bad_entry(
    alloc: Global,
    before: Option<u32>,
    entries: &[Lined<EntryDef>],
) -> Result<Option<u32>, NoMemory>
    ensures { IfOk result (λ found. IsLeastBadLineOf before entries.now found) }
{
    let mut least = before;
    for entry in entries {
        least = noted(alloc, least, entry.line, of_entry(&entry.item))?;
    }
    Ok(least)
}

/// The condition of a work.
fn of_work(work: &WorkDef) -> Option<&Text>
    ensures { option_copied result ≡ work.now.cond }
{
    match &work.cond {
        Some(text) => Some(text),
        None => None,
    }
}

/// The condition of an entry's own work.
fn of_entry(entry: &EntryDef) -> Option<&Text>
    ensures { option_copied result ≡ spec.cond_of_entry entry.now }
{
    match &entry.work {
        Some(work) => of_work(work),
        None => None,
    }
}

/// The lesser of a line that may be there and of this one where a condition stands there that is none.
fn noted(
    alloc: Global,
    before: Option<u32>,
    line: u32,
    cond: Option<&Text>,
) -> Result<Option<u32>, NoMemory>
    ensures { IfOk result (λ found. IsNoted before line (option_copied cond.entry) found) }
{
    match cond {
        None => Ok(before),
        Some(text) => {
            if is_bad(alloc, text)? {
                Ok(lesser(before, line))
            } else {
                Ok(before)
            }
        }
    }
}

fn lesser(least: Option<u32>, line: u32) -> Option<u32>
    ensures { result ≡ spec.lesser_of least line }
{
    match least {
        None => Some(line),
        Some(other) => {
            if other <= line {
                Some(other)
            } else {
                Some(line)
            }
        }
    }
}

/// Whether a text is no condition, or one of more than 64 operations. Of texts of 4,294,967,296 bytes and more it is
/// answered that there is no memory to read them.
fn is_bad(alloc: Global, text: &Text) -> Result<bool, NoMemory>
    ensures { IfOk result (λ b. IsTrue b ↔ IsRefused text.now) }
{
    if text.len() > u32::MAX as usize {
        return Err(NoMemory);
    }
    match read_cond(alloc, text.as_str()) {
        Ok(_cond) => Ok(false),
        Err(CondFault::NoMemory) => Err(NoMemory),
        Err(_) => Ok(true),
    }
}
