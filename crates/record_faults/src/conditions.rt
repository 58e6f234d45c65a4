//! Conditions on return codes.
ghost use Rattle.std.specs.Prelude.{◌≡◌, ◌≢◌, ◌<◌, ◌^◌, Err, IfOk, length, is_ok};
ghost use Rattle.rc_conditions.specs.Machine.{read_of};
ghost use Rattle.rc_conditions.specs.declared.CondFault.TheVariants as refusal;
ghost use Rattle.record_faults.specs.Faults as spec;
ghost use Rattle.record_rows.specs.declared.rows.Ranged.TheVariants as ranged;

use base_types::{Cond, LONGEST_TEXT, NoMemory, Text};
use rc_conditions::{CondFault, read_cond};
use record_rows::{PartRow, Ranged, Row};
use std::alloc::Global;

/// Whether a condition was read. The only error is that memory ran out.
fn was_read(read: Result<Cond, CondFault>) -> Result<bool, NoMemory>
    ensures same { IfOk result (λ b. b ≡ is_ok read) }
    ensures told { IfOk result (λ b. read ≢ Err refusal.NoMemory) }
{
    match read {
        Ok(_) => Ok(true),
        Err(CondFault::Bad(_)) => Ok(false),
        Err(CondFault::TooLong) => Ok(false),
        Err(CondFault::NoMemory) => Err(NoMemory),
    }
}

/// Whether the text is a condition of at most 64 operations.
fn is_condition(alloc: Global, text: &str) -> Result<bool, NoMemory>
    requires { length text.now < 2 ^ 32 }
    ensures { IfOk result (λ b. b ≡ is_ok (read_of text.now)) }
{
    let is = was_read(read_cond(alloc, text))?;
    Ok(is)
}

fn is_no_condition(alloc: Global, text: &Text) -> Result<bool, NoMemory>
    ensures { IfOk result (λ b. b ≡ spec.is_no_condition (ranged.Within text.now)) }
{
    if text.len() > LONGEST_TEXT {
        return Ok(true);
    }
    let is = is_condition(alloc, text.as_str())?;
    Ok(!is)
}

/// Whether the row is a condition that is none. The only error is that memory ran out.
#[tactic(auto, unfolding(crate::specs::Faults::lacks_condition))]
pub(crate) fn lacks_condition(alloc: Global, row: &Row) -> Result<bool, NoMemory>
    ensures { IfOk result (λ b. b ≡ spec.lacks_condition row.now) }
{
    match row {
        Row::Part(PartRow::Cond(Ranged::Within(text))) => is_no_condition(alloc, text),
        _ => Ok(false),
    }
}
