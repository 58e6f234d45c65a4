//! Reading a record.
ghost use Rattle.std.specs.Prelude.{◌≡◌, ◌≤◌, ◌<◌, ◌^◌, ℕ, Ok, Err, IfOk, IfSome, None, length};
ghost use Rattle.std.specs.Prelude.{IsTrue, count_by, false};
ghost use Rattle.std.specs.List.{list_all, list_any, position};
ghost use Rattle.network_tree.specs.Faults.{net_fault};
ghost use Rattle.record_faults.specs.declared.kinds.ScriptKind as kinds;
ghost use Rattle.record_script.specs.declared.reading.ScriptFault.TheVariants.{At, NoMemory as NoRoom};
ghost use Rattle.record_script.specs.Counted.{AreNumbers};
ghost use Rattle.record_script.specs.Inside.{is_inside, takes_day, takes_plan};
ghost use Rattle.record_script.specs.Networks.{net_with};
ghost use Rattle.record_script.specs.Plans.{plans_with};
ghost use Rattle.record_script.specs.Scripts as spec;
ghost use Rattle.record_script.specs.Steps.{steps_from};

use crate::nets::net;
use crate::numbers::Numbers;
use crate::plans::plans;
use crate::scripts::Script;
use crate::steps::steps;
use base_types::NoMemory;
use record_faults::{ScriptKind, place_rows, record_fault};
use record_rows::{Row, read_rows};
use std::alloc::Global;

/// Why a text is no record.
#[derive(Clone, Copy, Debug)]
pub enum ScriptFault {
    /// The lowest faulty line, from 1, and the first kind of its faults.
    At(u32, ScriptKind),
    /// Memory ran out.
    NoMemory,
}

impl From<NoMemory> for ScriptFault {
    ghost from_gives = { λ _ fault. fault ≡ NoRoom };

    fn from(_error: NoMemory) -> ScriptFault {
        ScriptFault::NoMemory
    }
}

fn is_definitions(row: &Row) -> bool
    ensures { result ≡ spec.is_definitions row.now }
{
    match row {
        Row::Definitions => true,
        _ => false,
    }
}

/// The place of `$DEFINITIONS`, from 0.
fn definitions_place(rows: &[Row]) -> Option<usize>
    ensures { result ≡ position spec.is_definitions rows.now }
{
    rows.iter().position(|row| is_definitions(row))
}

/// The line of `$DEFINITIONS`.
fn definitions_line(rows: &[Row]) -> Option<usize>
    requires { length rows.now < 2 ^ 32 }
    ensures { result ≡ spec.definitions_line rows.now }
{
    match definitions_place(rows) {
        Some(place) => Some(place + 1),
        None => None,
    }
}

/// The first fault of a record, by that of its rows and by the line of its definitions.
#[tactic(auto, unfolding(crate::specs::Scripts::with_definitions))]
fn with_definitions(
    definitions: Option<usize>,
    fault: Option<(usize, ScriptKind)>,
) -> Option<(usize, ScriptKind)>
    ensures { result ≡ spec.with_definitions definitions fault }
{
    let Some(line) = definitions else {
        return fault;
    };
    match fault {
        Some((at, kind)) if at <= line => Some((at, kind)),
        _ => Some((line, ScriptKind::NotBuilt)),
    }
}

/// The first fault of a record, by its rows as they stand.
fn fault(alloc: Global, rows: &[Row]) -> Result<Option<(usize, ScriptKind)>, NoMemory>
    requires { length rows.now < 2 ^ 32 }
    ensures { IfOk result (λ o. o ≡ spec.fault_of rows.now) }
{
    let first = record_fault(alloc, rows)?;
    Ok(with_definitions(definitions_line(rows), first))
}

/// What rows without faults mean, by the numbers of what they name.
fn script_by<'a>(alloc: Global, numbers: &Numbers<'a>, rows: &'a [Row]) -> Result<Script, NoMemory>
    requires { length rows.now < 2 ^ 32 }
    ensures net { IfOk result (λ s. s.net ≡ net_with numbers.now rows.now) }
    ensures plans { IfOk result (λ s. s.plans ≡ plans_with numbers.now rows.now) }
    ensures steps { IfOk result (λ s. s.steps ≡ steps_from numbers.now 1 rows.now) }
{
    Ok(Script {
        net: net(alloc, numbers, rows)?,
        plans: plans(alloc, numbers, rows)?,
        steps: steps(alloc, numbers, rows)?,
    })
}

/// What rows without faults mean.
fn script(alloc: Global, rows: &[Row]) -> Result<Script, NoMemory>
    requires few { length rows.now < 2 ^ 32 }
    requires numbers { AreNumbers rows.now }
    ensures { IfOk result (λ s. s ≡ spec.script_of rows.now) }
{
    let numbers = Numbers::of_rows(alloc, rows)?;
    script_by(alloc, &numbers, rows)
}

/// The record that a text is, or its lowest faulty line with the first kind of its faults. The text has at most
/// 4,294,967,295 bytes.
///
/// The network of a record is one that `Network::new` accepts. Each workstation that stands in a step is in it, and no
/// step takes the plan of a day, and there are at least as many plans as steps that take one.
pub fn read_script(alloc: Global, text: &str) -> Result<Script, ScriptFault>
    requires { length text.now < 2 ^ 32 }
    ensures script { IfOk result (λ s. spec.read_of text.now ≡ Ok s) }
    ensures accepted { IfOk result (λ s. net_fault s.net ≡ None) }
    ensures inside { IfOk result (λ s. IsTrue (list_all (is_inside s.net) s.steps)) }
    ensures plans { IfOk result (λ s. count_by takes_plan s.steps ≤ length s.plans) }
    ensures days { IfOk result (λ s. list_any takes_day s.steps ≡ false) }
    ensures at { (n : ℕ) → (k : kinds.ScriptKind) → result ≡ Err (At n k) → spec.read_of text.now ≡ Err (n, k) }
{
    let mut rows = read_rows(alloc, text)?;
    place_rows(&mut rows);
    match fault(alloc, rows.as_slice())? {
        Some((line, kind)) => Err(ScriptFault::At(line as u32, kind)),
        None => Ok(script(alloc, rows.as_slice())?),
    }
}
