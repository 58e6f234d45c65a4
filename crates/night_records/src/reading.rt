//! Reading a record of either kind.
ghost use Rattle.std.specs.Prelude.{◌≡◌, ◌+◌, ◌<◌, ◌^◌, [], ℕ, Err, IfErr, IfOk, IfSome, IsSome, IsTrue, None, Ok, Some, false, length, map};
ghost use Rattle.std.specs.List.{list_all, list_any};
ghost use Rattle.model.specs.Types.{Node as Nodes};
ghost use Rattle.network_tree.specs.Faults.{net_fault};
ghost use Rattle.record_faults.specs.declared.kinds.ScriptKind as kinds;
ghost use Rattle.record_faults.specs.Faults as faults;
ghost use Rattle.record_faults.specs.Known.{named_by};
ghost use Rattle.record_script.specs.Inside.{is_inside, takes_day};
ghost use Rattle.record_script.specs.Scripts.{placed as placed_rows};
ghost use Rattle.record_script.specs.Steps as steps;
ghost use Rattle.record_script.specs.declared.ScriptFault.TheVariants.{At as Told};
ghost use Rattle.night_records.specs.Composers.{definitions_place};
ghost use Rattle.night_records.specs.Readings as spec;
ghost use Rattle.night_records.specs.Readings.{IsRead, IsTold, IsToldOf, Tells};

use crate::composers::{composer_text, find_definitions};
use crate::kinds::script_kind;
use crate::records::Record;
use base_types::{Copied, Items, Net, NoMemory, Text};
use definition_texts::{NotRead, Refusal, read_definition_text};
use record_faults::{Named, ScriptKind, first_fault, place_rows};
use record_rows::{Row, read_rows};
use record_script::{Script, ScriptFault, ScriptSteps, read_script, steps_by};
use std::alloc::Global;
use workload_defs::Workload;

/// The rows of a text as they stand.
fn placed(alloc: Global, text: &str) -> Result<Items<Row>, NoMemory>
    ensures { IfOk result (λ rows. rows ≡ placed_rows text.now) }
{
    let mut rows = read_rows(alloc, text)?;
    place_rows(&mut rows);
    Ok(rows)
}

/// The first fault of the lines that are no definitions, where the network has these workstations.
fn own_fault(
    alloc: Global,
    names: &[Text],
    rows: &[Row],
) -> Result<Option<(usize, ScriptKind)>, NoMemory>
    ensures { IfOk result (λ o. o ≡ faults.first_fault (named_by names.now) rows.now) }
{
    let named = Named::of_names(alloc, names)?;
    first_fault(alloc, &named, rows)
}

/// A fault with its line. `NoMemory` for a line that 32 bits cannot tell, which no text has here.
fn told(line: usize, kind: ScriptKind) -> ScriptFault
    ensures { IsTold (line, kind) result }
{
    match u32::try_from(line) {
        Ok(line) => ScriptFault::At(line, kind),
        Err(_) => ScriptFault::NoMemory,
    }
}

/// The line in the record of a line of the definitions behind the line at a place. None where it cannot be told.
fn line_behind(place: usize, line: u32) -> Option<usize>
    ensures { IfSome result (λ n. n ≡ place + 1 + line) }
{
    place.checked_add(1)?.checked_add(line as usize)
}

/// The lower of two faults that may be there, the first where they stand on one line.
fn lower(own: Option<(usize, ScriptKind)>, line: usize, kind: ScriptKind) -> ScriptFault
    ensures { IsTold (spec.lower own (line, kind)) result }
{
    match own {
        Some((at, own_kind)) => {
            if at <= line {
                told(at, own_kind)
            } else {
                told(line, kind)
            }
        }
        None => told(line, kind),
    }
}

/// The fault of a record whose definitions, behind the line at a place, are refused.
fn refused(
    alloc: Global,
    text: &str,
    place: usize,
    refusal: &Refusal,
) -> Result<ScriptFault, NoMemory>
    ensures { IfOk result (IsTold (spec.lower (spec.own_fault [] text.now) (spec.refusal_at place refusal.now))) }
{
    let placed = placed(alloc, text)?;
    let rows = placed.as_slice();
    let own = own_fault(alloc, &[], rows)?;
    match line_behind(place, refusal.line) {
        Some(behind) => Ok(lower(own, behind, script_kind(refusal.kind))),
        None => Err(NoMemory),
    }
}

/// The names of the workstations of a network, by their numbers.
fn names_of(alloc: Global, net: &Net) -> Result<Items<Text>, NoMemory>
    ensures { IfOk result (λ names. names ≡ map (λ (n : Nodes). n.name) net.now.nodes) }
{
    let mut names = Items::new(alloc);
    let nodes = net.nodes.as_slice();
    for node in nodes {
        let name = node.name.copy()?;
        names.push(name)?;
    }
    Ok(names)
}

/// A record with this network and these steps.
fn script(alloc: Global, net: Net, steps: ScriptSteps) -> Script
    ensures net { result.net ≡ net }
    ensures plans { result.plans ≡ [] }
    ensures steps { result.steps ≡ steps }
{
    Script {
        net,
        plans: Items::new(alloc),
        steps,
    }
}

/// The steps of a record over a network that is defined elsewhere, or the first fault of the lines that are no definitions.
fn steps_over(alloc: Global, text: &str, net: &Net) -> Result<ScriptSteps, ScriptFault>
    requires few { length text.now < 2 ^ 32 }
    requires accepted { net_fault net.now ≡ None }
    ensures steps { IfOk result (λ s. s ≡ steps.steps_by (spec.node_names net.now) (placed_rows text.now)) }
    ensures none { IfOk result (λ steps. spec.own_fault (spec.node_names net.now) text.now ≡ None) }
    ensures inside { IfOk result (λ steps. IsTrue (list_all (is_inside net.now) steps)) }
    ensures fault { IfErr result (IsToldOf (spec.own_fault (spec.node_names net.now) text.now)) }
{
    let placed = placed(alloc, text)?;
    let rows = placed.as_slice();
    let list = names_of(alloc, net)?;
    let names = list.as_slice();
    match own_fault(alloc, names, rows)? {
        Some((line, kind)) => Err(told(line, kind)),
        None => Ok(steps_by(alloc, names, rows)?),
    }
}

/// A record with these definitions, which stand behind the line at a place.
fn defined(alloc: Global, text: &str, workload: Workload) -> Result<Record, ScriptFault>
    requires { length text.now < 2 ^ 32 }
    ensures read { IfOk result (λ r. r ≡ spec.defined_record workload text.now) }
    ensures none { IfOk result (λ r. spec.own_fault (spec.names_of workload) text.now ≡ None) }
    ensures accepted { IfOk result (λ r. net_fault r.script.net ≡ None) }
    ensures inside { IfOk result (λ r. IsTrue (list_all (is_inside r.script.net) r.script.steps)) }
    ensures fault { IfErr result (IsToldOf (spec.own_fault (spec.names_of workload) text.now)) }
{
    let net = workload.net().copy()?;
    match steps_over(alloc, text, &net) {
        Ok(steps) => Ok(Record {
            script: script(alloc, net, steps),
            workload: Some(workload),
        }),
        Err(fault) => Err(fault),
    }
}

/// A record whose definitions stand behind the line at a place.
fn read_defined(alloc: Global, text: &str, place: usize) -> Result<Record, ScriptFault>
    requires few { length text.now < 2 ^ 32 }
    requires place { definitions_place text.now ≡ Some place }
    ensures read { IfOk result (λ r. IsRead text.now (Ok r)) }
    ensures accepted { IfOk result (λ r. net_fault r.script.net ≡ None) }
    ensures inside { IfOk result (λ r. IsTrue (list_all (is_inside r.script.net) r.script.steps)) }
    ensures days { IfOk result (λ r. IsSome r.workload) }
    ensures fault { IfErr result (Tells text.now) }
{
    let composer = composer_text(alloc, text, place)?;
    match read_definition_text(alloc, &composer) {
        Ok(workload) => defined(alloc, text, workload),
        Err(NotRead::Refused(refusal)) => Err(refused(alloc, text, place, &refusal)?),
        Err(NotRead::NoMemory) => Err(ScriptFault::NoMemory),
    }
}

/// A record that does not begin with definitions.
fn read_plain(alloc: Global, text: &str) -> Result<Record, ScriptFault>
    requires few { length text.now < 2 ^ 32 }
    requires place { definitions_place text.now ≡ None }
    ensures read { IfOk result (λ r. IsRead text.now (Ok r)) }
    ensures accepted { IfOk result (λ r. net_fault r.script.net ≡ None) }
    ensures inside { IfOk result (λ r. IsTrue (list_all (is_inside r.script.net) r.script.steps)) }
    ensures days { IfOk result (λ r. list_any takes_day r.script.steps ≡ false) }
    ensures fault { IfErr result (Tells text.now) }
{
    match read_script(alloc, text) {
        Ok(script) => Ok(Record {
            script,
            workload: None,
        }),
        Err(fault) => Err(fault),
    }
}

/// The record that a text is, of either kind, or its lowest faulty line with the first kind of its faults. The text has at
/// most 4,294,967,295 bytes. The definitions of a record count as one line there, the one that has their first fault.
///
/// The network of a record is one that `Network::new` accepts. Each workstation that stands in a step is in it. Without
/// definitions no step takes the plan of a day.
pub fn read_record(alloc: Global, text: &str) -> Result<Record, ScriptFault>
    requires { length text.now < 2 ^ 32 }
    ensures read { IfOk result (λ r. IsRead text.now (Ok r)) }
    ensures accepted { IfOk result (λ r. net_fault r.script.net ≡ None) }
    ensures inside { IfOk result (λ r. IsTrue (list_all (is_inside r.script.net) r.script.steps)) }
    ensures days { IfOk result (λ r. r.workload ≡ None → list_any takes_day r.script.steps ≡ false) }
    ensures at { (n : ℕ) → (k : kinds.ScriptKind) → result ≡ Err (Told n k) → IsRead text.now (Err (n, k)) }
{
    match find_definitions(text) {
        Some(place) => read_defined(alloc, text, place),
        None => read_plain(alloc, text),
    }
}
