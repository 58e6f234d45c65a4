//! The run of a record.
ghost use Rattle.std.specs.Prelude.{◌≡◌, ◌≤◌, ◌^◌, ℕ, IfOk, List, None, Ok, length};
ghost use Rattle.network_tree.specs.Faults.{net_fault};
ghost use Rattle.record_runs.specs.Ends.{AreLinesInside, IsEnd, IsOver};
ghost use Rattle.record_runs.specs.Lines.{Day};
ghost use Rattle.record_runs.specs.Never.{StopsOtherwise};
ghost use Rattle.night_records.specs.Days.{ArePlans};
ghost use Rattle.night_records.specs.Readings.{IsRead};

use crate::days::Days;
use crate::records::Record;
use base_types::NoMemory;
use record_runs::{RunEnd, run_days};
use std::alloc::Global;

/// Takes the lines of a record. `Done` comes exactly where the run takes all lines, with a world that stands for the one
/// which it reaches, and `Stopped` exactly where a line cannot be taken. `NoMemory` where memory runs out. Of a record that
/// a text is read to, no line names a workstation outside the network, none but the master takes a plan, and no place is
/// spent.
#[tactic(none)]
pub fn run_record(alloc: Global, night: Record) -> Result<RunEnd, NoMemory>
    requires accepted { net_fault night.script.net ≡ None }
    requires inside { AreLinesInside night.script.net night.script.steps }
    ensures end { (day : Day) → ArePlans night.workload day → IfOk result (IsEnd day night.script) }
    ensures net { IfOk result (IsOver night.script.net) }
    ensures otherwise { (text : List ℕ) → length text ≤ 2 ^ 31 → IsRead text (Ok night) → IfOk result StopsOtherwise }
{
    let (script, workload) = night.into_parts();
    let days = Days { workload };
    run_days(alloc, script, &days)
}
