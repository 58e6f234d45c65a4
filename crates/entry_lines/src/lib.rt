//! The lines of entries as a report has them, without the rest of a report.
#![tactic(auto)]

ghost use Rattle.std.specs.Prelude.{◌≡◌, ◌++◌, ◌-◌, ◌≤◌, IfOk, OnOk, flat_map, length, slice_range};
ghost use Rattle.report_text.specs.Reports.{entry_line};

use base_types::{Bytes, Copied, Entry, Items, Net, NoMemory, ReportParts};
use report_text::print_report;
use std::alloc::Global;

/// How many bytes `events 1` and its line feed are, before the line of an only entry.
const BEFORE: usize = 9;
/// How many bytes `starts 0` and its line feed are, behind it.
const BEHIND: usize = 9;

/// The report of one entry alone, with its line between two others.
fn report_of_one(alloc: Global, net: &Net, entry: &Entry) -> Result<Bytes, NoMemory>
    ensures long { IfOk result (λ bytes. 18 ≤ length bytes) }
    ensures line { IfOk result (λ bytes. slice_range bytes 9 (length bytes - 9) ≡ entry_line net.now entry.now) }
{
    let mut events = Items::new(alloc);
    events.push(entry.copy()?)?;
    let parts = ReportParts {
        events,
        starts: Items::new(alloc),
        packets: Items::new(alloc),
        nodes: Items::new(alloc),
    };
    print_report(alloc, net, &parts)
}

/// Writes the line of an entry: that of its report.
fn write_line(alloc: Global, out: &mut Vec<u8>, net: &Net, entry: &Entry) -> Result<(), NoMemory>
    ensures { OnOk result (out.new.items ≡ out.old.items ++ entry_line net.now entry.now) }
{
    let report = report_of_one(alloc, net, entry)?;
    let end = report.len() - BEHIND;
    out.extend_from_slice(&report.as_slice()[BEFORE..end])?;
    Ok(())
}

fn write_lines(
    alloc: Global,
    out: &mut Vec<u8>,
    net: &Net,
    entries: &[Entry],
) -> Result<(), NoMemory>
    ensures { OnOk result (out.new.items ≡ out.old.items ++ flat_map (entry_line net.now) entries.now) }
{
    for entry in entries {
        write_line(alloc, out, net, entry)?;
    }
    Ok(())
}

/// A line for each of these entries, in order, as the report of a run has it. `NoMemory` where memory runs out.
pub fn print_entries(alloc: Global, net: &Net, entries: &[Entry]) -> Result<Bytes, NoMemory>
    ensures { IfOk result (λ bytes. bytes ≡ flat_map (entry_line net.now) entries.now) }
{
    let mut out = Vec::new(alloc);
    write_lines(alloc, &mut out, net, entries)?;
    Ok(Items::of_vec(out))
}
