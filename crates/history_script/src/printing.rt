//! The text of a history.
ghost use Rattle.std.specs.Prelude.{◌≡◌, ◌++◌, IfOk, IsOk, OnOk, codes, flat_map};
ghost use Rattle.std.specs.List.{All};
ghost use Rattle.model.specs.Fit.{AreFitEntries, IsFit};
ghost use Rattle.model.specs.Ranges.{InRange};
ghost use Rattle.history_script.specs.Digits.{digits_of};
ghost use Rattle.history_script.specs.Printed as spec;

use crate::digits::write_digits;
use base_types::{Bytes, Entry, Items, Net, NoMemory, Start};
use entry_codec::write_entry;
use plan_listing::write_network;
use report_text::name;
use std::alloc::Global;
use std::io::{self, Write};

/// Writes `entry HEX` by the bytes of an entry.
fn put_digits(out: &mut Vec<u8>, bytes: &[u8]) -> Result<(), NoMemory>
    ensures { OnOk result (out.new.items ≡ out.old.items ++ (codes "entry " ++ digits_of bytes.now ++ codes "\n")) }
{
    out.extend_from_slice(b"entry ")?;
    write_digits(out, bytes)?;
    out.extend_from_slice(b"\n")?;
    Ok(())
}

/// Writes `entry HEX`.
#[tactic(auto, unfolding(crate::specs::Printed::entry_line))]
fn put_entry(alloc: Global, out: &mut Vec<u8>, entry: &Entry) -> Result<(), NoMemory>
    requires { IsFit entry.now }
    ensures added { OnOk result (out.new.items ≡ out.old.items ++ spec.entry_line entry.now) }
    ensures range { OnOk result (InRange entry.now) }
{
    let bytes = write_entry(alloc, entry)?;
    put_digits(out, bytes.as_slice())
}

/// Writes the lines of entries.
fn put_entries(alloc: Global, out: &mut Vec<u8>, entries: &[Entry]) -> Result<(), NoMemory>
    requires { AreFitEntries entries.now }
    ensures added { OnOk result (out.new.items ≡ out.old.items ++ flat_map spec.entry_line entries.now) }
    ensures range { OnOk result (All InRange entries.now) }
{
    for entry in entries {
        put_entry(alloc, out, entry)?;
    }
    Ok(())
}

/// Writes `start W JOB NUMBER`.
#[tactic(auto, unfolding(crate::specs::Printed::start_line))]
fn write_start(out: &mut Vec<u8>, net: &Net, start: &Start) -> io::Result<()>
    ensures added { OnOk result (out.new.items ≡ out.old.items ++ spec.start_line net.now start.now) }
    ensures range { OnOk result (spec.IsStartInRange start.now) }
{
    let name = name(net, &start.ws);
    let number = start.number;
    write!(out, "start {name} {} {number}\n", start.job.0)
}

/// Writes the lines of starts.
fn write_starts(out: &mut Vec<u8>, net: &Net, starts: &[Start]) -> io::Result<()>
    ensures added { OnOk result (out.new.items ≡ out.old.items ++ flat_map (spec.start_line net.now) starts.now) }
    ensures range { OnOk result (All spec.IsStartInRange starts.now) }
{
    for start in starts {
        write_start(out, net, start)?;
    }
    Ok(())
}

/// Writes the network, and the line before the entries.
#[tactic(auto, unfolding(crate::specs::Printed::head_text))]
fn write_head(out: &mut Vec<u8>, net: &Net) -> io::Result<()>
    ensures { OnOk result (out.new.items ≡ out.old.items ++ spec.head_text net.now) }
{
    write_network(out, net)?;
    write!(out, "$HISTORY\n")
}

/// What an error of a writer to memory means.
fn or_no_memory(written: io::Result<()>) -> Result<(), NoMemory>
    ensures { OnOk result (IsOk written) }
{
    match written {
        Ok(()) => Ok(()),
        Err(_) => Err(NoMemory),
    }
}

/// The text of a history: the network as a listing prints it, `$HISTORY`, a line for each entry with its bytes as digits,
/// and a line for each start.
///
/// The entries are fit to be written. A workstation that the network lacks has no name, and nothing stands in its place.
/// `NoMemory` where memory runs out.
#[tactic(auto, unfolding(crate::specs::Printed::history_text))]
pub fn print_history(
    alloc: Global,
    net: &Net,
    entries: &[Entry],
    starts: &[Start],
) -> Result<Bytes, NoMemory>
    requires { AreFitEntries entries.now }
    ensures text { IfOk result (λ bytes. bytes ≡ spec.history_text net.now entries.now starts.now) }
    ensures range { IfOk result (λ _. All InRange entries.now × All spec.IsStartInRange starts.now) }
{
    let mut out = Vec::new(alloc);
    or_no_memory(write_head(&mut out, net))?;
    put_entries(alloc, &mut out, entries)?;
    or_no_memory(write_starts(&mut out, net, starts))?;
    Ok(Items::of_vec(out))
}
