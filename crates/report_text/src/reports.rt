//! The report of a run.
ghost use Rattle.std.specs.Prelude.{◌≡◌, ◌++◌, IfOk, OnOk, flat_map};
ghost use Rattle.report_text.specs.Reports as spec;

use crate::bodies::write_body;
use crate::names::{name, write_feed};
use base_types::{
    Bytes, Entry, FeedCount, Items, Net, NoMemory, NodePart, PairCount, ReportParts, Start,
};
use std::alloc::Global;
use std::io::{self, Write};

/// The report that these parts make, in UTF-8 where the listings are.
///
/// Each list is printed in the order of the parts; a count of 0 has no line. A workstation that is not in the network
/// has no name, and nothing stands in its place. `NoMemory` where memory runs out.
#[tactic(auto, unfolding(crate::specs::Reports::report_of))]
pub fn print_report(alloc: Global, net: &Net, parts: &ReportParts) -> Result<Bytes, NoMemory>
    ensures { IfOk result (λ bytes. bytes ≡ spec.report_of net.now parts.now) }
{
    let mut out = Vec::new(alloc);
    match write_report(&mut out, net, parts) {
        Ok(()) => Ok(Items::of_vec(out)),
        Err(_) => Err(NoMemory),
    }
}

#[tactic(auto, unfolding(crate::specs::Reports::report_of))]
fn write_report(out: &mut Vec<u8>, net: &Net, parts: &ReportParts) -> io::Result<()>
    ensures { OnOk result (out.new.items ≡ out.old.items ++ spec.report_of net.now parts.now) }
{
    write_events(out, net, parts.events.as_slice())?;
    write_starts(out, net, parts.starts.as_slice())?;
    write_packets(out, net, parts.packets.as_slice())?;
    write_nodes(out, net, parts.nodes.as_slice())
}

#[tactic(auto, unfolding(crate::specs::Reports::events_part))]
fn write_events(out: &mut Vec<u8>, net: &Net, entries: &[Entry]) -> io::Result<()>
    ensures { OnOk result (out.new.items ≡ out.old.items ++ spec.events_part net.now entries.now) }
{
    write!(out, "events {}\n", entries.len())?;
    for entry in entries {
        write_entry(out, net, entry)?;
    }
    Ok(())
}

#[tactic(auto, unfolding(crate::specs::Reports::entry_line))]
fn write_entry(out: &mut Vec<u8>, net: &Net, entry: &Entry) -> io::Result<()>
    ensures { OnOk result (out.new.items ≡ out.old.items ++ spec.entry_line net.now entry.now) }
{
    write_feed(out, net, &entry.feed)?;
    write!(out, " {} ", entry.place)?;
    write_body(out, net, &entry.body)?;
    write!(out, "\n")
}

#[tactic(auto, unfolding(crate::specs::Reports::starts_part))]
fn write_starts(out: &mut Vec<u8>, net: &Net, starts: &[Start]) -> io::Result<()>
    ensures { OnOk result (out.new.items ≡ out.old.items ++ spec.starts_part net.now starts.now) }
{
    write!(out, "starts {}\n", starts.len())?;
    for start in starts {
        write_start(out, net, start)?;
    }
    Ok(())
}

#[tactic(auto, unfolding(crate::specs::Reports::start_line))]
fn write_start(out: &mut Vec<u8>, net: &Net, start: &Start) -> io::Result<()>
    ensures { OnOk result (out.new.items ≡ out.old.items ++ spec.start_line net.now start.now) }
{
    let name = name(net, &start.ws);
    write!(out, "{name} {} {}\n", start.job.0, start.number)
}

fn write_packets(out: &mut Vec<u8>, net: &Net, packets: &[PairCount]) -> io::Result<()>
    ensures { OnOk result (out.new.items ≡ out.old.items ++ flat_map (spec.packets_line net.now) packets.now) }
{
    for pair in packets {
        write_pair(out, net, pair)?;
    }
    Ok(())
}

#[tactic(auto, unfolding(crate::specs::Reports::packets_line))]
fn write_pair(out: &mut Vec<u8>, net: &Net, pair: &PairCount) -> io::Result<()>
    ensures { OnOk result (out.new.items ≡ out.old.items ++ spec.packets_line net.now pair.now) }
{
    if pair.count == 0 {
        return Ok(());
    }
    let from = name(net, &pair.from);
    let to = name(net, &pair.to);
    write!(out, "packets {from} {to} {}\n", pair.count)
}

fn write_nodes(out: &mut Vec<u8>, net: &Net, nodes: &[NodePart]) -> io::Result<()>
    ensures { OnOk result (out.new.items ≡ out.old.items ++ flat_map (spec.node_part net.now) nodes.now) }
{
    for node in nodes {
        write_node(out, net, node)?;
    }
    Ok(())
}

#[tactic(auto, unfolding(crate::specs::Reports::node_part))]
fn write_node(out: &mut Vec<u8>, net: &Net, node: &NodePart) -> io::Result<()>
    ensures { OnOk result (out.new.items ≡ out.old.items ++ spec.node_part net.now node.now) }
{
    write!(out, "node {}\n", name(net, &node.ws))?;
    write_holds(out, net, node.holds.as_slice())?;
    out.extend_from_slice(node.listing.as_slice())?;
    Ok(())
}

fn write_holds(out: &mut Vec<u8>, net: &Net, holds: &[FeedCount]) -> io::Result<()>
    ensures { OnOk result (out.new.items ≡ out.old.items ++ flat_map (spec.holds_line net.now) holds.now) }
{
    for held in holds {
        write_held(out, net, held)?;
    }
    Ok(())
}

#[tactic(auto, unfolding(crate::specs::Reports::holds_line))]
fn write_held(out: &mut Vec<u8>, net: &Net, held: &FeedCount) -> io::Result<()>
    ensures { OnOk result (out.new.items ≡ out.old.items ++ spec.holds_line net.now held.now) }
{
    if held.count == 0 {
        return Ok(());
    }
    write!(out, "holds ")?;
    write_feed(out, net, &held.feed)?;
    write!(out, " {}\n", held.count)
}
