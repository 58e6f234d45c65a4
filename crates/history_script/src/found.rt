//! What the lines behind `$HISTORY` mean in a network.
ghost use Rattle.std.specs.Prelude.{◌≡◌, ◌≤◌, ◌<◌, ◌+◌, ◌++◌, ◌^◌, ℕ, Err, IfOk, IfSome, None, Ok, length, map, true};
ghost use Rattle.std.specs.Option.{option_to_list};
ghost use Rattle.model.specs.Fit.{AreFitEntries, IsFit};
ghost use Rattle.model.specs.Network.{node_count};
ghost use Rattle.history_script.specs.Histories as spec;
ghost use Rattle.history_script.specs.Taken.{IsTaken, lines_size, row_size};
ghost use Rattle.history_script.specs.Rows.{row_of};
ghost use Rattle.history_script.specs.declared.histories.HistoryFault.TheVariants.{At as Told};
ghost use Rattle.history_script.specs.declared.histories.HistoryKind as kinds;

use crate::histories::{HistoryFault, HistoryKind, HistoryText};
use crate::rows::{HistoryRow, read_row};
use base_types::{Entries, Entry, Items, JobNo, Net, NoMemory, Start, Starts, Text, Ws};
use entry_checks::is_entry_inside;
use entry_codec::{EntryFault, read_entry};
use record_faults::ScriptKind;
use record_rows::Ranged;
use std::alloc::Global;

/// The entries and the starts of the lines that were read, and whether there is a start among them.
pub(crate) struct Found {
    pub(crate) entries: Entries,
    pub(crate) starts: Starts,
    pub(crate) started: bool,
}

impl Drop for Found {
    fn drop(self) {
        let Found {
            entries: _entries,
            starts: _starts,
            started: _started,
        } = self;
    }
}

impl Found {
    /// What was found, with its network.
    pub(crate) fn with_net(self, net: Net) -> HistoryText
        ensures net { result.net ≡ net }
        ensures entries { result.entries ≡ self.entries }
        ensures starts { result.starts ≡ self.starts }
    {
        let Found {
            entries,
            starts,
            started: _started,
        } = self;
        HistoryText {
            net,
            entries,
            starts,
        }
    }
}

/// The entry names workstations of the network alone.
fn is_inside(net: &Net, entry: &Entry) -> bool
    requires { node_count net.now ≤ 256 }
    ensures { result ≡ spec.is_inside net.now entry.now }
{
    is_entry_inside(net.nodes.len() as u16, entry)
}

/// The entry, where it names workstations of the network alone.
fn inside(net: &Net, entry: Entry) -> Option<Entry>
    requires { node_count net.now ≤ 256 }
    ensures entry { result ≡ spec.inside net.now entry }
    ensures fit { IsFit entry → IfSome result IsFit }
{
    if is_inside(net, &entry) {
        return Some(entry);
    }
    None
}

/// The entry that bytes are, where it names workstations of the network alone. The only error is that memory ran out.
#[tactic(auto, unfolding(crate::specs::Histories::entry_of))]
fn entry_of(alloc: Global, net: &Net, bytes: &[u8]) -> Result<Option<Entry>, NoMemory>
    requires few { node_count net.now ≤ 256 }
    requires short { length bytes.now < 2 ^ 32 }
    ensures entry { IfOk result (λ o. o ≡ spec.entry_of net.now bytes.now) }
    ensures fit { IfOk result (λ o. IfSome o IsFit) }
{
    match read_entry(alloc, bytes) {
        Ok(entry) => Ok(inside(net, entry)),
        Err(EntryFault::NoMemory) => Err(NoMemory),
        Err(EntryFault::Short(_)) => Ok(None),
        Err(EntryFault::Version) => Ok(None),
        Err(EntryFault::BadField(_)) => Ok(None),
        Err(EntryFault::TooMuch(_)) => Ok(None),
    }
}

/// The place of a workstation's name in the network.
fn place_of(net: &Net, name: &Text) -> Option<usize>
    ensures { result ≡ spec.ws_of net.now name.now }
{
    let nodes = net.nodes.as_slice();
    nodes
        .iter()
        .position(|node| node.name.as_str() == name.as_str())
}

/// The workstation of a name.
fn ws_of(net: &Net, name: &Text) -> Option<Ws>
    requires { node_count net.now ≤ 256 }
    ensures { result ≡ spec.ws_of net.now name.now }
{
    match place_of(net, name) {
        Some(place) => Some(Ws(place as u16)),
        None => None,
    }
}

/// A number that is within its field.
fn number_in<T: Copy>(number: &Ranged<T>) -> Option<T>
    ensures { result ≡ spec.number_in number.now }
{
    match number {
        Ranged::Within(n) => Some(*n),
        Ranged::OutOfRange => None,
    }
}

/// The start on a workstation that the network may lack. None where one of the parts is missing.
#[tactic(auto, unfolding(crate::specs::Histories::start_on))]
fn start_on(ws: Option<Ws>, job: &Ranged<JobNo>, number: &Ranged<u32>) -> Option<Start>
    ensures { result ≡ spec.start_on ws job.now number.now }
{
    let ws = ws?;
    let job = number_in(job)?;
    let number = number_in(number)?;
    Some(Start { ws, job, number })
}

/// The first fault of a start.
#[tactic(auto, unfolding(crate::specs::Histories::start_fault))]
fn start_fault(ws: &Option<Ws>, job: &Ranged<JobNo>, number: &Ranged<u32>) -> Option<HistoryKind>
    ensures { result ≡ spec.start_fault ws.now job.now number.now }
{
    if ws.is_none() {
        return Some(HistoryKind::OfRecord(ScriptKind::UnknownName));
    }
    if !job.is_within() || !number.is_within() {
        return Some(HistoryKind::OfRecord(ScriptKind::OutOfRange));
    }
    None
}

/// Takes an entry, or tells its fault.
#[tactic(auto, unfolding(crate::specs::Histories::entry_fault))]
fn take_entry(
    alloc: Global,
    net: &Net,
    bytes: &[u8],
    found: &mut Found,
) -> Result<Option<HistoryKind>, NoMemory>
    requires small { node_count net.now ≤ 256 }
    requires short { length bytes.now < 2 ^ 32 }
    ensures fault { IfOk result (λ o. o ≡ spec.entry_fault found.old.started (spec.entry_of net.now bytes.now)) }
    ensures entries { result ≡ Ok None
        → found.new.entries ≡ found.old.entries ++ option_to_list (spec.entry_of net.now bytes.now) }
    ensures starts { found.new.starts ≡ found.old.starts }
    ensures started { found.new.started ≡ found.old.started }
    ensures fit { AreFitEntries found.old.entries → AreFitEntries found.new.entries }
{
    if found.started {
        return Ok(Some(HistoryKind::OfRecord(ScriptKind::BadLine)));
    }
    match entry_of(alloc, net, bytes)? {
        Some(entry) => {
            found.entries.push(entry)?;
            Ok(None)
        }
        None => Ok(Some(HistoryKind::BadEntry)),
    }
}

/// Takes a start, or tells its fault.
fn take_start(
    net: &Net,
    name: &Text,
    job: &Ranged<JobNo>,
    number: &Ranged<u32>,
    found: &mut Found,
) -> Result<Option<HistoryKind>, NoMemory>
    requires { node_count net.now ≤ 256 }
    ensures fault { IfOk result (λ o. o ≡ spec.start_fault (spec.ws_of net.now name.now) job.now number.now) }
    ensures entries { found.new.entries ≡ found.old.entries }
    ensures starts { result ≡ Ok None → found.new.starts
        ≡ found.old.starts ++ option_to_list (spec.start_on (spec.ws_of net.now name.now) job.now number.now) }
    ensures started { result ≡ Ok None → found.new.started ≡ true }
{
    let ws = ws_of(net, name);
    if let Some(kind) = start_fault(&ws, job, number) {
        return Ok(Some(kind));
    }
    if let Some(start) = start_on(ws, job, number) {
        found.starts.push(start)?;
    }
    found.started = true;
    Ok(None)
}

/// Takes a row, or tells the first of its faults. The only error is that memory ran out.
#[tactic(auto, using(crate::proofs::Fits::fit_still))]
fn take(
    alloc: Global,
    net: &Net,
    row: &HistoryRow,
    found: &mut Found,
) -> Result<Option<HistoryKind>, NoMemory>
    requires small { node_count net.now ≤ 256 }
    requires short { row_size row.now < 2 ^ 32 }
    ensures fault { IfOk result (λ o. o ≡ spec.fault_of net.now found.old.started row.now) }
    ensures taken { result ≡ Ok None → IsTaken net.now found.old row.now found.new }
    ensures fit { AreFitEntries found.old.entries → AreFitEntries found.new.entries }
{
    match row {
        HistoryRow::Skipped => Ok(None),
        HistoryRow::NoForm => Ok(Some(HistoryKind::OfRecord(ScriptKind::BadLine))),
        HistoryRow::Entry(bytes) => take_entry(alloc, net, bytes.as_slice(), found),
        HistoryRow::Start(name, job, number) => take_start(net, name, job, number, found),
    }
}

/// Takes a line, or tells the first of its faults. The only error is that memory ran out.
#[tactic(auto, using(crate::proofs::RowSizes::row_fits))]
fn take_line(
    alloc: Global,
    net: &Net,
    line: &str,
    found: &mut Found,
) -> Result<Option<HistoryKind>, NoMemory>
    requires small { node_count net.now ≤ 256 }
    requires short { length line.now < 2 ^ 32 }
    ensures fault { IfOk result (λ o. o ≡ spec.fault_of net.now found.old.started (row_of line.now)) }
    ensures taken { result ≡ Ok None → IsTaken net.now found.old (row_of line.now) found.new }
    ensures fit { AreFitEntries found.old.entries → AreFitEntries found.new.entries }
{
    let row = read_row(alloc, line)?;
    take(alloc, net, &row, found)
}

/// The entries and the starts of the lines behind `$HISTORY`, the first of which stands on a line, or their first fault.
pub(crate) fn read_rows(
    alloc: Global,
    net: &Net,
    first: usize,
    texts: &[&str],
) -> Result<Found, HistoryFault>
    requires small { node_count net.now ≤ 256 }
    requires few { first + length texts.now < 2 ^ 32 }
    requires short { lines_size (map (λ x. x.now) texts.now) < 2 ^ 32 }
    ensures found { IfOk result (λ f. spec.with_rows first (map row_of (map (λ x. x.now) texts.now)) net.now
        ≡ Ok (record { net = net.now; entries = f.entries; starts = f.starts })) }
    ensures fit { IfOk result (λ f. AreFitEntries f.entries) }
    ensures at { (n : ℕ) → (k : kinds.HistoryKind) → result ≡ Err (Told n k)
        → spec.with_rows first (map row_of (map (λ x. x.now) texts.now)) net.now ≡ Err (n, k) }
{
    let mut found = Found {
        entries: Items::new(alloc),
        starts: Items::new(alloc),
        started: false,
    };
    for (i, line) in texts.iter().enumerate() {
        match take_line(alloc, net, line, &mut found)? {
            Some(kind) => return Err(HistoryFault::At((first + i) as u32, kind)),
            None => {}
        }
    }
    Ok(found)
}
