//! Histories: what their bytes call for where they are audited.
ghost use Rattle.std.specs.Prelude.{◌≡◌, ◌≤◌, ◌<◌, ◌+◌, ◌^◌, ℕ, Ok, Err, None, IfOk, length};
ghost use Rattle.history_script.specs.declared.histories.HistoryKind as kinds;
ghost use Rattle.history_script.specs.declared.histories.HistoryFault.TheVariants.{At as Told};
ghost use Rattle.network_tree.specs.Faults.{net_fault};
ghost use Rattle.input_commands.specs.Audits.{AreHistory};
ghost use Rattle.input_commands.specs.Dues.{AuditCallsFor, HistoryCallsFor, IsReply};
ghost use Rattle.input_commands.specs.Lines.{found_status, found_text};

use crate::lines::{bad_history_line, not_sound, sound};
use crate::unsaid_replies::Reply;
use base_types::{Net, NoMemory};
use definition_texts::line_at;
use event_audit::{Audit, audit};
use history_script::{HistoryFault, HistoryKind, HistoryText, read_history};
use network_tree::{NetFault, Network};
use record_script::ScriptKind;
use std::alloc::Global;
use std::str;

/// What is said of what was found of a history with so many entries and starts.
fn said(alloc: Global, found: Audit, entries: usize, starts: usize) -> Result<Reply, NoMemory>
    ensures status { IfOk result (λ r. r.status ≡ found_status found) }
    ensures text { IfOk result (λ r. r.text ≡ found_text entries starts found) }
    ensures world { IfOk result (λ r. r.world ≡ None) }
{
    match found {
        Audit::Sound => sound(alloc, entries, starts),
        Audit::Not(item) => not_sound(alloc, item),
    }
}

/// The network of a history.
fn network(alloc: Global, net: Net) -> Result<Network, NoMemory>
    requires { net_fault net ≡ None }
    ensures { IfOk result (λ network. network ≡ net) }
{
    match Network::new(alloc, net) {
        Ok(network) => Ok(network),
        Err(NetFault::NoMemory) => Err(NoMemory),
        Err(_) => unreachable!(),
    }
}

/// What a history calls for.
fn reply_to_audit(alloc: Global, history: HistoryText) -> Result<Reply, NoMemory>
    requires accepted { net_fault history.net ≡ None }
    requires few { length history.entries + length history.starts < 2 ^ 32 }
    ensures { IfOk result (IsReply (HistoryCallsFor history)) }
{
    let (net, entries, starts) = history.into_parts();
    let network = network(alloc, net)?;
    let found = audit(alloc, &network, &entries, &starts)?;
    said(alloc, found, entries.len(), starts.len())
}

/// The history that bytes are, or its lowest faulty line with the first kind of its faults. Bytes that are no UTF-8 are
/// told before every other fault.
fn read_bytes(alloc: Global, bytes: &[u8]) -> Result<HistoryText, HistoryFault>
    requires { length bytes.now ≤ 16777216 }
    ensures read { IfOk result (λ h. AreHistory bytes.now (Ok h)) }
    ensures accepted { IfOk result (λ h. net_fault h.net ≡ None) }
    ensures few { IfOk result (λ h. length h.entries + length h.starts < 2 ^ 32) }
    ensures at { (n : ℕ) → (k : kinds.HistoryKind) → result ≡ Err (Told n k) → AreHistory bytes.now (Err (n, k)) }
{
    match str::from_utf8(bytes) {
        Ok(text) => read_history(alloc, text),
        Err(fault) => Err(HistoryFault::At(
            line_at(bytes, fault.valid_up_to()),
            HistoryKind::OfRecord(ScriptKind::BadLine),
        )),
    }
}

/// What the bytes of an input call for, where they are wanted as a history.
pub(crate) fn reply_to_history(alloc: Global, bytes: &[u8]) -> Result<Reply, NoMemory>
    requires { length bytes.now ≤ 16777216 }
    ensures { IfOk result (IsReply (AuditCallsFor bytes.now)) }
{
    match read_bytes(alloc, bytes) {
        Ok(history) => reply_to_audit(alloc, history),
        Err(HistoryFault::At(line, kind)) => bad_history_line(alloc, line, kind),
        Err(HistoryFault::NoMemory) => Err(NoMemory),
    }
}
