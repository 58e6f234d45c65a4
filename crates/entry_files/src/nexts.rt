//! One body, behind the entries that were taken.
ghost use Rattle.std.specs.Prelude.{◌≡◌, ◌+◌, ◌≤◌, IfOk, length, true};
ghost use Rattle.model.specs.History.{list_of};
ghost use Rattle.model.specs.Restore.{follows_on};
ghost use Rattle.outside.specs.Records.{longest_body};
ghost use Rattle.entry_files.specs.Nexts.{IsEntryOf, IsNextOf};

use base_types::{Entry, NoMemory};
use entry_checks::is_entry_inside;
use entry_codec::{EntryFault, read_entry};
use network_tree::Network;
use owner_fold::Owners;
use std::alloc::Global;

/// Whether an entry is the next of its feed, and names workstations of the network alone.
fn is_next(net: &Network, taken: &Owners, entry: &Entry) -> bool
    ensures value { result ≡ follows_on net.now taken.now entry.now }
    ensures next { result ≡ true → entry.now.place ≡ length (list_of taken.now entry.now.feed) + 1 }
{
    let count = u64::from(taken.count(entry.feed));
    u64::from(entry.place) == count + 1 && is_entry_inside(net.count(), entry)
}

/// The entry that the bytes are. None where they are none.
fn entry_of(alloc: Global, bytes: &[u8]) -> Result<Option<Entry>, NoMemory>
    requires { length bytes.now ≤ longest_body }
    ensures { IfOk result (IsEntryOf bytes.now) }
{
    match read_entry(alloc, bytes) {
        Ok(entry) => Ok(Some(entry)),
        Err(EntryFault::NoMemory) => Err(NoMemory),
        Err(_) => Ok(None),
    }
}

/// The entry that the bytes are, where it follows on behind those that were taken. None where they are no such entry.
pub(crate) fn next_of(
    alloc: Global,
    net: &Network,
    taken: &Owners,
    bytes: &[u8],
) -> Result<Option<Entry>, NoMemory>
    requires { length bytes.now ≤ longest_body }
    ensures { IfOk result (IsNextOf net.now taken.now bytes.now) }
{
    let Some(entry) = entry_of(alloc, bytes)? else {
        return Ok(None);
    };
    if is_next(net, taken, &entry) {
        Ok(Some(entry))
    } else {
        Ok(None)
    }
}
