//! Bodies are read as entries.
ghost use Rattle.std.specs.Prelude.{◌≡◌, ◌<◌, ◌≤◌, false, IfOk, IfSome, OnOk, length};
ghost use Rattle.std.specs.Result.{IsErrOf};
ghost use Rattle.model.specs.Fit.{AreFitEntries};
ghost use Rattle.outside.specs.Causes.{Rose};
ghost use Rattle.outside.specs.Records.{longest_body};
ghost use Rattle.message_file.specs.Files.{HasRoom};
ghost use Rattle.node_restart.specs.Reading.{IsEntryAt, IsEntryOf, IsFitOf, IsShortOf, AreFront, AreShortEntries, OnlyReads};
ghost use Rattle.node_restart.specs.declared.faults.ReadFault.TheVariants.{Disk as OfDisk};

use crate::faults::ReadFault;
use crate::reads::read_body;
use base_types::{Entries, Entry, Items, LONGEST_ENTRY, NoMemory};
use entry_codec::{EntryFault, read_entry};
use outside::Keeper;
use std::alloc::Global;

/// The entry that the bytes are. None where they are none.
fn entry_of(alloc: Global, bytes: &[u8]) -> Result<Option<Entry>, NoMemory>
    ensures found { IfOk result (λ entry. length bytes.now ≤ longest_body → IsEntryOf bytes.now entry) }
    ensures fit { IfOk result IsFitOf }
    ensures short { IfOk result IsShortOf }
{
    if bytes.len() > LONGEST_ENTRY as usize {
        return Ok(None);
    }
    match read_entry(alloc, bytes) {
        Ok(entry) => Ok(Some(entry)),
        Err(EntryFault::NoMemory) => Err(NoMemory),
        Err(_) => Ok(None),
    }
}

/// The body of this number as an entry. None where it is none.
fn entry_at<K: Keeper>(
    alloc: Global,
    keeper: &mut K,
    number: u32,
) -> Result<Option<Entry>, ReadFault>
    requires unspent { K.spent keeper.old ≡ false }
    requires there { number < K.number keeper.old }
    requires room { IfSome (K.kept keeper.old) HasRoom }
    ensures found { IfOk result (λ entry. IfSome (K.kept keeper.old) (IsEntryAt number entry)) }
    ensures fit { IfOk result IsFitOf }
    ensures short { IfOk result IsShortOf }
    ensures unspent { OnOk result (K.spent keeper.new ≡ false) }
    ensures reads { OnlyReads K.kept K.number K.may_leave K.moment K.left_since K.opens_since
        keeper.old keeper.new }
    ensures cause { IsErrOf result OfDisk → Rose (K.faults keeper.old) (K.faults keeper.new) }
    ensures later { K.faults keeper.old ≤ K.faults keeper.new }
{
    let body = read_body(keeper, number)?;
    Ok(entry_of(alloc, body.as_slice())?)
}

/// The entries that the bodies are, in order, up to the first body that is none.
pub(crate) fn read_entries<K: Keeper>(alloc: Global, keeper: &mut K) -> Result<Entries, ReadFault>
    requires unspent { K.spent keeper.old ≡ false }
    requires room { IfSome (K.kept keeper.old) HasRoom }
    ensures front { IfOk result (λ entries. IfSome (K.kept keeper.old) (AreFront entries)) }
    ensures fit { IfOk result AreFitEntries }
    ensures short { IfOk result AreShortEntries }
    ensures few { IfOk result (λ entries. length entries ≤ K.number keeper.old) }
    ensures unspent { OnOk result (K.spent keeper.new ≡ false) }
    ensures reads { OnlyReads K.kept K.number K.may_leave K.moment K.left_since K.opens_since
        keeper.old keeper.new }
    ensures cause { IsErrOf result OfDisk → Rose (K.faults keeper.old) (K.faults keeper.new) }
    ensures later { K.faults keeper.old ≤ K.faults keeper.new }
{
    let mut entries = Items::new(alloc);
    for i in 0..keeper.count() {
        match entry_at(alloc, keeper, i)? {
            Some(entry) => entries.push(entry)?,
            None => return Ok(entries),
        }
    }
    Ok(entries)
}
