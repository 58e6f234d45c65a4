//! The bodies that a file keeps.
ghost use Rattle.std.specs.Prelude.{◌≡◌, [], ℕ, IfErr, IfOk, IfSome};
ghost use Rattle.std.specs.Result.{IsErrOf};
ghost use Rattle.outside.specs.Causes.{Rose};
ghost use Rattle.outside.specs.Kept.{Bodies};
ghost use Rattle.message_file.specs.Files.{HasRoom};
ghost use Rattle.kept_files.specs.Growth.{BeginsWith, GoesOn, IsRefused, Keeps, KeepsNone, OnlyKeepsMore};
ghost use Rattle.kept_files.specs.Looking.{OnlyLooks};
ghost use Rattle.kept_files.specs.declared.faults.FileFault.TheVariants.{Folder as OfFolder};

use crate::faults::FileFault;
use crate::heads::has_head;
use crate::records::record_at;
use base_types::{Bytes, Items, Ws};
use folders::Folder;
use std::alloc::Global;

/// The bodies of the records that stand behind the owner's head.
fn read_records<F: Folder>(
    alloc: Global,
    folder: &mut F,
    name: &str,
    owner: u16,
) -> Result<Items<Bytes>, FileFault>
    requires begins { IfSome (F.seen folder.old name.now) (λ file. BeginsWith owner file []) }
    ensures kept { OnlyKeepsMore (F.becomes folder.old) owner name.now
        → IfOk result (λ bodies. IfSome (F.seen folder.new name.now) (λ file. Keeps owner file bodies)) }
    ensures refused { OnlyKeepsMore (F.becomes folder.old) owner name.now
        → IfErr result (λ fault. IfSome (F.seen folder.new name.now) (IsRefused owner fault)) }
    ensures room { IfOk result HasRoom }
    ensures looks { OnlyLooks F.seen F.becomes F.faults folder.old folder.new }
    ensures cause { IsErrOf result OfFolder → Rose (F.faults folder.old) (F.faults folder.new) }
{
    let _ = owner;
    let mut bodies = Items::new(alloc);
    let mut place = 8u64;
    while let Some(body) = record_at(alloc, folder, name, place)? {
        place += 5 + body.len() as u64;
        bodies.push(body)?;
    }
    Ok(bodies)
}

/// The bodies that the message file of this name keeps, which this workstation owns, in order. A file without a byte
/// keeps none.
///
/// A node may keep more in the file meanwhile. What is read is all that the file kept when the reading began, and perhaps
/// more: it is what the file keeps as the last call found it. Where others do anything else to the file, nothing is said
/// of what is read.
pub fn read_bodies<F: Folder>(
    alloc: Global,
    folder: &mut F,
    name: &str,
    owner: Ws,
) -> Result<Items<Bytes>, FileFault>
    // What is read is what the file keeps at last, and all that it kept at first stands at its front.
    ensures kept { OnlyKeepsMore (F.becomes folder.old) owner name.now
        → IfOk result (λ bodies. IfSome (F.seen folder.new name.now) (λ file. Keeps owner file bodies)) }
    ensures front { OnlyKeepsMore (F.becomes folder.old) owner name.now
        → IfOk result (λ bodies. IfSome (F.seen folder.old name.now)
        (λ file. (kept : Bodies) → Keeps owner file kept → GoesOn kept bodies)) }
    // A file that is refused is none of this workstation at last, and kept nothing of its own at first.
    ensures refused { OnlyKeepsMore (F.becomes folder.old) owner name.now
        → IfErr result (λ fault. IfSome (F.seen folder.new name.now) (IsRefused owner fault)) }
    ensures never_own { OnlyKeepsMore (F.becomes folder.old) owner name.now
        → IfErr result (λ fault. IfSome (F.seen folder.old name.now) (KeepsNone owner fault)) }
    ensures room { IfOk result HasRoom }
    ensures looks { OnlyLooks F.seen F.becomes F.faults folder.old folder.new }
    ensures cause { IsErrOf result OfFolder → Rose (F.faults folder.old) (F.faults folder.new) }
{
    if !has_head(folder, name, owner.0)? {
        return Ok(Items::new(alloc));
    }
    read_records(alloc, folder, name, owner.0)
}
