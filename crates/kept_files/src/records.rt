//! One record of a file.
ghost use Rattle.std.specs.Prelude.{◌≡◌, ◌<◌, ◌≤◌, ℕ, drop, length, take, IfErr, IfOk, IfSome};
ghost use Rattle.std.specs.Result.{IsErrOf};
ghost use Rattle.outside.specs.Causes.{Rose};
ghost use Rattle.outside.specs.Records.{longest_file};
ghost use Rattle.kept_files.specs.Found.{BreaksHere, IsNext, IsRoomy};
ghost use Rattle.kept_files.specs.Looking.{OnlyLooks};
ghost use Rattle.kept_files.specs.declared.faults.FileFault.TheVariants.{Folder as OfFolder, NotThisFile};

use crate::faults::FileFault;
use crate::windows::{Found, found_in};
use base_types::{Bytes, Items};
use folders::Folder;
use std::alloc::Global;

/// How many bytes are looked at first. Most records are shorter.
const FIRST_WINDOW: u32 = 512;

/// The bytes of a file from a place on, so many at most.
fn window_at<F: Folder>(
    alloc: Global,
    folder: &mut F,
    name: &str,
    place: u64,
    size: u32,
) -> Result<Vec<u8>, FileFault>
    ensures bytes { IfOk result (λ window. IfSome (F.seen folder.new name.now)
        (λ file. window.items ≡ take size (drop place file))) }
    ensures fits { IfOk result (λ window. length window.items ≤ size) }
    ensures looks { OnlyLooks F.seen F.becomes F.faults folder.old folder.new }
    ensures cause { IsErrOf result OfFolder → Rose (F.faults folder.old) (F.faults folder.new) }
    ensures broken { IfErr result (λ fault. (at : ℕ) → fault ≡ NotThisFile at → ⊥) }
{
    let mut window = vec![in alloc; 0u8; size as usize]?;
    let count = folder.read_at(name, place, &mut window)?;
    window.truncate(count);
    Ok(window)
}

/// The body of the record at a place of a file. None where a gate stands there that is not open. What is told is told of
/// the file as the last call found it.
pub(crate) fn record_at<F: Folder>(
    alloc: Global,
    folder: &mut F,
    name: &str,
    place: u64,
) -> Result<Option<Bytes>, FileFault>
    requires low { place < longest_file }
    ensures found { IfOk result (λ body. IfSome (F.seen folder.new name.now) (λ file. IsNext place body (drop place file))) }
    ensures room { IfOk result (IsRoomy place) }
    ensures refused { IfErr result (λ fault. IfSome (F.seen folder.new name.now)
        (λ file. BreaksHere place fault (drop place file))) }
    ensures looks { OnlyLooks F.seen F.becomes F.faults folder.old folder.new }
    ensures cause { IsErrOf result OfFolder → Rose (F.faults folder.old) (F.faults folder.new) }
{
    let mut size = FIRST_WINDOW;
    loop {
        let window = window_at(alloc, folder, name, place, size)?;
        match found_in(&window, size, place) {
            Found::Closed => return Ok(None),
            Found::Broken => return Err(FileFault::NotThisFile(place)),
            Found::Record(length) => {
                let body = window[5..5 + length as usize].to_vec(alloc)?;
                return Ok(Some(Items::of_vec(body)));
            }
            Found::Longer(whole) => size = whole,
        }
    }
}
