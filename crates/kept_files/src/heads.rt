//! The head of a message file.
ghost use Rattle.std.specs.Prelude.{◌≡◌, ◌≤◌, ◌++◌, [], true, false, drop, length, IfErr, IfNone, IfOk, IfSome};
ghost use Rattle.std.specs.Result.{IsErrOf};
ghost use Rattle.outside.specs.Causes.{Rose};
ghost use Rattle.message_file.specs.Files.{head_of};
ghost use Rattle.kept_files.specs.Found.{Differs};
ghost use Rattle.kept_files.specs.Growth.{IsRefused};
ghost use Rattle.kept_files.specs.Looking.{OnlyLooks};
ghost use Rattle.kept_files.specs.declared.faults.FileFault.TheVariants.{Folder as OfFolder};

use crate::faults::FileFault;
use folders::Folder;

/// The first place at which these bytes are not those of a head, or at which they end.
fn difference(bytes: &[u8], head: &[u8; 8]) -> Option<usize>
    requires { length bytes.now ≤ 8 }
    ensures same { IfNone result (bytes.now ≡ head.now) }
    ensures differs { IfSome result (Differs bytes.now head.now) }
{
    for i in 0..8 {
        if i >= bytes.len() || bytes[i] != head[i] {
            return Some(i);
        }
    }
    None
}

/// What stands before the records of a file of this owner.
fn head_bytes(owner: u16) -> [u8; 8]
    ensures { result ≡ head_of owner }
{
    let [high, low] = owner.to_be_bytes();
    [84, 87, 83, 77, 0, 1, high, low]
}

/// Whether a file of a name has any bytes, after a test of its head.
pub(crate) fn has_head<F: Folder>(folder: &mut F, name: &str, owner: u16) -> Result<bool, FileFault>
    ensures head { IfOk result (λ b. b ≡ true → IfSome (F.seen folder.new name.now)
        (λ file. file ≡ head_of owner ++ drop 8 file)) }
    ensures empty { IfOk result (λ b. b ≡ false → IfSome (F.seen folder.new name.now) (λ file. file ≡ [])) }
    ensures refused { IfErr result (λ fault. IfSome (F.seen folder.new name.now) (IsRefused owner fault)) }
    ensures looks { OnlyLooks F.seen F.becomes F.faults folder.old folder.new }
    ensures cause { IsErrOf result OfFolder → Rose (F.faults folder.old) (F.faults folder.new) }
{
    let head = head_bytes(owner);
    let mut bytes = [0u8; 8];
    let count = folder.read_at(name, 0, &mut bytes)?;
    if count == 0 {
        return Ok(false);
    }
    match difference(&bytes[..count], &head) {
        Some(place) => Err(FileFault::NotThisFile(place as u64)),
        None => Ok(true),
    }
}
