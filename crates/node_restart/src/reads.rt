//! Bodies are read one by one.
ghost use Rattle.std.specs.Prelude.{◌≡◌, ◌<◌, ◌≤◌, false, IfOk, IfSome, OnOk, Some, slice_get, take};
ghost use Rattle.std.specs.Result.{IsErrOf};
ghost use Rattle.outside.specs.Causes.{Rose};
ghost use Rattle.message_file.specs.Files.{HasRoom, place_behind};
ghost use Rattle.node_restart.specs.Reading.{OnlyReads};
ghost use Rattle.node_restart.specs.declared.faults.ReadFault.TheVariants.{Disk as OfDisk};

use crate::faults::ReadFault;
use base_types::Bytes;
use outside::{KeepFault, Keeper};

/// The body of this number, counted from 0.
pub(crate) fn read_body<K: Keeper>(keeper: &mut K, number: u32) -> Result<Bytes, ReadFault>
    requires unspent { K.spent keeper.old ≡ false }
    requires there { number < K.number keeper.old }
    ensures body { IfOk result (λ body. IfSome (K.kept keeper.old)
        (λ bodies. slice_get bodies number ≡ Some body)) }
    ensures unspent { OnOk result (K.spent keeper.new ≡ false) }
    ensures reads { OnlyReads K.kept K.number K.may_leave K.moment K.left_since K.opens_since
        keeper.old keeper.new }
    ensures cause { IsErrOf result OfDisk → Rose (K.faults keeper.old) (K.faults keeper.new) }
    ensures later { K.faults keeper.old ≤ K.faults keeper.new }
{
    match keeper.read(number) {
        Ok(body) => Ok(body),
        Err(KeepFault::Disk) => Err(ReadFault::Disk),
        Err(KeepFault::NoMemory) => Err(ReadFault::NoMemory),
        Err(KeepFault::Full | KeepFault::NotThere) => unreachable!(),
    }
}

/// The place of the gate of the body of this number, or of that behind the last: behind the header of eight bytes and
/// the record of each body before it, which has five bytes and the body.
pub(crate) fn gate_of<K: Keeper>(keeper: &mut K, number: u32) -> Result<u64, ReadFault>
    requires unspent { K.spent keeper.old ≡ false }
    requires there { number ≤ K.number keeper.old }
    requires room { IfSome (K.kept keeper.old) HasRoom }
    ensures gate { IfOk result (λ gate. IfSome (K.kept keeper.old)
        (λ bodies. gate ≡ place_behind (take number bodies))) }
    ensures reads { OnlyReads K.kept K.number K.may_leave K.moment K.left_since K.opens_since
        keeper.old keeper.new }
    ensures cause { IsErrOf result OfDisk → Rose (K.faults keeper.old) (K.faults keeper.new) }
    ensures later { K.faults keeper.old ≤ K.faults keeper.new }
{
    let mut gate = 8u64;
    for i in 0..number {
        let body = read_body(keeper, i)?;
        gate = gate.saturating_add(5).saturating_add(body.len() as u64);
    }
    Ok(gate)
}
