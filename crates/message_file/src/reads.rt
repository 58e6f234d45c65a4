// Reading a body by its number.
ghost use Rattle.std.specs.Prelude.{◌≡◌, ◌+◌, ◌<◌, ◌≤◌, length, take, drop, IfOk, IfSome};
ghost use Rattle.std.specs.Result.{IsErrOf};
ghost use Rattle.outside.specs.Causes.{HasCause, Rose};
ghost use Rattle.outside.specs.Records.{longest_file};
ghost use Rattle.message_file.specs.Attaching.{OnlyReads};
ghost use Rattle.message_file.specs.Cursors.{IsHeld, IsPlaceOf, LiesIn, IsBodyOf};
ghost use Rattle.message_file.specs.State.{StandsBehind};
ghost use Rattle.message_file.specs.declared.reads.ReadFault.TheVariants.{Disk as OfDisk, NoMemory as NoRoom};

use crate::records::{Found, find};
use base_types::{Bytes, Items};
use outside::{Disk, Failed};
use std::alloc::{AllocError, Global};

/// What a file holds: its owner, how many bodies, and the place of the closed gate behind them.
#[derive(Clone, Copy)]
pub struct Extent {
    pub owner: u16,
    pub count: u32,
    pub gate: u64,
}

/// A body, and the place behind its record.
#[derive(Drop)]
pub struct Record {
    pub body: Bytes,
    pub next: u64,
}

/// Why a body was not read. `NoMemory` comes besides where somebody else wrote the file meanwhile.
#[derive(Clone, Copy)]
pub enum ReadFault {
    Disk,
    NoMemory,
}

impl From<Failed> for ReadFault {
    ghost from_gives = { λ _ fault. fault ≡ OfDisk };

    fn from(_error: Failed) -> ReadFault {
        ReadFault::Disk
    }
}

impl From<AllocError> for ReadFault {
    ghost from_gives = { λ _ fault. fault ≡ NoRoom };

    fn from(_error: AllocError) -> ReadFault {
        ReadFault::NoMemory
    }
}

/// The place behind a record that stands at a place.
fn behind<D: Disk>(
    disk: &mut D,
    extent: &Extent,
    number: u32,
    place: u64,
) -> Result<Option<u64>, Failed>
    requires held { IfSome (D.seen disk.old) (IsHeld extent.now.owner extent.now.count extent.now.gate) }
    requires at { StandsBehind (D.seen disk.old) number place }
    requires there { number < extent.now.count }
    requires low { 8 ≤ place }
    requires inside { place ≤ extent.now.gate }
    requires short { extent.now.gate < longest_file }
    ensures place { IfOk result (IsPlaceOf (D.seen disk.old) (number + 1)) }
    ensures within { IfOk result (LiesIn (place + 5) extent.now.gate) }
    ensures reads { OnlyReads D.seen D.may_leave D.moment D.left_since disk.old disk.new }
    ensures cause { HasCause (D.faults disk.old) (D.faults disk.new) result }
{
    let _ = number;
    match find(disk, place, extent.gate + 1)? {
        Found::Next(next) => {
            if next <= extent.gate {
                return Ok(Some(next));
            }
            Ok(None)
        }
        Found::Closed => Ok(None),
        Found::Broken => Ok(None),
    }
}

/// The place of a record, found from that of one before it.
fn walk<D: Disk>(
    disk: &mut D,
    extent: &Extent,
    from: u32,
    from_at: u64,
    number: u32,
) -> Result<Option<u64>, Failed>
    requires held { IfSome (D.seen disk.old) (IsHeld extent.now.owner extent.now.count extent.now.gate) }
    requires at { StandsBehind (D.seen disk.old) from from_at }
    requires there { number < extent.now.count }
    requires before { from ≤ number }
    requires low { 8 ≤ from_at }
    requires inside { from_at ≤ extent.now.gate }
    requires short { extent.now.gate < longest_file }
    ensures place { IfOk result (IsPlaceOf (D.seen disk.old) number) }
    ensures within { IfOk result (LiesIn 8 extent.now.gate) }
    ensures reads { OnlyReads D.seen D.may_leave D.moment D.left_since disk.old disk.new }
    ensures cause { HasCause (D.faults disk.old) (D.faults disk.new) result }
{
    let mut place = from_at;
    for i in from..number {
        match behind(disk, extent, i, place)? {
            Some(next) => place = next,
            None => return Ok(None),
        }
    }
    Ok(Some(place))
}

/// Reads so many bytes from a place on.
fn read_bytes<D: Disk>(
    alloc: Global,
    disk: &mut D,
    at: u64,
    count: usize,
) -> Result<Vec<u8>, ReadFault>
    requires inside { IfSome (D.seen disk.old) (λ file. at + count ≤ length file) }
    ensures bytes { IfOk result (λ v. IfSome (D.seen disk.old) (λ file. v.items ≡ take count (drop at file))) }
    ensures reads { OnlyReads D.seen D.may_leave D.moment D.left_since disk.old disk.new }
    ensures cause { IsErrOf result OfDisk → Rose (D.faults disk.old) (D.faults disk.new) }
    ensures later { D.faults disk.old ≤ D.faults disk.new }
{
    let mut bytes = vec![in alloc; 0u8; count]?;
    disk.read_at(at, &mut bytes)?;
    Ok(bytes)
}

/// Reads the body of a record, which is found from the place of one before it.
pub fn fetch<D: Disk>(
    alloc: Global,
    disk: &mut D,
    extent: &Extent,
    from: u32,
    from_at: u64,
    number: u32,
) -> Result<Record, ReadFault>
    requires held { IfSome (D.seen disk.old) (IsHeld extent.now.owner extent.now.count extent.now.gate) }
    requires at { StandsBehind (D.seen disk.old) from from_at }
    requires there { number < extent.now.count }
    requires before { from ≤ number }
    requires low { 8 ≤ from_at }
    requires inside { from_at ≤ extent.now.gate }
    requires short { extent.now.gate < longest_file }
    ensures body { IfOk result (λ r. IsBodyOf (D.seen disk.old) number r.body) }
    ensures next { IfOk result (λ r. StandsBehind (D.seen disk.old) (number + 1) r.next) }
    ensures within { IfOk result (λ r. (8 ≤ r.next) × (r.next ≤ extent.now.gate)) }
    ensures reads { OnlyReads D.seen D.may_leave D.moment D.left_since disk.old disk.new }
    ensures cause { IsErrOf result OfDisk → Rose (D.faults disk.old) (D.faults disk.new) }
    ensures later { D.faults disk.old ≤ D.faults disk.new }
{
    let Some(place) = walk(disk, extent, from, from_at, number)? else {
        return Err(ReadFault::NoMemory);
    };
    let Some(next) = behind(disk, extent, number, place)? else {
        return Err(ReadFault::NoMemory);
    };
    let body = read_bytes(alloc, disk, place + 5, (next - place - 5) as usize)?;
    Ok(Record {
        body: Items::of_vec(body),
        next,
    })
}
