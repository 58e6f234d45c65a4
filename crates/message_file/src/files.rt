// The file with what is known of it.
use crate::attaches::{AttachFault, open_file};
use base_types::Ws;
use outside::Disk;
use std::alloc::Global;
use std::marker::Model;

/// A disk that was not attached, and why.
#[derive(Drop)]
pub struct NotAttached<D> {
    pub fault: AttachFault,
    pub disk: D,
}

/// A file of records on a disk, which one workstation owns.
#[derive(Drop)]
pub struct MessageFile<D: Disk> {
    pub(crate) alloc: Global,
    pub(crate) disk: D,
    pub(crate) owner: u16,
    pub(crate) count: u32,
    /// The place of the closed gate behind the last record.
    pub(crate) gate: u64,
    /// A body's number, and the place of its record, or of the closed gate.
    pub(crate) next: u32,
    pub(crate) next_at: u64,
    pub(crate) spent: bool,
}

impl<D: Disk> Model for MessageFile<D> {
    ghost use Rattle.message_file.specs.State.{FileState, IsSound};

    ghost Value = { FileState D };

    ghost view = { λ m. record { disk = m.disk; owner = m.owner; count = m.count; gate = m.gate; spent = m.spent } };

    ghost invariant = { λ m. IsSound D.seen D.may_leave m.disk m.owner m.count m.gate m.next m.next_at m.spent };
}

impl<D: Disk> MessageFile<D> {
    ghost use Rattle.std.specs.Prelude.{◌≡◌, ◌+◌, ◌≤◌, false, [], length, Some, IfOk, IfErr, IfSome};
    ghost use Rattle.outside.specs.Causes.{Rose};
    ghost use Rattle.outside.specs.Stops.{LeavesOnly};
    ghost use Rattle.message_file.specs.Attaching.{LeftAttaching};
    ghost use Rattle.message_file.specs.Refusals.{RefusesFile, Untouched};
    ghost use Rattle.message_file.specs.State.{kept_in, KeepsOf, OwnFiles};
    ghost use Rattle.message_file.specs.declared.attaches.AttachFault.TheVariants.{Disk as OfDisk};

    /// Makes a message file of a disk, which may have stopped at any moment before. It takes no memory; the allocator
    /// is for the bodies that are read. A file of another kind or owner is refused and stays as it was.
    pub fn attach(alloc: Global, mut disk: D, owner: Ws) -> Result<MessageFile<D>, NotAttached<D>>
        ensures kept { IfOk result (λ m. KeepsOf owner (D.seen disk) (kept_in (D.seen m.disk) m.count)) }
        ensures size { IfOk result (λ m. IfSome (D.seen m.disk) (λ file. m.gate + 1 ≡ length file)) }
        ensures owner { IfOk result (λ m. m.owner ≡ owner) }
        ensures unspent { IfOk result (λ m. m.spent ≡ false) }
        ensures refused { IfErr result (λ e. RefusesFile owner e.fault (D.seen disk)) }
        ensures empty { IfErr result (λ e. D.seen disk ≡ Some [] → e.fault ≡ OfDisk) }
        ensures untouched { IfErr result (λ e. Untouched e.fault (D.seen disk) (D.seen e.disk)) }
        ensures cause { IfErr result (λ e. e.fault ≡ OfDisk → Rose (D.faults disk) (D.faults e.disk)) }
        ensures later { IfOk result (λ m. D.faults disk ≤ D.faults m.disk) }
        ensures later_err { IfErr result (λ e. D.faults disk ≤ D.faults e.disk) }

        // A stop at any moment leaves what one before could leave, or a file that keeps the same bodies; of an empty file
        // one of at most nine bytes, which keeps nothing.
        ensures any_moment { IfOk result (λ m. LeavesOnly D.moment D.left_since disk m.disk
            (LeftAttaching owner (D.seen disk) (D.may_leave disk))) }
        ensures any_moment_err { IfErr result (λ e. LeavesOnly D.moment D.left_since disk e.disk
            (LeftAttaching owner (D.seen disk) (D.may_leave disk))) }

        // What is read and what a stop leaves from now on are files that this owner attaches again.
        ensures opens { IfOk result (λ m. OwnFiles owner (D.seen m.disk) (D.left_since m.disk (D.moment m.disk))) }
    {
        match open_file(&mut disk, owner.0) {
            Ok(opened) => Ok(MessageFile {
                alloc,
                disk,
                owner: owner.0,
                count: opened.count,
                gate: opened.gate,
                next: 0,
                next_at: 8,
                spent: false,
            }),
            Err(fault) => Err(NotAttached { fault, disk }),
        }
    }

    /// Gives the disk back.
    pub fn detach(self) -> D
        ensures { result ≡ self.disk }
    {
        self.disk
    }
}
