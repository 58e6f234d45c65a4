//! Why a node is not made anew.
ghost use Rattle.std.specs.Prelude.{◌≡◌};
ghost use Rattle.node_restart.specs.declared.faults.ReadFault.TheVariants.{NoMemory as UnreadNoRoom};

use base_types::NoMemory;

/// Why no node is made of a disk.
#[derive(Clone, Copy)]
pub enum RestartFault {
    /// The file is none that this node is made of. The number is the place of the first byte that is not as in a header
    /// of this workstation, or of the gate at which the file breaks off, or of the gate of the first body that is no
    /// entry, not the next of its feed, or names a workstation outside the network.
    NotThisFile(u64),
    /// The disk failed.
    Disk,
    NoMemory,
}

/// Why a body was not read.
#[derive(Clone, Copy)]
pub(crate) enum ReadFault {
    Disk,
    NoMemory,
}

impl From<NoMemory> for ReadFault {
    ghost from_gives = { λ _ fault. fault ≡ UnreadNoRoom };

    fn from(_error: NoMemory) -> ReadFault {
        ReadFault::NoMemory
    }
}
