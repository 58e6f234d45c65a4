//! Why a file was not read.
ghost use Rattle.std.specs.Prelude.{◌≡◌};
ghost use Rattle.kept_files.specs.declared.faults.FileFault.TheVariants.{Folder as OfFolder, NoMemory as NoRoom};

use base_types::NoMemory;
use outside::Failed;
use std::alloc::AllocError;

/// Why a file was not read.
#[derive(Clone, Copy, Debug, PartialEq, Eq)]
pub enum FileFault {
    /// The file is none of this workstation. The number is the place of the first byte that is not as in a head of its
    /// own, or of the gate at which the file breaks off.
    NotThisFile(u64),
    /// The folder failed.
    Folder,
    NoMemory,
}

impl From<Failed> for FileFault {
    ghost from_gives = { λ _ fault. fault ≡ OfFolder };

    fn from(_error: Failed) -> FileFault {
        FileFault::Folder
    }
}

impl From<AllocError> for FileFault {
    ghost from_gives = { λ _ fault. fault ≡ NoRoom };

    fn from(_error: AllocError) -> FileFault {
        FileFault::NoMemory
    }
}

impl From<NoMemory> for FileFault {
    ghost from_gives = { λ _ fault. fault ≡ NoRoom };

    fn from(_error: NoMemory) -> FileFault {
        FileFault::NoMemory
    }
}
