//! The folder in which nodes keep their files, as a trait: a file of it is read by its name, and none is ever written.
//!
//! Nodes may write the files meanwhile. So each call sees a file at one moment, and from one call to the next the file
//! may have become another. What the others may make of a file is told where it is known; a folder of the system tells
//! nothing.
#![tactic(auto)]

ghost use Rattle.std.specs.Prelude.{◌≡◌, ℕ, List, length, take, drop, IfOk, IfSome};
ghost use Rattle.std.specs.declared.option.Option.{Option};
ghost use Rattle.std.specs.Io.{ReadsAtMost};
ghost use Rattle.outside.specs.Causes.{HasCause};
ghost use Rattle.outside.specs.Files.{Told};

use outside::Failed;

/// The files of a folder, which are read and not written.
pub trait Folder {
    /// The bytes of the file of a name as the last call found them, where the folder tells them.
    ghost seen: { Self → List ℕ → Option (List ℕ) };

    /// What the others may make of the bytes of the file of a name, before a call or while it lasts.
    ghost becomes: { Self → List ℕ → List ℕ → List ℕ → Type 0 };

    /// The count of its faults, up to 2^64 - 1: it rises in each call that fails, and in no other.
    ghost faults: { Self → ℕ };

    /// Fills the buffer with the bytes of the file of this name from a place on, and answers how many they are: as many
    /// as fit, or as there are. A file that is not there, or that may not be read, is a call that fails.
    fn read_at(&mut self, name: &str, at: u64, buf: &mut [u8]) -> Result<usize, Failed>
        ensures bound { ReadsAtMost result buf.new }
        ensures bytes { IfOk result (λ n. IfSome (seen self.new name.now)
            (λ file. take n buf.new ≡ take (length buf.old) (drop at file))) }
        ensures meanwhile { (file : List ℕ) → Told (becomes self.old file) (seen self.old file) (seen self.new file) }
        ensures others { (file old new : List ℕ) → becomes self.new file old new → becomes self.old file old new }
        ensures cause { HasCause (faults self.old) (faults self.new) result };
}
