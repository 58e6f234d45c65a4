// A message file keeps bodies.
ghost use Rattle.std.specs.Prelude.{◌≡◌, ◌+◌, ◌*◌, ◌<◌, ◌≤◌, ◌⊎◌, ◌↔◌, ℕ, List, Bool, true, false, length, IfOk, IfErr, OnOk, OnErr, IfSome, option_map, slice_get, Some};
ghost use Rattle.std.specs.Result.{IsErrOf};
ghost use Rattle.std.specs.declared.option.Option.{Option};
ghost use Rattle.outside.specs.Causes.{Rose};
ghost use Rattle.outside.specs.Kept.{Bodies, with_body, KeptOrWith, IsKept, size_of};
ghost use Rattle.outside.specs.Records.{longest_file};
ghost use Rattle.outside.specs.declared.keepers.KeepFault.TheVariants.{Disk as OfDisk, Full, NotThere};
ghost use Rattle.message_file.specs.State.{kept_in, KeptLeft, OwnFiles};

use crate::LONGEST_FILE;
use crate::files::MessageFile;
use crate::reads::{Extent, ReadFault, fetch};
use base_types::Bytes;
use gated_puts::put;
use outside::{Disk, Framed, KeepFault, Keeper};

impl<D: Disk> Keeper for MessageFile<D> {
    ghost kept = { λ m. kept_in (D.seen m.disk) m.count };

    ghost number = { λ m. m.count };

    ghost size = { λ m. m.gate + 1 };

    ghost spent = { λ m. m.spent };

    ghost may_leave = { λ m. KeptLeft (D.may_leave m.disk) };

    ghost moment = { λ m. D.moment m.disk };

    ghost left_since = { λ m t. KeptLeft (D.left_since m.disk t) };

    ghost opens_since = { λ m owner t. (m.owner ≡ owner) × OwnFiles owner (D.seen m.disk) (D.left_since m.disk t) };

    ghost faults = { λ m. D.faults m.disk };

    ghost counts_now = { λ m t bodies le left. (left.0, D.counts_now m.disk t left.0 le left.1, left.2) };

    ghost only_now = { λ m bodies left. (left.0, D.only_now m.disk left.0 left.1, left.2) };

    fn append(&mut self, body: &Framed) -> Result<(), KeepFault> {
        if self.spent {
            return Err(KeepFault::Disk);
        }
        let piece = body.piece();
        let behind = self.gate + piece.len() as u64;
        if behind >= LONGEST_FILE {
            return Err(KeepFault::Full);
        }
        if put(&mut self.disk, self.gate, piece).is_err() {
            self.spent = true;
            return Err(KeepFault::Disk);
        }
        self.gate = behind;
        self.count += 1;
        Ok(())
    }

    fn count(&self) -> u32 {
        self.count
    }

    fn read(&mut self, i: u32) -> Result<Bytes, KeepFault> {
        if self.spent {
            return Err(KeepFault::Disk);
        }
        if i >= self.count {
            return Err(KeepFault::NotThere);
        }
        let extent = Extent {
            owner: self.owner,
            count: self.count,
            gate: self.gate,
        };
        let (from, from_at) = if i < self.next {
            (0, 8)
        } else {
            (self.next, self.next_at)
        };
        match fetch(self.alloc, &mut self.disk, &extent, from, from_at, i) {
            Ok(record) => {
                self.next = i + 1;
                self.next_at = record.next;
                Ok(record.body)
            }
            Err(ReadFault::Disk) => {
                self.spent = true;
                Err(KeepFault::Disk)
            }
            Err(ReadFault::NoMemory) => Err(KeepFault::NoMemory),
        }
    }
}
