// A keeper of bodies in memory.
ghost use Rattle.std.specs.Prelude.{◌≡◌, ◌+◌, ◌<◌, ◌≤◌, ◌⊎◌, ◌↔◌, ◌++◌, ℕ, List, [], ◌∷◌, true, false, length, IfOk, IfErr, OnOk, OnErr, slice_get, Some};
ghost use Rattle.std.specs.Result.{IsErrOf};
ghost use Rattle.outside.specs.Causes.{Rose};
ghost use Rattle.outside.specs.Kept.{Bodies, with_body, KeptOrWith, IsKept, size_of};
ghost use Rattle.outside.specs.Records.{longest_file};
ghost use Rattle.outside.specs.declared.keepers.KeepFault.TheVariants.{Disk as OfDisk, Full, NotThere};
ghost use Rattle.outside_mem.specs.Memory as spec;
ghost use Rattle.outside_mem.specs.Keepers.{append_fails, read_fails, after_append, after_read};

use crate::calls::Calls;
use crate::rooms::Rows;
use base_types::{Bytes, Items, LONGEST_FILE, NoMemory};
use outside::{Framed, KeepFault, Keeper};
use std::alloc::Global;
use std::marker::Model;

/// Bodies in memory. The calls whose numbers are listed, from 1, fail, as does an `append` that passes the room; from
/// then on it is spent. It tells the bodies, and not what a stop leaves of them.
pub struct MemKeeper {
    alloc: Global,
    bodies: Rows<()>,
    size: u64,
    spent: bool,
    calls: Calls,
}

impl Drop for MemKeeper {
    fn drop(self) {
        let MemKeeper {
            alloc: _alloc,
            bodies: _bodies,
            size: _size,
            spent: _spent,
            calls: _calls,
        } = self;
    }
}

impl Model for MemKeeper {
    ghost use Rattle.std.specs.Prelude.{◌≡◌, ◌≤◌};
    ghost use Rattle.outside.specs.Kept.{size_of};
    ghost use Rattle.outside.specs.Records.{longest_file};
    ghost use Rattle.outside_mem.specs.Rooms.{pieces_of};
    ghost use Rattle.outside_mem.specs.Keepers.{KeeperState};

    ghost Value = { KeeperState };

    ghost view = { λ m. record { kept = pieces_of m.bodies.rows; used = m.bodies.used; room = m.bodies.room; spent = m.spent; calls = m.calls } };

    ghost invariant = { λ m. (m.size ≡ size_of (pieces_of m.bodies.rows)) × (m.size ≤ longest_file) };
}

impl MemKeeper {
    /// A keeper of nothing yet, with room for so many bodies, and for as many bytes in all of them. `NoMemory` where
    /// there is none.
    pub fn new(alloc: Global, fails: Items<u32>, room: u32) -> Result<Self, NoMemory>
        ensures value { IfOk result (λ m. m ≡ record { kept = []; used = 0; room = room; spent = false; calls = spec.no_calls fails }) }
        ensures kept { IfOk result (λ m. ⟦<MemKeeper as Keeper>⟧.kept m ≡ Some []) }
        ensures faults { IfOk result (λ m. ⟦<MemKeeper as Keeper>⟧.faults m ≡ 0) }
    {
        Ok(MemKeeper {
            alloc,
            bodies: Rows::new(alloc, room)?,
            size: 9,
            spent: false,
            calls: Calls::new(fails),
        })
    }

    /// Fails a call, and every later one.
    fn fail(&mut self) -> KeepFault
        ensures fault { result ≡ OfDisk }
        ensures value { self.new ≡ record { kept = self.old.kept; used = self.old.used; room = self.old.room; spent = true; calls = spec.after_call true self.old.calls } }
        ensures later { self.old.calls.faults ≤ self.new.calls.faults }
    {
        let _failed = self.calls.fail();
        self.spent = true;
        KeepFault::Disk
    }
}

impl Keeper for MemKeeper {
    ghost kept = { λ m. Some m.kept };

    ghost number = { λ m. length m.kept };

    ghost size = { λ m. size_of m.kept };

    ghost spent = { λ m. m.spent };

    ghost may_leave = { λ m left. ⊥ };

    ghost moment = { λ m. 0 };

    ghost left_since = { λ m t left. ⊥ };

    ghost opens_since = { λ m owner t. ⊥ };

    ghost faults = { λ m. m.calls.faults };

    ghost counts_now = { λ m t left le none. none };

    ghost only_now = { λ m left none. none };

    /// It fails exactly where it is spent, or the call is listed or would pass the room.
    fn append(&mut self, body: &Framed) -> Result<(), KeepFault>
        ensures kept { OnOk result (Some self.new.kept ≡ Some (with_body body.now self.old.kept)) }
        ensures count { OnOk result (length self.new.kept ≡ length self.old.kept + 1) }
        ensures size { OnOk result (size_of self.new.kept ≡ size_of self.old.kept + length body.now + 5) }
        ensures same_kept { OnErr result (Some self.new.kept ≡ Some self.old.kept) }
        ensures same_count { OnErr result (length self.new.kept ≡ length self.old.kept) }
        ensures same_size { OnErr result (size_of self.new.kept ≡ size_of self.old.kept) }
        ensures full { self.old.spent ≡ false → (IsErrOf result Full ↔ (longest_file < size_of self.old.kept + length body.now + 5)) }
        ensures cause { self.old.spent ≡ false → IsErrOf result OfDisk → Rose self.old.calls.faults self.new.calls.faults }
        ensures later { self.old.calls.faults ≤ self.new.calls.faults }
        ensures no_other { IfErr result (λ fault. (fault ≡ OfDisk) ⊎ (fault ≡ Full)) }
        ensures spends { IsErrOf result OfDisk → self.new.spent ≡ true }
        ensures refuses { self.old.spent ≡ true → IsErrOf result OfDisk }
        ensures not_spent { self.old.spent ≡ false → (IsErrOf result OfDisk → ⊥) → self.new.spent ≡ false }
        ensures stays_spent { self.old.spent ≡ true → self.new.spent ≡ true }
        ensures time { 0 ≤ 0 }
        ensures any_moment { (t : ℕ) → (left : Bodies) → t ≤ 0 → ⊥ → ⊥ ⊎ KeptOrWith (Some self.old.kept) body.now left }
        ensures failed { self.old.spent ≡ false → IsErrOf result OfDisk → (left : Bodies) → ⊥ → KeptOrWith (Some self.old.kept) body.now left }
        ensures rest { self.new.spent ≡ false → (left : Bodies) → ⊥ → IsKept (Some self.new.kept) left }
        ensures spent_now { self.old.spent ≡ true → (left : Bodies) → (⊥ ↔ ⊥) }
        ensures spent_since { self.old.spent ≡ true → (t : ℕ) → (left : Bodies) → t ≤ 0 → (⊥ ↔ ⊥) }
        ensures opens { (owner t : ℕ) → t ≤ 0 → ⊥ → ⊥ }

        // Past the trait's clauses: when the call fails, and what it leaves.
        ensures listed { IsErrOf result OfDisk ↔ (append_fails body.now self.old ≡ true) }
        ensures after { self.new ≡ after_append body.now self.old }
    {
        if self.spent {
            return Err(KeepFault::Disk);
        }
        let piece = body.piece();
        let bytes = &piece[4..piece.len() - 1];
        if self.size + piece.len() as u64 > u64::from(LONGEST_FILE) {
            self.calls.succeed();
            return Err(KeepFault::Full);
        }
        if self.calls.next_is_listed() || !self.bodies.has_room(bytes.len()) {
            return Err(self.fail());
        }
        self.bodies.add((), bytes);
        self.size += piece.len() as u64;
        self.calls.succeed();
        Ok(())
    }

    fn count(&self) -> u32
        ensures count { result ≡ length self.now.kept }
        ensures kept { length self.now.kept ≡ length self.now.kept }
        ensures size { self.now.spent ≡ false → size_of self.now.kept ≡ size_of self.now.kept }
        ensures rest { self.now.spent ≡ false → (left : Bodies) → ⊥ → IsKept (Some self.now.kept) left }
    {
        self.bodies.len() as u32
    }

    /// It fails exactly where it is spent, or the call is listed and there is such a body.
    fn read(&mut self, i: u32) -> Result<Bytes, KeepFault>
        ensures body { IfOk result (λ body. slice_get self.old.kept i ≡ Some body) }
        ensures kept { Some self.new.kept ≡ Some self.old.kept }
        ensures count { length self.new.kept ≡ length self.old.kept }
        ensures size { size_of self.new.kept ≡ size_of self.old.kept }
        ensures there { self.old.spent ≡ false → (IsErrOf result NotThere ↔ (length self.old.kept ≤ i)) }
        ensures cause { self.old.spent ≡ false → IsErrOf result OfDisk → Rose self.old.calls.faults self.new.calls.faults }
        ensures later { self.old.calls.faults ≤ self.new.calls.faults }
        ensures no_other { IsErrOf result Full → ⊥ }
        ensures spends { IsErrOf result OfDisk → self.new.spent ≡ true }
        ensures refuses { self.old.spent ≡ true → IsErrOf result OfDisk }
        ensures not_spent { self.old.spent ≡ false → (IsErrOf result OfDisk → ⊥) → self.new.spent ≡ false }
        ensures stays_spent { self.old.spent ≡ true → self.new.spent ≡ true }
        ensures time { 0 ≤ 0 }
        ensures now { (left : Bodies) → (⊥ ↔ ⊥) }
        ensures since { (t : ℕ) → (left : Bodies) → t ≤ 0 → (⊥ ↔ ⊥) }
        ensures opens { (owner t : ℕ) → t ≤ 0 → ⊥ → ⊥ }

        // Past the trait's clauses: when the call fails, and what it leaves.
        ensures listed { IsErrOf result OfDisk ↔ (read_fails i self.old ≡ true) }
        ensures after { self.new ≡ after_read i result self.old }
    {
        if self.spent {
            return Err(KeepFault::Disk);
        }
        let listed = self.calls.next_is_listed();
        let Some((_, body)) = self.bodies.get(i as usize) else {
            self.calls.succeed();
            return Err(KeepFault::NotThere);
        };
        if listed {
            return Err(self.fail());
        }
        let Ok(copy) = body.to_vec(self.alloc) else {
            return Err(KeepFault::NoMemory);
        };
        self.calls.succeed();
        Ok(Items::of_vec(copy))
    }
}
