// A disk in memory.
ghost use Rattle.std.specs.Prelude.{◌≡◌, ◌+◌, ◌≤◌, ◌<◌, ◌^◌, ℕ, List, max, length, take, drop, Some, IfOk, OnOk, OnErr, is_err, true, nat_le, vec_capacity};
ghost use Rattle.outside.specs.Causes.{HasCause};
ghost use Rattle.outside.specs.Files.{Torn, Cut, Follows, Reaches, Only};
ghost use Rattle.outside.specs.Stops.{Elapses};
ghost use Rattle.outside_mem.specs.Memory as spec;
ghost use Rattle.outside_mem.specs.Disks.{written, half, after, write_fails};

use crate::calls::Calls;
use base_types::{Bytes, Items, NoMemory};
use outside::{Disk, Failed};
use std::alloc::Global;
use std::marker::Model;

/// A disk in memory, which tells its bytes and not what a stop leaves of them. The calls whose numbers are listed, from
/// 1, fail, as does a write that would pass the room. A call that fails changes nothing.
pub struct MemDisk {
    bytes: Vec<u8>,
    room: usize,
    calls: Calls,
}

impl Drop for MemDisk {
    fn drop(self) {
        let MemDisk {
            bytes: _bytes,
            room: _room,
            calls: _calls,
        } = self;
    }
}

impl Model for MemDisk {
    ghost use Rattle.std.specs.Prelude.{◌≤◌, length, vec_capacity};
    ghost use Rattle.outside_mem.specs.Disks.{DiskState};

    ghost Value = { DiskState };

    ghost view = { λ m. record { bytes = m.bytes.items; room = m.room; calls = m.calls } };

    ghost invariant = { λ m. (length m.bytes.items ≤ m.room) × (m.room ≤ vec_capacity m.bytes) };
}

impl MemDisk {
    /// A disk with these bytes, and with room for so many in all, or for these where they are more. It takes the room at
    /// once. `NoMemory` where there is none.
    pub fn new(alloc: Global, bytes: Bytes, fails: Items<u32>, room: u32) -> Result<Self, NoMemory>
        ensures value { IfOk result (λ m. m ≡ record { bytes = bytes; room = max room (length bytes); calls = spec.no_calls fails }) }
        ensures seen { IfOk result (λ m. ⟦<MemDisk as Disk>⟧.seen m ≡ Some bytes) }
        ensures faults { IfOk result (λ m. ⟦<MemDisk as Disk>⟧.faults m ≡ 0) }
    {
        let room = (room as usize).max(bytes.len());
        let mut list = Vec::with_capacity(alloc, room)?;
        list.extend_from_slice(bytes.as_slice())?;
        Ok(MemDisk {
            bytes: list,
            room,
            calls: Calls::new(fails),
        })
    }

    /// The bytes as they read.
    pub fn bytes(&self) -> &[u8]
        ensures { ⟦<MemDisk as Disk>⟧.seen self.now ≡ Some result.now }
    {
        &self.bytes
    }

    /// Whether the next call is listed.
    pub(crate) fn next_is_listed(&self) -> bool
        ensures { result ≡ spec.is_next_listed self.now.calls }
    {
        self.calls.next_is_listed()
    }

    /// Whether so many bytes at a place end within the room.
    pub(crate) fn has_room(&self, at: u64, count: usize) -> bool
        requires { at ≤ length self.now.bytes }
        ensures { result ≡ nat_le (at + count) self.now.room }
    {
        count <= self.room - at as usize
    }

    /// Fails a write, for which there is room, behind half of its piece.
    pub(crate) fn tear(&mut self, at: u64, piece: &[u8]) -> Failed
        requires inside { at ≤ length self.old.bytes }
        requires room { at + length piece.now ≤ self.old.room }
        ensures bytes { self.new.bytes ≡ written at (half piece.now) self.old.bytes }
        ensures room { self.new.room ≡ self.old.room }
        ensures calls { self.new.calls ≡ spec.after_call true self.old.calls }
        ensures later { self.old.calls.faults ≤ self.new.calls.faults }
    {
        put(&mut self.bytes, at as usize, &piece[..piece.len() / 2]);
        self.calls.fail()
    }

    /// Fails a call, which changes nothing.
    pub(crate) fn fail(&mut self) -> Failed
        ensures bytes { self.new.bytes ≡ self.old.bytes }
        ensures room { self.new.room ≡ self.old.room }
        ensures calls { self.new.calls ≡ spec.after_call true self.old.calls }
        ensures later { self.old.calls.faults ≤ self.new.calls.faults }
    {
        self.calls.fail()
    }
}

/// Puts a piece over the bytes from a place on, for which there is room.
fn put(bytes: &mut Vec<u8>, at: usize, piece: &[u8])
    requires inside { at ≤ length bytes.old.items }
    requires room { at + length piece.now ≤ vec_capacity bytes.old }
    ensures items { bytes.new.items ≡ written at piece.now bytes.old.items }
    ensures capacity { vec_capacity bytes.old ≤ vec_capacity bytes.new }
{
    if piece.len() <= bytes.len() - at {
        bytes[at..at + piece.len()].copy_from_slice(piece);
        return;
    }
    bytes.truncate(at);
    let _there_is_room = bytes.extend_from_slice(piece);
}

impl Disk for MemDisk {
    ghost seen = { λ m. Some m.bytes };

    ghost may_leave = { λ m file. ⊥ };

    ghost moment = { λ m. 0 };

    ghost left_since = { λ m t file. ⊥ };

    ghost faults = { λ m. m.calls.faults };

    ghost seen_may_be_left = { λ m file none. absurd none };

    ghost counts_now = { λ m t file le none. none };

    ghost only_now = { λ m file none. none };

    /// It fails exactly where the call is listed.
    fn len(&mut self) -> Result<u64, Failed>
        ensures length { IfOk result (λ n. n ≡ length self.old.bytes) }
        ensures seen { Some self.new.bytes ≡ Some self.old.bytes }
        ensures crash { (file : List ℕ) → ⊥ → ⊥ }
        ensures still { (file : List ℕ) → ⊥ → ⊥ }
        ensures time { Elapses {X = List ℕ} 0 0 (λ t file. ⊥) (λ t file. ⊥) (λ file. ⊥) }
        ensures cause { HasCause self.old.calls.faults self.new.calls.faults result }

        // Past the trait's clauses: when the call fails, and what it leaves.
        ensures listed { is_err result ≡ spec.is_next_listed self.old.calls }
        ensures after { self.new ≡ after result self.old.bytes self.old }
    {
        if self.calls.next_is_listed() {
            return Err(self.calls.fail());
        }
        self.calls.succeed();
        Ok(self.bytes.len() as u64)
    }

    /// It fails exactly where the call is listed.
    fn read_at(&mut self, at: u64, buf: &mut [u8]) -> Result<(), Failed>
        requires inside { at + length buf.old ≤ length self.old.bytes }
        ensures bytes { OnOk result (buf.new ≡ take (length buf.old) (drop at self.old.bytes)) }
        ensures seen { Some self.new.bytes ≡ Some self.old.bytes }
        ensures crash { (file : List ℕ) → ⊥ → ⊥ }
        ensures still { (file : List ℕ) → ⊥ → ⊥ }
        ensures time { Elapses {X = List ℕ} 0 0 (λ t file. ⊥) (λ t file. ⊥) (λ file. ⊥) }
        ensures cause { HasCause self.old.calls.faults self.new.calls.faults result }

        // Past the trait's clauses: when the call fails, and what it leaves.
        ensures listed { is_err result ≡ spec.is_next_listed self.old.calls }
        ensures after { self.new ≡ after result self.old.bytes self.old }
    {
        if self.calls.next_is_listed() {
            return Err(self.calls.fail());
        }
        let at = at as usize;
        buf.copy_from_slice(&self.bytes[at..at + buf.len()]);
        self.calls.succeed();
        Ok(())
    }

    /// It fails exactly where the call is listed or its end would pass the room.
    fn write_at(&mut self, at: u64, piece: &[u8]) -> Result<(), Failed>
        requires inside { at ≤ length self.old.bytes }
        requires end { at + length piece.now < 2 ^ 64 }
        ensures written { OnOk result (self.new.bytes ≡ written at piece.now self.old.bytes) }
        ensures failed { OnErr result (Torn at (length piece.now) self.old.bytes self.new.bytes) }
        ensures crash { Follows (Torn at (length piece.now)) (λ file. ⊥) (λ file. ⊥) }
        ensures any_part { OnOk result (Reaches (Torn at (length piece.now)) (λ file. ⊥) (λ file. ⊥)) }
        ensures time { Elapses {X = List ℕ} 0 0 (λ t file. ⊥) (λ t file. ⊥) (λ file. ⊥) }
        ensures cause { HasCause self.old.calls.faults self.new.calls.faults result }

        // Past the trait's clauses: when the call fails, and what it leaves.
        ensures listed { is_err result ≡ write_fails at (length piece.now) self.old }
        ensures after { self.new ≡ after result (written at piece.now self.old.bytes) self.old }
    {
        let at = at as usize;
        if self.calls.next_is_listed() || piece.len() > self.room - at {
            return Err(self.calls.fail());
        }
        put(&mut self.bytes, at, piece);
        self.calls.succeed();
        Ok(())
    }

    /// It fails exactly where the call is listed.
    fn cut(&mut self, len: u64) -> Result<(), Failed>
        requires inside { len ≤ length self.old.bytes }
        ensures done { OnOk result (self.new.bytes ≡ take len self.old.bytes) }
        ensures failed { OnErr result (Cut len self.old.bytes self.new.bytes) }
        ensures crash { Follows (Cut len) (λ file. ⊥) (λ file. ⊥) }
        ensures any_part { OnOk result (Reaches (Cut len) (λ file. ⊥) (λ file. ⊥)) }
        ensures time { Elapses {X = List ℕ} 0 0 (λ t file. ⊥) (λ t file. ⊥) (λ file. ⊥) }
        ensures cause { HasCause self.old.calls.faults self.new.calls.faults result }

        // Past the trait's clauses: when the call fails, and what it leaves.
        ensures listed { is_err result ≡ spec.is_next_listed self.old.calls }
        ensures after { self.new ≡ after result (take len self.old.bytes) self.old }
    {
        if self.calls.next_is_listed() {
            return Err(self.calls.fail());
        }
        self.bytes.truncate(len as usize);
        self.calls.succeed();
        Ok(())
    }

    /// It fails exactly where the call is listed.
    fn sync(&mut self) -> Result<(), Failed>
        ensures durable { OnOk result (Only self.new.bytes (λ file. ⊥)) }
        ensures seen { Some self.new.bytes ≡ Some self.old.bytes }
        ensures crash { (file : List ℕ) → ⊥ → ⊥ }
        ensures time { Elapses {X = List ℕ} 0 0 (λ t file. ⊥) (λ t file. ⊥) (λ file. ⊥) }
        ensures cause { HasCause self.old.calls.faults self.new.calls.faults result }

        // Past the trait's clauses: when the call fails, and what it leaves.
        ensures listed { is_err result ≡ spec.is_next_listed self.old.calls }
        ensures after { self.new ≡ after result self.old.bytes self.old }
    {
        if self.calls.next_is_listed() {
            return Err(self.calls.fail());
        }
        self.calls.succeed();
        Ok(())
    }
}
