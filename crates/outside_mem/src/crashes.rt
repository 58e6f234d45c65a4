// A disk in memory that keeps every moment.
ghost use Rattle.std.specs.Prelude.{◌≡◌, ◌+◌, ◌<◌, ◌≤◌, ◌^◌, ◌||◌, not, ℕ, List, [], ◌∷◌, length, take, drop, reverse, IfOk, OnOk, OnErr, Some, is_err};
ghost use Rattle.outside.specs.Causes.{HasCause};
ghost use Rattle.outside.specs.Files.{Torn, Cut, Follows, Reaches, Only};
ghost use Rattle.outside.specs.Stops.{Elapses};
ghost use Rattle.outside_mem.specs.Memory as spec;
ghost use Rattle.outside_mem.specs.Disks.{written};
ghost use Rattle.outside_mem.specs.Moments.{seen_of, LeftBy, LeftSince, has_room, counted, after_write, after_cut, after_sync};
ghost use Rattle.outside_mem.specs.CrashLaws.{seen_left, now_since, since_now};

use crate::disks::MemDisk;
use crate::rooms::Rows;
use base_types::{Bytes, Items, NoMemory};
use outside::{Disk, Failed};
use std::alloc::Global;
use std::marker::Model;

/// A call that changes the file or what a stop leaves of it.
#[derive(Clone, Copy)]
pub enum Made {
    /// A piece was written at this place.
    Wrote(u64),
    /// The write of a piece at this place failed behind half of it.
    Tore(u64),
    /// The file was cut to this length.
    CutTo(u64),
    /// The cut to this length failed.
    KeptLength(u64),
    Synced,
}

/// A disk in memory, which tells its bytes and what a stop may leave, and keeps every moment.
///
/// Listed calls fail: a write leaves half of its piece, a cut and a sync leave the file as it was. A write and a cut that
/// are listed count as made. A call that would pass the room fails too, and changes nothing.
pub struct CrashDisk {
    first: Bytes,
    disk: MemDisk,
    made: Rows<Made>,
}

impl Drop for CrashDisk {
    fn drop(self) {
        let CrashDisk {
            first: _first,
            disk: _disk,
            made: _made,
        } = self;
    }
}

impl Model for CrashDisk {
    ghost use Rattle.std.specs.Prelude.{◌≡◌, max, length, reverse};
    ghost use Rattle.outside_mem.specs.Moments.{CrashState, seen_of};

    ghost Value = { CrashState };

    ghost view = { λ c. record { first = c.first; made = reverse c.made.rows; used = c.made.used; room = c.made.room; calls = c.disk.calls } };

    ghost invariant = { λ c. (c.disk.bytes ≡ seen_of c.first (reverse c.made.rows))
        × (c.disk.room ≡ max c.made.room (length c.first))
        × (length (reverse c.made.rows) ≡ length c.made.rows) };
}

/// Keeps a call, for which there is room.
fn note(rows: &mut Rows<Made>, made: Made, piece: &[u8])
    requires room { length rows.old.rows < rows.old.room }
    requires bytes { rows.old.used + length piece.now ≤ rows.old.room }
    ensures made { reverse rows.new.rows ≡ (made, piece.now) ∷ reverse rows.old.rows }
    ensures count { length (reverse rows.new.rows) ≡ length rows.new.rows }
    ensures used { rows.new.used ≡ rows.old.used + length piece.now }
    ensures same { rows.new.room ≡ rows.old.room }
{
    rows.add(made, piece);
}

impl CrashDisk {
    /// A disk with these bytes. It has room for so many calls that change it, and for as many bytes, in the file and in
    /// all that is written. `NoMemory` where there is none.
    pub fn new(alloc: Global, bytes: Bytes, fails: Items<u32>, room: u32) -> Result<Self, NoMemory>
        ensures value { IfOk result (λ c. c ≡ record { first = bytes; made = []; used = 0; room = room; calls = spec.no_calls fails }) }
        ensures seen { IfOk result (λ c. ⟦<CrashDisk as Disk>⟧.seen c ≡ Some bytes) }
        ensures faults { IfOk result (λ c. ⟦<CrashDisk as Disk>⟧.faults c ≡ 0) }
    {
        let copy = Items::of_vec(bytes.as_slice().to_vec(alloc)?);
        Ok(CrashDisk {
            first: bytes,
            disk: MemDisk::new(alloc, copy, fails, room)?,
            made: Rows::new(alloc, room)?,
        })
    }

    /// The bytes as they read.
    pub fn bytes(&self) -> &[u8]
        ensures { ⟦<CrashDisk as Disk>⟧.seen self.now ≡ Some result.now }
    {
        self.disk.bytes()
    }

    /// How many calls changed it: its moment.
    pub fn moments(&self) -> usize
        ensures { ⟦<CrashDisk as Disk>⟧.moment self.now ≡ result }
    {
        self.made.len()
    }
}

impl Disk for CrashDisk {
    ghost seen = { λ c. Some (seen_of c.first c.made) };

    ghost may_leave = { λ c. LeftBy c.first c.made };

    ghost moment = { λ c. length c.made };

    ghost left_since = { λ c. LeftSince c.first c.made };

    ghost faults = { λ c. c.calls.faults };

    ghost seen_may_be_left = { λ c file left. seen_left c.first c.made };

    ghost counts_now = { λ c t file le now. now_since c.first c.made t file now };

    ghost only_now = { λ c file left. since_now c.first c.made file left };

    /// It fails exactly where the call is listed.
    fn len(&mut self) -> Result<u64, Failed>
        ensures length { IfOk result (λ n. n ≡ length (seen_of self.old.first self.old.made)) }
        ensures seen { Some (seen_of self.new.first self.new.made) ≡ Some (seen_of self.old.first self.old.made) }
        ensures crash { (file : List ℕ) → LeftBy self.new.first self.new.made file → LeftBy self.old.first self.old.made file }
        ensures still { (file : List ℕ) → LeftBy self.old.first self.old.made file → LeftBy self.new.first self.new.made file }
        ensures time { Elapses (length self.old.made) (length self.new.made) (LeftSince self.old.first self.old.made) (LeftSince self.new.first self.new.made) (LeftBy self.new.first self.new.made) }
        ensures cause { HasCause self.old.calls.faults self.new.calls.faults result }

        // Past the trait's clauses: when the call fails, and what it leaves.
        ensures listed { is_err result ≡ spec.is_next_listed self.old.calls }
        ensures after { self.new ≡ counted (is_err result) self.old }
    {
        self.disk.len()
    }

    /// It fails exactly where the call is listed.
    fn read_at(&mut self, at: u64, buf: &mut [u8]) -> Result<(), Failed>
        requires inside { at + length buf.old ≤ length (seen_of self.old.first self.old.made) }
        ensures bytes { OnOk result (buf.new ≡ take (length buf.old) (drop at (seen_of self.old.first self.old.made))) }
        ensures seen { Some (seen_of self.new.first self.new.made) ≡ Some (seen_of self.old.first self.old.made) }
        ensures crash { (file : List ℕ) → LeftBy self.new.first self.new.made file → LeftBy self.old.first self.old.made file }
        ensures still { (file : List ℕ) → LeftBy self.old.first self.old.made file → LeftBy self.new.first self.new.made file }
        ensures time { Elapses (length self.old.made) (length self.new.made) (LeftSince self.old.first self.old.made) (LeftSince self.new.first self.new.made) (LeftBy self.new.first self.new.made) }
        ensures cause { HasCause self.old.calls.faults self.new.calls.faults result }

        // Past the trait's clauses: when the call fails, and what it leaves.
        ensures listed { is_err result ≡ spec.is_next_listed self.old.calls }
        ensures after { self.new ≡ counted (is_err result) self.old }
    {
        self.disk.read_at(at, buf)
    }

    /// It fails exactly where the call is listed or would pass the room.
    fn write_at(&mut self, at: u64, piece: &[u8]) -> Result<(), Failed>
        requires inside { at ≤ length (seen_of self.old.first self.old.made) }
        requires end { at + length piece.now < 2 ^ 64 }
        ensures written { OnOk result (seen_of self.new.first self.new.made ≡ written at piece.now (seen_of self.old.first self.old.made)) }
        ensures failed { OnErr result (Torn at (length piece.now) (seen_of self.old.first self.old.made) (seen_of self.new.first self.new.made)) }
        ensures crash { Follows (Torn at (length piece.now)) (LeftBy self.old.first self.old.made) (LeftBy self.new.first self.new.made) }
        ensures any_part { OnOk result (Reaches (Torn at (length piece.now)) (LeftBy self.old.first self.old.made) (LeftBy self.new.first self.new.made)) }
        ensures time { Elapses (length self.old.made) (length self.new.made) (LeftSince self.old.first self.old.made) (LeftSince self.new.first self.new.made) (LeftBy self.new.first self.new.made) }
        ensures cause { HasCause self.old.calls.faults self.new.calls.faults result }

        // Past the trait's clauses: when the call fails, and what it leaves.
        ensures listed { is_err result ≡ (spec.is_next_listed self.old.calls || not (has_room (at + length piece.now) (length piece.now) self.old)) }
        ensures after { self.new ≡ after_write at piece.now self.old }
    {
        if !self.made.has_room(piece.len()) || !self.disk.has_room(at, piece.len()) {
            return Err(self.disk.fail());
        }
        if self.disk.next_is_listed() {
            note(&mut self.made, Made::Tore(at), piece);
            return Err(self.disk.tear(at, piece));
        }
        self.disk.write_at(at, piece)?;
        note(&mut self.made, Made::Wrote(at), piece);
        Ok(())
    }

    /// It fails exactly where the call is listed or would pass the room.
    fn cut(&mut self, len: u64) -> Result<(), Failed>
        requires inside { len ≤ length (seen_of self.old.first self.old.made) }
        ensures done { OnOk result (seen_of self.new.first self.new.made ≡ take len (seen_of self.old.first self.old.made)) }
        ensures failed { OnErr result (Cut len (seen_of self.old.first self.old.made) (seen_of self.new.first self.new.made)) }
        ensures crash { Follows (Cut len) (LeftBy self.old.first self.old.made) (LeftBy self.new.first self.new.made) }
        ensures any_part { OnOk result (Reaches (Cut len) (LeftBy self.old.first self.old.made) (LeftBy self.new.first self.new.made)) }
        ensures time { Elapses (length self.old.made) (length self.new.made) (LeftSince self.old.first self.old.made) (LeftSince self.new.first self.new.made) (LeftBy self.new.first self.new.made) }
        ensures cause { HasCause self.old.calls.faults self.new.calls.faults result }

        // Past the trait's clauses: when the call fails, and what it leaves.
        ensures listed { is_err result ≡ (spec.is_next_listed self.old.calls || not (has_room 0 0 self.old)) }
        ensures after { self.new ≡ after_cut len self.old }
    {
        if !self.made.has_room(0) {
            return Err(self.disk.fail());
        }
        if self.disk.next_is_listed() {
            note(&mut self.made, Made::KeptLength(len), &[]);
            return Err(self.disk.fail());
        }
        self.disk.cut(len)?;
        note(&mut self.made, Made::CutTo(len), &[]);
        Ok(())
    }

    /// It fails exactly where the call is listed or would pass the room.
    fn sync(&mut self) -> Result<(), Failed>
        ensures durable { OnOk result (Only (seen_of self.new.first self.new.made) (LeftBy self.new.first self.new.made)) }
        ensures seen { Some (seen_of self.new.first self.new.made) ≡ Some (seen_of self.old.first self.old.made) }
        ensures crash { (file : List ℕ) → LeftBy self.new.first self.new.made file → LeftBy self.old.first self.old.made file }
        ensures time { Elapses (length self.old.made) (length self.new.made) (LeftSince self.old.first self.old.made) (LeftSince self.new.first self.new.made) (LeftBy self.new.first self.new.made) }
        ensures cause { HasCause self.old.calls.faults self.new.calls.faults result }

        // Past the trait's clauses: when the call fails, and what it leaves.
        ensures listed { is_err result ≡ (spec.is_next_listed self.old.calls || not (has_room 0 0 self.old)) }
        ensures after { self.new ≡ after_sync self.old }
    {
        if !self.made.has_room(0) {
            return Err(self.disk.fail());
        }
        self.disk.sync()?;
        note(&mut self.made, Made::Synced, &[]);
        Ok(())
    }
}
