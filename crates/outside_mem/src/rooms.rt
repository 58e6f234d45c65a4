// Room that is taken at once.
ghost use Rattle.std.specs.Prelude.{◌≡◌, ◌+◌, ◌-◌, ◌≤◌, ◌<◌, ◌^◌, ◌↔◌, ◌++◌, vec_capacity, length, take, drop, slice_get, IfOk, IfSome, IsNone, Some};
ghost use Rattle.outside_mem.specs.Rooms.{nothing_in, with_row, with_none, fits, start_of};

use base_types::NoMemory;
use std::alloc::Global;
use std::marker::Model;

/// A piece's tag, and the place behind its last byte.
#[derive(Drop)]
pub struct Row<T> {
    pub tag: T,
    pub end: usize,
}

/// Pieces of bytes, each with a tag, in room that was taken when this was made.
#[derive(Drop)]
pub struct Rows<T> {
    rows: Vec<Row<T>>,
    bytes: Vec<u8>,
    room: usize,
    whole: bool,
}

impl<T> Model for Rows<T> {
    ghost use Rattle.std.specs.Prelude.{◌≡◌, ◌≤◌, ◌<◌, ◌^◌, length, vec_capacity};
    ghost use Rattle.outside_mem.specs.Rooms.{Stored, cut, AreCut};

    ghost Value = { Stored T };

    ghost view = { λ r. record { rows = cut 0 r.rows.items r.bytes.items; used = length r.bytes.items; room = r.room; whole = r.whole } };

    ghost invariant = { λ r. AreCut 0 r.rows.items r.bytes.items
        × (length (cut 0 r.rows.items r.bytes.items) ≡ length r.rows.items)
        × (length r.rows.items ≤ r.room) × (length r.bytes.items ≤ r.room)
        × (r.room < 2 ^ 32) × (r.room ≤ vec_capacity r.rows) × (r.room ≤ vec_capacity r.bytes) };
}

impl<T> Rows<T> {
    /// No piece yet, with room for so many pieces, and for as many bytes in all. `NoMemory` where there is none.
    pub fn new(alloc: Global, room: u32) -> Result<Self, NoMemory>
        ensures { IfOk result (λ r. r ≡ nothing_in room) }
    {
        let room = room as usize;
        let bytes = Vec::with_capacity(alloc, room)?;
        Ok(Rows {
            rows: Vec::with_capacity(alloc, room)?,
            bytes,
            room,
            whole: true,
        })
    }

    /// Whether there is room for one more piece of so many bytes.
    pub fn has_room(&self, more: usize) -> bool
        ensures { result ≡ fits more self.now }
    {
        self.rows.len() < self.room && more <= self.room - self.bytes.len()
    }

    /// Adds a piece, for which there is room.
    pub fn add(&mut self, tag: T, piece: &[u8])
    where
        T: Drop,
        requires room { length self.old.rows < self.old.room }
        requires bytes { self.old.used + length piece.now ≤ self.old.room }
        ensures { self.new ≡ with_row tag piece.now self.old }
    {
        let end = self.bytes.len() + piece.len();
        extend(&mut self.bytes, piece);
        self.rows.push_reserved(Row { tag, end });
    }

    /// Notes that a piece came for which there is no room.
    pub fn miss(&mut self)
        ensures { self.new ≡ with_none self.old }
    {
        self.whole = false;
    }

    /// Whether all pieces that came were kept.
    pub fn is_whole(&self) -> bool
        ensures { result ≡ self.now.whole }
    {
        self.whole
    }

    /// How many pieces there are.
    pub fn len(&self) -> usize
        ensures count { result ≡ length self.now.rows }
        ensures most { result ≤ self.now.room }
        ensures range { result < 2 ^ 32 }
    {
        self.rows.len()
    }

    /// How many bytes they have together.
    pub fn used(&self) -> usize
        ensures count { result ≡ self.now.used }
        ensures most { result ≤ self.now.room }
    {
        self.bytes.len()
    }

    /// The piece with this number, counted from 0, and its tag.
    pub fn get(&self, i: usize) -> Option<(&T, &[u8])>
        ensures row { IfSome result (λ row. slice_get self.now.rows i ≡ Some (row.0.now, row.1.now)) }
        ensures none { IsNone result ↔ (length self.now.rows ≤ i) }
    {
        let Some(row) = self.rows.get(i) else {
            return None;
        };
        let start = start_at(&self.rows, i);
        Some((&row.tag, part(&self.bytes, start, row.end)))
    }
}

/// The bytes from a place to another.
fn part(bytes: &[u8], start: usize, end: usize) -> &[u8]
    requires order { start ≤ end }
    requires inside { end ≤ length bytes.now }
    ensures { result.now ≡ take (end - start) (drop start bytes.now) }
{
    &bytes[start..end]
}

/// Where the piece with this number begins.
fn start_at<T>(rows: &[Row<T>], i: usize) -> usize
    requires { i < length rows.now }
    ensures { result ≡ start_of 0 rows.now i }
{
    if i == 0 {
        return 0;
    }
    rows[i - 1].end
}

/// Adds bytes for which there is room.
fn extend(bytes: &mut Vec<u8>, piece: &[u8])
    requires { length bytes.old.items + length piece.now ≤ vec_capacity bytes.old }
    ensures items { bytes.new.items ≡ bytes.old.items ++ piece.now }
    ensures capacity { vec_capacity bytes.old ≤ vec_capacity bytes.new }
{
    let _there_is_room = bytes.extend_from_slice(piece);
}
