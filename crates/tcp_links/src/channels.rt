//! A connection with what waits to go out over it.

use crate::pieces::Pieces;
use crate::seals::Seals;
use crate::streams::{Come, Piece, is_waiting, none_of, take_piece, take_some, write_at_once};
use base_types::Items;
use sealed_records::{MOST_IN_RECORD, Queue, Taken, Unput};
use std::alloc::Global;
use std::io;
use std::io::{ErrorKind, Read, Write};
use std::net::OpenStream;
use std::time::Duration;

/// How many bytes may wait where one more piece is taken: eight of the longest entries.
const MOST_WAITING: usize = 33_554_432;

/// How many bytes are made ready to go at a time, where the pieces are short, and of how many pieces.
const MOST_READY: usize = 65_536;

const MOST_PIECES: u32 = 1_024;

/// How many writes are made at a time.
const MOST_WRITES: u32 = 16;

/// How many records one piece is sent in at most.
const MOST_RECORDS: u32 = 1_024;

/// How many records are taken at a time at most, and how many bytes are enough.
const MOST_AT_ONCE: u32 = 4_096;

const ENOUGH: usize = 49_152;

/// How many seconds the other end may take nothing of what waits.
const STALL: u64 = 10;

/// How many seconds after the last record an empty one is sent.
const BEAT: u64 = 5;

/// How many seconds may pass without a record.
const SILENCE: u64 = 20;

/// A connection with what waits to go out over it. No call of it waits for the other end.
#[derive(Drop)]
pub struct Channel<S> {
    stream: S,
    /// The pieces that wait, and the bytes of those that are on their way.
    waiting: Pieces,
    out: Queue,
    /// What has come of records that are not yet whole.
    come: Queue,
    /// The codes of the records, where the connection is under a key.
    seals: Option<Seals>,
    /// When the other end took something last, or nothing waited.
    moved: Duration,
    /// When a record came last, and when one was sent last.
    heard: Duration,
    told: Duration,
}

impl<S: Read + Write + OpenStream + Drop> Channel<S> {
    /// A connection over which nothing was sent yet.
    pub fn new(alloc: Global, stream: S, now: Duration) -> Self {
        Channel {
            stream,
            waiting: Pieces::new(alloc),
            out: Queue::new(alloc),
            come: Queue::new(alloc),
            seals: None,
            moved: now,
            heard: now,
            told: now,
        }
    }

    /// From now on all goes in records with these codes.
    pub fn seal(&mut self, seals: Seals, now: Duration) {
        self.seals = Some(seals);
        self.heard = now;
        self.told = now;
    }

    /// Takes a piece of a greeting that begins with this mark, once it is there whole.
    pub fn take_piece<const N: usize>(&mut self, mark: &[u8]) -> Piece<N> {
        take_piece(&mut self.stream, mark)
    }

    /// Writes a short piece of a greeting.
    pub fn greet(&mut self, piece: &[u8]) -> io::Result<()> {
        write_at_once(&mut self.stream, piece)
    }

    /// Whether nothing waits.
    pub fn is_idle(&self) -> bool {
        self.out.rest().is_empty() && self.waiting.are_none()
    }

    /// Takes a piece to be sent, whole or not at all. It is refused where too much waits. Where the same piece waits
    /// already, it is that one.
    pub fn send(&mut self, piece: &[u8], now: Duration) -> io::Result<()> {
        if self.waiting.bytes() > MOST_WAITING {
            return Err(ErrorKind::WouldBlock.into());
        }
        self.waiting.put(piece)?;
        self.flush(now)
    }

    /// Makes the next pieces ready to go, where nothing is on its way.
    fn load(&mut self, now: Duration) -> io::Result<()> {
        if !self.out.rest().is_empty() {
            return Ok(());
        }
        for _ in 0..MOST_PIECES {
            if self.out.rest().len() >= MOST_READY {
                break;
            }
            let Some(piece) = self.waiting.next() else {
                break;
            };
            self.put(piece.as_slice())?;
            self.told = now;
        }
        Ok(())
    }

    /// Makes a piece ready to go, in records where there is a key.
    fn put(&mut self, piece: &[u8]) -> io::Result<()> {
        if self.seals.is_none() {
            self.out.put(piece)?;
            return Ok(());
        }
        let mut rest = piece;
        for _ in 0..MOST_RECORDS {
            let (record, behind) = rest.split_at(rest.len().min(MOST_IN_RECORD));
            self.put_record(record)?;
            rest = behind;
            if rest.is_empty() {
                return Ok(());
            }
        }
        Err(ErrorKind::InvalidInput.into())
    }

    /// Puts one record.
    fn put_record(&mut self, bytes: &[u8]) -> io::Result<()> {
        let Some(seals) = &mut self.seals else {
            return Ok(());
        };
        match seals.to.put(bytes, &mut self.out) {
            Ok(()) => Ok(()),
            Err(Unput::TooMany) => Err(ErrorKind::InvalidInput.into()),
            Err(Unput::NoMemory) => Err(ErrorKind::OutOfMemory.into()),
        }
    }

    /// Sends of what waits as much as the other end takes now. It fails where the connection is gone, where the other end
    /// took nothing for ten seconds, and for want of memory.
    pub fn flush(&mut self, now: Duration) -> io::Result<()> {
        for _ in 0..MOST_WRITES {
            self.load(now)?;
            if self.out.rest().is_empty() {
                self.moved = now;
                return Ok(());
            }
            match self.stream.write(self.out.rest()) {
                Ok(0) => return Err(ErrorKind::WriteZero.into()),
                Ok(count) => {
                    self.out.skip(count);
                    self.moved = now;
                }
                Err(error) if is_waiting(&error) => break,
                Err(error) => return Err(error),
            }
        }
        if now.saturating_sub(self.moved) >= Duration::from_secs(STALL) {
            return Err(ErrorKind::TimedOut.into());
        }
        Ok(())
    }

    /// Sends what waits, and under a key an empty record where none was sent for five seconds. It fails as `flush` does.
    pub fn keep(&mut self, now: Duration) -> io::Result<()> {
        if self.seals.is_some()
            && self.is_idle()
            && now.saturating_sub(self.told) >= Duration::from_secs(BEAT)
        {
            self.put_record(&[])?;
            self.told = now;
        }
        self.flush(now)
    }

    /// Whether the connection is under a key, and no record came for twenty seconds.
    pub fn is_silent(&self, now: Duration) -> bool {
        self.seals.is_some() && now.saturating_sub(self.heard) >= Duration::from_secs(SILENCE)
    }

    /// Takes what has come, up to the length of the buffer. A record that is not under the key ends the connection.
    pub fn take(&mut self, alloc: Global, buffer: &mut [u8], now: Duration) -> Come {
        if self.seals.is_none() {
            return take_some(alloc, &mut self.stream, buffer);
        }
        match self.take_records(alloc, now) {
            Come::Nothing => {}
            come => return come,
        }
        match self.fetch(buffer) {
            Come::Nothing => self.take_records(alloc, now),
            come => come,
        }
    }

    /// The bytes of all records that are there whole, up to some 64 kilobytes. What is sent goes in many small records, and
    /// one poll brings what one without a key would bring.
    fn take_records(&mut self, alloc: Global, now: Duration) -> Come {
        let Some(seals) = &mut self.seals else {
            return Come::Wrong;
        };
        let mut taken = Vec::new(alloc);
        for _ in 0..MOST_AT_ONCE {
            match seals.from.take(&mut self.come, &mut taken) {
                Taken::Record => self.heard = now,
                Taken::Wrong if taken.is_empty() => return Come::Wrong,
                Taken::NoMemory if taken.is_empty() => return Come::NoMemory,
                _ => break,
            }
            if taken.len() >= ENOUGH {
                break;
            }
        }
        if taken.is_empty() {
            Come::Nothing
        } else {
            Come::Bytes(Items::of_vec(taken))
        }
    }

    /// Adds what has come to what has come of records. Where there is no memory for it, it stays.
    fn fetch(&mut self, buffer: &mut [u8]) -> Come {
        let count = match self.stream.peek(buffer) {
            Ok(0) => return Come::End,
            Ok(count) => count,
            Err(error) => return none_of(error),
        };
        self.come.settle();
        if self.come.put(&buffer[..count]).is_err() {
            return Come::NoMemory;
        }
        match self.stream.read(&mut buffer[..count]) {
            Ok(read) if read == count => Come::Nothing,
            Ok(_) => Come::End,
            Err(error) => Come::Lost(error),
        }
    }
}
