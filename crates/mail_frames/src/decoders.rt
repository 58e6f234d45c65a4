//! A stream taken apart into its frames, in whatever pieces it comes.
ghost use Rattle.std.specs.Prelude.{◌≡◌, ◌+◌, ◌≤◌, ℕ, List, [], ◌++◌, length, take, IfOk, IfErr, OnOk, OnErr, IsOk};
ghost use Rattle.std.specs.Prelude.{None, Some};
ghost use Rattle.mail_frames.specs.declared.frames.Frame.{Frame as AFrame};
ghost use Rattle.mail_frames.specs.declared.places.Scanned.TheVariants.{Open};
ghost use Rattle.mail_frames.specs.Spelling.{IsSpelled};
ghost use Rattle.mail_frames.specs.Streams.{AreFramesOf, IsBadAt};
ghost use Rattle.mail_frames.specs.Places.{ScannedAfter};
ghost use Rattle.mail_frames.specs.Decoding.{Took};
ghost use Rattle.mail_frames.specs.Pieces.{Feeds, Reads, Breaks, told_behind};

use crate::builds::frame_of;
use crate::frames::Frames;
use crate::places::{Place, Scanned};
use crate::scans::scan;
use crate::writes::fill;
use base_types::{Growing, Items, NoMemory};
use std::alloc::Global;
use std::marker::Model;

/// What a piece of the stream has brought.
#[derive(Drop)]
pub struct Fed {
    /// The frames that it completed before the first fault.
    pub frames: Frames,
    /// Where the stream went wrong: the place, from 0, of the first byte with which it is the beginning of no list of
    /// frames, or 18446744073709551615 where that place is above it.
    pub bad: Option<u64>,
}

/// Takes the frames out of a stream of bytes.
///
/// It keeps the bytes of one unfinished frame, and no more memory for it than has come of it.
#[derive(Drop)]
pub struct Decoder {
    alloc: Global,
    kept: Growing<u8>,
    place: Place,
    taken: u64,
    bad: Option<u64>,
}

impl Model for Decoder {
    ghost use Rattle.mail_frames.specs.Decoding.{Decoding};
    ghost use Rattle.mail_frames.specs.Pieces.{IsAt};

    ghost Value = { Decoding };

    ghost view = { λ d. record { rest = d.kept.items; taken = d.taken; bad = d.bad } };

    ghost invariant = { λ d. IsAt d.place d.kept.items };
}

/// What bytes come to from the beginning of a frame on: the unfinished frame, or the place of a byte that breaks one.
struct Tail {
    kept: Growing<u8>,
    place: Place,
    bad: Option<usize>,
}

impl Decoder {
    /// A decoder that has taken nothing. It takes no memory yet.
    pub fn new(alloc: Global) -> Decoder
        ensures { Took result [] [] }
    {
        Decoder {
            alloc,
            kept: Growing::new(alloc),
            place: Place::Start,
            taken: 0,
            bad: None,
        }
    }

    /// Takes the next piece of the stream. Where memory runs out nothing changes, and the piece can be fed again.
    ///
    /// After a fault each piece brings no frame and the same fault, and wants no memory.
    pub fn feed(&mut self, piece: &[u8]) -> Result<Fed, NoMemory>
        // All frames given so far are those of the whole stream so far, however it was cut.
        ensures frames { IfOk result (λ fed. (stream : List ℕ) → (given : List AFrame) → Took self.old stream given →
            AreFramesOf (stream ++ piece.now) (given ++ fed.frames)) }
        // So is the fault.
        ensures bad { IfOk result (λ fed. (stream : List ℕ) → (given : List AFrame) → Took self.old stream given →
            IsBadAt (stream ++ piece.now) fed.bad) }
        ensures takes { IfOk result (λ fed. (stream : List ℕ) → (given : List AFrame) → Took self.old stream given →
            Took self.new (stream ++ piece.now) (given ++ fed.frames)) }
        ensures spent { (place : ℕ) → self.old.bad ≡ Some place → IsOk result }
        ensures same { IfOk result (λ fed. (place : ℕ) → self.old.bad ≡ Some place →
            (fed.bad ≡ Some place) × (fed.frames ≡ [])) }
        ensures err { OnErr result (self.new ≡ self.old) }
    {
        if let Some(place) = self.bad {
            return Ok(Fed {
                frames: Items::new(self.alloc),
                bad: Some(place),
            });
        }
        let found = scan(self.place, piece);
        match found.seen {
            Scanned::Open(place) => self.go_on(place, piece),
            Scanned::Whole => self.finish(found.count, piece),
            Scanned::Bad => Ok(self.stop(found.count, piece)),
        }
    }

    /// Keeps the piece, which leaves the frame unfinished.
    fn go_on(&mut self, place: Place, piece: &[u8]) -> Result<Fed, NoMemory>
        requires good { self.old.bad ≡ None }
        requires open { ScannedAfter (λ bytes. IsSpelled ((self.old.rest ++ piece.now) ++ bytes)) (Open place) }
        ensures ok { IfOk result (λ fed. Feeds self.old piece.now fed.frames fed.bad self.new) }
        ensures err { OnErr result (self.new ≡ self.old) }
    {
        keep(&mut self.kept, piece)?;
        self.place = place;
        self.taken = self.taken.saturating_add(piece.len() as u64);
        Ok(Fed {
            frames: Items::new(self.alloc),
            bad: None,
        })
    }

    /// Gives the frame that the first so many bytes complete, and those behind it.
    fn finish(&mut self, count: usize, piece: &[u8]) -> Result<Fed, NoMemory>
        requires good { self.old.bad ≡ None }
        requires within { count ≤ length piece.now }
        requires whole { IsSpelled (self.old.rest ++ take count piece.now) }
        ensures ok { IfOk result (λ fed. Feeds self.old piece.now fed.frames fed.bad self.new) }
        ensures err { OnErr result (self.new ≡ self.old) }
    {
        let (head, more) = piece.split_at(count);
        let mut frames = Items::new(self.alloc);
        frames.push(frame_of(self.alloc, self.kept.as_slice(), head)?)?;
        let Tail { kept, place, bad } = read_on(self.alloc, &mut frames, more)?;
        let behind = place_behind(self.taken, count, bad);
        self.kept = kept;
        self.place = place;
        self.taken = self.taken.saturating_add(piece.len() as u64);
        self.bad = behind;
        Ok(Fed {
            frames,
            bad: behind,
        })
    }

    /// Takes no more, since the byte of the piece at this place breaks the frame.
    fn stop(&mut self, count: usize, piece: &[u8]) -> Fed
        requires good { self.old.bad ≡ None }
        requires broken { Breaks (self.old.rest ++ piece.now) (length self.old.rest + count) }
        ensures { Feeds self.old piece.now result.frames result.bad self.new }
    {
        let bad = Some(self.taken.saturating_add(count as u64));
        self.kept = Growing::new(self.alloc);
        self.place = Place::Start;
        self.taken = self.taken.saturating_add(piece.len() as u64);
        self.bad = bad;
        Fed {
            frames: Items::new(self.alloc),
            bad,
        }
    }
}

/// The place in the stream of a fault that stands behind so many bytes of a piece.
fn place_behind(taken: u64, count: usize, bad: Option<usize>) -> Option<u64>
    ensures { result ≡ told_behind taken count bad }
{
    match bad {
        Some(at) => Some(taken.saturating_add(count as u64).saturating_add(at as u64)),
        None => None,
    }
}

/// Adds the bytes of an unfinished frame. Where memory runs out nothing changes.
fn keep(kept: &mut Growing<u8>, piece: &[u8]) -> Result<(), NoMemory>
    requires { length piece.now ≤ 4194309 }
    ensures ok { OnOk result (kept.new.items ≡ kept.old.items ++ piece.now) }
    ensures err { OnErr result (kept.new ≡ kept.old) }
{
    kept.reserve(piece.len() as u32)?;
    fill(kept, piece);
    Ok(())
}

/// Adds the frames that stand whole in the bytes, and says what is behind them.
fn read_on(alloc: Global, frames: &mut Frames, bytes: &[u8]) -> Result<Tail, NoMemory>
    ensures { IfOk result (λ tail. Reads bytes.now frames.old frames.new tail.place tail.kept.items tail.bad) }
{
    let mut rest = bytes;
    'frames: loop {
        let found = scan(Place::Start, rest);
        match found.seen {
            Scanned::Open(place) => {
                let mut kept = Growing::new(alloc);
                keep(&mut kept, rest)?;
                return Ok(Tail {
                    kept,
                    place,
                    bad: None,
                });
            }
            Scanned::Whole => {
                let (whole, more) = rest.split_at(found.count);
                frames.push(frame_of(alloc, &[], whole)?)?;
                rest = more;
            }
            Scanned::Bad => {
                return Ok(Tail {
                    kept: Growing::new(alloc),
                    place: Place::Start,
                    bad: Some(bytes.len() - rest.len() + found.count),
                });
            }
        }
    }
}
