// Where in a frame a stream stands, one byte at a time.
ghost use Rattle.std.specs.Prelude.{◌≤◌, ◌∷◌, ◌≡◌, ◌<◌};
ghost use Rattle.mail_frames.specs.Nexts.{due, IsOpen};
ghost use Rattle.mail_frames.specs.Places.{IsReached, Completes, ScannedAfter};
ghost use Rattle.mail_frames.specs.declared.places.Place.TheVariants.{Start, One, Two, Three, Kind, Content};

use crate::nexts::Next;
use crate::{ACK, COMMAND, LONGEST_COMMAND, LONGEST_MAIL, LONGEST_REPLY, MAIL, REPLY};

/// A place in a frame. The first byte of each length is 0.
#[derive(Clone, Copy)]
pub enum Place {
    /// Before its first byte.
    Start,
    /// Behind the first byte of its length.
    One,
    /// Behind the second byte of its length, which is this.
    Two(u8),
    /// Behind the third byte of its length: the second and the third are these.
    Three(u8, u8),
    /// Before its kind: this is its length.
    Kind(u32),
    /// In its content: how many bytes are still to come, above 0, and which may be next.
    Content(u32, Next),
}

/// What bytes have come to.
#[derive(Clone, Copy)]
pub enum Scanned {
    /// The frame is unfinished.
    Open(Place),
    /// The frame is whole.
    Whole,
    /// No frame goes on so.
    Bad,
}

/// The greatest second byte of a length.
const GREATEST: u8 = 0x40;

impl Place {
    /// Where the stream stands after this byte.
    pub fn after(self, byte: u8) -> Scanned
        requires { IsReached self }
        ensures { ScannedAfter (λ bytes. Completes self (byte ∷ bytes)) result }
    {
        match self {
            Place::Start => after_none(byte),
            Place::One => after_one(byte),
            Place::Two(high) => after_two(high, byte),
            Place::Three(high, middle) => after_three(high, middle, byte),
            Place::Kind(length) => after_length(length, byte),
            Place::Content(left, next) => in_content(left, next, byte),
        }
    }
}

fn after_none(byte: u8) -> Scanned
    ensures { ScannedAfter (λ bytes. Completes Start (byte ∷ bytes)) result }
{
    if byte == 0 {
        Scanned::Open(Place::One)
    } else {
        Scanned::Bad
    }
}

fn after_one(byte: u8) -> Scanned
    ensures { ScannedAfter (λ bytes. Completes One (byte ∷ bytes)) result }
{
    if byte <= GREATEST {
        Scanned::Open(Place::Two(byte))
    } else {
        Scanned::Bad
    }
}

fn after_two(high: u8, byte: u8) -> Scanned
    requires { high ≤ 64 }
    ensures { ScannedAfter (λ bytes. Completes (Two high) (byte ∷ bytes)) result }
{
    if high < GREATEST || byte == 0 {
        Scanned::Open(Place::Three(high, byte))
    } else {
        Scanned::Bad
    }
}

fn after_three(high: u8, middle: u8, byte: u8) -> Scanned
    requires { IsReached (Three high middle) }
    ensures { ScannedAfter (λ bytes. Completes (Three high middle) (byte ∷ bytes)) result }
{
    let length = u32::from_be_bytes([0, high, middle, byte]);
    if length == 0 || length > LONGEST_MAIL {
        Scanned::Bad
    } else {
        Scanned::Open(Place::Kind(length))
    }
}

/// Whether there is a frame of this kind and length, and what its content is.
fn after_length(length: u32, kind: u8) -> Scanned
    requires { IsReached (Kind length) }
    ensures { ScannedAfter (λ bytes. Completes (Kind length) (kind ∷ bytes)) result }
{
    match kind {
        MAIL => still_to_come(length - 1, Next::Any),
        ACK => after_ack(length),
        COMMAND if length <= LONGEST_COMMAND => still_to_come(length - 1, Next::Lead),
        REPLY if length <= LONGEST_REPLY => still_to_come(length - 1, Next::Lead),
        _ => Scanned::Bad,
    }
}

/// An acknowledgement of events has 8 bytes behind the length, and one of orders 10.
fn after_ack(length: u32) -> Scanned
    requires { IsReached (Kind length) }
    ensures { ScannedAfter (λ bytes. Completes (Kind length) (2 ∷ bytes)) result }
{
    match length {
        8 => still_to_come(length - 1, Next::Exactly(0)),
        10 => still_to_come(length - 1, Next::Exactly(1)),
        _ => Scanned::Bad,
    }
}

/// A character whose later bytes have no room in the content is bad at its first byte.
fn in_content(left: u32, next: Next, byte: u8) -> Scanned
    requires { IsReached (Content left next) }
    ensures { ScannedAfter (λ bytes. Completes (Content left next) (byte ∷ bytes)) result }
{
    let Some(next) = next.after(byte) else {
        return Scanned::Bad;
    };
    if left - 1 < next.due() {
        Scanned::Bad
    } else {
        still_to_come(left - 1, next)
    }
}

/// Before so many bytes of a content, and such ones.
fn still_to_come(left: u32, next: Next) -> Scanned
    requires room { due next ≤ left }
    requires next { IsOpen next }
    ensures { ScannedAfter (λ bytes. Completes (Content left next) bytes) result }
{
    if left == 0 {
        Scanned::Whole
    } else {
        Scanned::Open(Place::Content(left, next))
    }
}
