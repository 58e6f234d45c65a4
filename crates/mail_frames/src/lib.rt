//! The frames in which two nodes speak over a stream of bytes.
//!
//! A frame has one spelling, a length, a kind and a content, by `specs/Spelling.antt`, and `write_frame` gives exactly
//! that. A `Decoder` takes a stream in pieces of any size. However the stream was cut, the frames that it gave are all
//! the whole frames of the longest beginning of the stream that begins some list of frames, and it says at which byte
//! that beginning ends, by `specs/Streams.antt`.
#![tactic(auto)]

mod builds;
mod decoders;
mod frames;
mod laws;
mod nexts;
mod places;
mod scans;
mod writes;

pub use decoders::{Decoder, Fed};
pub use frames::{Frame, Frames};
pub use laws::{no_frame_begins_another, one_reading, what_was_written_is_read};
pub use writes::write_frame;

/// How many bytes tell the length of a frame, the highest first.
pub const BYTES_OF_LENGTH: usize = 4;

/// The byte that tells what a frame holds.
const MAIL: u8 = 1;

const ACK: u8 = 2;

const COMMAND: u8 = 3;

const REPLY: u8 = 4;

/// The greatest lengths that a frame may tell, which count its kind and its content.
const LONGEST_MAIL: u32 = 4_194_305;

/// The greatest length that a frame with a command may tell, which counts its kind and the command.
pub const LONGEST_COMMAND: u32 = 4_097;

const LONGEST_REPLY: u32 = 1_048_577;
