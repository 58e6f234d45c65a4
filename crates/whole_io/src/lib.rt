//! Reading an input to its end, up to a limit, and writing a whole text, over any source and sink; and standard input and
//! output as such (`StdSource`, `StdSink`), which tell nothing of content.
#![tactic(auto)]

mod standard_streams;

ghost use Rattle.std.specs.Prelude.{◌≡◌, ◌≤◌, ◌+◌, length, IfOk, OnOk, OnErr};
ghost use Rattle.std.specs.Result.{IsErrOf};
ghost use Rattle.std.specs.Io.KnownBytes.{Appends};
ghost use Rattle.outside.specs.Causes.{HasCause};
ghost use Rattle.outside.specs.Streams.{TakesAll};
ghost use Rattle.whole_io.specs.Whole.{TakesCount, TakesAtMost, WritesFront, FaultShows};
ghost use Rattle.whole_io.specs.declared.ReadError.TheVariants.{Fault, NoMemory};

use outside::{Failed, Sink, Source};
pub use standard_streams::{StdSink, StdSource};
use std::alloc::{AllocError, Global};

/// Why an input was not read to its end.
#[derive(Clone, Copy)]
pub enum ReadError {
    /// The source failed.
    Fault,
    /// There was no memory for the bytes.
    NoMemory,
    /// The input has more bytes than the limit.
    TooLong,
}

impl From<AllocError> for ReadError {
    ghost from_gives = { λ _ e. e ≡ NoMemory };

    fn from(_error: AllocError) -> Self {
        ReadError::NoMemory
    }
}

impl From<Failed> for ReadError {
    ghost from_gives = { λ _ e. e ≡ Fault };

    fn from(_failed: Failed) -> Self {
        ReadError::Fault
    }
}

/// How many bytes are asked for in one read.
const PIECE: usize = 16 * 1024;

/// Reads the input to its end. It takes at most one byte past the limit, by which an input is found to be too long.
///
/// Where the source fails or memory runs out, what was read till then is lost.
#[tactic(auto, using(outside::proofs::Taking::taking))]
pub fn read_whole<I: Source>(alloc: Global, input: &mut I, limit: u32) -> Result<Vec<u8>, ReadError>
    ensures all { IfOk result (λ v. TakesAll (I.stream input.old) (I.stream input.new) v.items) }
    ensures short { IfOk result (λ v. length v.items ≤ limit) }
    ensures too_long { IsErrOf result ReadError.TooLong →
        TakesCount (limit + 1) (I.stream input.old) (I.stream input.new) }
    ensures lost { OnErr result (TakesAtMost (limit + 1) (I.stream input.old) (I.stream input.new)) }
    ensures cause { FaultShows (I.faults input.old) (I.faults input.new) result }
{
    let most = limit as usize + 1;
    let mut bytes = Vec::new(alloc);
    let mut piece = [0u8; PIECE];
    while bytes.len() < most {
        let room = PIECE.min(most - bytes.len());
        let count = input.read(&mut piece[..room])?;
        if count == 0 {
            return Ok(bytes);
        }
        bytes.extend_from_slice(&piece[..count])?;
    }
    Err(ReadError::TooLong)
}

/// Writes the whole text. Where the sink fails, a front of the text is written.
pub fn write_whole<O: Sink>(out: &mut O, text: &[u8]) -> Result<(), Failed>
    ensures all { OnOk result (Appends (O.written out.old) (O.written out.new) text.now) }
    ensures front { OnErr result (WritesFront (O.written out.old) (O.written out.new) text.now) }
    ensures cause { HasCause (O.faults out.old) (O.faults out.new) result }
{
    let mut at = 0;
    while at < text.len() {
        at += out.write(&text[at..])?;
    }
    Ok(())
}
