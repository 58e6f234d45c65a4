//! Standard input and output, or any reader and writer, as a source and a sink that tell nothing of content.
//!
//! What a reader gives and a writer keeps is not told, so nothing is proved of it. Each call counts as its trait says.
ghost use Rattle.std.specs.Prelude.{None};
ghost use Rattle.std.specs.Io.{ReadsAtMost, WritesAtMost};

use outside::{Failed, Sink, Source};
use std::io;
use std::io::{ErrorKind, Read, Write};

/// How often a call is tried again that a signal interrupted.
const RETRIES: u32 = 100;

/// A source over a reader.
#[derive(Drop)]
pub struct StdSource<R> {
    inner: R,
    faults: u64,
}

impl<R: Read> StdSource<R> {
    /// The source over a reader, of which no call failed yet.
    pub fn new(inner: R) -> Self {
        StdSource { inner, faults: 0 }
    }
}

impl<R: Read> Source for StdSource<R> {
    ghost stream = { λ _. None };

    ghost faults = { λ s. s.faults };

    fn read(&mut self, buf: &mut [u8]) -> Result<usize, Failed> {
        match read_retrying(&mut self.inner, buf) {
            Ok(count) => Ok(count),
            Err(_) => {
                self.faults = self.faults.saturating_add(1);
                Err(Failed)
            }
        }
    }
}

/// A sink over a writer that keeps no bytes back: what it takes is written, with no flush.
#[derive(Drop)]
pub struct StdSink<W> {
    inner: W,
    faults: u64,
}

impl<W: Write> StdSink<W> {
    /// The sink over a writer, of which no call failed yet.
    pub fn new(inner: W) -> Self {
        StdSink { inner, faults: 0 }
    }
}

impl<W: Write> Sink for StdSink<W> {
    ghost written = { λ _. None };

    ghost faults = { λ s. s.faults };

    /// A writer that takes nothing of a piece that is not empty is at fault.
    fn write(&mut self, piece: &[u8]) -> Result<usize, Failed> {
        match write_retrying(&mut self.inner, piece) {
            Ok(count) if count > 0 || piece.is_empty() => Ok(count),
            _ => {
                self.faults = self.faults.saturating_add(1);
                Err(Failed)
            }
        }
    }
}

/// One read, tried again a bounded number of times where a signal interrupts it.
fn read_retrying<R: Read>(inner: &mut R, buf: &mut [u8]) -> io::Result<usize>
    ensures { ReadsAtMost result buf.new }
{
    for _ in 0..RETRIES {
        match inner.read(buf) {
            Err(error) if error.kind() == ErrorKind::Interrupted => {}
            result => return result,
        }
    }
    inner.read(buf)
}

/// One write, tried again a bounded number of times where a signal interrupts it.
fn write_retrying<W: Write>(inner: &mut W, piece: &[u8]) -> io::Result<usize>
    ensures { WritesAtMost result piece.now }
{
    for _ in 0..RETRIES {
        match inner.write(piece) {
            Err(error) if error.kind() == ErrorKind::Interrupted => {}
            result => return result,
        }
    }
    inner.write(piece)
}
