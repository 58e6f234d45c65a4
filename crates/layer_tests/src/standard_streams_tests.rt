//! Sources over readers and sinks over writers.
use outside::{Failed, Sink, Source};
use std::io;
use std::io::{ErrorKind, Read, Write};
use std::test::Fail;
use test_builders::first_wrong;
use whole_io::{StdSink, StdSource};

/// A reader and writer whose calls are interrupted so often, and then work on one byte; after the last byte they
/// fail.
#[derive(Drop)]
struct Interrupted {
    times: u32,
    bytes: u32,
}

impl Interrupted {
    fn step(&mut self) -> io::Result<()> {
        if self.times > 0 {
            self.times -= 1;
            return Err(ErrorKind::Interrupted.into());
        }
        if self.bytes == 0 {
            return Err(ErrorKind::Other.into());
        }
        self.bytes -= 1;
        Ok(())
    }
}

impl Read for Interrupted {
    fn read(&mut self, buf: &mut [u8]) -> io::Result<usize> {
        self.step()?;
        Ok(buf.len().min(1))
    }
}

impl Write for Interrupted {
    fn write(&mut self, piece: &[u8]) -> io::Result<usize> {
        self.step()?;
        Ok(piece.len().min(1))
    }

    fn flush(&mut self) -> io::Result<()> {
        Ok(())
    }
}

/// A writer that takes nothing.
#[derive(Drop)]
struct Full;

impl Write for Full {
    fn write(&mut self, _piece: &[u8]) -> io::Result<usize> {
        Ok(0)
    }

    fn flush(&mut self) -> io::Result<()> {
        Ok(())
    }
}

#[test]
fn a_source_reads_its_reader(rt: HostRuntime) -> Result<(), Fail> {
    let mut source = StdSource::new(b"node".as_slice());
    let mut twice = StdSource::new(Interrupted { times: 2, bytes: 1 });
    let mut always = StdSource::new(Interrupted {
        times: 200,
        bytes: 1,
    });
    let mut buf = [0u8; 3];
    let right = [
        source.read(&mut buf) == Ok(3),
        buf == [110, 111, 100],
        source.read(&mut buf) == Ok(1),
        source.read(&mut buf) == Ok(0),
        twice.read(&mut buf) == Ok(1),
        twice.read(&mut buf) == Err(Failed),
        always.read(&mut buf) == Err(Failed),
    ];
    assert_eq!(rt; first_wrong(&right), None);
    Ok(())
}

#[test]
fn a_sink_writes_its_writer(rt: HostRuntime) -> Result<(), Fail> {
    let mut text = Vec::new(rt.alloc());
    let mut twice = StdSink::new(Interrupted { times: 2, bytes: 1 });
    let mut full = StdSink::new(Full);
    let right = [
        StdSink::new(&mut text).write(b"node") == Ok(4),
        text.as_slice() == b"node".as_slice(),
        twice.write(b"node") == Ok(1),
        twice.write(b"node") == Err(Failed),
        full.write(b"") == Ok(0),
        full.write(b"node") == Err(Failed),
    ];
    assert_eq!(rt; first_wrong(&right), None);
    Ok(())
}
