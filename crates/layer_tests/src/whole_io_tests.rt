//! Reads and writes of an outside in memory, with and without a call that fails.
use base_types::Items;
use outside::{Failed, Sink};
use outside_mem::{MemSink, MemSource};
use std::alloc::Global;
use std::test::Fail;
use test_builders::{first_wrong, listed};
use whole_io::{ReadError, read_whole, write_whole};

fn source(alloc: Global, text: &str, fails: &[u32]) -> Result<MemSource, Fail> {
    Ok(MemSource::new(listed(alloc, text.as_bytes())?, listed(alloc, fails)?))
}

/// What is read of 40,000 bytes is more than two pieces.
fn long(alloc: Global, fails: &[u32]) -> Result<MemSource, Fail> {
    let mut bytes = Items::new(alloc);
    for i in 0..40_000u32 {
        bytes.push((i % 251) as u8)?;
    }
    Ok(MemSource::new(bytes, listed(alloc, fails)?))
}

#[test]
fn reads_to_the_end(rt: HostRuntime) -> Result<(), Fail> {
    let alloc = rt.alloc();
    let bytes = read_whole(alloc, &mut source(alloc, "$NETWORK\n", &[])?, 9);
    assert!(rt; bytes.is_ok_and(|bytes| bytes.as_slice() == b"$NETWORK\n".as_slice()));
    let bytes = read_whole(alloc, &mut source(alloc, "", &[])?, 0);
    assert!(rt; bytes.is_ok_and(|bytes| bytes.is_empty()));
    Ok(())
}

#[test]
fn reads_in_pieces(rt: HostRuntime) -> Result<(), Fail> {
    let alloc = rt.alloc();
    let bytes = read_whole(alloc, &mut long(alloc, &[])?, 40_000);
    assert!(rt; bytes.is_ok_and(|bytes| bytes.len() == 40_000 && bytes[39_999] == 90));
    let bytes = read_whole(alloc, &mut long(alloc, &[])?, 39_999);
    assert!(rt; bytes.is_err_and(|error| error == ReadError::TooLong));
    Ok(())
}

#[test]
fn a_read_that_fails_is_a_fault(rt: HostRuntime) -> Result<(), Fail> {
    let alloc = rt.alloc();
    for call in 1..=4u32 {
        let bytes = read_whole(alloc, &mut long(alloc, &[call])?, 40_000);
        assert!(rt; bytes.is_err_and(|error| error == ReadError::Fault));
    }
    let bytes = read_whole(alloc, &mut long(alloc, &[5])?, 40_000);
    assert!(rt; bytes.is_ok());
    Ok(())
}

/// A sink that takes one byte at a time.
#[derive(Drop)]
struct OneByOne(MemSink);

impl Sink for OneByOne {
    ghost written = { λ s. ⟦<MemSink as Sink>⟧.written s.0 };

    ghost faults = { λ s. ⟦<MemSink as Sink>⟧.faults s.0 };

    fn write(&mut self, piece: &[u8]) -> Result<usize, Failed> {
        self.0.write(&piece[..piece.len().min(1)])
    }
}

#[test]
fn a_write_that_fails_leaves_a_front(rt: HostRuntime) -> Result<(), Fail> {
    let alloc = rt.alloc();
    let mut sink = OneByOne(MemSink::new(alloc, listed(alloc, &[3])?, 9)?);
    let right = [
        write_whole(&mut sink, b"node") == Err(Failed),
        sink.0.bytes() == b"no".as_slice(),
        write_whole(&mut sink, b"de") == Ok(()),
        sink.0.bytes() == b"node".as_slice(),
    ];
    assert_eq!(rt; first_wrong(&right), None);
    Ok(())
}

#[test]
fn writes_all_or_a_front(rt: HostRuntime) -> Result<(), Fail> {
    let alloc = rt.alloc();
    let mut sink = MemSink::new(alloc, listed(alloc, &[2])?, 9)?;
    let right = [
        write_whole(&mut sink, b"node M\n") == Ok(()),
        sink.bytes() == b"node M\n".as_slice(),
        write_whole(&mut sink, b"\n") == Err(Failed),
        write_whole(&mut sink, b"M#S") == Err(Failed),
        write_whole(&mut sink, b"") == Ok(()),
        sink.bytes() == b"node M\n".as_slice(),
    ];
    assert_eq!(rt; first_wrong(&right), None);
    Ok(())
}
