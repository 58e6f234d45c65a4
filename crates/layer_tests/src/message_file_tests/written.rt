//! What is written: a new file, its records, and the records of a file of before.
use crate::message_file_tests::{CLOCK, FILE, LATE, append, disk, keeps_first, reads};
use base_types::{Items, Ws};
use message_file::MessageFile;
use outside::{KeepFault, Keeper};
use outside_mem::MemDisk;
use std::alloc::Global;
use std::test::Fail;

fn is_made(alloc: Global, owner: u16, bytes: &[u8]) -> Result<bool, Fail> {
    match MessageFile::attach(alloc, disk(alloc, &[], &[])?, Ws(owner)) {
        Ok(file) => Ok(file.detach().bytes() == bytes),
        Err(_) => Ok(false),
    }
}

#[test]
fn a_new_file_has_a_header_and_a_closed_gate(rt: HostRuntime) -> Result<(), Fail> {
    assert!(rt; is_made(rt.alloc(), 258, &[0x54, 0x57, 0x53, 0x4d, 0, 1, 1, 2, 0])?);
    Ok(())
}

/// A new file gets the entry, and then the file of the entry gets one of version 2.
fn grows(alloc: Global) -> Result<bool, Fail> {
    let Ok(mut file) = MessageFile::attach(alloc, disk(alloc, &[], &[])?, Ws(0)) else {
        return Ok(false);
    };
    if append(alloc, &mut file, &CLOCK).is_err() || !keeps_first(&mut file, &[&CLOCK]) {
        return Ok(false);
    }
    let disk = file.detach();
    if disk.bytes() != FILE.as_slice() {
        return Ok(false);
    }
    let Ok(mut file) = MessageFile::attach(alloc, disk, Ws(0)) else {
        return Ok(false);
    };
    Ok(
        append(alloc, &mut file, &LATE).is_ok()
            && file.count() == 2
            && keeps_first(&mut file, &[&CLOCK, &LATE]),
    )
}

#[test]
fn a_file_is_written_byte_by_byte_as_it_is_told(rt: HostRuntime) -> Result<(), Fail> {
    assert!(rt; grows(rt.alloc())?);
    Ok(())
}

/// Appends and reads so many bodies.
fn reads_forward(alloc: Global, count: u32) -> Result<bool, Fail> {
    let disk = MemDisk::new(alloc, Items::new(alloc), Items::new(alloc), 1_000_000)?;
    let Ok(mut file) = MessageFile::attach(alloc, disk, Ws(0)) else {
        return Ok(false);
    };
    for i in 0..count {
        if append(alloc, &mut file, &i.to_be_bytes()).is_err() {
            return Ok(false);
        }
    }
    for i in 0..count {
        if !reads(&mut file, i, &i.to_be_bytes()) {
            return Ok(false);
        }
    }
    Ok(
        file.count() == count
            && file
                .read(count)
                .is_err_and(|fault| fault == KeepFault::NotThere),
    )
}

#[test]
fn a_hundred_thousand_bodies_are_read_forward(rt: HostRuntime) -> Result<(), Fail> {
    assert!(rt; reads_forward(rt.alloc(), 100_000)?);
    Ok(())
}
