//! A write that tears, and any other call that fails, at each call of the third append.
use crate::message_file_tests::{append, keeps_first};
use base_types::{Items, Ws};
use message_file::MessageFile;
use outside::{KeepFault, Keeper};
use outside_mem::CrashDisk;
use std::alloc::Global;
use std::test::Fail;
use test_builders::listed;

static BODIES: [&[u8]; 3] = [b"one", b"", b"three"];

/// The four calls of the third append, by their numbers where the four of attaching an empty file come first, and how
/// many bodies are kept afterwards: a torn piece stands behind a closed gate, and the gate is open only once it is
/// written.
static CALLS: [(u32, u32); 4] = [(13, 2), (14, 2), (15, 2), (16, 3)];

/// Whether the third append fails, and the disk that is attached again then keeps so many bodies.
fn keeps_after(alloc: Global, call: u32, kept: u32) -> Result<bool, Fail> {
    let disk = CrashDisk::new(alloc, Items::new(alloc), listed(alloc, &[call])?, 4096)?;
    let Ok(mut file) = MessageFile::attach(alloc, disk, Ws(0)) else {
        return Ok(false);
    };
    if append(alloc, &mut file, BODIES[0]).is_err()
        || append(alloc, &mut file, BODIES[1]).is_err()
        || append(alloc, &mut file, BODIES[2]) != Err(KeepFault::Disk)
    {
        return Ok(false);
    }
    match MessageFile::attach(alloc, file.detach(), Ws(0)) {
        Ok(mut again) => Ok(again.count() == kept && keeps_first(&mut again, &BODIES)),
        Err(_) => Ok(false),
    }
}

#[test]
fn a_torn_append_loses_nothing_that_was_acknowledged(rt: HostRuntime) -> Result<(), Fail> {
    for (call, kept) in CALLS {
        assert!(rt; keeps_after(rt.alloc(), call, kept)?, "at {call}");
    }
    Ok(())
}
