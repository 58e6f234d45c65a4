//! What is no file of its owner: its place is told, and it stays as it was.
use crate::message_file_tests::{FILE, disk, fault_of};
use base_types::Ws;
use message_file::{AttachFault, MessageFile};
use std::alloc::Global;
use std::test::Fail;

/// What is told of the file that ends before its byte with this number.
fn fault_at(end: usize) -> Option<AttachFault> {
    match end {
        0 | 31 => None,
        6 | 7 => Some(AttachFault::OtherOwner(end as u64)),
        9..=29 => Some(AttachFault::NotAMessageFile(8)),
        _ => Some(AttachFault::NotAMessageFile(end as u64)),
    }
}

fn is_refused_at(alloc: Global, end: usize) -> Result<bool, Fail> {
    let Some(front) = FILE.get(..end) else {
        return Ok(false);
    };
    Ok(fault_of(alloc, disk(alloc, front, &[])?) == fault_at(end))
}

#[test]
fn a_file_that_is_cut_short_is_refused_at_its_place(rt: HostRuntime) -> Result<(), Fail> {
    for end in 0..32usize {
        assert!(rt; is_refused_at(rt.alloc(), end)?, "at {end}");
    }
    Ok(())
}

/// Files, and the fault that each has for workstation 0.
static OTHERS: [(&[u8], AttachFault); 5] = [
    (
        &[0x54, 0x57, 0x53, 0x4d, 0, 1, 0, 5, 0],
        AttachFault::OtherOwner(7),
    ),
    (
        &[0x54, 0x57, 0x53, 0x4d, 0, 1, 1, 0, 0],
        AttachFault::OtherOwner(6),
    ),
    (
        &[0x54, 0x57, 0x53, 0x4d, 0, 2, 0, 0, 0],
        AttachFault::NotAMessageFile(5),
    ),
    (
        &[0x54, 0x57, 0x53, 0x59, 0, 1, 0, 0, 0],
        AttachFault::NotAMessageFile(3),
    ),
    (
        &[0x54, 0x57, 0x53, 0x4d, 0, 1, 0, 0, 1, 0, 64, 0, 1, 0],
        AttachFault::NotAMessageFile(8),
    ),
];

fn stays(alloc: Global, bytes: &[u8], fault: AttachFault) -> Result<bool, Fail> {
    match MessageFile::attach(alloc, disk(alloc, bytes, &[])?, Ws(0)) {
        Ok(_) => Ok(false),
        Err(refused) => Ok(refused.fault == fault && refused.disk.bytes() == bytes),
    }
}

#[test]
fn a_file_of_another_kind_or_owner_stays_as_it_is(rt: HostRuntime) -> Result<(), Fail> {
    for (bytes, fault) in OTHERS {
        assert!(rt; stays(rt.alloc(), bytes, fault)?, "{fault:?}");
    }
    Ok(())
}
