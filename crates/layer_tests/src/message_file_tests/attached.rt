//! What attaching finds and leaves: nine bytes, what stands behind a closed gate, and a fault at each call.
use crate::message_file_tests::{CLOCK, FILE, append, attaches_with, disk, fault_of, keeps_first};
use base_types::Ws;
use message_file::{AttachFault, MessageFile};
use outside::Keeper;
use std::alloc::Global;
use std::test::Fail;

/// A header and a closed gate, whatever its value is.
fn is_empty_file(alloc: Global, gate: u8) -> Result<bool, Fail> {
    let bytes = [0x54, 0x57, 0x53, 0x4d, 0, 1, 0, 0, gate];
    match MessageFile::attach(alloc, disk(alloc, &bytes, &[])?, Ws(0)) {
        Ok(file) => Ok(file.count() == 0 && file.detach().bytes() == bytes.as_slice()),
        Err(_) => Ok(false),
    }
}

#[test]
fn nine_bytes_with_a_closed_gate_keep_nothing(rt: HostRuntime) -> Result<(), Fail> {
    for gate in [0u8, 2, 255] {
        assert!(rt; is_empty_file(rt.alloc(), gate)?, "at {gate}");
    }
    Ok(())
}

/// Any gate but 1 is closed, and what stands behind it goes.
fn is_cut_behind_the_gate(alloc: Global) -> Result<bool, Fail> {
    let old = [
        0x54, 0x57, 0x53, 0x4d, 0, 1, 0, 0, 1, 0, 0, 0, 1, 42, 7, 1, 0, 0,
    ];
    let Ok(file) = MessageFile::attach(alloc, disk(alloc, &old, &[])?, Ws(0)) else {
        return Ok(false);
    };
    let disk = file.detach();
    if disk.bytes() != &old[..15] {
        return Ok(false);
    }
    let Ok(mut file) = MessageFile::attach(alloc, disk, Ws(0)) else {
        return Ok(false);
    };
    Ok(
        append(alloc, &mut file, &[43]).is_ok()
            && file.count() == 2
            && keeps_first(&mut file, &[&[42], &[43]]),
    )
}

#[test]
fn what_stands_behind_a_closed_gate_is_cut(rt: HostRuntime) -> Result<(), Fail> {
    assert!(rt; is_cut_behind_the_gate(rt.alloc())?);
    Ok(())
}

/// Attaching makes eight calls for one record. Where one of them fails, the disk comes back and keeps what it kept.
fn fails_and_attaches(alloc: Global, call: u32) -> Result<bool, Fail> {
    match MessageFile::attach(alloc, disk(alloc, &FILE, &[call])?, Ws(0)) {
        Ok(_) => Ok(false),
        Err(refused) => {
            if refused.fault != AttachFault::Disk {
                return Ok(false);
            }
            attaches_with(alloc, refused.disk, 1, &[&CLOCK])
        }
    }
}

#[test]
fn a_fault_at_each_call_of_attaching_loses_nothing(rt: HostRuntime) -> Result<(), Fail> {
    for call in 1..9u32 {
        assert!(rt; fails_and_attaches(rt.alloc(), call)?, "at {call}");
    }
    assert!(rt; fault_of(rt.alloc(), disk(rt.alloc(), &FILE, &[9])?).is_none());
    Ok(())
}
