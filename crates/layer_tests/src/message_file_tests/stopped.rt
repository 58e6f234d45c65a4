//! A stop at each call, and a single fault: what was acknowledged is there afterwards.
use crate::message_file_tests::{append, attaches_with, disk, keeps_first};
use base_types::Ws;
use message_file::{AttachFault, MessageFile};
use outside::{KeepFault, Keeper};
use outside_mem::StoppingDisk;
use std::alloc::Global;
use std::test::Fail;

static BODIES: [&[u8]; 3] = [b"one", b"", b"three"];

/// Whether it answers that its disk failed, to everything, and keeps so many bodies.
fn is_spent<K: Keeper>(alloc: Global, keeper: &mut K, count: u32) -> bool {
    append(alloc, keeper, b"more") == Err(KeepFault::Disk)
        && keeper.read(0).is_err_and(|fault| fault == KeepFault::Disk)
        && keeper.count() == count
}

/// Appends the bodies up to the first that fails. How many were acknowledged, and whether a failed one spent the file.
fn append_all<K: Keeper>(alloc: Global, keeper: &mut K) -> (u32, bool) {
    let mut acknowledged = 0u32;
    for body in BODIES {
        if append(alloc, keeper, body).is_err() {
            return (acknowledged, is_spent(alloc, keeper, acknowledged));
        }
        acknowledged = acknowledged.saturating_add(1);
    }
    (acknowledged, true)
}

/// Runs over a disk that stops after so many calls, and over what it left: how many bodies were acknowledged, if
/// these, or these and the next, are kept.
fn stopped_after(alloc: Global, calls: u64) -> Result<Option<u32>, Fail> {
    let (run, disk) = match MessageFile::attach(
        alloc,
        StoppingDisk::new(disk(alloc, &[], &[])?, calls),
        Ws(0),
    ) {
        Ok(mut file) => (append_all(alloc, &mut file), file.detach()),
        Err(refused) => ((0, refused.fault == AttachFault::Disk), refused.disk),
    };
    let Ok(mut again) = MessageFile::attach(alloc, disk.into_disk(), Ws(0)) else {
        return Ok(None);
    };
    let count = again.count();
    if run.1
        && run.0 <= count
        && count <= run.0.saturating_add(1)
        && keeps_first(&mut again, &BODIES)
    {
        return Ok(Some(run.0));
    }
    Ok(None)
}

#[test]
fn a_stop_at_each_call_leaves_what_was_acknowledged(rt: HostRuntime) -> Result<(), Fail> {
    for calls in 0..17u64 {
        let acknowledged = stopped_after(rt.alloc(), calls)?;
        let wanted = if calls < 4 { 0 } else { (calls - 4) / 4 };
        assert!(rt;
            acknowledged.is_some_and(|n| u64::from(n) == wanted),
            "after {calls}"
        );
    }
    Ok(())
}

/// The four calls of an `append`, by their numbers where the four of attaching an empty file come first, and how many
/// bodies are kept where the call alone fails: only behind the second write the gate is open.
static CALLS: [(u32, u32); 4] = [(5, 0), (6, 0), (7, 0), (8, 1)];

/// Whether the `append` fails, the file is spent though its disk would go on, and the disk then keeps so many bodies.
fn is_spent_by(alloc: Global, call: u32, kept: u32) -> Result<bool, Fail> {
    let Ok(mut file) = MessageFile::attach(alloc, disk(alloc, &[], &[call])?, Ws(0)) else {
        return Ok(false);
    };
    if append(alloc, &mut file, BODIES[0]) != Err(KeepFault::Disk)
        || !is_spent(alloc, &mut file, 0)
    {
        return Ok(false);
    }
    attaches_with(alloc, file.detach(), kept, &BODIES)
}

#[test]
fn one_fault_spends_a_file_until_it_is_attached_again(rt: HostRuntime) -> Result<(), Fail> {
    for (call, kept) in CALLS {
        assert!(rt; is_spent_by(rt.alloc(), call, kept)?, "at {call}");
    }
    Ok(())
}
