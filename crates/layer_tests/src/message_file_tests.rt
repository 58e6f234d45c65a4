//! The message file: its bytes, what it refuses, and what a stop or a fault at each call leaves.
use base_types::Ws;
use message_file::{AttachFault, MessageFile};
use outside::{Disk, Framed, KeepFault, Keeper};
use outside_mem::MemDisk;
use std::alloc::Global;
use std::test::Fail;
use test_builders::listed;

mod attached;
mod refused;
mod stopped;
mod torn;
mod written;

/// Events of workstation 0, place 1, the clock at 100.
static CLOCK: [u8; 17] = [1, 0, 0, 0, 0, 0, 0, 1, 3, 0, 0, 0, 0, 0, 0, 0, 100];

/// Its place 2 in version 2 of the entries' bytes: a job is late.
static LATE: [u8; 16] = [2, 0, 0, 0, 0, 0, 0, 2, 16, 0, 0, 0, 0, 1, 0, 1];

/// The file of workstation 0 with the first of these alone.
static FILE: [u8; 31] = [
    0x54, 0x57, 0x53, 0x4d, 0, 1, 0, 0, 1, 0, 0, 0, 17, 1, 0, 0, 0, 0, 0, 0, 1, 3, 0, 0, 0, 0, 0,
    0, 0, 100, 0,
];

/// A disk with these bytes, whose calls with these numbers fail.
fn disk(alloc: Global, bytes: &[u8], fails: &[u32]) -> Result<MemDisk, Fail> {
    Ok(MemDisk::new(alloc, listed(alloc, bytes)?, listed(alloc, fails)?, 4096)?)
}

fn append<K: Keeper>(alloc: Global, keeper: &mut K, body: &[u8]) -> Result<(), KeepFault> {
    match Framed::of(alloc, body) {
        Ok(framed) => keeper.append(&framed),
        Err(_) => Err(KeepFault::NoMemory),
    }
}

fn reads<K: Keeper>(keeper: &mut K, i: u32, body: &[u8]) -> bool {
    match keeper.read(i) {
        Ok(read) => read.as_slice() == body,
        Err(_) => false,
    }
}

/// Whether the bodies that it keeps are the first of these, read forward and then backward.
fn keeps_first<K: Keeper>(keeper: &mut K, bodies: &[&[u8]]) -> bool {
    let count = keeper.count();
    for i in 0..count {
        if !is_read(keeper, i, bodies) || !is_read(keeper, count - 1 - i, bodies) {
            return false;
        }
    }
    true
}

fn is_read<K: Keeper>(keeper: &mut K, i: u32, bodies: &[&[u8]]) -> bool {
    match bodies.get(i as usize) {
        Some(body) => reads(keeper, i, body),
        None => false,
    }
}

/// Why workstation 0 is refused the disk, if it is.
fn fault_of<D: Disk + Drop>(alloc: Global, disk: D) -> Option<AttachFault> {
    match MessageFile::attach(alloc, disk, Ws(0)) {
        Ok(_) => None,
        Err(refused) => Some(refused.fault),
    }
}

/// Whether the disk is attached by workstation 0, and keeps exactly so many of the first of these.
fn attaches_with(alloc: Global, disk: MemDisk, count: u32, bodies: &[&[u8]]) -> Result<bool, Fail> {
    match MessageFile::attach(alloc, disk, Ws(0)) {
        Ok(mut file) => Ok(file.count() == count && keeps_first(&mut file, bodies)),
        Err(_) => Ok(false),
    }
}
