//! Disks in memory, with calls that fail and with a stop.
use outside::{Disk, Failed};
use outside_mem::{CrashDisk, MemDisk, StoppingDisk};
use std::alloc::Global;
use std::test::Fail;
use test_builders::{first_wrong, listed};

fn disk(alloc: Global, fails: &[u32]) -> Result<MemDisk, Fail> {
    Ok(MemDisk::new(
        alloc,
        listed(alloc, &[1u8, 2, 3])?,
        listed(alloc, fails)?,
        5,
    )?)
}

/// Writes where the file has this place.
fn write<D: Disk>(disk: &mut D, at: u64, piece: &[u8]) -> Result<(), Failed> {
    if disk.len()? < at || at > 1000 || piece.len() > 1000 {
        return Err(Failed);
    }
    disk.write_at(at, piece)
}

fn cut<D: Disk>(disk: &mut D, len: u64) -> Result<(), Failed> {
    if disk.len()? < len {
        return Err(Failed);
    }
    disk.cut(len)
}

fn read<D: Disk>(disk: &mut D, at: u64, buf: &mut [u8]) -> Result<(), Failed> {
    if at > 1000 || buf.len() > 1000 || disk.len()? < at + buf.len() as u64 {
        return Err(Failed);
    }
    disk.read_at(at, buf)
}

#[test]
fn a_write_goes_over_what_is_there_and_past_the_end(rt: HostRuntime) -> Result<(), Fail> {
    let mut disk = disk(rt.alloc(), &[])?;
    let mut buf = [0; 2];
    let right = [
        write(&mut disk, 1, &[7]).is_ok(),
        disk.bytes() == [1, 7, 3].as_slice(),
        write(&mut disk, 2, &[8, 9]).is_ok(),
        disk.bytes() == [1, 7, 8, 9].as_slice(),
        read(&mut disk, 1, &mut buf).is_ok(),
        buf == [7, 8],
        cut(&mut disk, 1).is_ok(),
        disk.bytes() == [1].as_slice(),
        disk.sync().is_ok(),
    ];
    assert_eq!(rt; first_wrong(&right), None);
    Ok(())
}

#[test]
fn a_write_past_the_room_changes_nothing(rt: HostRuntime) -> Result<(), Fail> {
    let mut disk = disk(rt.alloc(), &[])?;
    let right = [
        write(&mut disk, 3, &[4, 5, 6]).is_err(),
        disk.bytes() == [1, 2, 3].as_slice(),
        write(&mut disk, 3, &[4, 5]).is_ok(),
        disk.bytes() == [1, 2, 3, 4, 5].as_slice(),
    ];
    assert_eq!(rt; first_wrong(&right), None);
    Ok(())
}

#[test]
fn a_listed_call_changes_nothing(rt: HostRuntime) -> Result<(), Fail> {
    let mut disk = disk(rt.alloc(), &[2, 4, 5])?;
    let right = [
        write(&mut disk, 0, &[9]).is_err(),
        cut(&mut disk, 0).is_err(),
        disk.sync().is_err(),
        disk.bytes() == [1, 2, 3].as_slice(),
        write(&mut disk, 0, &[9]).is_ok(),
        disk.bytes() == [9, 2, 3].as_slice(),
    ];
    assert_eq!(rt; first_wrong(&right), None);
    Ok(())
}

#[test]
fn after_a_stop_no_call_reaches_the_disk(rt: HostRuntime) -> Result<(), Fail> {
    let mut disk = StoppingDisk::new(disk(rt.alloc(), &[])?, 3);
    let right = [
        write(&mut disk, 0, &[9]).is_ok(),
        disk.sync().is_ok(),
        disk.sync().is_err(),
        disk.len().is_err(),
        disk.into_disk().bytes() == [9, 2, 3].as_slice(),
    ];
    assert_eq!(rt; first_wrong(&right), None);
    Ok(())
}

fn crash_disk(alloc: Global, fails: &[u32], room: u32) -> Result<CrashDisk, Fail> {
    Ok(CrashDisk::new(
        alloc,
        listed(alloc, &[1u8, 2, 3])?,
        listed(alloc, fails)?,
        room,
    )?)
}

#[test]
fn a_disk_that_keeps_every_moment_tears_a_listed_write(rt: HostRuntime) -> Result<(), Fail> {
    let mut disk = crash_disk(rt.alloc(), &[2, 4], 9)?;
    let right = [
        write(&mut disk, 2, &[7, 8, 9]).is_err(),
        disk.bytes() == [1, 2, 7].as_slice(),
        disk.moments() == 1,
        cut(&mut disk, 1).is_err(),
        disk.bytes() == [1, 2, 7].as_slice(),
        disk.moments() == 2,
        cut(&mut disk, 1).is_ok(),
        disk.sync().is_ok(),
        disk.bytes() == [1].as_slice(),
        disk.moments() == 4,
    ];
    assert_eq!(rt; first_wrong(&right), None);
    Ok(())
}

#[test]
fn a_disk_that_keeps_every_moment_has_room_for_so_many(rt: HostRuntime) -> Result<(), Fail> {
    let mut disk = crash_disk(rt.alloc(), &[], 2)?;
    let right = [
        write(&mut disk, 0, &[5, 6, 7]).is_err(),
        write(&mut disk, 0, &[5, 6]).is_ok(),
        disk.sync().is_ok(),
        disk.sync().is_err(),
        disk.bytes() == [5, 6, 3].as_slice(),
        disk.moments() == 2,
    ];
    assert_eq!(rt; first_wrong(&right), None);
    Ok(())
}
