//! The disk of a node.
use outside::{Disk, Failed};
use real_outside::{Commons, FileDisk};
use std::fs;
use std::test::Fail;

/// Writes `TWSMmore`, then `AB` at its third byte, reads what stands there, and cuts two bytes off.
fn is_used<D: Disk>(disk: &mut D) -> bool {
    let mut buf = [0u8; 4];
    disk.len() == Ok(0)
        && disk.write_at(0, b"TWSM").is_ok()
        && disk.write_at(4, b"more").is_ok()
        && disk.sync().is_ok()
        && disk.write_at(2, b"AB").is_ok()
        && disk.read_at(2, &mut buf).is_ok()
        && buf == *b"ABmo"
        && disk.cut(6).is_ok()
        && disk.sync().is_ok()
}

#[test]
fn a_disk_is_a_file_of_its_own(rt: HostRuntime) -> Result<(), Fail> {
    let alloc = rt.alloc();
    let _ = fs::remove_file(&rt, "OFDISK.msg");
    let mut disk = FileDisk::new(alloc, rt, "OFDISK", Commons::new(alloc, rt, "OFDISK")?)?;
    let mut second = FileDisk::new(alloc, rt, "OFDISK", Commons::new(alloc, rt, "OFDISK")?)?;
    let absent = !fs::exists(&rt, "OFDISK.msg").unwrap_or(true);

    // Nobody else gets the file as long as the disk is there.
    let alone = is_used(&mut disk) && second.len().is_err();
    let mut behind = [0u8; 4];
    let whole = disk.read_at(6, &mut behind) == Err(Failed);
    drop(disk);
    let reached = second.len() == Ok(6);
    assert!(rt; absent && alone && whole && reached);
    let bytes = fs::read(&rt, "OFDISK.msg")?;
    assert_eq!(rt; bytes.as_slice(), b"TWABmo".as_slice());
    fs::remove_file(&rt, "OFDISK.msg")?;
    Ok(())
}
